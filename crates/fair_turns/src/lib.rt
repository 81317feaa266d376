//! What a running replica decides so that nobody keeps the others waiting. No socket, no clock and
//! no byte is here.
//!
//! `turns` has the order in which connections are worked for, `giving_way` who makes room for one
//! more, `arrivals` how many may come within a short time, `byte_room` how many bytes may be held
//! together, and `session_time` how long a session may last.
#![tactic(auto)]

mod arrivals;
mod byte_room;
mod giving_way;
mod session_time;
mod turns;

pub use arrivals::Arrivals;
pub use byte_room::{ByteRoom, RoomUser};
pub use giving_way::{Candidate, first_to_go};
pub use session_time::most_seconds;
pub use turns::{Turns, Work, comes_first};
