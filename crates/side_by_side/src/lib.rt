//! Two configurations side by side: a closure for each, and what one of them takes is offered to
//! the other.
//!
//! `offering` offers lines, and `held_offering` all that a closure holds. `fate` and `offer_counts`
//! say what came of it. `sides` has both closures. No socket, no file and no clock is known here.
#![tactic(auto)]

mod fate;
mod held_offering;
mod journal_lines;
pub mod laws;
mod offer_counts;
mod offering;
mod sides;

pub use fate::Fate;
pub use held_offering::offer_held;
pub use offer_counts::Offered;
pub use offering::offer_lines;
pub use sides::{Side, Sides};
