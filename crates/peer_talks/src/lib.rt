//! What a running replica and its peers say to each other, without a socket: bytes go in as they
//! come, and bytes to be written come out.
//!
//! In a `pull_talk` this replica asks, and in a `served_talk` another one does: both keep
//! `unread_bytes`, and work on what the replica holds (`held_state`), under the configuration that
//! a question names (`named_config`). `session_start` is how a session begins and `ending` how a
//! connection ended. `peers` has what `status` shows of the peers, and how each is asked. What the
//! sessions do is said by the contracts of `replica_sync` and `bucket_sums`, and what one side
//! passes on to the other by those of `side_by_side`: proved here is safety.
#![tactic(auto)]

mod ending;
mod held_state;
mod named_config;
mod peers;
mod pull_talk;
mod served_talk;
mod session_start;
mod unread_bytes;

pub use ending::Ending;
pub use held_state::HeldState;
pub use peers::{DueSession, Peers, SessionEnd};
pub use pull_talk::PullTalk;
pub use served_talk::ServedTalk;
pub use session_start::{AskedWay, PeerAnswer, SessionStart};
