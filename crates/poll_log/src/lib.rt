//! When the bundle of each trust domain is fetched next: how long to wait after a poll, what a
//! replica keeps of the polls that it made, and polls as lines of a text. No clock is read.
#![tactic(auto)]

mod error;
pub mod laws;
mod log;
mod poll_lines;
mod waiting;

pub use error::PollError;
pub use log::PollLog;
pub use poll_lines::{read_polls, read_seconds};
pub use waiting::{interval, wait};
