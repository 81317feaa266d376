//! What a running replica keeps in its files, and what it reports on standard error.
//!
//! `event_log` writes a line for each event, and `event_counts` counts what may come often.
//! `error_stream` leaves out what would have to wait, and says how much that was. `kept_files` has
//! the files, by the calls of `state_files`, and reports what comes of them.
#![tactic(auto)]

mod error_stream;
mod event_counts;
mod event_log;
mod kept_files;

pub use error_stream::ErrorStream;
pub use event_counts::EventCounts;
pub use event_log::{LogEvent, log_change, log_event};
pub use kept_files::{KeepFault, KeptFiles};
