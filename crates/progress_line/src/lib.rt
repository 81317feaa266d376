//! What a long piece of work says of itself on a terminal: how many receipts and bytes it has read
//! or written so far. Work that takes less than a second says nothing, and so does work whose
//! caller wants no such line.
//!
//! `receipt_count` counts the receipts among bytes that come in pieces. `work_count` has the line
//! that says what was counted, and when it is due; `long_work` what the work is called. `progress`
//! prints the line, and `watched` are a reader and a writer that have their bytes counted.
#![tactic(auto)]

mod long_work;
mod progress;
mod receipt_count;
mod watched;
mod work_count;

pub use long_work::LongWork;
pub use progress::{ProgressMode, WorkProgress};
pub use watched::{WatchedReader, WatchedWriter};
