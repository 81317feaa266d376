//! The command's calls that hold no replica, over bytes in memory: `report` and `canon`. As in
//! `replica_c_calls`, which has the error and the sink, each text comes in or goes out as bytes.
//!
//! `reported_lines` reports what is accepted from lines of receipts, `canon_text` writes the
//! canonical form of a document with its ids, and `discarding_sink` takes what nobody reads.
#![tactic(auto)]

mod canon_text;
mod discarding_sink;
mod reported_lines;

pub use canon_text::canon_bytes;
pub use reported_lines::{ReportedLines, report_lines};
