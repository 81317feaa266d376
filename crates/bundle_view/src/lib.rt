//! What a replica shows of what it accepts: the current documents, conflicts between documents, the
//! report, why a document is accepted, and what is observed. It knows closures only by their trait.
#![tactic(auto)]

mod conflict;
mod current_document;
mod error;
mod explanation;
pub mod laws;
mod listed;
mod observation;
mod observe_error;
mod report_writer;
mod steps;
mod trusted_receipts;

pub use conflict::{Conflict, ConflictKind, conflicts};
pub use current_document::current;
pub use error::ReportError;
pub use explanation::explain;
pub use observation::{Verdict, observe, observed_receipt, take_observed};
pub use observe_error::ObserveError;
pub use poll_log::{PollError, PollLog, interval, read_polls, read_seconds, wait};
pub use report_writer::write_report;
