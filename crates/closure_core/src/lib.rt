//! What a replica promises: which documents it accepts, by its configuration, its receipts and its
//! records of distrust.
#![tactic(auto)]

mod closure;
mod error;
mod fit;
pub mod laws;
mod lending;
mod nodes;
mod outcome;
mod record;

pub use closure::{Closure, NoMemory};
pub use error::TakeError;
pub use fit::check_fit;
pub use lending::{Accepted, Distrusts, Receipts};
pub use nodes::{document_at, domain_at};
pub use outcome::{Distrusted, Refused, Taken};
pub use receipt_core::{MOST_RECEIPTS, MOST_RECORDS};
pub use record::{Record, record_of};
