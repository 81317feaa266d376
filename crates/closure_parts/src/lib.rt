//! What closures are made of, however they find what is accepted: what is held, its different
//! documents with their counts, and how another closure is merged in. `plain_closure` and
//! `trust_closure` add to it which receipts an accepted document vouches for.
//!
//! `records` keeps the records of distrust. `held` keeps all that is held, and finds receipts by
//! the probes of `probes` with the guesses of `receipt_hint`. `pairs` numbers the different
//! documents, and `document_counts` counts the accepted nodes of each. In a merge, `copies` rules
//! out the causes of refusal and copies what is new, and `union` takes that in over the trait
//! `Mergeable`.
#![tactic(auto)]

mod copies;
mod document_counts;
mod held;
mod pairs;
mod probes;
mod receipt_hint;
mod records;
mod union;

pub use held::{Held, Lookup};
pub use pairs::Pairs;
pub use records::Insertion;
pub use union::{Mergeable, hold_all, merge_into};
