//! A replica's calls over bytes in memory: texts come in and texts go out, and each refusal has a
//! number. They are for a program in another language, which has neither our readers nor our
//! types, and brings its own transport.
//!
//! `opening` begins a replica, `line_taking`, `key_distrusting`, `snapshot_merging` and
//! `bundle_observing` change one, `held_texts` writes what it holds and accepts, and
//! `message_bytes` has the messages between replicas. `named_bytes` reads names and keys,
//! `growing_sink` takes a text of any length. `call_error` is the one error of all calls,
//! `fault_numbering` and `fault_bytes` have its number and its text, and `call_outcome` is what a
//! caller in C reads of a call.
#![tactic(auto)]

mod bundle_observing;
mod call_error;
mod call_outcome;
mod fault_bytes;
mod fault_numbering;
mod growing_sink;
mod held_texts;
mod key_distrusting;
mod line_taking;
mod message_bytes;
mod named_bytes;
mod opening;
mod snapshot_merging;

pub use bundle_observing::{FetchedBytes, ObservedBytes, observe_bytes};
pub use call_error::CallError;
pub use call_outcome::{ALREADY, CallOutcome, DONE, NEEDS_ROOM, NONE};
pub use fault_numbering::fault_number;
pub use growing_sink::{GrowingSink, source_of};
pub use held_texts::{current_bytes, explain_bytes, report_bytes, snapshot_bytes};
pub use key_distrusting::distrust_bytes;
pub use line_taking::take_line_bytes;
pub use message_bytes::{absorb_bytes, answer_bytes, have_bytes};
pub use named_bytes::domain_of;
pub use opening::open_bytes;
pub use snapshot_merging::merge_bytes;
