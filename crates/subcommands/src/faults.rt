//! How an error is explained to an operator, in lines after the one that reports it.
//!
//! `reasons` finds the file or the option that is wrong, `fault_places` the part of a file, and
//! `missing_words` what is missing among arguments that are not a call. Only safety is proved here.
mod fault_places;
mod missing_words;
mod reasons;

pub use missing_words::end_without_call;
pub use reasons::{status_of, status_of_bundle};
