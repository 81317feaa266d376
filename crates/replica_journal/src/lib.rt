//! The text that keeps what a replica took since its last snapshot: `journal_writer` appends to it,
//! and `journal_reader` reads it, also if a crash cut it off.
#![tactic(auto)]

mod journal_reader;
mod journal_writer;
pub mod laws;

pub use journal_reader::read_journal;
pub use journal_writer::{begin_journal, push_entry, push_record};
