//! The texts by which replicas reach the same receipts: snapshots, and the messages of sessions,
//! haves and answers. What these say is in `replica_core`.
//!
//! Snapshots: `header` and `format` are the first and the last line, read and written by
//! `snapshot_reader` and `snapshot_writer`. First lines of messages: `scanner` guesses their parts,
//! and `have_line_reader` and `give_header_reader` judge them. `sole_line` reads single lines, for
//! a caller that does not have them in a stream.
#![tactic(auto)]

mod entry_line;
mod format;
mod give_header_reader;
mod give_reader;
mod give_writer;
mod have_fields;
mod have_line_reader;
mod have_reader;
mod have_writer;
mod header;
mod id_list;
pub mod laws;
mod line_bytes;
mod number_text;
mod scanner;
mod snapshot_lines;
mod snapshot_reader;
mod snapshot_writer;
mod sole_line;
mod spelling;

pub use entry_line::{Wanted, next_entry, next_entry_with};
pub use give_reader::read_give;
pub use give_writer::write_answer;
pub use have_reader::read_have;
pub use have_writer::write_have;
pub use snapshot_lines::{first_snapshot_line, last_snapshot_line};
pub use snapshot_reader::read_snapshot;
pub use snapshot_writer::write_snapshot;
pub use sole_line::{
    read_first_line, read_give_line, read_have_line, take_sole_line, write_first_line,
};
