//! Texts as lists of lines: written as a whole, and compared line by line. It knows nothing of what
//! the lines say.
#![tactic(auto)]

mod difference;
mod line_writer;
mod optional_number;
mod text_line;

pub use difference::write_difference;
pub use line_writer::write_lines;
pub use optional_number::push_number_or_none;
pub use text_line::TextLine;
