//! What each command does with the process that it is: its arguments, its standard streams, the
//! files and addresses that its options name, and how it ends.
//!
//! `process_words` are the arguments, and `options` reads the texts of some of them. `streams` has
//! the standard streams, and `verbose_lines` the further lines on standard error, apart from those
//! that report errors. `exit` reports why the program ends. No clause says anything of the system's
//! files and streams: only safety is proved here.
mod exit;
pub mod options;
mod process_words;
mod streams;
mod verbose_lines;

pub use exit::{print_clap, print_exit};
pub use process_words::{texts_of, words_of_process};
pub use streams::{
    ClosedStreams, WholeLines, error_lines, input, line_errors, output, output_line,
    output_progress_mode, progress_mode, warn_of_anywhere,
};
pub use verbose_lines::{is_verbose_for, is_verbose_unasked, quoted, say, shown, words_of};
