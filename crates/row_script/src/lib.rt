//! Scripts of rows: what a program reads that tries calls on tables of data.
//!
//! A script is UTF-8 text, a row a line. An empty line, and one that begins with `#`, is passed
//! over. `text NAME = TEMPLATE` defines a text. Any other line is a row: `HEAD`, or
//! `HEAD = TEMPLATE`. Its head is a verb and arguments with one space between them.
//!
//! A template is literal text to the end of the line, in which these are replaced by other bytes:
//!
//! | | |
//! |---|---|
//! | `${NAME}` | the text of that name |
//! | `${NAME*COUNT}` | that text this many times |
//! | `${NAME 5..9}` | that text for each number from 5 to 9, which is there for each `%` |
//! | `${hex 0aff}` | the bytes that these digits say |
//! | `${lf}` | a line feed |
//!
//! [`run`] reads a script from standard input and prints a block for each row: its line, and what
//! came of it, each line of that after two spaces.
#![tactic(auto)]

mod answers;
mod error;
mod printing;
mod script;
mod shown;
mod template;

pub use answers::Answers;
pub use error::ScriptError;
pub use printing::{Rows, print_block, run};
pub use script::{Row, Script};
