//! Why an option's text is not read.
use crate::command_name::OptionName;

/// Why an option's text is not read. It owns nothing.
#[derive(Clone, Copy, Debug, PartialEq, Eq)]
pub enum OptionError {
    /// The arguments leave out an option that the command wants, or its text is not one of those
    /// that it may have, or an option may not be given there.
    Usage,
    /// The text is not a number, or a number out of the option's range.
    BadNumber(OptionName),
    /// The text names a file or a socket, and is empty.
    EmptyPath(OptionName),
    /// The text of `--key` is not 64 lower-case hexadecimal digits.
    BadKey,
    /// The text is not that of an address, or a replica may not listen there.
    BadAddress(OptionName),
}
