//! Why a line of a script is refused.
use std::alloc::AllocError;
use std::fmt;

/// Why a line of a script is refused.
#[derive(Clone, Copy, Debug, PartialEq, Eq)]
pub enum ScriptError {
    /// A template names a text that no line before defined.
    UnknownText,
    /// What is between `${` and `}` has none of the forms, or a definition repeats a name.
    BadTemplate,
    /// The allocator refused memory.
    NoMemory,
}

impl fmt::Display for ScriptError {
    fn fmt<W: fmt::Write>(&self, f: &mut fmt::Formatter<W>) -> fmt::Result {
        f.write_str(match self {
            ScriptError::UnknownText => "unknown text",
            ScriptError::BadTemplate => "bad template",
            ScriptError::NoMemory => "out of memory",
        })
    }
}

impl From<AllocError> for ScriptError {
    fn from(_refused: AllocError) -> ScriptError {
        ScriptError::NoMemory
    }
}
