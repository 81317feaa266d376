//! Why bytes are not a line.
ghost use Rattle.std.specs.Prelude.{◌≡◌};
ghost use Rattle.receipt_core.specs.declared.line_error.LineError.TheVariants.{NoMemory};

use std::alloc::AllocError;
use thiserror::Error;

/// Why a line is not read.
#[derive(Clone, Copy, Debug, PartialEq, Eq, Error)]
pub enum LineError {
    /// It is not spelt as lines of its kind are.
    #[error("L1 NotCanonical")]
    NotCanonical,
    /// It has more than 8,388,608 bytes.
    #[error("L2 TooLong")]
    TooLong,
    /// Memory ran out.
    #[error("L3 NoMemory")]
    NoMemory,
}

impl From<AllocError> for LineError {
    ghost from_gives = { λ _ e. e ≡ NoMemory };

    fn from(_refused: AllocError) -> LineError {
        LineError::NoMemory
    }
}
