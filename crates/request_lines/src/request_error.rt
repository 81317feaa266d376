//! Why the first line of a request or of a reply is not read.
ghost use Rattle.std.specs.Prelude.{◌≡◌};
ghost use Rattle.request_lines.specs.declared.request_error.RequestError.TheVariants.{NoMemory};

use std::alloc::{AllocError, AllocFailed};

/// Why a first line is not read.
#[derive(Clone, Copy, Debug, PartialEq, Eq)]
pub enum RequestError {
    /// It has more than 65,536 bytes.
    TooLong,
    /// It says something else, or is not JSON.
    BadLine,
    /// Memory ran out.
    NoMemory,
}

impl From<AllocError> for RequestError {
    ghost from_gives = { λ _ e. e ≡ NoMemory };

    fn from(_error: AllocError) -> RequestError {
        RequestError::NoMemory
    }
}

impl<T: Drop> From<AllocFailed<T>> for RequestError {
    ghost from_gives = { λ _ e. e ≡ NoMemory };

    fn from(_error: AllocFailed<T>) -> RequestError {
        RequestError::NoMemory
    }
}
