//! Why bytes or a JSON value are not a document.
ghost use Rattle.bundle_doc.specs.declared.error.DocError.TheVariants.{NoMemory};
ghost use Rattle.std.specs.Prelude.{◌≡◌};

use std::alloc::{AllocError, AllocFailed};
use thiserror::Error;

/// Why something is not a document. If there are several causes, the first of this list is
/// returned. `NoMemory` can replace each that is found after memory was first asked for: for a text
/// after `TooLong`, for a JSON value after `BadRefreshHint`.
#[derive(Clone, Copy, Debug, PartialEq, Eq, Error)]
pub enum DocError {
    /// More bytes than `MAX_DOCUMENT_BYTES`.
    #[error("B1 TooLong")]
    TooLong,
    /// The bytes are not a JSON text (RFC 8259), or they nest deeper than 127 levels.
    #[error("B2 NotJson")]
    NotJson,
    /// The value is not an object (RFC 7517, section 5).
    #[error("B3 NotObject")]
    NotObject,
    /// The member `keys` is absent, or not an array (RFC 7517, section 5.1).
    #[error("B4 NoKeys")]
    NoKeys,
    /// `spiffe_sequence` is present and not a whole number from 0 to 2^64 - 1.
    #[error("B5 BadSequence")]
    BadSequence,
    /// `spiffe_refresh_hint` is present and not a whole number from 0 to 2^64 - 1.
    #[error("B6 BadRefreshHint")]
    BadRefreshHint,
    /// The canonical text has more bytes than `MAX_DOCUMENT_BYTES`.
    #[error("B7 CanonicalTooLong")]
    CanonicalTooLong,
    /// Memory ran out.
    #[error("B8 NoMemory")]
    NoMemory,
}

impl From<AllocError> for DocError {
    ghost from_gives = { λ _ e. e ≡ NoMemory };

    fn from(_error: AllocError) -> DocError {
        DocError::NoMemory
    }
}

impl<T: Drop> From<AllocFailed<T>> for DocError {
    ghost from_gives = { λ _ e. e ≡ NoMemory };

    fn from(_error: AllocFailed<T>) -> DocError {
        DocError::NoMemory
    }
}
