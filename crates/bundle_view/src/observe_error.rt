//! Why nothing is observed.
ghost use Rattle.std.specs.Prelude.{◌≡◌};
ghost use Rattle.bundle_view.specs.declared.observe_error.ObserveError.TheVariants.{Take};
ghost use Rattle.bundle_view.specs.Observe.{of_document};
ghost use Rattle.closure_core.specs.declared.error.TakeError.TheVariants.{NoMemory};

use bundle_doc::DocError;
use closure_core::TakeError;
use std::alloc::AllocError;
use thiserror::Error;

/// Why nothing is observed. If several causes hold, the first of this list is returned. Lack of
/// memory, which is always `Take(NoMemory)`, can come in place of each that is found out after
/// `Document(TooLong)`.
#[derive(Clone, Copy, Debug, PartialEq, Eq, Error)]
pub enum ObserveError {
    /// The configuration has no relationship with the domain.
    #[error("O1 NoRelationship")]
    NoRelationship,
    /// The relationship with the domain has another endpoint.
    #[error("O2 WrongEndpoint")]
    WrongEndpoint,
    /// No document of the endpoint's trust domain is accepted.
    #[error("O3 NoVoucherBundle")]
    NoVoucherBundle,
    /// The key is that of no X.509 authority of the current document of the endpoint's trust
    /// domain, or it is distrusted there.
    #[error("O4 KeyNotInCurrent")]
    KeyNotInCurrent,
    /// The bytes are not a document; never for lack of memory.
    #[error("O5 Document {0}")]
    Document(DocError),
    /// The receipt is not taken: its document is below the floor of its domain, the store is full,
    /// or memory ran out.
    #[error("O6 Take {0}")]
    Take(TakeError),
}

impl From<DocError> for ObserveError {
    ghost from_gives = { λ e o. o ≡ of_document e };

    fn from(error: DocError) -> ObserveError {
        match error {
            DocError::NoMemory => ObserveError::Take(TakeError::NoMemory),
            refused => ObserveError::Document(refused),
        }
    }
}

impl From<AllocError> for ObserveError {
    ghost from_gives = { λ _ e. e ≡ Take NoMemory };

    fn from(_refused: AllocError) -> ObserveError {
        ObserveError::Take(TakeError::NoMemory)
    }
}
