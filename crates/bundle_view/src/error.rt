//! Why a report is not written.
ghost use Rattle.std.specs.Prelude.{◌≡◌};
ghost use Rattle.bundle_view.specs.declared.error.ReportError.TheVariants.{Io, NoMemory};

use byte_lines::Fault;
use std::alloc::AllocError;
use thiserror::Error;

/// Why a report is not written.
#[derive(Clone, Copy, Debug, PartialEq, Eq, Error)]
pub enum ReportError {
    /// The sink failed.
    #[error("V1 Io")]
    Io,
    /// Memory ran out.
    #[error("V2 NoMemory")]
    NoMemory,
}

impl From<Fault> for ReportError {
    ghost from_gives = { λ _ e. e ≡ Io };

    fn from(_fault: Fault) -> ReportError {
        ReportError::Io
    }
}

impl From<AllocError> for ReportError {
    ghost from_gives = { λ _ e. e ≡ NoMemory };

    fn from(_refused: AllocError) -> ReportError {
        ReportError::NoMemory
    }
}
