//! Why a stream of receipts gives no report.
ghost use Rattle.std.specs.Prelude.{◌≡◌};
ghost use Rattle.command_exits.specs.Errors.{of_line, of_report};
ghost use Rattle.command_exits.specs.declared.run_error.RunError.TheVariants.{NoMemory, Io};

use bundle_view::ReportError;
use byte_lines::{DeviceError, Fault};
use std::alloc::AllocError;
use thiserror::Error;

/// Why a stream of receipts gives no report.
#[derive(Clone, Copy, Debug, PartialEq, Eq, Error)]
pub enum RunError {
    /// More different receipts fit than may be held.
    #[error("E1 Full")]
    Full,
    /// Memory ran out.
    #[error("E2 NoMemory")]
    NoMemory,
    /// A device failed.
    #[error("E3 Io")]
    Io,
}

impl From<AllocError> for RunError {
    ghost from_gives = { λ _ e. e ≡ NoMemory };

    fn from(_refused: AllocError) -> RunError {
        RunError::NoMemory
    }
}

impl From<Fault> for RunError {
    ghost from_gives = { λ _ e. e ≡ Io };

    fn from(_fault: Fault) -> RunError {
        RunError::Io
    }
}

impl From<DeviceError> for RunError {
    ghost from_gives = { λ e r. r ≡ of_line e };

    fn from(error: DeviceError) -> RunError {
        match error {
            DeviceError::Io => RunError::Io,
            DeviceError::NoMemory => RunError::NoMemory,
        }
    }
}

impl From<ReportError> for RunError {
    ghost from_gives = { λ e r. r ≡ of_report e };

    fn from(error: ReportError) -> RunError {
        match error {
            ReportError::Io => RunError::Io,
            ReportError::NoMemory => RunError::NoMemory,
        }
    }
}
