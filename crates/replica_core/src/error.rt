//! Why a stream of another replica, or of a file, is not taken.
ghost use Rattle.std.specs.Prelude.{◌≡◌};
ghost use Rattle.replica_core.specs.SyncErrors.{fault_of};
ghost use Rattle.replica_core.specs.declared.error.SyncError.TheVariants.{Io, NoMemory};

use byte_lines::{DeviceError, Fault};
use closure_core::TakeError;
use std::alloc::AllocError;
use thiserror::Error;

/// Why a snapshot or a message is refused: the first error in the order of its bytes. Lines are
/// counted from 1.
#[derive(Clone, Copy, Debug, PartialEq, Eq, Error)]
pub enum SyncError {
    /// The first line is not spelt as one of its kind.
    #[error("S1 BadHeader")]
    BadHeader,
    /// It is of another configuration: that has another digest.
    #[error("S2 ConfigDiffers")]
    ConfigDiffers,
    /// It is of a format that is not read.
    #[error("S3 VersionDiffers")]
    VersionDiffers,
    /// The line is not one of those that may be there, or has more than 8,388,608 bytes.
    #[error("S4 NotCanonical line {0}")]
    NotCanonical(u64),
    /// The line is not greater than the one before it.
    #[error("S5 NotRising line {0}")]
    NotRising(u64),
    /// The count line does not say how many lines there were.
    #[error("S6 BadCount")]
    BadCount,
    /// The input ends before it is complete.
    #[error("S7 Truncated")]
    Truncated,
    /// What the line says is not taken: its domain is unknown, its endpoint is another one, or
    /// there is no place.
    #[error("S8 Refused line {0} {1}")]
    Refused(u64, TakeError),
    /// The source or the sink failed.
    #[error("S9 Io")]
    Io,
    /// Memory ran out.
    #[error("S10 NoMemory")]
    NoMemory,
}

/// Why a session ended before its last answer was taken whole.
#[derive(Clone, Copy, Debug, PartialEq, Eq, Error)]
#[error("{why} taken {taken}")]
pub struct PullFault {
    /// The error. Lines are counted from 1 over all answers of the session.
    pub why: SyncError,
    /// How many receipts were taken before it that were not held.
    pub taken: u64,
}

impl From<AllocError> for SyncError {
    ghost from_gives = { λ _ e. e ≡ NoMemory };

    fn from(_refused: AllocError) -> SyncError {
        SyncError::NoMemory
    }
}

impl From<Fault> for SyncError {
    ghost from_gives = { λ _ e. e ≡ Io };

    fn from(_fault: Fault) -> SyncError {
        SyncError::Io
    }
}

impl From<DeviceError> for SyncError {
    ghost from_gives = { λ why e. e ≡ fault_of why };

    fn from(why: DeviceError) -> SyncError {
        match why {
            DeviceError::Io => SyncError::Io,
            DeviceError::NoMemory => SyncError::NoMemory,
        }
    }
}
