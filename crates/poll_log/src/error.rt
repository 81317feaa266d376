//! Why a poll is not recorded, or not given.
ghost use Rattle.std.specs.Prelude.{◌≡◌};
ghost use Rattle.poll_log.specs.declared.error.PollError.TheVariants.{NoMemory};

use byte_lines::DeviceError;
use std::alloc::AllocError;
use thiserror::Error;

/// Why a poll is not recorded, or not given. Lines are counted from 1.
#[derive(Clone, Copy, Debug, PartialEq, Eq, Error)]
pub enum PollError {
    /// The configuration has no relationship with the domain.
    #[error("P1 NoRelationship")]
    NoRelationship,
    /// The next poll is past the range of times.
    #[error("P2 PastRange")]
    PastRange,
    /// Memory ran out.
    #[error("P3 NoMemory")]
    NoMemory,
    /// The line with this number is not a poll line of a domain with a relationship.
    #[error("P4 BadLine line {0}")]
    BadLine(u64),
    /// The line with this number is one, but its time is outside the range of times.
    #[error("P5 BadMoment line {0}")]
    BadMoment(u64),
    /// The source failed.
    #[error("P6 Io")]
    Io,
}

impl From<AllocError> for PollError {
    ghost from_gives = { λ _ e. e ≡ NoMemory };

    fn from(_refused: AllocError) -> PollError {
        PollError::NoMemory
    }
}

impl From<DeviceError> for PollError {
    ghost use Rattle.poll_log.specs.PollErrors.{poll_error_of};

    ghost from_gives = { λ fault e. e ≡ poll_error_of fault };

    fn from(fault: DeviceError) -> PollError {
        match fault {
            DeviceError::Io => PollError::Io,
            DeviceError::NoMemory => PollError::NoMemory,
        }
    }
}
