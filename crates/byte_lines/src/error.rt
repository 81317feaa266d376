//! How a device fails, and a call that reads from one.
ghost use Rattle.std.specs.Prelude.{◌≡◌};
ghost use Rattle.byte_lines.specs.declared.error.DeviceError.TheVariants.{Io, NoMemory};

use std::alloc::AllocError;
use thiserror::Error;

/// A device failed. What happened is not said; the device answers `failed()` with true from then
/// on.
#[derive(Clone, Copy, Debug, PartialEq, Eq, Error)]
#[error("the device failed")]
pub struct Fault;

/// Why a call that reads from a source gives no bytes and no line.
#[derive(Clone, Copy, Debug, PartialEq, Eq, Error)]
pub enum DeviceError {
    /// The source failed.
    #[error("the source failed")]
    Io,
    /// The allocator refused memory for the bytes or the line.
    #[error("out of memory")]
    NoMemory,
}

/// Why `next_line` gives no line.
pub type NextLineError = DeviceError;

/// Why `read_up_to` gives no bytes.
pub type ReadUpToError = DeviceError;

impl From<Fault> for DeviceError {
    ghost from_gives = { λ _ e. e ≡ Io };

    fn from(_fault: Fault) -> DeviceError {
        DeviceError::Io
    }
}

impl From<AllocError> for DeviceError {
    ghost from_gives = { λ _ e. e ≡ NoMemory };

    fn from(_refused: AllocError) -> DeviceError {
        DeviceError::NoMemory
    }
}
