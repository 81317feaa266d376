//! Why a call on a file failed.
use crate::error::CommandError;
use replica_core::SyncError;
use std::alloc::AllocError;
use std::io;

/// Why a call on a state file failed, and what the system said.
#[derive(Clone, Copy, Debug, PartialEq, Eq)]
pub struct FileFault {
    /// Why it failed.
    pub why: SyncError,
    /// The system's number of the error, if the system refused a call.
    pub code: Option<i32>,
}

impl From<SyncError> for FileFault {
    fn from(why: SyncError) -> FileFault {
        FileFault { why, code: None }
    }
}

impl From<AllocError> for FileFault {
    fn from(_refused: AllocError) -> FileFault {
        FileFault::from(SyncError::NoMemory)
    }
}

// Among the errors of the system, only lack of memory has a name of its own.
impl From<io::Error> for FileFault {
    fn from(error: io::Error) -> FileFault {
        let why = match error.kind() {
            io::ErrorKind::OutOfMemory => SyncError::NoMemory,
            _ => SyncError::Io,
        };
        FileFault {
            why,
            code: error.raw_os_error(),
        }
    }
}

impl From<FileFault> for CommandError {
    fn from(fault: FileFault) -> CommandError {
        CommandError::Sync(fault.why)
    }
}
