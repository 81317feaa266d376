//! The path of the socket for local requests.
use command_exits::FileFault;
use replica_sync::SyncError;
use std::fs::Files;
use std::os::unix::fs::MetadataExt;
use std::{fs, io};

/// How many bytes the path of a socket has at most.
const MOST_BYTES: usize = 107;

/// The system's number for a name that is too long (`ENAMETOOLONG`).
const NAME_TOO_LONG: i32 = 36;

/// Refuses a path that the system takes for no socket.
pub fn too_long(path: &str) -> Result<(), FileFault> {
    if path.len() <= MOST_BYTES {
        return Ok(());
    }
    Err(FileFault {
        why: SyncError::Io,
        code: Some(NAME_TOO_LONG),
    })
}

/// Which file it is.
#[derive(Clone, Copy, PartialEq, Eq)]
pub(crate) struct FileId {
    device: u64,
    number: u64,
}

/// The file that has the name. A link is the file that it is itself.
pub(crate) fn file_id<R: Files>(files: &R, name: &str) -> io::Result<FileId> {
    let found = fs::symlink_metadata(files, name)?;
    Ok(FileId {
        device: found.dev(),
        number: found.ino(),
    })
}
