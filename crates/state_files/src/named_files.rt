//! What the system has under a name, and whether this program made it.
use command_exits::FileFault;
use replica_core::SyncError;
use state_steps::{FileSeen, FileTime};
use std::fs::{Files, Metadata};
use std::io::Read;
use std::os::unix::fs::{FileTypeExt, MetadataExt};
use std::{fs, io};

/// With what each snapshot and each journal begins.
pub(crate) const BEGINNING: &[u8] = b"{\"config\":\"";

const BEGINNING_BYTES: usize = 11;

/// What a file may have after a cut of power, if its blocks were not written.
const ZEROS: &[u8] = &[0; 32];

/// The system's number for a file that is there already (`EEXIST`).
const FILE_EXISTS: i32 = 17;

/// The system's number for a file that is not the one that was left (`ESTALE`).
const STALE_FILE: i32 = 116;

/// What the system says of a name, or `None` if nothing has the name.
pub(crate) fn found<T: Drop>(answer: io::Result<T>) -> Result<Option<T>, FileFault> {
    match answer {
        Ok(value) => Ok(Some(value)),
        Err(error) if error.kind() == io::ErrorKind::NotFound => Ok(None),
        Err(error) => Err(FileFault::from(error)),
    }
}

/// The error if the file under a name is not one that this program made.
pub(crate) fn foreign_file() -> FileFault {
    FileFault {
        why: SyncError::Io,
        code: Some(FILE_EXISTS),
    }
}

/// The error if a file is not as it was left here.
pub fn stale_file() -> FileFault {
    FileFault {
        why: SyncError::Io,
        code: Some(STALE_FILE),
    }
}

/// Opens the file to be read, or returns `None` if nothing has the name. A pipe that has it is
/// refused: to open it would wait for who writes into it.
pub(crate) fn open_named<R: Files>(files: &R, name: &str) -> Result<Option<R::File>, FileFault> {
    match found(fs::symlink_metadata(files, name))? {
        Some(there) if there.file_type().is_fifo() => Err(foreign_file()),
        Some(_) => found(fs::open(files, name)),
        None => Ok(None),
    }
}

/// Whether a file has the name. A link or a pipe that has it is refused.
pub(crate) fn is_plain_file<R: Files>(files: &R, name: &str) -> Result<bool, FileFault> {
    match found(fs::symlink_metadata(files, name))? {
        Some(there) if there.is_file() => Ok(true),
        Some(_) => Err(foreign_file()),
        None => Ok(false),
    }
}

/// Removes the file that has the name, if there is one. What does not begin as a snapshot or a
/// journal is refused, and remains as it is. A file without a byte is one that was just begun, and
/// a cut of power leaves one of zeros.
pub(crate) fn remove_own<R: Files>(files: &R, name: &str) -> Result<(), FileFault> {
    if is_plain_file(files, name)? {
        refuse_other(files, name)?;
        found(fs::remove_file(files, name))?;
    }
    Ok(())
}

/// Refuses what has the name, if it does not begin as a snapshot or a journal.
pub(crate) fn refuse_foreign<R: Files>(files: &R, name: &str) -> Result<(), FileFault> {
    if is_plain_file(files, name)? {
        refuse_other(files, name)?;
    }
    Ok(())
}

fn refuse_other<R: Files>(files: &R, name: &str) -> Result<(), FileFault> {
    if begins_as_own(files, name)? {
        Ok(())
    } else {
        Err(foreign_file())
    }
}

fn begins_as_own<R: Files>(files: &R, name: &str) -> Result<bool, FileFault> {
    let Some(mut file) = found(fs::open(files, name))? else {
        return Ok(true);
    };
    let mut bytes = [0; BEGINNING_BYTES];
    let count = file.read(&mut bytes)?.min(BEGINNING_BYTES);
    Ok(may_be_left_of(&bytes[..count], BEGINNING))
}

/// Whether a file with these first bytes may be one that this program wrote the text to: it has a
/// beginning of the text, or zeros, which a cut of power leaves.
pub(crate) fn may_be_left_of(bytes: &[u8], text: &[u8]) -> bool {
    text.starts_with(bytes) || ZEROS.starts_with(bytes)
}

/// What the system says of the file that has the name; none if nothing has it.
pub(crate) fn seen_under<R: Files>(files: &R, name: &str) -> Result<Option<FileSeen>, FileFault> {
    Ok(found(fs::metadata(files, name))?.map(|it| seen_as(&it)))
}

/// What it says of a file.
pub(crate) fn seen_as(said: &Metadata) -> FileSeen {
    FileSeen {
        device: said.dev(),
        number: said.ino(),
        bytes: said.len(),
        changed: FileTime {
            seconds: said.mtime(),
            nanos: said.mtime_nsec(),
        },
        touched: FileTime {
            seconds: said.ctime(),
            nanos: said.ctime_nsec(),
        },
    }
}
