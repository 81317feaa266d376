//! The names of the files next to a state file, and the folder in which they are.
use command_exits::FileFault;
use std::alloc::{AllocError, Global};
use std::fs::{Files, OpenFile};
use std::{fs, io};

/// The name of the journal of the state file at the path.
///
/// # Errors
/// Memory ran out.
pub fn journal_path(alloc: Global, path: &str) -> Result<String, AllocError> {
    with_ending(alloc, path, ".journal")
}

/// The name of the new file that is to replace the state file.
pub(crate) fn new_path(alloc: Global, path: &str) -> Result<String, AllocError> {
    with_ending(alloc, path, ".new")
}

/// The name of the file that has what was held under the configuration before.
pub(crate) fn previous_path(alloc: Global, path: &str) -> Result<String, AllocError> {
    with_ending(alloc, path, ".previous")
}

/// The name of the new file that is to replace that one.
pub(crate) fn new_previous_path(alloc: Global, path: &str) -> Result<String, AllocError> {
    with_ending(alloc, path, ".previous.new")
}

/// The name of the lock's file.
pub(crate) fn lock_path(alloc: Global, path: &str) -> Result<String, AllocError> {
    with_ending(alloc, path, ".lock")
}

fn with_ending(alloc: Global, path: &str, ending: &str) -> Result<String, AllocError> {
    let mut name = String::new(alloc);
    name.push_str(path)?;
    name.push_str(ending)?;
    Ok(name)
}

/// Whether the state file at the path has a journal. One of which the system does not say whether
/// it is there is found when it is read.
///
/// # Errors
/// Memory ran out.
pub fn has_journal<R: Files>(files: &R, alloc: Global, path: &str) -> Result<bool, AllocError> {
    let name = journal_path(alloc, path)?;
    match fs::metadata(files, name.as_str()) {
        Ok(_) => Ok(true),
        Err(error) => Ok(error.kind() != io::ErrorKind::NotFound),
    }
}

/// Has the system write the folder in which the file lies, so that the new name outlasts a loss of
/// power.
pub(crate) fn sync_folder<R: Files>(files: &R, path: &str) -> Result<(), FileFault> {
    let folder = match path.rfind('/') {
        Some(0) => "/",
        Some(end) => &path[..end],
        None => ".",
    };
    let opened = fs::open(files, folder)?;
    Ok(opened.sync_all()?)
}
