//! The lock of a state file.
use crate::access::owner_only;
use crate::file_names::lock_path;
use crate::journal::StateAt;
use crate::named_files::{foreign_file, found, is_plain_file, may_be_left_of};
use crate::own_file::OwnFile;
use command_exits::FileFault;
use replica_core::SyncError;
use state_steps::FileFate;
use std::alloc::Global;
use std::fs::{File, Files, TryLockError};
use std::io::ErrorKind;
use std::os::unix::fs::FileExt;
use std::{fs, io};

/// How often the lock is taken again because its file was removed or replaced meanwhile.
const MAX_LOCK_TRIES: u32 = 100;

/// What a running replica writes into the lock's file: that it has bytes says so.
const MARK: &[u8] = b"a replica is running\n";

const MARK_BYTES: usize = 21;

/// Keeps other commands that write the same state file waiting, until it is dropped or the process
/// ends. It is an exclusive lock of the file named like the state file with `.lock` after it, which
/// is still there afterwards.
#[derive(Drop)]
pub struct StateLock {
    file: OwnFile,
    name: String,
}

impl StateLock {
    /// The place of the state at the path, which this lock is of.
    pub fn at<'a, R>(&'a self, files: &'a R, path: &'a str) -> StateAt<'a, R> {
        StateAt {
            files,
            lock: self,
            path,
        }
    }

    /// What became of the file that is locked.
    ///
    /// # Errors
    /// If the system does not say: `NoMemory` if memory ran out, and else `Io`.
    pub(crate) fn fate<R: Files>(&self, files: &R) -> Result<FileFate, FileFault> {
        self.file.fate(files, self.name.as_str())
    }

    /// Leaves a mark in the lock's file that a replica has the lock, and will keep it.
    ///
    /// # Errors
    /// `NoMemory` if the system says that memory ran out, and else `Io`. The file is empty then,
    /// unless the system refuses that too.
    pub fn mark(&mut self) -> Result<(), FileFault> {
        let marked = self.file.write(MARK);
        if marked.is_err() {
            // So that no part of it says that a replica runs.
            let _ = self.file.file().set_len(0);
        }
        marked
    }
}

/// Whether a running replica has the lock of the state file, if the lock could not be taken. For a
/// short time it may be said also of another command, if a replica was killed just before.
///
/// # Errors
/// If the system does not say: `NoMemory` if memory ran out, and else `Io`.
pub fn is_marked<R: Files>(files: &R, alloc: Global, path: &str) -> Result<bool, FileFault> {
    let name = lock_path(alloc, path)?;
    Ok(found(fs::metadata(files, name.as_str()))?.is_some_and(|lock| lock.len() > 0))
}

/// Takes the lock, or returns `None` immediately if another command that writes this state file is
/// at work. A lock's file that is not there is made with the mode 0600, so that no other account
/// can lock it. If the file was removed or replaced meanwhile, the new one is locked. A file
/// that this program did not write remains as it is.
///
/// # Errors
/// - [`SyncError::Io`]: the lock's file cannot be made or locked, or was replaced a hundred times,
///   or what has its name is not a file, or one with another text than a lock's,
/// - [`SyncError::NoMemory`]: memory ran out.
pub fn try_lock_state<R: Files<File = File>>(
    files: &R,
    alloc: Global,
    path: &str,
) -> Result<Option<StateLock>, FileFault> {
    let name = lock_path(alloc, path)?;
    for _ in 0..MAX_LOCK_TRIES {
        if let Some(file) = open_lock(files, name.as_str())? {
            if !has_locked(&file)? {
                return Ok(None);
            }
            let file = OwnFile::of(file)?;
            if file.fate(files, name.as_str())? != FileFate::Replaced {
                clear_mark(file.file())?;
                return Ok(Some(StateLock { file, name }));
            }
        }
    }
    Err(FileFault::from(SyncError::Io))
}

// The lock's file, without following a link; or `None` if it came or went meanwhile.
fn open_lock<R: Files<File = File>>(files: &R, name: &str) -> Result<Option<File>, FileFault> {
    let mut options = owner_only();
    options.read(true);
    if is_plain_file(files, name)? {
        return found(options.open(files, name));
    }
    options.create_new(true);
    made(options.open(files, name))
}

fn made(answer: io::Result<File>) -> Result<Option<File>, FileFault> {
    match answer {
        Ok(file) => Ok(Some(file)),
        Err(error) if error.kind() == ErrorKind::AlreadyExists => Ok(None),
        Err(error) => Err(FileFault::from(error)),
    }
}

// Whether the file is locked now; else another open of it has the lock.
fn has_locked(file: &File) -> Result<bool, FileFault> {
    match file.try_lock() {
        Ok(()) => Ok(true),
        Err(TryLockError::WouldBlock) => Ok(false),
        Err(TryLockError::Error(error)) => Err(FileFault::from(error)),
    }
}

// Takes away the mark of a replica that was killed. A file with another text is refused.
fn clear_mark(file: &File) -> Result<(), FileFault> {
    let bytes = file.metadata()?.len();
    if bytes == 0 {
        return Ok(());
    }
    if bytes > MARK.len() as u64 || !has_mark(file, bytes as usize)? {
        return Err(foreign_file());
    }
    Ok(file.set_len(0)?)
}

fn has_mark(file: &File, count: usize) -> Result<bool, FileFault> {
    let mut bytes = [0; MARK_BYTES];
    let bytes = &mut bytes[..count.min(MARK_BYTES)];
    file.read_exact_at(bytes, 0)?;
    Ok(may_be_left_of(bytes, MARK))
}
