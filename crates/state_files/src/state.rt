//! The state file: the snapshot of what a replica holds, kept between two commands.
use crate::named_files::{found, open_named};
use crate::own_file::OwnFile;
use byte_lines::FromRead;
use closure_core::Closure;
use command_exits::FileFault;
use fed_config::Config;
use progress_line::{WatchedReader, WorkProgress};
use replica_core::SyncError;
use replica_sync::read_snapshot;
use state_steps::FileFate;
use std::alloc::Global;
use std::fs;
use std::fs::{File, Files};
use std::io::Eprint;
use std::time::Clock;

/// How many bytes the state file has, or `None` if there is no state file.
///
/// # Errors
/// If the system does not say: `NoMemory` if memory ran out, and else `Io`.
pub fn state_bytes<R: Files>(files: &R, path: &str) -> Result<Option<u64>, FileFault> {
    Ok(found(fs::metadata(files, path))?.map(|state| state.len()))
}

/// The state file as it was found, or that there was none.
#[derive(Drop)]
pub struct SeenState {
    file: Option<OwnFile>,
}

/// Remembers which state file there is.
///
/// # Errors
/// If the file is there and cannot be opened, `NoMemory` if the system says that memory ran out,
/// and else `Io`.
pub fn see_state<R: Files<File = File>>(files: &R, path: &str) -> Result<SeenState, FileFault> {
    let file = match open_named(files, path)? {
        Some(file) => Some(OwnFile::of(file)?),
        None => None,
    };
    Ok(SeenState { file })
}

impl SeenState {
    /// The state file is this one, which was written here.
    pub(crate) fn of_file(file: OwnFile) -> SeenState {
        SeenState { file: Some(file) }
    }

    /// How many bytes it has; none if there was no file.
    pub(crate) fn bytes(&self) -> u64 {
        match &self.file {
            Some(file) => file.bytes(),
            None => 0,
        }
    }

    /// Whether nobody has written the state file since.
    ///
    /// # Errors
    /// If the system does not say: `NoMemory` if memory ran out, and else `Io`.
    pub fn is_last<R: Files>(&self, files: &R, path: &str) -> Result<bool, FileFault> {
        let fate = self.fate(files, path)?;
        Ok(matches!(fate, FileFate::Same | FileFate::Touched))
    }

    /// What became of the state file since.
    pub(crate) fn fate<R: Files>(&self, files: &R, path: &str) -> Result<FileFate, FileFault> {
        match &self.file {
            Some(file) => file.fate(files, path),
            None if found(fs::metadata(files, path))?.is_none() => Ok(FileFate::Same),
            None => Ok(FileFate::Replaced),
        }
    }
}

/// The closure whose snapshot is in the file. If the file is not there, the closure holds nothing.
///
/// # Errors
/// Those of [`read_snapshot`]. If the file is there and cannot be opened, `NoMemory` if the
/// system says that memory ran out, and else `Io`.
pub(crate) fn load_snapshot<C: Closure, R: Files + Clock + Eprint>(
    rt: &R,
    alloc: Global,
    config: &Config,
    path: &str,
    progress: &mut WorkProgress<'_, R>,
) -> Result<C, SyncError> {
    match open_named(rt, path) {
        Ok(Some(file)) => {
            let file = WatchedReader::new(file, progress);
            read_snapshot(alloc, config, &mut FromRead::new(file))
        }
        Ok(None) => Ok(C::new(alloc, config)?),
        Err(fault) => Err(fault.why),
    }
}
