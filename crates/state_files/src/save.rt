//! What a command does at its end: what is held takes the place of the state file.
use crate::made_files::MadeFiles;
use crate::std_calls::{ChangeWith, FileCalls};
use closure_core::Closure;
use command_exits::FileFault;
use progress_line::ProgressMode;
use replica_core::SyncError;
use state_calls::save;
use state_steps::Saving;
use std::alloc::Global;
use std::fs::{File, Files};
use std::io::Eprint;
use std::time::Clock;

/// How many steps a save has.
const STEPS: u32 = 5;

/// Writes what is held as the snapshot in the state file, and then removes its journal, which has
/// nothing else.
///
/// The snapshot is written to the file named like the state file with `.new` after it, the system
/// puts that on the disk, it gets the state file's name, and the system puts the folder on the
/// disk; [`Saving`] says so. So at any error, and wherever the process is killed, the state file is
/// as it was or as it is to be. A kill before the journal is removed leaves both, and they say the
/// same.
///
/// The new file has the mode and, if the system allows it, the owner and the group of the state
/// file that it replaces; if it does not, the group has no access. If there was no state file, the
/// mode is 0600. If `mode` says so, it is said how far the writing is.
///
/// # Errors
/// If the journal is not removed, the state file is written.
/// - [`SyncError::Io`]: the system refused a step,
/// - [`SyncError::NoMemory`]: memory ran out.
pub fn save_state<C: Closure, R: Files<File = File> + Clock + Eprint>(
    files: &R,
    alloc: Global,
    closure: &C,
    path: &str,
    mode: ProgressMode,
) -> Result<(), FileFault> {
    let saving = save_within(files, alloc, closure, path, mode, STEPS)?;
    if saving.is_done() {
        Ok(())
    } else {
        Err(FileFault::from(SyncError::Io))
    }
}

/// The same without its last step: what has the journal's name remains as it is.
///
/// # Errors
/// - [`SyncError::Io`]: the system refused a step,
/// - [`SyncError::NoMemory`]: memory ran out.
pub fn save_snapshot<C: Closure, R: Files<File = File> + Clock + Eprint>(
    files: &R,
    alloc: Global,
    closure: &C,
    path: &str,
    mode: ProgressMode,
) -> Result<(), FileFault> {
    save_within(files, alloc, closure, path, mode, STEPS - 1)?;
    Ok(())
}

// A save that is over after `steps` steps.
fn save_within<C: Closure, R: Files<File = File> + Clock + Eprint>(
    files: &R,
    alloc: Global,
    closure: &C,
    path: &str,
    mode: ProgressMode,
    steps: u32,
) -> Result<Saving, FileFault> {
    let mut calls = FileCalls::new(MadeFiles::new(alloc, path, mode)?);
    let with = ChangeWith {
        files,
        alloc,
        closure,
        path,
    };
    save(&mut calls, &with, steps)
}
