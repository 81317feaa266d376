//! The file that keeps what was held under the configuration before, next to the state file.
use crate::begun_sides::GivenConfigs;
use crate::file_names::{new_previous_path, previous_path, sync_folder};
use crate::named_files::{
    BEGINNING, is_plain_file, open_named, refuse_foreign, remove_own, stale_file,
};
use crate::new_file::{create_new, write_closure};
use crate::own_file::OwnFile;
use crate::state::load_snapshot;
use closure_core::Closure;
use command_exits::FileFault;
use fed_config::Config;
use progress_line::{LongWork, ProgressMode, WorkProgress};
use replica_core::SyncError;
use state_steps::{NewFate, fate_of_new, head_of_bytes, is_of_one_config};
use std::alloc::Global;
use std::fs;
use std::fs::{File, Files};
use std::io::{Eprint, Read};
use std::time::Clock;

/// How many bytes the beginning of a snapshot has that says its configuration.
const HEAD_BYTES: usize = 75;

/// Writes what is held under the previous configuration to the new file, and puts that on the disk.
/// What this program did not make is refused if it has the name that the file is to get. Returns
/// the file.
pub(crate) fn write_previous<C: Closure, R: Files<File = File> + Clock + Eprint>(
    files: &R,
    alloc: Global,
    closure: &C,
    path: &str,
    mode: ProgressMode,
) -> Result<OwnFile, FileFault> {
    refuse_foreign(files, previous_path(alloc, path)?.as_str())?;
    let name = new_previous_path(alloc, path)?;
    let mut file = create_new(files, name.as_str(), path)?;
    write_closure(files, alloc, closure, &mut file, mode)?;
    file.settle()?;
    sync_folder(files, path)?;
    Ok(file)
}

/// Refuses what has the name of the new file, if it is not this one, as it was written.
pub(crate) fn refuse_other_new<R: Files>(
    files: &R,
    alloc: Global,
    file: Option<&OwnFile>,
    path: &str,
) -> Result<(), FileFault> {
    match file {
        Some(file) => file.refuse_touched(files, new_previous_path(alloc, path)?.as_str()),
        None => Err(stale_file()),
    }
}

/// Gives the new file its name, if it is this one, as it was written.
pub(crate) fn replace_previous<R: Files>(
    files: &R,
    alloc: Global,
    file: Option<&OwnFile>,
    path: &str,
) -> Result<(), FileFault> {
    refuse_other_new(files, alloc, file, path)?;
    settle_previous(files, alloc, NewFate::GetsName, path)
}

/// What becomes of a new file that a kill or an error left of a carry-over, as [`fate_of_new`]
/// says; none if there is no such file, or no previous configuration. No file is changed.
///
/// # Errors
/// - [`SyncError::Io`]: the system refused a step,
/// - [`SyncError::NoMemory`]: memory ran out.
pub(crate) fn fate_of_found<C: Closure, R: Files + Clock + Eprint>(
    rt: &R,
    alloc: Global,
    configs: &GivenConfigs,
    path: &str,
) -> Result<Option<NewFate>, FileFault> {
    let Some(previous) = &configs.previous else {
        return Ok(None);
    };
    let new = new_previous_path(alloc, path)?;
    if !is_plain_file(rt, new.as_str())? {
        return Ok(None);
    }
    let state = head_of(rt, path)?;
    let head = head_of(rt, new.as_str())?;
    let name = new.as_str();
    let is_whole = is_whole::<C, R>(rt, alloc, &configs.next, name)?
        || is_whole::<C, R>(rt, alloc, previous, name)?;
    let (state, head) = (
        head_of_bytes(BEGINNING, &state),
        head_of_bytes(BEGINNING, &head),
    );
    Ok(Some(fate_of_new(state, head, is_whole)))
}

/// Gives the new file its name, or removes it.
pub(crate) fn settle_previous<R: Files>(
    files: &R,
    alloc: Global,
    fate: NewFate,
    path: &str,
) -> Result<(), FileFault> {
    let new = new_previous_path(alloc, path)?;
    match fate {
        NewFate::GetsName => {
            let name = previous_path(alloc, path)?;
            refuse_foreign(files, name.as_str())?;
            fs::rename(files, new.as_str(), name.as_str())?;
            sync_folder(files, path)
        }
        NewFate::IsRemoved => remove_own(files, new.as_str()),
    }
}

// Whether the file is a whole snapshot of this configuration.
fn is_whole<C: Closure, R: Files + Clock + Eprint>(
    rt: &R,
    alloc: Global,
    config: &Config,
    name: &str,
) -> Result<bool, FileFault> {
    let mut progress = WorkProgress::begin(rt, alloc, LongWork::ReadingState, ProgressMode::Silent);
    let loaded: Result<C, SyncError> = load_snapshot(rt, alloc, config, name, &mut progress);
    match loaded {
        Ok(_) => Ok(true),
        Err(SyncError::Io) => Err(FileFault::from(SyncError::Io)),
        Err(SyncError::NoMemory) => Err(FileFault::from(SyncError::NoMemory)),
        Err(_) => Ok(false),
    }
}

// The first bytes of the file, with zeros for what it does not have.
fn head_of<R: Files>(files: &R, path: &str) -> Result<[u8; HEAD_BYTES], FileFault> {
    let mut head = [0; HEAD_BYTES];
    let Some(mut file) = open_named(files, path)? else {
        return Ok(head);
    };
    let mut count = 0;
    for _ in 0..HEAD_BYTES {
        if count >= HEAD_BYTES {
            break;
        }
        let room = HEAD_BYTES - count;
        let read = file.read(&mut head[count..])?.min(room);
        if read == 0 {
            break;
        }
        count += read;
    }
    Ok(head)
}

/// What the previous state has, if it is of this configuration; and else nothing, as if it was
/// missing. A new file that gets its name is read in its place.
///
/// # Errors
/// Those of `read_snapshot` but a configuration that differs. If the file is there and cannot be
/// opened, `NoMemory` if the system says that memory ran out, and else `Io`.
pub(crate) fn load_previous<C: Closure, R: Files + Clock + Eprint>(
    rt: &R,
    alloc: Global,
    config: &Config,
    path: &str,
    fate: Option<NewFate>,
    mode: ProgressMode,
) -> Result<C, SyncError> {
    let name = match fate {
        Some(NewFate::GetsName) => new_previous_path(alloc, path)?,
        _ => previous_path(alloc, path)?,
    };
    let mut progress = WorkProgress::begin(rt, alloc, LongWork::ReadingState, mode);
    match load_snapshot(rt, alloc, config, name.as_str(), &mut progress) {
        Err(SyncError::ConfigDiffers) => Ok(C::new(alloc, config)?),
        loaded => loaded,
    }
}

/// Removes the file, and the new one: the change to another configuration is over. One of the
/// configuration of the state remains: somebody put that state back, and it may lack lines of the
/// file. What this program did not write remains too, and so does what the system does not remove:
/// the next beginning tries again.
///
/// # Errors
/// Memory ran out.
pub fn remove_previous<R: Files>(files: &R, alloc: Global, path: &str) -> Result<(), FileFault> {
    let name = previous_path(alloc, path)?;
    let _ = remove_of_other(files, name.as_str(), path);
    let new = new_previous_path(alloc, path)?;
    let _ = remove_of_other(files, new.as_str(), path);
    Ok(())
}

fn remove_of_other<R: Files>(files: &R, name: &str, path: &str) -> Result<(), FileFault> {
    let state = head_of(files, path)?;
    let kept = head_of(files, name)?;
    let (state, kept) = (
        head_of_bytes(BEGINNING, &state),
        head_of_bytes(BEGINNING, &kept),
    );
    if is_of_one_config(state, kept) {
        return Ok(());
    }
    remove_own(files, name)
}
