//! What the state file and its journal hold.
use crate::file_names::journal_path;
use crate::named_files::open_named;
use crate::state::load_snapshot;
use byte_lines::FromRead;
use closure_core::Closure;
use command_exits::CommandError;
use fed_config::Config;
use progress_line::{LongWork, ProgressMode, WatchedReader, WorkProgress};
use replica_journal::read_journal;
use std::alloc::Global;
use std::fs::Files;
use std::io;
use std::io::Eprint;
use std::time::Clock;

/// The closure of what is held: what the snapshot in the state file says, and what the whole lines
/// of its journal say. If neither file is there, it holds nothing.
///
/// The journal is opened before the state file, so what another command folds into the state
/// meanwhile is found in one of the two. If the mode says so, it is said how far the reading is.
///
/// # Errors
/// - [`CommandError::Sync`]: the state file is refused, as by [`read_snapshot`], or cannot be
///   opened,
/// - [`CommandError::Journal`]: the same for its journal, as by [`read_journal`],
/// - [`CommandError::NoMemory`]: memory ran out before either was opened.
///
/// The reason why a file that is there cannot be opened is `NoMemory` if the system says that
/// memory ran out, and else `Io`.
///
/// [`read_snapshot`]: replica_sync::read_snapshot
pub fn load_state<C: Closure, R: Files + Clock + Eprint>(
    rt: &R,
    alloc: Global,
    config: &Config,
    path: &str,
    mode: ProgressMode,
) -> Result<C, CommandError> {
    let mut progress = WorkProgress::begin(rt, alloc, LongWork::ReadingState, mode);
    load_files(rt, alloc, config, path, &mut progress)
}

fn load_files<C: Closure, R: Files + Clock + Eprint>(
    rt: &R,
    alloc: Global,
    config: &Config,
    path: &str,
    progress: &mut WorkProgress<'_, R>,
) -> Result<C, CommandError> {
    let name = journal_path(alloc, path)?;
    match open_named(rt, name.as_str()) {
        Ok(Some(journal)) => {
            let closure = load_snapshot(rt, alloc, config, path, progress)?;
            with_journal(alloc, closure, WatchedReader::new(journal, progress))
        }
        Ok(None) => Ok(load_snapshot(rt, alloc, config, path, progress)?),
        Err(fault) => Err(CommandError::Journal(fault.why)),
    }
}

fn with_journal<C: Closure, F: io::Read + Drop>(
    alloc: Global,
    closure: C,
    journal: F,
) -> Result<C, CommandError> {
    match read_journal(alloc, closure, &mut FromRead::new(journal)) {
        Ok(held) => Ok(held),
        Err(why) => Err(CommandError::Journal(why)),
    }
}
