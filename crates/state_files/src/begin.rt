//! What a replica that keeps running does first with its files.
use crate::begun_sides::{BegunSides, GivenConfigs, load_sides};
use crate::carry_over::carry_over;
use crate::journal::{AppendFault, Journal};
use crate::lock::StateLock;
use crate::made_files::MadeFiles;
use crate::previous_state::{fate_of_found, settle_previous};
use crate::resume::resume_journal;
use crate::state::{SeenState, see_state};
use crate::std_calls::{ChangeWith, FileCalls};
use closure_core::Closure;
use command_exits::{CommandError, FileFault};
use progress_line::ProgressMode;
use replica_core::SyncError;
use state_calls::begin;
use state_steps::{Beginning, FileFate, FileStep, FoldEnd, FoundFiles, LostFile, NewFate};
use std::alloc::{AllocError, Global};
use std::fs::{File, Files};
use std::io::Eprint;
use std::time::Clock;

/// The files that a carry-over leaves.
const CARRIED_FILES: FoundFiles = FoundFiles {
    has_state: true,
    has_journal: false,
};

/// The beginning of a replica on its files: they are loaded, saved if that is due, and an empty
/// journal is begun, in this order. [`Beginning`] says which step comes next; a call for which
/// another one is due does nothing but fail. A state of the previous configuration is carried over
/// in the place of the save.
#[derive(Drop)]
pub struct StateBeginning {
    beginning: Beginning,
    calls: FileCalls,
    has_journal: bool,
    // Whether it continues with the journal that was found, since the state could not be saved.
    is_resumed: bool,
    // What becomes of a new file that a carry-over left.
    fate: Option<NewFate>,
    // The state file that was loaded.
    loaded: Option<SeenState>,
    mode: ProgressMode,
}

impl StateBeginning {
    /// The beginning with the files that were found next to the path, or none if there is neither a
    /// state nor a journal, and `may_be_new` does not allow that. The mode says whether lines say
    /// how far the reading and the writing are.
    ///
    /// # Errors
    /// Memory ran out.
    pub fn of(
        alloc: Global,
        path: &str,
        found: FoundFiles,
        may_be_new: bool,
        mode: ProgressMode,
    ) -> Result<Option<StateBeginning>, AllocError> {
        match Beginning::of(found, may_be_new) {
            Some(beginning) => Ok(Some(StateBeginning {
                beginning,
                calls: FileCalls::new(MadeFiles::new(alloc, path, mode)?),
                has_journal: found.has_journal,
                is_resumed: false,
                fate: None,
                loaded: None,
                mode,
            })),
            None => Ok(None),
        }
    }

    /// Looks what is to become of a new file that a kill or an error left of a carry-over. The save
    /// does it: a beginning that is refused before it has changed no file.
    ///
    /// # Errors
    /// - [`SyncError::Io`]: the system refused a step,
    /// - [`SyncError::NoMemory`]: memory ran out.
    pub fn see_previous<C: Closure, R: Files + Clock + Eprint>(
        &mut self,
        files: &R,
        alloc: Global,
        configs: &GivenConfigs,
        path: &str,
    ) -> Result<(), FileFault> {
        self.fate = fate_of_found::<C, R>(files, alloc, configs, path)?;
        Ok(())
    }

    /// What the state file and its journal hold, under each configuration. Each side was offered
    /// all that the other holds. The state is one of the next configuration or, if there is
    /// one, of the previous one. What the other one held is in the file that a carry-over left.
    ///
    /// # Errors
    /// - Those of [`load_state`](crate::load_state): if the state is of neither configuration, the
    ///   one of the next one,
    /// - [`CommandError::Sync`]: the file of the other configuration is refused.
    pub fn load<C: Closure, R: Files<File = File> + Clock + Eprint>(
        &mut self,
        files: &R,
        alloc: Global,
        configs: &GivenConfigs,
        path: &str,
    ) -> Result<BegunSides<C>, CommandError> {
        match see_state(files, path) {
            Ok(found) => self.loaded = Some(found),
            Err(fault) => return Err(CommandError::Sync(fault.why)),
        }
        match load_sides(files, alloc, configs, path, self.fate, self.mode) {
            Ok(begun) => {
                self.beginning.done();
                Ok(begun)
            }
            Err(error) => {
                let _ = self.beginning.failed();
                Err(error)
            }
        }
    }

    /// Whether it continues although the save failed: the journal that was found is as it was.
    pub fn is_resumed(&self) -> bool {
        self.is_resumed
    }

    /// Carries over what was loaded, if the state is one of the previous configuration. Else it
    /// saves what was loaded, if there was a journal or no state file.
    ///
    /// # Errors
    /// - [`SyncError::Io`]: the system refused a step,
    /// - [`SyncError::NoMemory`]: memory ran out.
    pub fn save<C: Closure, R: Files<File = File> + Clock + Eprint>(
        &mut self,
        files: &R,
        alloc: Global,
        begun: &BegunSides<C>,
        path: &str,
    ) -> Result<(), FileFault> {
        if let Some(fate) = self.fate {
            settle_previous(files, alloc, fate, path)?;
        }
        if begun.carried.is_none() {
            return self.save_next(files, alloc, &begun.sides.next, path);
        }
        carry_over(files, alloc, &begun.sides, path, self.mode)?;
        self.loaded = Some(see_state(files, path)?);
        if let Some(mut carried) = Beginning::of(CARRIED_FILES, false) {
            // What the state file has is held.
            carried.done();
            self.beginning = carried;
        }
        self.has_journal = false;
        Ok(())
    }

    fn save_next<C: Closure, R: Files<File = File> + Clock + Eprint>(
        &mut self,
        files: &R,
        alloc: Global,
        closure: &C,
        path: &str,
    ) -> Result<(), FileFault> {
        let until = Some(FileStep::BeginJournal);
        self.change(files, alloc, closure, path, until)
    }

    /// Begins an empty journal; or continues with the journal that was found, if the state could
    /// not be saved.
    ///
    /// # Errors
    /// - [`SyncError::Io`]: the system refused a step, or what was loaded is not saved yet,
    /// - [`SyncError::NoMemory`]: memory ran out.
    pub fn begin_journal<C: Closure, R: Files<File = File> + Clock + Eprint>(
        mut self,
        files: &R,
        alloc: Global,
        closure: &C,
        path: &str,
    ) -> Result<Journal, FileFault> {
        if self.is_resumed {
            return resume_journal(files, alloc, path);
        }
        self.change(files, alloc, closure, path, None)?;
        let is_done = self.beginning.is_done();
        let state = self.state(files, path)?;
        match self.calls.made.take_journal() {
            Some(file) if is_done => Journal::of_file(alloc, file, state, path),
            _ => Err(FileFault::from(SyncError::Io)),
        }
    }

    // The state file: the one that was written here, or else the one that was loaded.
    fn state<R: Files<File = File>>(
        &mut self,
        files: &R,
        path: &str,
    ) -> Result<SeenState, FileFault> {
        match self.calls.made.take_snapshot() {
            Some(file) => Ok(SeenState::of_file(file)),
            None => match self.loaded.take() {
                Some(found) => Ok(found),
                None => see_state(files, path),
            },
        }
    }

    // The steps that are due, or those before this one.
    fn change<C: Closure, R: Files<File = File> + Clock + Eprint>(
        &mut self,
        files: &R,
        alloc: Global,
        closure: &C,
        path: &str,
        until: Option<FileStep>,
    ) -> Result<(), FileFault> {
        let with = ChangeWith {
            files,
            alloc,
            closure,
            path,
        };
        match begin(&mut self.calls, &with, &mut self.beginning, until) {
            Ok(()) => Ok(()),
            Err(failed) => {
                self.is_resumed = self.has_journal && failed.end == FoldEnd::JournalContinues;
                Err(failed.fault)
            }
        }
    }
}

/// Begins again while a replica runs: writes what it holds as the snapshot in the state file, and
/// begins an empty journal. Whatever the files were before, what is held is in them then. Nothing
/// is written if the lock's name leads to another file: another command may have the state.
///
/// # Errors
/// - [`AppendFault::File`]: the system refused a step, or memory ran out,
/// - [`AppendFault::Lost`]: the lock's name leads to another file.
pub fn begin_again<C: Closure, R: Files<File = File> + Clock + Eprint>(
    files: &R,
    alloc: Global,
    lock: &StateLock,
    closure: &C,
    path: &str,
    mode: ProgressMode,
) -> Result<Journal, AppendFault> {
    if lock.fate(files)? == FileFate::Replaced {
        return Err(AppendFault::Lost(LostFile::Lock));
    }
    let found = FoundFiles {
        has_state: true,
        has_journal: true,
    };
    let mut again = match StateBeginning::of(alloc, path, found, true, mode) {
        Ok(Some(again)) => again,
        Ok(None) => return Err(AppendFault::File(FileFault::from(SyncError::Io))),
        Err(refused) => return Err(AppendFault::File(FileFault::from(refused))),
    };
    // What the files have is held.
    again.beginning.done();
    again.save_next(files, alloc, closure, path)?;
    Ok(again.begin_journal(files, alloc, closure, path)?)
}
