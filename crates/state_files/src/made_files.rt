//! The steps that change the files of a state, as calls of the system.
use crate::file_names::{journal_path, new_path, sync_folder};
use crate::named_files::{remove_own, stale_file};
use crate::new_file::{create_new, write_closure};
use crate::own_file::OwnFile;
use crate::std_calls::ChangeWith;
use closure_core::Closure;
use command_exits::FileFault;
use fed_config::Config;
use progress_line::ProgressMode;
use replica_core::SyncError;
use replica_journal::begin_journal;
use state_steps::{FileFate, FileStep, ShortenStep};
use std::alloc::{AllocError, Global};
use std::fs;
use std::fs::{File, Files};
use std::io::Eprint;
use std::time::Clock;

/// The names of the files next to a state file, and the files that are made, each from its writing
/// on: the new snapshot, which has its own name later, and the journal.
#[derive(Drop)]
pub(crate) struct MadeFiles {
    new_name: String,
    journal_name: String,
    new: Option<OwnFile>,
    snapshot: Option<OwnFile>,
    journal: Option<OwnFile>,
    mode: ProgressMode,
}

impl MadeFiles {
    /// No file is made yet. The names take all memory that the steps take, but what is written. The
    /// mode says whether it is said how far the writing of a snapshot is.
    pub(crate) fn new(
        alloc: Global,
        path: &str,
        mode: ProgressMode,
    ) -> Result<MadeFiles, AllocError> {
        let journal_name = journal_path(alloc, path)?;
        Ok(MadeFiles {
            new_name: new_path(alloc, path)?,
            journal_name,
            new: None,
            snapshot: None,
            journal: None,
            mode,
        })
    }

    /// The same for a fold, which says nothing of how far its writing is.
    pub(crate) fn of_fold(alloc: Global, path: &str) -> Result<MadeFiles, AllocError> {
        MadeFiles::new(alloc, path, ProgressMode::Silent)
    }

    /// The snapshot that has its name now, once.
    pub(crate) fn take_snapshot(&mut self) -> Option<OwnFile> {
        self.snapshot.take()
    }

    /// The journal that was begun, once.
    pub(crate) fn take_journal(&mut self) -> Option<OwnFile> {
        self.journal.take()
    }

    /// Makes the file that gets the new snapshot piece by piece.
    pub(crate) fn begin_snapshot<R: Files<File = File>>(
        &mut self,
        files: &R,
        path: &str,
    ) -> Result<(), FileFault> {
        self.new = Some(create_new(files, self.new_name.as_str(), path)?);
        Ok(())
    }

    /// Appends a piece to it, and has the system put that on the disk.
    pub(crate) fn write_piece<R: Files>(
        &mut self,
        files: &R,
        piece: &[u8],
    ) -> Result<(), FileFault> {
        match &mut self.new {
            Some(file) => {
                file.refuse_touched(files, self.new_name.as_str())?;
                file.write(piece)?;
                file.settle()
            }
            None => Err(FileFault::from(SyncError::Io)),
        }
    }

    /// Does the step to the files of the state file at the path. If it fails, no new snapshot is
    /// left that never gets its name.
    pub(crate) fn do_step<C: Closure, R: Files<File = File> + Clock + Eprint>(
        &mut self,
        with: &ChangeWith<'_, C, R>,
        step: FileStep,
    ) -> Result<(), FileFault> {
        let done = self.try_step(with, step);
        if done.is_err() && step.leaves_new() {
            self.remove_new(with.files);
        }
        done
    }

    fn try_step<C: Closure, R: Files<File = File> + Clock + Eprint>(
        &mut self,
        with: &ChangeWith<'_, C, R>,
        step: FileStep,
    ) -> Result<(), FileFault> {
        let (files, alloc, path) = (with.files, with.alloc, with.path);
        match step {
            FileStep::WriteSnapshot => self.write_snapshot(files, alloc, with.closure, path),
            FileStep::SyncSnapshot => settle(&mut self.new),
            FileStep::ReplaceSnapshot => {
                self.snapshot = rename_new(files, &mut self.new, self.new_name.as_str(), path)?;
                Ok(())
            }
            FileStep::SyncFolder => sync_folder(files, path),
            FileStep::RemoveJournal => {
                self.refuse_other_state(files, path)?;
                remove_own(files, self.journal_name.as_str())
            }
            FileStep::BeginJournal => {
                self.begin_journal(files, alloc, with.closure.config(), path)
            }
            FileStep::SyncJournal => {
                settle(&mut self.journal)?;
                sync_folder(files, path)
            }
        }
    }

    // Without the snapshot that was written here the journal is all that there is.
    fn refuse_other_state<R: Files>(&self, files: &R, path: &str) -> Result<(), FileFault> {
        match &self.snapshot {
            Some(snapshot) => snapshot.refuse_touched(files, path),
            None => Err(stale_file()),
        }
    }

    fn write_snapshot<C: Closure, R: Files<File = File> + Clock + Eprint>(
        &mut self,
        files: &R,
        alloc: Global,
        closure: &C,
        path: &str,
    ) -> Result<(), FileFault> {
        let file = self
            .new
            .insert(create_new(files, self.new_name.as_str(), path)?);
        write_closure(files, alloc, closure, file, self.mode)
    }

    /// Does the step to the journal of the state file at the path. It is replaced by one that has
    /// its first line and these lines. If it fails before that, no new file is left.
    pub(crate) fn shorten<C: Closure, R: Files<File = File>>(
        &mut self,
        with: &ChangeWith<'_, C, R>,
        lines: &[u8],
        step: ShortenStep,
    ) -> Result<(), FileFault> {
        let done = match step {
            ShortenStep::WriteJournal => self.write_journal(with, lines),
            ShortenStep::SyncNew => settle(&mut self.new),
            ShortenStep::ReplaceJournal => self.replace_journal(with.files),
            ShortenStep::SyncFolder => sync_folder(with.files, with.path),
        };
        if done.is_err() {
            self.remove_new(with.files);
        }
        done
    }

    fn write_journal<C: Closure, R: Files<File = File>>(
        &mut self,
        with: &ChangeWith<'_, C, R>,
        lines: &[u8],
    ) -> Result<(), FileFault> {
        let mut first = Vec::new(with.alloc);
        begin_journal(with.alloc, with.closure.config(), &mut first)?;
        let file = self
            .new
            .insert(create_new(with.files, self.new_name.as_str(), with.path)?);
        file.write(first.as_slice())?;
        file.write(lines)
    }

    fn replace_journal<R: Files>(&mut self, files: &R) -> Result<(), FileFault> {
        let name = self.journal_name.as_str();
        self.journal = rename_new(files, &mut self.new, self.new_name.as_str(), name)?;
        Ok(())
    }

    /// Removes the new file that was made here, if its name leads to it. If it is still there
    /// afterwards, no harm is done: nobody reads it, and the next one takes its place.
    pub(crate) fn remove_new<R: Files>(&mut self, files: &R) {
        if let Some(new) = self.new.take()
            && let Ok(fate) = new.fate(files, self.new_name.as_str())
            && fate != FileFate::Replaced
        {
            let _ = fs::remove_file(files, self.new_name.as_str());
        }
    }

    // A new journal with only its first line.
    fn begin_journal<R: Files<File = File>>(
        &mut self,
        files: &R,
        alloc: Global,
        config: &Config,
        path: &str,
    ) -> Result<(), FileFault> {
        let mut line = Vec::new(alloc);
        begin_journal(alloc, config, &mut line)?;
        let mut file = create_new(files, self.journal_name.as_str(), path)?;
        file.write(line.as_slice())?;
        self.journal = Some(file);
        Ok(())
    }
}

// Gives the new file the name, if it is the one that was written here. Somebody else may have put
// another one there.
fn rename_new<R: Files>(
    files: &R,
    new: &mut Option<OwnFile>,
    from: &str,
    to: &str,
) -> Result<Option<OwnFile>, FileFault> {
    let Some(mut file) = new.take() else {
        return Err(stale_file());
    };
    if let Err(fault) = file.rename(files, from, to) {
        *new = Some(file);
        return Err(fault);
    }
    Ok(Some(file))
}

// Has the system put the file on the disk.
fn settle(file: &mut Option<OwnFile>) -> Result<(), FileFault> {
    match file {
        Some(file) => file.settle(),
        None => Ok(()),
    }
}
