//! The files in which a running replica keeps what it holds: the lock, the state and its journal.
use crate::error_stream::ErrorStream;
use crate::event_log::{LogEvent, log_event};
use change_view::TurnTexts;
use closure_core::Closure;
use command_exits::FileFault;
use progress_line::ProgressMode;
use replica_core::SyncError;
use state_files::{
    AppendFault, AppendStep, AuditFile, FoldFault, FoldPiece, FoldResult, Journal, KeepStep,
    Keeping, LostFile, OnDisk, StateFold, StateLock, begin_again, save_snapshot, stale_file,
};
use std::alloc::Global;
use std::fs::{File, Files};
use std::io::Eprint;
use std::time::Clock;

/// How many steps there are until the changes of a turn are on the disk: three with the audit file,
/// and one with the state's files.
const KEEP_STEPS: u32 = 4;

/// Why a change is not on the disk.
#[derive(Clone, Copy, Debug)]
pub enum KeepFault {
    /// The audit file could not be written: the journal has nothing of the change.
    Audit(FileFault),
    /// The journal or the state file could not be written.
    State(FileFault),
}

impl From<FileFault> for KeepFault {
    fn from(fault: FileFault) -> KeepFault {
        KeepFault::State(fault)
    }
}

/// The files of a running replica.
#[derive(Drop)]
pub struct KeptFiles {
    lock: StateLock,
    journal: Journal,
    audit: Option<AuditFile>,
    // Which of the audit file and the state's files is due.
    keeping: Keeping,
    // Whether an error came while the journal got another file: the state's files have all that is
    // held, and no line may be appended before a journal is begun again.
    is_unsettled: bool,
    // The new snapshot, if one is being written.
    fold: Option<StateFold>,
    // How often the snapshot was written again.
    folds: u64,
    progress: ProgressMode,
}

impl KeptFiles {
    pub fn new(
        lock: StateLock,
        journal: Journal,
        audit: Option<AuditFile>,
        progress: ProgressMode,
    ) -> KeptFiles {
        KeptFiles {
            lock,
            journal,
            audit,
            keeping: Keeping::begin(),
            is_unsettled: false,
            fold: None,
            folds: 0,
            progress,
        }
    }

    /// Whether there is an audit file.
    pub fn has_audit(&self) -> bool {
        self.audit.is_some()
    }

    /// How often the snapshot was written again.
    pub fn folds(&self) -> u64 {
        self.folds
    }

    /// How many bytes the state file has.
    pub fn snapshot_bytes(&self) -> u64 {
        self.journal.snapshot_bytes()
    }

    /// How many bytes the journal has.
    pub fn journal_bytes(&self) -> u64 {
        self.journal.bytes()
    }

    /// Puts on the disk what came, and looks whether it is in the files that have the names. Only
    /// then it may be acknowledged, with the token that is given. The lines of the audit file are
    /// on the disk first, in the order of [`Keeping`], so a kill leaves no change there is no line
    /// of.
    pub fn keep<C: Closure, R: Files<File = File> + Clock + Eprint>(
        &mut self,
        rt: &R,
        alloc: Global,
        errors: &mut ErrorStream,
        closure: &C,
        texts: &TurnTexts<'_>,
        path: &str,
    ) -> Result<OnDisk, KeepFault> {
        self.keeping.add(!texts.audit.is_empty());
        let mut on_disk = None;
        for _ in 0..KEEP_STEPS {
            let Some(step) = self.keeping.next() else {
                break;
            };
            let done = match step {
                KeepStep::Audit(step) => self.audit_step(rt, texts.audit.as_slice(), step),
                KeepStep::State => {
                    let lines = texts.journal.as_slice();
                    self.keep_state(rt, alloc, errors, closure, lines, path)
                }
            };
            if let Err(fault) = done {
                self.keeping.failed();
                return Err(fault);
            }
            on_disk = self.keeping.done();
        }
        match on_disk {
            Some(on_disk) => Ok(on_disk),
            None => Err(KeepFault::State(FileFault::from(SyncError::Io))),
        }
    }

    fn audit_step<R: Files>(
        &mut self,
        files: &R,
        lines: &[u8],
        step: AppendStep,
    ) -> Result<(), KeepFault> {
        match &mut self.audit {
            Some(audit) => match audit.do_step(files, lines, step) {
                Ok(()) => Ok(()),
                Err(fault) => Err(KeepFault::Audit(fault)),
            },
            None => Ok(()),
        }
    }

    fn keep_state<C: Closure, R: Files<File = File> + Clock + Eprint>(
        &mut self,
        rt: &R,
        alloc: Global,
        errors: &mut ErrorStream,
        closure: &C,
        lines: &[&[u8]],
        path: &str,
    ) -> Result<(), KeepFault> {
        if self.is_unsettled {
            if lines.is_empty() {
                return Ok(());
            }
            return Ok(self.begin_again(rt, alloc, errors, closure, path)?);
        }
        match self.append(rt, lines, path) {
            Ok(()) => Ok(()),
            Err(AppendFault::File(fault)) => Err(KeepFault::State(fault)),
            Err(AppendFault::Lost(lost)) => {
                self.mend(rt, alloc, errors, closure, path, lost)?;
                Ok(())
            }
        }
    }

    fn append<R: Files>(
        &mut self,
        files: &R,
        lines: &[&[u8]],
        path: &str,
    ) -> Result<(), AppendFault> {
        let at = self.lock.at(files, path);
        if lines.iter().all(|part| part.is_empty()) {
            return self.journal.sync(&at);
        }
        if let Some(lost) = self.journal.lost_file(&at)? {
            return Err(AppendFault::Lost(lost));
        }
        for &part in lines {
            self.journal.append(&at, part)?;
        }
        self.journal.sync(&at)
    }

    // Others replaced or changed a file. All that is held is written again; if the journal's name
    // leads to another file, the replica ends after that; and if the lock's does, another command
    // may have the state, so nothing is written.
    fn mend<C: Closure, R: Files<File = File> + Clock + Eprint>(
        &mut self,
        rt: &R,
        alloc: Global,
        errors: &mut ErrorStream,
        closure: &C,
        path: &str,
        lost: LostFile,
    ) -> Result<(), FileFault> {
        // Its file has no name any more, or is that of who has the state now.
        self.fold = None;
        log_event(rt, alloc, errors, LogEvent::Lost(lost));
        match lost {
            LostFile::Lock => Err(stale_file()),
            LostFile::Journal => {
                if let Err(fault) = save_snapshot(rt, alloc, closure, path, self.progress) {
                    log_event(rt, alloc, errors, LogEvent::FoldFault(fault.why));
                }
                Err(stale_file())
            }
            LostFile::JournalText | LostFile::State => {
                self.begin_again(rt, alloc, errors, closure, path)
            }
        }
    }

    // If another command may have the state, nothing is written, and the replica ends.
    fn begin_again<C: Closure, R: Files<File = File> + Clock + Eprint>(
        &mut self,
        rt: &R,
        alloc: Global,
        errors: &mut ErrorStream,
        closure: &C,
        path: &str,
    ) -> Result<(), FileFault> {
        match begin_again(rt, alloc, &self.lock, closure, path, self.progress) {
            Ok(journal) => self.journal = journal,
            Err(AppendFault::File(fault)) => return Err(fault),
            Err(AppendFault::Lost(lost)) => {
                log_event(rt, alloc, errors, LogEvent::Lost(lost));
                return Err(stale_file());
            }
        }
        self.is_unsettled = false;
        self.note_fold(rt, alloc, errors);
        Ok(())
    }

    /// Whether a new snapshot is being written.
    pub fn is_folding(&self) -> bool {
        self.fold.is_some()
    }

    /// Writes the state file again if the journal is long, one piece a call. If that fails, the
    /// journal is still used, or is begun again before the next change is acknowledged.
    pub fn fold<C: Closure, R: Files<File = File> + Clock + Eprint>(
        &mut self,
        rt: &R,
        alloc: Global,
        errors: &mut ErrorStream,
        closure: &C,
        path: &str,
    ) -> Result<(), FileFault> {
        if let Some(fold) = self.fold.take() {
            return self.continue_fold(rt, alloc, errors, closure, path, fold);
        }
        if self.is_unsettled || !self.journal.is_long() {
            return Ok(());
        }
        if self.has_names(rt, alloc, errors, closure, path)? {
            match StateFold::begin(rt, alloc, closure, path, &mut self.journal) {
                Ok(fold) => self.fold = Some(fold),
                Err(fault) => self.put_off(rt, alloc, errors, fault),
            }
        }
        Ok(())
    }

    // Whether the files are as this replica left them. If one is not, all that is held is written
    // again, or the replica ends; if the system does not say it, the fold is put off.
    fn has_names<C: Closure, R: Files<File = File> + Clock + Eprint>(
        &mut self,
        rt: &R,
        alloc: Global,
        errors: &mut ErrorStream,
        closure: &C,
        path: &str,
    ) -> Result<bool, FileFault> {
        let at = self.lock.at(rt, path);
        match self.journal.lost_file(&at) {
            Ok(None) => return Ok(true),
            Ok(Some(lost)) => self.mend(rt, alloc, errors, closure, path, lost)?,
            Err(fault) => self.put_off(rt, alloc, errors, fault),
        }
        Ok(false)
    }

    fn continue_fold<C: Closure, R: Files<File = File> + Clock + Eprint>(
        &mut self,
        rt: &R,
        alloc: Global,
        errors: &mut ErrorStream,
        closure: &C,
        path: &str,
        mut fold: StateFold,
    ) -> Result<(), FileFault> {
        if !self.has_names(rt, alloc, errors, closure, path)? {
            fold.give_up(rt);
            return Ok(());
        }
        match fold.write_piece(rt, alloc, closure, &self.journal) {
            Ok(FoldPiece::More) => self.fold = Some(fold),
            Ok(FoldPiece::Last) => return self.end_fold(rt, alloc, errors, closure, path, fold),
            Err(fault) => {
                fold.give_up(rt);
                self.put_off(rt, alloc, errors, fault);
            }
        }
        Ok(())
    }

    fn end_fold<C: Closure, R: Files<File = File> + Clock + Eprint>(
        &mut self,
        rt: &R,
        alloc: Global,
        errors: &mut ErrorStream,
        closure: &C,
        path: &str,
        fold: StateFold,
    ) -> Result<(), FileFault> {
        let at = self.lock.at(rt, path);
        match fold.end(&at, alloc, closure, &mut self.journal) {
            Ok(FoldResult::Short) => self.note_fold(rt, alloc, errors),
            Ok(FoldResult::Long) => {
                self.journal.put_off();
                self.note_fold(rt, alloc, errors);
            }
            Err(FoldFault::Kept(fault)) => self.put_off(rt, alloc, errors, fault),
            Err(FoldFault::Emptying(fault)) => {
                self.is_unsettled = true;
                log_event(rt, alloc, errors, LogEvent::FoldFault(fault.why));
            }
            Err(FoldFault::Lost(lost)) => {
                return self.mend(rt, alloc, errors, closure, path, lost);
            }
        }
        Ok(())
    }

    /// The replica ends: a snapshot that is being written is given up, unless another command has
    /// the state.
    pub fn end<R: Files>(&mut self, files: &R, path: &str) {
        let at = self.lock.at(files, path);
        if let Some(fold) = self.fold.take()
            && let Ok(None) = self.journal.lost_file(&at)
        {
            fold.give_up(files);
        }
    }

    fn note_fold<R: Eprint>(&mut self, rt: &R, alloc: Global, errors: &mut ErrorStream) {
        self.folds = self.folds.saturating_add(1);
        log_event(rt, alloc, errors, LogEvent::Fold(self.snapshot_bytes()));
    }

    fn put_off<R: Eprint>(
        &mut self,
        rt: &R,
        alloc: Global,
        errors: &mut ErrorStream,
        fault: FileFault,
    ) {
        self.journal.put_off();
        log_event(rt, alloc, errors, LogEvent::FoldFault(fault.why));
    }
}
