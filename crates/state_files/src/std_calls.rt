//! The calls of the system that do the steps of a state's files, each with account of whether it
//! was done. No contract says that a step does to the files what `state_steps` says of it: that is
//! read here and in the files that are called, and shown by runs in which calls are refused and the
//! program is killed. All else about the order of the steps is proved over whatever does them.
ghost use Rattle.std.specs.Prelude.{◌≡◌, [], is_ok};
ghost use Rattle.state_calls.specs.Logs.{noted_lines, noted_steps};

use crate::file_names::sync_folder;
use crate::journal::{AppendFault, Journal, StateAt};
use crate::made_files::MadeFiles;
use crate::own_file::OwnFile;
use crate::previous_state::{refuse_other_new, replace_previous, write_previous};
use crate::save::save_state;
use crate::state::SeenState;
use closure_core::Closure;
use command_exits::FileFault;
use progress_line::ProgressMode;
use replica_core::SyncError;
use side_by_side::Sides;
use state_calls::{FoldCalls, LineCalls, LineLog, ShortenCalls, StepCalls, StepLog};
use state_steps::{
    AppendStep, CarrySide, CarryStep, FileStep, LostFile, ResumeStep, ShortenStep, lost_of,
};
use std::alloc::Global;
use std::fs::{File, Files};
use std::io::Eprint;
use std::time::Clock;

/// What a change of the state's files takes: what is held, and the path of the state file.
#[derive(Drop)]
pub(crate) struct ChangeWith<'a, C, R> {
    pub(crate) files: &'a R,
    pub(crate) alloc: Global,
    pub(crate) closure: &'a C,
    pub(crate) path: &'a str,
}

/// Changes the state's files.
#[derive(Drop)]
pub(crate) struct FileCalls {
    pub(crate) made: MadeFiles,
    changes: StepLog<FileStep>,
}

impl FileCalls {
    /// Nothing is changed yet.
    pub(crate) fn new(made: MadeFiles) -> FileCalls {
        FileCalls {
            made,
            changes: StepLog::new(),
        }
    }
}

impl<'a, C: Closure, R: Files<File = File> + Clock + Eprint> StepCalls<
    ChangeWith<'a, C, R>,
    FileStep,
    FileFault,
> for FileCalls {
    ghost tried = { λ it. noted_steps it.changes };

    fn try_step(&mut self, with: &ChangeWith<'a, C, R>, step: FileStep) -> Result<(), FileFault> {
        let done = self.made.do_step(with, step);
        self.changes.note(&step, done.is_ok());
        done
    }
}

/// What the end of a fold takes: the place of the state, and what is held.
#[derive(Drop)]
pub(crate) struct FoldWith<'a, C, R> {
    pub(crate) at: &'a StateAt<'a, R>,
    pub(crate) alloc: Global,
    pub(crate) closure: &'a C,
}

impl<'a, C: Closure, R> FoldWith<'a, C, R> {
    fn change(&self) -> ChangeWith<'a, C, R> {
        ChangeWith {
            files: self.at.files,
            alloc: self.alloc,
            closure: self.closure,
            path: self.at.path,
        }
    }
}

/// Changes the state's files at the end of a fold, next to the journal that is used until then.
#[derive(Drop)]
pub(crate) struct FoldFiles<'j> {
    pub(crate) made: MadeFiles,
    pub(crate) journal: &'j mut Journal,
    // Whether the last call was a look that found each file as it was left.
    is_seen: bool,
    changes: StepLog<FileStep>,
    shortenings: LineLog<ShortenStep>,
}

impl<'j> FoldFiles<'j> {
    /// The snapshot is written; nothing else is done yet.
    pub(crate) fn new(made: MadeFiles, journal: &'j mut Journal) -> FoldFiles<'j> {
        FoldFiles {
            made,
            journal,
            is_seen: false,
            changes: StepLog::new(),
            shortenings: LineLog::new(),
        }
    }

    fn see<R: Files>(&mut self, at: &StateAt<'_, R>) -> Result<(), AppendFault>
        ensures changes { self.new.changes ≡ self.old.changes }
        ensures shortenings { self.new.shortenings ≡ self.old.shortenings }
        ensures seen { self.new.is_seen ≡ is_ok result }
    {
        let found = self.journal.lost_file(at);
        self.is_seen = matches!(found, Ok(None));
        match found {
            Ok(None) => Ok(()),
            Ok(Some(lost)) => Err(AppendFault::Lost(lost)),
            Err(fault) => Err(AppendFault::File(fault)),
        }
    }

    // The journal knows the snapshot once that has its name.
    fn do_step<C: Closure, R: Files<File = File> + Clock + Eprint>(
        &mut self,
        with: &ChangeWith<'_, C, R>,
        step: FileStep,
    ) -> Result<(), FileFault>
        ensures { self.new.changes ≡ self.old.changes }
    {
        let done = self.made.do_step(with, step);
        if let Some(state) = self.made.take_snapshot() {
            self.journal.see(state);
        }
        done
    }
}

impl<'j, 'a, C: Closure, R: Files<File = File> + Clock + Eprint> FoldCalls<
    FoldWith<'a, C, R>,
    AppendFault,
> for FoldFiles<'j> {
    ghost tried = { λ it. noted_steps it.changes };

    ghost seen = { λ it. it.is_seen };

    fn look(&mut self, with: &FoldWith<'a, C, R>) -> Result<(), AppendFault> {
        self.see(with.at)
    }

    fn try_seen(&mut self, with: &FoldWith<'a, C, R>, step: FileStep) -> Result<(), AppendFault> {
        let done = self.do_step(&with.change(), step);
        self.changes.note(&step, done.is_ok());
        Ok(done?)
    }
}

impl<'j, 'a, C: Closure, R: Files<File = File>> ShortenCalls<FoldWith<'a, C, R>, AppendFault>
    for FoldFiles<'j> {
    ghost tried = { λ it. noted_lines it.shortenings };

    ghost seen = { λ it. it.is_seen };

    fn look(&mut self, with: &FoldWith<'a, C, R>) -> Result<(), AppendFault> {
        self.see(with.at)
    }

    fn try_seen(
        &mut self,
        with: &FoldWith<'a, C, R>,
        step: ShortenStep,
        lines: &[u8],
    ) -> Result<(), AppendFault> {
        let done = self.made.shorten(&with.change(), lines, step);
        self.shortenings.note(&step, lines, done.is_ok());
        Ok(done?)
    }
}

/// Appends lines to the journal.
#[derive(Drop)]
pub(crate) struct JournalCalls {
    pub(crate) file: OwnFile,
    name: String,
    pub(crate) state: SeenState,
    pub(crate) appends: LineLog<AppendStep>,
}

impl JournalCalls {
    /// The journal with this name in this file, next to this state file.
    pub(crate) fn new(file: OwnFile, name: String, state: SeenState) -> JournalCalls
        ensures { noted_lines result.appends ≡ [] }
    {
        JournalCalls {
            file,
            name,
            state,
            appends: LineLog::new(),
        }
    }

    /// The journal has this file now: the account begins again.
    pub(crate) fn begin_with(&mut self, file: OwnFile)
        ensures { noted_lines self.new.appends ≡ [] }
    {
        self.file = file;
        self.appends = LineLog::new();
    }

    /// The first of the lock, the journal and the state that is not as it was left, as [`lost_of`]
    /// says.
    pub(crate) fn lost_file<R: Files>(
        &mut self,
        at: &StateAt<'_, R>,
    ) -> Result<Option<LostFile>, FileFault>
        ensures { self.new.appends ≡ self.old.appends }
    {
        let lock = at.lock.fate(at.files)?;
        let journal = self.file.leave(at.files, self.name.as_str())?;
        let state = self.state.fate(at.files, at.path)?;
        Ok(lost_of(lock, journal, state))
    }

    fn do_step<R: Files>(
        &mut self,
        at: &StateAt<'_, R>,
        step: AppendStep,
        lines: &[u8],
    ) -> Result<(), AppendFault>
        ensures { self.new.appends ≡ self.old.appends }
    {
        match step {
            AppendStep::WriteLines => Ok(self.file.write(lines)?),
            AppendStep::SyncLines => match self.file.file().sync_data() {
                Ok(()) => Ok(()),
                Err(error) => Err(AppendFault::File(FileFault::from(error))),
            },
            AppendStep::SeeNames => match self.lost_file(at)? {
                None => Ok(()),
                Some(lost) => Err(AppendFault::Lost(lost)),
            },
        }
    }
}

impl<'a, R: Files> LineCalls<StateAt<'a, R>, AppendStep, AppendFault> for JournalCalls {
    ghost tried = { λ it. noted_lines it.appends };

    fn try_lines(
        &mut self,
        at: &StateAt<'a, R>,
        step: AppendStep,
        lines: &[u8],
    ) -> Result<(), AppendFault> {
        let done = self.do_step(at, step, lines);
        self.appends.note(&step, lines, done.is_ok());
        done
    }
}

/// What it takes to continue with a journal that was found: the path of the state file.
#[derive(Drop)]
pub(crate) struct ResumeWith<'a, R> {
    pub(crate) files: &'a R,
    pub(crate) path: &'a str,
}

/// Continues with a journal that was found.
#[derive(Drop)]
pub(crate) struct ResumeCalls {
    pub(crate) file: File,
    // How many bytes its whole lines have.
    whole: u64,
    steps: StepLog<ResumeStep>,
}

impl ResumeCalls {
    /// The journal in this file, whose whole lines have this many bytes.
    pub(crate) fn new(file: File, whole: u64) -> ResumeCalls {
        ResumeCalls {
            file,
            whole,
            steps: StepLog::new(),
        }
    }

    fn do_step<R: Files>(
        &self,
        with: &ResumeWith<'_, R>,
        step: ResumeStep,
    ) -> Result<(), FileFault> {
        match step {
            ResumeStep::SyncFound | ResumeStep::SyncCut => {
                self.file.sync_all()?;
                sync_folder(with.files, with.path)
            }
            ResumeStep::CutLine => Ok(self.file.set_len(self.whole)?),
        }
    }
}

impl<'a, R: Files> StepCalls<ResumeWith<'a, R>, ResumeStep, FileFault> for ResumeCalls {
    ghost tried = { λ it. noted_steps it.steps };

    fn try_step(&mut self, with: &ResumeWith<'a, R>, step: ResumeStep) -> Result<(), FileFault> {
        let done = self.do_step(with, step);
        self.steps.note(&step, done.is_ok());
        done
    }
}

/// What a carry-over takes: what is held under both configurations, and the path of the state file.
#[derive(Drop)]
pub(crate) struct CarryWith<'a, C, R> {
    pub(crate) files: &'a R,
    pub(crate) alloc: Global,
    pub(crate) sides: &'a Sides<C>,
    pub(crate) path: &'a str,
    pub(crate) mode: ProgressMode,
}

/// Carries a state over to another configuration.
#[derive(Drop)]
pub(crate) struct CarryCalls {
    // The new file of the previous state, if it is written.
    written: Option<OwnFile>,
    steps: StepLog<CarryStep>,
}

impl CarryCalls {
    /// Nothing is done yet.
    pub(crate) fn new() -> CarryCalls {
        CarryCalls {
            written: None,
            steps: StepLog::new(),
        }
    }

    fn do_step<C: Closure, R: Files<File = File> + Clock + Eprint>(
        &mut self,
        with: &CarryWith<'_, C, R>,
        step: CarryStep,
    ) -> Result<(), FileFault>
        ensures { self.new.steps ≡ self.old.steps }
    {
        let (files, alloc, path, mode) = (with.files, with.alloc, with.path, with.mode);
        let closure = match (step.side(), &with.sides.previous) {
            (CarrySide::Old, Some(previous)) => previous,
            (CarrySide::Old, None) => return Err(FileFault::from(SyncError::ConfigDiffers)),
            (CarrySide::New, _) => &with.sides.next,
        };
        match step {
            CarryStep::FoldState => save_state(files, alloc, closure, path, mode),
            CarryStep::WritePrevious => {
                self.written = Some(write_previous(files, alloc, closure, path, mode)?);
                Ok(())
            }
            CarryStep::SaveState => {
                refuse_other_new(files, alloc, self.written.as_ref(), path)?;
                save_state(files, alloc, closure, path, mode)
            }
            CarryStep::ReplacePrevious => {
                replace_previous(files, alloc, self.written.as_ref(), path)
            }
        }
    }
}

impl<'a, C: Closure, R: Files<File = File> + Clock + Eprint> StepCalls<
    CarryWith<'a, C, R>,
    CarryStep,
    FileFault,
> for CarryCalls {
    ghost tried = { λ it. noted_steps it.steps };

    fn try_step(&mut self, with: &CarryWith<'a, C, R>, step: CarryStep) -> Result<(), FileFault> {
        let done = self.do_step(with, step);
        self.steps.note(&step, done.is_ok());
        done
    }
}
