//! The journal of a running replica: what came since the snapshot was written.
ghost use Rattle.std.specs.Prelude.{◌≡◌, ◌∷◌, ◌++◌, ◌⊎◌, [], List, ℕ, IfOk, OnErr, OnOk};

use crate::file_names::journal_path;
use crate::lock::StateLock;
use crate::own_file::OwnFile;
use crate::state::SeenState;
use crate::std_calls::JournalCalls;
use command_exits::FileFault;
use replica_core::SyncError;
use state_calls::{append_lines, sync_lines};
use state_steps::{Appending, LostFile, Since};
use std::alloc::Global;
use std::fs::Files;

/// A journal is folded into the snapshot when it has more bytes than this, and more than half of
/// the snapshot's.
const LONG_JOURNAL: u64 = 8_388_608;

/// A journal is shortened to what came while the snapshot was written, if that has at most this
/// many bytes, or a quarter of those of both files if that is more. Else it is folded again later.
const LEAST_SINCE: u64 = 16_777_216;

/// Why lines may not be acknowledged.
#[derive(Clone, Copy, Debug)]
pub enum AppendFault {
    /// The system refused a step.
    File(FileFault),
    /// A file is not as it was left. The lines may be on the disk.
    Lost(LostFile),
}

impl From<FileFault> for AppendFault {
    fn from(fault: FileFault) -> AppendFault {
        AppendFault::File(fault)
    }
}

/// The place of a state: its lock, and the path of the state file.
#[derive(Drop)]
pub struct StateAt<'a, R> {
    pub files: &'a R,
    pub lock: &'a StateLock,
    pub path: &'a str,
}

/// The journal's file, to which lines are appended, the state file next to it, and how many bytes
/// the two have. [`Appending`] says what comes next: after an error nothing is appended any more.
#[derive(Drop)]
pub struct Journal {
    calls: JournalCalls,
    appending: Appending,
    // How long it is when it is folded next, if folding it was refused before.
    fold_at: u64,
    // What was appended since the fold under way began; empty without a fold.
    since: Option<Since>,
}

impl Journal {
    ghost use Rattle.state_files.specs.Journals.{AreFilesOf, CameIfAny, HasAsText};
    ghost use Rattle.state_steps.specs.Files.{HasWholeLine, KeepsLine, StateDisk, kept_file};
    ghost use Rattle.state_steps.specs.declared.appending.AppendStage.TheVariants.{Due, Failed};
    ghost use Rattle.state_steps.specs.declared.appending.AppendStep.TheVariants.{WriteLines};

    /// The journal whose file was begun next to a state file that has all that is held.
    ///
    /// - `begun`: it has what its file has, all of which is on the disk.
    pub(crate) fn of_file(
        alloc: Global,
        file: OwnFile,
        state: SeenState,
        path: &str,
    ) -> Result<Journal, FileFault>
        ensures begun { IfOk result (λ journal. (first : StateDisk) (written : List ℕ)
            → first.journal ≡ kept_file written ∷ [] → HasAsText journal first written) }
    {
        let fold_at = LONG_JOURNAL.max(state.bytes() / 2);
        Ok(Journal {
            calls: JournalCalls::new(file, journal_path(alloc, path)?, state),
            appending: Appending::begin(),
            fold_at,
            since: None,
        })
    }

    /// The state file was replaced by this one, which was written here.
    pub(crate) fn see(&mut self, state: OwnFile) {
        self.calls.state = SeenState::of_file(state);
    }

    /// A fold begins: what is appended from now on is kept in memory too.
    pub(crate) fn begin_fold(&mut self, alloc: Global) {
        let most = LEAST_SINCE.max((self.snapshot_bytes() / 4).saturating_add(self.bytes() / 4));
        self.since = Some(Since::begin(alloc, usize::try_from(most).unwrap_or(usize::MAX)));
    }

    /// What was appended since the fold began, once.
    pub(crate) fn take_since(&mut self) -> Option<Since> {
        self.since.take()
    }

    /// It has another file now, which has what came since the fold began: it continues in this one.
    ///
    /// - `begun`: it has what that file has, all of which is on the disk.
    pub(crate) fn begin_with(&mut self, file: OwnFile)
        ensures begun { (first : StateDisk) (written : List ℕ)
            → first.journal ≡ kept_file written ∷ [] → HasAsText self.new first written }
    {
        self.calls.begin_with(file);
        self.since = None;
        self.appending = Appending::begin();
        self.fold_at = LONG_JOURNAL.max(self.snapshot_bytes() / 2);
    }

    /// Appends the lines. After an error what the disk holds is not known.
    ///
    /// - `written`: they are in its file, after what was written before.
    /// - `came`: they are noted, if a fold is under way.
    /// - `over`: after an error nothing more is appended.
    ///
    /// # Errors
    /// `NoMemory` if the system says that memory ran out, and else `Io`; `Io` also if an earlier
    /// call failed.
    pub fn append<R: Files>(&mut self, at: &StateAt<'_, R>, lines: &[u8]) -> Result<(), AppendFault>
        ensures written { (first : StateDisk) (written : List ℕ)
            → HasAsText self.old first written
            → OnOk result (HasAsText self.new first (written ++ lines.now)) }
        ensures came { (came : List ℕ) → CameIfAny self.old.since came
            → OnOk result (CameIfAny self.new.since (came ++ lines.now)) }
        ensures over { OnErr result (self.new.appending.stage ≡ Failed) }
    {
        if lines.is_empty() {
            return Ok(());
        }
        if !append_lines(&mut self.calls, at, &mut self.appending, lines)? {
            return Err(AppendFault::File(FileFault::from(SyncError::Io)));
        }
        if let Some(since) = &mut self.since {
            since.note(lines);
        }
        Ok(())
    }

    /// Has the system write to the disk what was appended, and looks whether the files of the lock,
    /// of the journal and of the state at the path are as they were left. Only then the lines may
    /// be acknowledged. After an error what the disk holds is not known.
    ///
    /// - `acknowledged`: whatever a stop leaves from now on, each whole line that was written is
    ///   kept.
    /// - `refused`: there is an error only if a step failed, or lines were announced and not
    ///   written.
    ///
    /// # Errors
    /// - [`AppendFault::File`]: `NoMemory` if the system says that memory ran out, and else `Io`;
    ///   `Io` also if an earlier call failed,
    /// - [`AppendFault::Lost`]: others replaced or changed a file.
    pub fn sync<R: Files>(&mut self, at: &StateAt<'_, R>) -> Result<(), AppendFault>
        ensures acknowledged { (first : StateDisk) (written line : List ℕ)
            → HasAsText self.old first written → HasWholeLine written line
            → OnOk result (AreFilesOf self.new first (λ disk. KeepsLine disk line)) }
        ensures refused { OnErr result ((self.new.appending.stage ≡ Failed)
            ⊎ (self.new.appending.stage ≡ Due WriteLines)) }
    {
        if sync_lines(&mut self.calls, at, &mut self.appending)? {
            Ok(())
        } else {
            Err(AppendFault::File(FileFault::from(SyncError::Io)))
        }
    }

    /// The first of the lock, the journal and the state that is not as it was left, as
    /// [`lost_of`](state_steps::lost_of) says.
    ///
    /// # Errors
    /// If the system does not say: `NoMemory` if memory ran out, and else `Io`.
    pub fn lost_file<R: Files>(
        &mut self,
        at: &StateAt<'_, R>,
    ) -> Result<Option<LostFile>, FileFault> {
        self.calls.lost_file(at)
    }

    /// Whether it is long enough to be folded.
    pub fn is_long(&self) -> bool {
        self.bytes() > self.fold_at
    }

    /// It could not be folded, or got too much meanwhile: it is tried again when the journal is
    /// longer by the bytes of a long one.
    pub fn put_off(&mut self) {
        self.since = None;
        self.fold_at = self.bytes().saturating_add(LONG_JOURNAL);
    }

    /// How many bytes the snapshot has.
    pub fn snapshot_bytes(&self) -> u64 {
        self.calls.state.bytes()
    }

    /// How many bytes the journal has.
    pub fn bytes(&self) -> u64 {
        self.calls.file.bytes()
    }
}
