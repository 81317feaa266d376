//! The steps in which a running replica begins, in their order.
ghost use Rattle.std.specs.Prelude.{◌≡◌, ◌-◌, ◌↔◌, IsTrue, IsNone, IfSome, List, ℕ};
ghost use Rattle.state_steps.specs.Begins.{BeginKeeps, IsBeginDueOn, HasBegun, IsFoundOn};
ghost use Rattle.state_steps.specs.Begins.{IsWithoutState, begin_change, begin_step};
ghost use Rattle.state_steps.specs.Begins.{begin_end, begin_steps_left, first_stage};
ghost use Rattle.state_steps.specs.Begins.{following_begin};
ghost use Rattle.state_steps.specs.Files.{KeepsLine, SnapshotsKeep, StateDisk};
ghost use Rattle.state_steps.specs.Steps.{FailsDue, StateTexts, WritesLine, after_due};
ghost use Rattle.state_steps.specs.declared.beginning.BeginStage.TheVariants.{Done, Failed};
ghost use Rattle.state_steps.specs.declared.folding.FoldEnd.TheVariants.{JournalContinues};

use crate::file_step::FileStep;
use crate::folding::FoldEnd;

/// Which files of a state were found.
#[derive(Clone, Copy, Debug, PartialEq, Eq)]
pub struct FoundFiles {
    /// Whether there is a state file.
    pub has_state: bool,
    /// Whether there is a journal, or may be one.
    pub has_journal: bool,
}

/// A step of the beginning.
#[derive(Clone, Copy, Debug, PartialEq, Eq)]
pub enum BeginStep {
    /// What the state and its journal have is read.
    Load,
    /// The files are changed.
    Change(FileStep),
}

/// How far the beginning has come.
#[derive(Clone, Copy, Debug, PartialEq, Eq)]
enum BeginStage {
    /// All is read next, and then saved.
    LoadAndSave,
    /// All is read next. The snapshot has it.
    Load,
    /// The files are changed next.
    Change(FileStep),
    /// All steps are done.
    Done,
    /// A step failed.
    Failed,
}

/// The beginning of a running replica: what the files have is read. If there was a journal, or no
/// state, the state is saved, so that the snapshot has all of it. Then an empty journal is begun.
/// It says which step is due. Its caller says when the step is done, or that it failed.
///
/// At all times each line that was kept is a whole line of what a stop leaves of the snapshot or of
/// the journal, also if a step failed.
#[derive(Clone, Copy, Debug)]
pub struct Beginning {
    stage: BeginStage,
}

impl Beginning {
    /// The beginning with these files, or none if there is neither and the caller does not say that
    /// it may begin without them.
    ///
    /// - `refused`: when it returns none.
    /// - `keeps`: unless there is a journal now and none was found, each line that is kept is still
    ///   kept.
    /// - `stage`: what is read is saved if there is a journal, or no state.
    pub fn of(found: FoundFiles, may_be_new: bool) -> Option<Beginning>
        ensures refused { IsNone result ↔ IsWithoutState found may_be_new }
        ensures keeps { IfSome result (λ begin. (texts : StateTexts) (disk : StateDisk)
            (line : List ℕ) → IsFoundOn found disk → KeepsLine disk line
            → BeginKeeps texts begin disk line) }
        ensures stage { IfSome result (λ begin. begin.stage ≡ first_stage found) }
    {
        match (found.has_state, found.has_journal) {
            (false, false) if !may_be_new => None,
            (true, false) => Some(Beginning {
                stage: BeginStage::Load,
            }),
            _ => Some(Beginning {
                stage: BeginStage::LoadAndSave,
            }),
        }
    }

    /// The step that is due; none if the beginning is over.
    pub fn next(&self) -> Option<BeginStep>
        ensures { result ≡ begin_step self.now.stage }
    {
        match self.stage {
            BeginStage::LoadAndSave | BeginStage::Load => Some(BeginStep::Load),
            BeginStage::Change(step) => Some(BeginStep::Change(step)),
            BeginStage::Done | BeginStage::Failed => None,
        }
    }

    /// Whether all steps are done: the journal is begun.
    pub fn is_done(&self) -> bool
        ensures { IsTrue result ↔ (self.now.stage ≡ Done) }
    {
        match self.stage {
            BeginStage::Done => true,
            _ => false,
        }
    }

    /// Says that the step that was due is done.
    ///
    /// - `due`: the files are as they have to be for the next step.
    /// - `keeps`: no line is lost, if the snapshot is written with each line that is kept then.
    /// - `begun`: after the last step the beginning is done: the journal has only its first line,
    ///   and is on the disk.
    /// - `holds`: the snapshot has each line that was kept.
    /// - `steps`: each step is one fewer.
    /// - `failed`: if a step failed, the beginning has failed for good.
    pub fn done(&mut self)
        ensures due { (texts : StateTexts) (disk : StateDisk)
            → IsBeginDueOn texts self.old.stage disk
            → IsBeginDueOn texts self.new.stage
            (after_due texts (begin_change self.old.stage) disk) }
        ensures keeps { (texts : StateTexts) (disk : StateDisk) (line : List ℕ)
            → BeginKeeps texts self.old disk line
            → WritesLine texts (begin_change self.old.stage) line
            → BeginKeeps texts self.new (after_due texts (begin_change self.old.stage) disk) line }
        ensures begun { (texts : StateTexts) (disk : StateDisk)
            → begin_steps_left self.old.stage ≡ 1 → IsBeginDueOn texts self.old.stage disk
            → HasBegun texts self.new (after_due texts (begin_change self.old.stage) disk) }
        ensures holds { (texts : StateTexts) (disk : StateDisk) (line : List ℕ)
            → begin_steps_left self.old.stage ≡ 1 → BeginKeeps texts self.old disk line
            → SnapshotsKeep disk.snapshot line }
        ensures steps { begin_steps_left self.new.stage ≡ begin_steps_left self.old.stage - 1 }
        ensures failed { self.old.stage ≡ Failed → self.new.stage ≡ Failed }
    {
        self.stage = stage_after(self.stage);
    }

    /// Says that the step that was due failed: what it left is its work, or none or a part of it.
    /// It returns what is to be done.
    ///
    /// - `keeps`: no line is lost.
    /// - `continues`: if the journal is continued, it is as it was found.
    /// - `ends`: it is continued if the state was to be written.
    /// - `over`: the beginning is over, and not done.
    pub fn failed(&mut self) -> FoldEnd
        ensures keeps { (texts : StateTexts) (disk left : StateDisk) (line : List ℕ)
            → BeginKeeps texts self.old disk line
            → FailsDue texts (begin_change self.old.stage) disk left
            → BeginKeeps texts self.new left line }
        ensures continues { (texts : StateTexts) (disk left : StateDisk) → result ≡ JournalContinues
            → FailsDue texts (begin_change self.old.stage) disk left
            → left.journal ≡ disk.journal }
        ensures ends { result ≡ begin_end self.old.stage }
        ensures over { self.new.stage ≡ Failed }
    {
        let end = match self.stage {
            BeginStage::Change(
                FileStep::WriteSnapshot
                | FileStep::SyncSnapshot
                | FileStep::ReplaceSnapshot
                | FileStep::SyncFolder,
            ) => FoldEnd::JournalContinues,
            _ => FoldEnd::ReplicaEnds,
        };
        self.stage = BeginStage::Failed;
        end
    }
}

// The stage after this one, when the step that is due is done.
fn stage_after(stage: BeginStage) -> BeginStage
    ensures { result ≡ following_begin stage }
{
    let next = match stage {
        BeginStage::LoadAndSave => FileStep::WriteSnapshot,
        BeginStage::Load => FileStep::BeginJournal,
        BeginStage::Change(FileStep::WriteSnapshot) => FileStep::SyncSnapshot,
        BeginStage::Change(FileStep::SyncSnapshot) => FileStep::ReplaceSnapshot,
        BeginStage::Change(FileStep::ReplaceSnapshot) => FileStep::SyncFolder,
        BeginStage::Change(FileStep::SyncFolder) => FileStep::RemoveJournal,
        BeginStage::Change(FileStep::RemoveJournal) => FileStep::BeginJournal,
        BeginStage::Change(FileStep::BeginJournal) => FileStep::SyncJournal,
        BeginStage::Change(FileStep::SyncJournal) => return BeginStage::Done,
        over => return over,
    };
    BeginStage::Change(next)
}
