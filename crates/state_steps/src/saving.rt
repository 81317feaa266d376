//! The steps of a save, in their order.
ghost use Rattle.std.specs.Prelude.{◌≡◌, ◌≢◌, ◌-◌, ◌↔◌, IsTrue, List, ℕ};
ghost use Rattle.state_steps.specs.Files.{HasWholeLine, KeepsLine, StateDisk};
ghost use Rattle.state_steps.specs.Saves.{IsSaveDueOn, IsSaved, SaveKeeps, following_save};
ghost use Rattle.state_steps.specs.Saves.{save_step, save_steps_left};
ghost use Rattle.state_steps.specs.Steps.{FailsDue, StateTexts, WritesLine, after_due};
ghost use Rattle.state_steps.specs.declared.saving.SaveStage.TheVariants.{Done, Failed};

use crate::file_step::FileStep;

/// How far a save has come.
#[derive(Clone, Copy, Debug, PartialEq, Eq)]
enum SaveStage {
    /// This step comes next.
    Due(FileStep),
    /// All steps are done.
    Done,
    /// A step failed.
    Failed,
}

/// A save: all that is held takes the place of the snapshot, and then the journal is removed. It
/// says which step is due. Its caller says when the step is done, or that it failed.
///
/// At all times each line that was kept is a whole line of what a stop leaves of the snapshot or of
/// the journal, also if a step failed.
#[derive(Clone, Copy, Debug)]
pub struct Saving {
    stage: SaveStage,
}

impl Saving {
    /// The beginning of a save.
    ///
    /// - `keeps`: it may begin at any time, whatever was written under the name of the new file.
    ///   Each line that is kept then is still kept.
    /// - `steps`: it has five steps.
    pub fn begin() -> Saving
        ensures keeps { (texts : StateTexts) (disk : StateDisk) (line : List ℕ)
            → KeepsLine disk line → SaveKeeps texts result disk line }
        ensures steps { save_steps_left result.stage ≡ 5 }
    {
        Saving {
            stage: SaveStage::Due(FileStep::WriteSnapshot),
        }
    }

    /// The step that is due; none if the save is over.
    pub fn next(&self) -> Option<FileStep>
        ensures { result ≡ save_step self.now.stage }
    {
        match self.stage {
            SaveStage::Due(step) => Some(step),
            SaveStage::Done | SaveStage::Failed => None,
        }
    }

    /// Whether all steps are done.
    pub fn is_done(&self) -> bool
        ensures { IsTrue result ↔ (self.now.stage ≡ Done) }
    {
        match self.stage {
            SaveStage::Done => true,
            _ => false,
        }
    }

    /// Says that the step that was due is done.
    ///
    /// - `due`: the files are as they have to be for the next step.
    /// - `keeps`: no line is lost, if the snapshot is written with each line that is kept then.
    /// - `saved`: after the last step the save is done. The snapshot is the new one, and there is
    ///   no journal.
    /// - `holds`: the snapshot has each line that was kept.
    /// - `steps`: each step is one fewer.
    /// - `failed`: if a step failed, the save has failed for good.
    pub fn done(&mut self)
        ensures due { (texts : StateTexts) (disk : StateDisk)
            → IsSaveDueOn texts self.old.stage disk
            → IsSaveDueOn texts self.new.stage (after_due texts (save_step self.old.stage) disk) }
        ensures keeps { (texts : StateTexts) (disk : StateDisk) (line : List ℕ)
            → SaveKeeps texts self.old disk line
            → WritesLine texts (save_step self.old.stage) line
            → SaveKeeps texts self.new (after_due texts (save_step self.old.stage) disk) line }
        ensures saved { (texts : StateTexts) (disk : StateDisk)
            → save_steps_left self.old.stage ≡ 1 → IsSaveDueOn texts self.old.stage disk
            → IsSaved texts self.new (after_due texts (save_step self.old.stage) disk) }
        ensures holds { (texts : StateTexts) (disk : StateDisk) (line : List ℕ)
            → save_steps_left self.old.stage ≡ 1 → SaveKeeps texts self.old disk line
            → HasWholeLine texts.snapshot line }
        ensures steps { save_steps_left self.new.stage ≡ save_steps_left self.old.stage - 1 }
        ensures failed { self.old.stage ≡ Failed → self.new.stage ≡ Failed }
    {
        self.stage = stage_after(self.stage);
    }

    /// Says that the step that was due failed: what it left is its work, or none or a part of it.
    ///
    /// - `keeps`: no line is lost.
    /// - `over`: the save is over, and not done.
    pub fn failed(&mut self)
        ensures keeps { (texts : StateTexts) (disk left : StateDisk) (line : List ℕ)
            → SaveKeeps texts self.old disk line
            → FailsDue texts (save_step self.old.stage) disk left
            → SaveKeeps texts self.new left line }
        ensures over { self.new.stage ≡ Failed }
    {
        self.stage = SaveStage::Failed;
    }
}

// The stage after this one, when the step that is due is done. No save begins a journal.
fn stage_after(stage: SaveStage) -> SaveStage
    ensures { result ≡ following_save stage }
{
    match stage {
        SaveStage::Due(FileStep::WriteSnapshot) => SaveStage::Due(FileStep::SyncSnapshot),
        SaveStage::Due(FileStep::SyncSnapshot) => SaveStage::Due(FileStep::ReplaceSnapshot),
        SaveStage::Due(FileStep::ReplaceSnapshot) => SaveStage::Due(FileStep::SyncFolder),
        SaveStage::Due(FileStep::SyncFolder) => SaveStage::Due(FileStep::RemoveJournal),
        SaveStage::Due(FileStep::RemoveJournal) => SaveStage::Done,
        SaveStage::Due(_) => SaveStage::Failed,
        over => over,
    }
}
