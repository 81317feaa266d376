//! The steps in which a replica continues with the journal that it found, in their order.
ghost use Rattle.std.specs.Prelude.{◌≡◌, ◌-◌, ◌∷◌, [], ◌↔◌, IsTrue, List, ℕ};
ghost use Rattle.state_steps.specs.Files.{KeepsLine, StateDisk, kept_file};
ghost use Rattle.state_steps.specs.Resumes.{FailsResume, IsCutAtLine, IsReadNow, IsResumedOn};
ghost use Rattle.state_steps.specs.Resumes.{ResumeKeeps, ResumeTexts, after_resume};
ghost use Rattle.state_steps.specs.Resumes.{following_resume};
ghost use Rattle.state_steps.specs.Resumes.{resume_step, resume_steps_left};
ghost use Rattle.state_steps.specs.declared.resuming.ResumeStage.TheVariants.{Done, Failed};

/// A step in which a replica continues with a journal.
#[derive(Clone, Copy, Debug, PartialEq, Eq)]
pub enum ResumeStep {
    /// The system puts the journal as it was found, and the folder, on the disk.
    SyncFound,
    /// The part of a line at the journal's end is cut off.
    CutLine,
    /// The system puts that on the disk.
    SyncCut,
}

/// How far it has come.
#[derive(Clone, Copy, Debug, PartialEq, Eq)]
enum ResumeStage {
    /// This step comes next.
    Due(ResumeStep),
    /// All steps are done.
    Done,
    /// A step failed.
    Failed,
}

/// A replica could not write the state at its beginning, and continues with the journal that it
/// found. A kill may have left a part of a line at its end, after which no line may be appended. It
/// says which step is due. Its caller says when the step is done, or that it failed.
///
/// At all times each line that was kept is a whole line of what a stop leaves of the snapshot or of
/// the journal, also if a step failed.
#[derive(Clone, Copy, Debug)]
pub struct Resuming {
    stage: ResumeStage,
}

impl Resuming {
    /// The beginning, whatever the journal that was found has.
    ///
    /// - `keeps`: each line that is kept is still kept.
    /// - `steps`: it has three steps.
    pub fn begin() -> Resuming
        ensures keeps { (texts : ResumeTexts) (disk : StateDisk) (line : List ℕ)
            → IsReadNow texts.found disk.journal → KeepsLine disk line
            → ResumeKeeps texts result disk line }
        ensures steps { resume_steps_left result.stage ≡ 3 }
    {
        Resuming {
            stage: ResumeStage::Due(ResumeStep::SyncFound),
        }
    }

    /// The step that is due; none if all are done, or one failed.
    pub fn next(&self) -> Option<ResumeStep>
        ensures { result ≡ resume_step self.now.stage }
    {
        match self.stage {
            ResumeStage::Due(step) => Some(step),
            ResumeStage::Done | ResumeStage::Failed => None,
        }
    }

    /// Whether all steps are done, so that lines may be appended.
    ///
    /// - `journal`: the journal is on the disk, without a part of a line.
    pub fn is_done(&self) -> bool
        ensures stage { IsTrue result ↔ (self.now.stage ≡ Done) }
        ensures journal { IsTrue result → (texts : ResumeTexts) (disk : StateDisk)
            → IsResumedOn texts self.now.stage disk → disk.journal ≡ kept_file texts.cut ∷ [] }
    {
        match self.stage {
            ResumeStage::Done => true,
            _ => false,
        }
    }

    /// Says that the step that was due is done.
    ///
    /// - `keeps`: no line is lost, and the journal is as it has to be for the next step.
    /// - `next`: the journal is on the disk before it is cut, and again after that.
    /// - `steps`: each step is one fewer.
    pub fn done(&mut self)
        ensures keeps { (texts : ResumeTexts) (disk : StateDisk) (line : List ℕ)
            → IsCutAtLine texts → ResumeKeeps texts self.old disk line
            → ResumeKeeps texts self.new (after_resume texts.cut self.old.stage disk) line }
        ensures next { self.new.stage ≡ following_resume self.old.stage }
        ensures steps { resume_steps_left self.new.stage ≡ resume_steps_left self.old.stage - 1 }
    {
        self.stage = stage_after(self.stage);
    }

    /// Says that the step that was due failed: what it left is its work, or none or a part of it.
    ///
    /// - `keeps`: no line is lost.
    /// - `over`: it is over, and not done.
    pub fn failed(&mut self)
        ensures keeps { (texts : ResumeTexts) (disk left : StateDisk) (line : List ℕ)
            → IsCutAtLine texts → ResumeKeeps texts self.old disk line
            → FailsResume texts.cut self.old.stage disk left
            → ResumeKeeps texts self.new left line }
        ensures over { self.new.stage ≡ Failed }
    {
        self.stage = ResumeStage::Failed;
    }
}

// The stage after this one, when the step that is due is done.
fn stage_after(stage: ResumeStage) -> ResumeStage
    ensures { result ≡ following_resume stage }
{
    match stage {
        ResumeStage::Due(ResumeStep::SyncFound) => ResumeStage::Due(ResumeStep::CutLine),
        ResumeStage::Due(ResumeStep::CutLine) => ResumeStage::Due(ResumeStep::SyncCut),
        ResumeStage::Due(ResumeStep::SyncCut) => ResumeStage::Done,
        over => over,
    }
}
