//! The steps in which lines are appended to a journal, in their order.
ghost use Rattle.std.specs.Prelude.{◌≡◌, ◌∷◌, [], ◌↔◌, IsTrue, List, ℕ};
ghost use Rattle.state_steps.specs.Appends.{AppendKeeps, FailsAppend, IsAppendedOn, after_append};
ghost use Rattle.state_steps.specs.Appends.{append_step, following_append, with_lines};
ghost use Rattle.state_steps.specs.Appends.{written_after};
ghost use Rattle.state_steps.specs.Files.{HasWholeLine, KeepsLine, StateDisk, kept_file};
ghost use Rattle.state_steps.specs.declared.appending.AppendStage.TheVariants.{Failed, OnDisk};

/// A step in which lines are appended.
#[derive(Clone, Copy, Debug, PartialEq, Eq)]
pub enum AppendStep {
    /// The lines are written at the end of the journal.
    WriteLines,
    /// The system puts the journal on the disk.
    SyncLines,
    /// Checks whether the names of the lock, the journal and the state lead to the same files as
    /// before. If not, what was written may be in files that nobody reads.
    SeeNames,
}

/// How far what was written has come.
#[derive(Clone, Copy, Debug, PartialEq, Eq)]
enum AppendStage {
    /// All that was written to it is on the disk, under its name.
    OnDisk,
    /// This step comes next.
    Due(AppendStep),
    /// A step failed: what the disk has of the journal is not known.
    Failed,
}

/// A journal to which lines are appended: it says which step is due. Its caller says when there are
/// lines, when the step is done, or that it failed.
///
/// A line may be acknowledged when all is on the disk (`is_done`), and is kept from then on. After
/// a failure no line may be acknowledged, and none may be appended: it would come after a part of a
/// line.
#[derive(Clone, Copy, Debug)]
pub struct Appending {
    stage: AppendStage,
}

impl Appending {
    /// A journal all of which is on the disk.
    ///
    /// - `keeps`: each line that is kept is still kept.
    pub fn begin() -> Appending
        ensures keeps { (written : List ℕ) (disk : StateDisk) (line : List ℕ)
            → disk.journal ≡ kept_file written ∷ [] → KeepsLine disk line
            → AppendKeeps written result disk line }
        ensures stage { result.stage ≡ OnDisk }
    {
        Appending {
            stage: AppendStage::OnDisk,
        }
    }

    /// The step that is due; none if all is on the disk, or after a failure.
    pub fn next(&self) -> Option<AppendStep>
        ensures { result ≡ append_step self.now.stage }
    {
        match self.stage {
            AppendStage::Due(step) => Some(step),
            AppendStage::OnDisk | AppendStage::Failed => None,
        }
    }

    /// Whether all that was written is on the disk, under its name, so that it may be acknowledged.
    ///
    /// - `acknowledged`: each whole line of what was written is kept.
    pub fn is_done(&self) -> bool
        ensures stage { IsTrue result ↔ (self.now.stage ≡ OnDisk) }
        ensures acknowledged { IsTrue result → (written : List ℕ) (disk : StateDisk)
            (line : List ℕ) → IsAppendedOn written self.now.stage disk
            → HasWholeLine written line → KeepsLine disk line }
    {
        match self.stage {
            AppendStage::OnDisk => true,
            _ => false,
        }
    }

    /// Says that there are lines to append.
    ///
    /// - `keeps`: no line is lost.
    /// - `next`: they are written next, unless a step failed.
    pub fn add(&mut self)
        ensures keeps { (written : List ℕ) (disk : StateDisk) (line : List ℕ)
            → AppendKeeps written self.old disk line → AppendKeeps written self.new disk line }
        ensures next { self.new.stage ≡ with_lines self.old.stage }
    {
        self.stage = match self.stage {
            AppendStage::Failed => AppendStage::Failed,
            _ => AppendStage::Due(AppendStep::WriteLines),
        };
    }

    /// Says that the step that was due is done.
    ///
    /// - `keeps`: no line is lost, and the journal is as it has to be for the next step.
    /// - `next`: what is written is put on the disk next, then the names are checked, and only
    ///   after that all is done.
    pub fn done(&mut self)
        ensures keeps { (written bytes : List ℕ) (disk : StateDisk) (line : List ℕ)
            → AppendKeeps written self.old disk line
            → AppendKeeps (written_after bytes self.old.stage written) self.new
            (after_append bytes self.old.stage disk) line }
        ensures next { self.new.stage ≡ following_append self.old.stage }
    {
        self.stage = stage_after(self.stage);
    }

    /// Says that the step that was due failed: what it left is its work, or none or a part of it.
    /// The same holds if a name leads to another file.
    ///
    /// - `keeps`: no line is lost that was kept before.
    /// - `over`: nothing is acknowledged, and nothing more may be appended.
    pub fn failed(&mut self)
        ensures keeps { (written bytes : List ℕ) (disk left : StateDisk) (line : List ℕ)
            → AppendKeeps written self.old disk line
            → FailsAppend bytes self.old.stage disk left
            → AppendKeeps written self.new left line }
        ensures over { self.new.stage ≡ Failed }
    {
        self.stage = AppendStage::Failed;
    }
}

// The stage after this one, when the step that is due is done.
fn stage_after(stage: AppendStage) -> AppendStage
    ensures { result ≡ following_append stage }
{
    match stage {
        AppendStage::Due(AppendStep::WriteLines) => AppendStage::Due(AppendStep::SyncLines),
        AppendStage::Due(AppendStep::SyncLines) => AppendStage::Due(AppendStep::SeeNames),
        AppendStage::Due(AppendStep::SeeNames) => AppendStage::OnDisk,
        over => over,
    }
}
