//! The steps in which the changes of a turn are put on the disk if there is an audit file, in
//! their order.
ghost use Rattle.std.specs.Prelude.{◌≡◌, ◌++◌, [], ◌↔◌, Bool, IsSome, false, List, ℕ};
ghost use Rattle.state_steps.specs.Audits.{AuditedFiles, AuditKeeps, AuditTexts, Change};
ghost use Rattle.state_steps.specs.Audits.{ChangesState, FailsKeep};
ghost use Rattle.state_steps.specs.Audits.{HasNoTrace, IsAuditOn, after_keep, following_keep};
ghost use Rattle.state_steps.specs.Audits.{keep_step, texts_after, with_changes};
ghost use Rattle.state_steps.specs.Files.{HasWholeLine, StateDisk, kept_file};
ghost use Rattle.state_steps.specs.declared.keeping.KeepStage.TheVariants.{Due, Failed, Kept};
ghost use Rattle.state_steps.specs.declared.keeping.KeepStep.TheVariants.{Audit, State};

use crate::appending::AppendStep;

/// A step in which changes are put on the disk.
#[derive(Clone, Copy, Debug, PartialEq, Eq)]
pub enum KeepStep {
    /// Their lines are appended to the audit file, in this step.
    Audit(AppendStep),
    /// The files of the state get them: the journal's lines are appended, or the state is written
    /// again. Another machine says what comes next in this.
    State,
}

/// How far the changes of a turn have come.
#[derive(Clone, Copy, Debug, PartialEq, Eq)]
enum KeepStage {
    /// All are on the disk.
    Kept,
    /// This step comes next.
    Due(KeepStep),
    /// A step failed: what the disk has of the turn is not known.
    Failed,
}

/// The changes of a replica that has an audit file: it says which step is due. Its caller says when
/// a turn has changes, when the step is done, or that it failed.
///
/// The state's files get nothing of a change before its line of the audit file is on the disk. So
/// whatever a stop leaves, each change that is held has its line. After an error nothing more is
/// put on the disk.
#[derive(Clone, Copy, Debug)]
pub struct Keeping {
    stage: KeepStage,
}

/// All changes of a turn are on the disk. What shows them to anyone asks for this token, and
/// [`Keeping::done`] alone makes one, after the last step of a turn.
#[derive(Debug, Drop)]
pub struct OnDisk {
    stage: KeepStage,
    ghost kept: { stage ≡ Kept },
}

impl Keeping {
    /// The beginning, with an audit file all of which is on the disk.
    ///
    /// - `keeps`: each change that has its line there still has it.
    pub fn begin() -> Keeping
        ensures keeps { (earlier : List ℕ) (files : AuditedFiles) (change : Change)
            → files.audit ≡ kept_file earlier → HasWholeLine earlier change.report
            → AuditKeeps (record { earlier = earlier; turn = [] }) result files change }
        ensures stage { result.stage ≡ Kept }
    {
        Keeping {
            stage: KeepStage::Kept,
        }
    }

    /// The step that is due; none when all is on the disk, or after an error.
    pub fn next(&self) -> Option<KeepStep>
        ensures { result ≡ keep_step self.now.stage }
    {
        match self.stage {
            KeepStage::Due(step) => Some(step),
            KeepStage::Kept | KeepStage::Failed => None,
        }
    }

    /// Says that a turn has changes, or may have, and whether it has lines for the audit file.
    ///
    /// - `keeps`: each change of an earlier turn has its line.
    /// - `new`: so will one of this turn, of which the state's files have nothing yet.
    /// - `next`: the lines are written next; without them the state's files are next.
    pub fn add(&mut self, has_lines: bool)
        ensures keeps { (earlier turn : List ℕ) (files : AuditedFiles) (change : Change)
            → (has_lines ≡ false → turn ≡ [])
            → AuditKeeps (record { earlier = earlier; turn = [] }) self.old files change
            → AuditKeeps (record { earlier = earlier; turn = turn }) self.new files change }
        ensures new { (earlier turn : List ℕ) (files : AuditedFiles) (change : Change)
            → (has_lines ≡ false → turn ≡ []) → self.old.stage ≡ Kept
            → files.audit ≡ kept_file earlier → HasNoTrace files.state change.last
            → HasWholeLine (earlier ++ turn) change.report
            → AuditKeeps (record { earlier = earlier; turn = turn }) self.new files change }
        ensures next { self.new.stage ≡ with_changes has_lines self.old.stage }
    {
        self.stage = match self.stage {
            KeepStage::Kept if has_lines => KeepStage::Due(KeepStep::Audit(AppendStep::WriteLines)),
            KeepStage::Kept => KeepStage::Due(KeepStep::State),
            _ => KeepStage::Failed,
        };
    }

    /// Says that the step that was due is done. If it was the last one of a turn, it returns the
    /// token with which the changes may be acknowledged.
    ///
    /// - `token`: it is given exactly then.
    /// - `audited`: then the audit file has the line of each change.
    /// - `keeps`: no change is without its line, whatever the last step makes of the state's files,
    ///   and the audit file is as it has to be for the next step.
    /// - `next`: the lines are put on the disk, then the name is looked at, and only after that the
    ///   state's files get the changes.
    pub fn done(&mut self) -> Option<OnDisk>
        ensures token { IsSome result ↔ (self.old.stage ≡ Due State) }
        ensures audited { IsSome result → (texts : AuditTexts) (files : AuditedFiles)
            (change : Change) → AuditKeeps texts self.old files change
            → HasWholeLine files.audit.kept change.report }
        ensures keeps { (texts : AuditTexts) (files : AuditedFiles) (after : StateDisk)
            (change : Change) → AuditKeeps texts self.old files change
            → ChangesState self.old.stage files.state after
            → AuditKeeps (texts_after self.old.stage texts) self.new
            (record { audit = after_keep texts self.old.stage files.audit; state = after })
            change }
        ensures next { self.new.stage ≡ following_keep self.old.stage }
    {
        let token = token_after(self.stage);
        self.stage = stage_after(self.stage);
        token
    }

    /// Says that the step that was due failed: what it left is its work, or none or a part of it.
    /// It is the same if the name of the audit file leads to another one.
    ///
    /// - `keeps`: no change is without its line.
    /// - `over`: nothing is acknowledged, and no file gets anything more.
    pub fn failed(&mut self)
        ensures keeps { (texts : AuditTexts) (files left : AuditedFiles) (change : Change)
            → AuditKeeps texts self.old files change
            → FailsKeep texts self.old.stage files.audit left.audit
            → ChangesState self.old.stage files.state left.state
            → AuditKeeps (texts_after self.old.stage texts) self.new left change }
        ensures over { self.new.stage ≡ Failed }
    {
        self.stage = KeepStage::Failed;
    }
}

// The stage after this one, when the step that is due is done.
fn stage_after(stage: KeepStage) -> KeepStage
    ensures { result ≡ following_keep stage }
{
    match stage {
        KeepStage::Due(KeepStep::Audit(step)) => KeepStage::Due(step_after(step)),
        KeepStage::Due(KeepStep::State) => KeepStage::Kept,
        over => over,
    }
}

// The token, if all changes of the turn are on the disk when this step is done.
fn token_after(stage: KeepStage) -> Option<OnDisk>
    ensures { IsSome result ↔ (stage ≡ Due State) }
{
    match stage {
        KeepStage::Due(KeepStep::State) => Some(OnDisk {
            stage: KeepStage::Kept,
        }),
        _ => None,
    }
}

// The step after this one with the audit file.
fn step_after(step: AppendStep) -> KeepStep
    ensures { following_keep (Due (Audit step)) ≡ Due result }
{
    match step {
        AppendStep::WriteLines => KeepStep::Audit(AppendStep::SyncLines),
        AppendStep::SyncLines => KeepStep::Audit(AppendStep::SeeNames),
        AppendStep::SeeNames => KeepStep::State,
    }
}
