//! The steps in which a replica continues with the journal that it found.
ghost use Rattle.std.specs.Prelude.{◌≡◌, ◌∷◌, [], List, ℕ, OnOk, is_ok};
ghost use Rattle.state_steps.specs.Files.{KeepsLine, StateDisk, kept_file};
ghost use Rattle.state_steps.specs.Resumes.{IsCutAtLine, ResumeKeeps, ResumeTexts};
ghost use Rattle.state_steps.specs.Resumes.{IsReadNow, IsResumedOn, following_resume};
ghost use Rattle.state_steps.specs.Resumes.{resume_step};
ghost use Rattle.state_calls.specs.Tries.{AfterTries, HasTried, HoldsSince, MakesResumed};
ghost use Rattle.state_calls.specs.Tries.{TriesKeep};

use crate::calls::StepCalls;
use state_steps::{ResumeStep, Resuming, laws};

/// Has a replica continue with the journal that it found. At all times, also after an error, each
/// line that was kept is kept.
///
/// - `resumed`: then the journal is on the disk, without a part of a line.
///
/// # Errors
/// A step failed.
pub fn resume<S, E: Drop, T: StepCalls<S, ResumeStep, E>>(calls: &mut T, with: &S) -> Result<(), E>
    ensures resumed { OnOk result ((texts : ResumeTexts) (first : StateDisk)
        → AfterTries (MakesResumed texts.cut) (T.tried calls.old) first
        (λ disk. IsReadNow texts.found disk.journal)
        → AfterTries (MakesResumed texts.cut) (T.tried calls.new) first
        (λ disk. disk.journal ≡ kept_file texts.cut ∷ [])) }
    ensures keeps { (texts : ResumeTexts) (first : StateDisk) (line : List ℕ) → IsCutAtLine texts
        → AfterTries (MakesResumed texts.cut) (T.tried calls.old) first
        (λ disk. IsReadNow texts.found disk.journal × KeepsLine disk line)
        → HoldsSince (TriesKeep (MakesResumed texts.cut) first line) (T.tried calls.old)
        (T.tried calls.new) }
{
    laws::stops();
    let mut resuming = Resuming::begin();
    'steps: for _ in 0..3u32 {
        try_resume(calls, with, &mut resuming)?;
    }
    Ok(())
}

// Does the step that is due, and says to the machine what came of it. If none is due, nothing is
// done.
fn try_resume<S, E: Drop, T: StepCalls<S, ResumeStep, E>>(
    calls: &mut T,
    with: &S,
    resuming: &mut Resuming,
) -> Result<(), E>
    ensures tried { HasTried (resume_step resuming.old.stage) (is_ok result) (T.tried calls.old)
        (T.tried calls.new) }
    ensures keeps { (texts : ResumeTexts) (first : StateDisk) (line : List ℕ) → IsCutAtLine texts
        → AfterTries (MakesResumed texts.cut) (T.tried calls.old) first
        (λ disk. ResumeKeeps texts resuming.old disk line)
        → AfterTries (MakesResumed texts.cut) (T.tried calls.new) first
        (λ disk. ResumeKeeps texts resuming.new disk line) }
    ensures due { (texts : ResumeTexts) (first : StateDisk)
        → AfterTries (MakesResumed texts.cut) (T.tried calls.old) first
        (IsResumedOn texts resuming.old.stage)
        → OnOk result (AfterTries (MakesResumed texts.cut) (T.tried calls.new) first
        (IsResumedOn texts resuming.new.stage)) }
    ensures next { OnOk result (resuming.new.stage ≡ following_resume resuming.old.stage) }
{
    let Some(step) = resuming.next() else {
        return Ok(());
    };
    match calls.try_step(with, step) {
        Ok(()) => {
            resuming.done();
            Ok(())
        }
        Err(fault) => {
            resuming.failed();
            Err(fault)
        }
    }
}
