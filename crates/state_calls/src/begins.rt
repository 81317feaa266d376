//! The steps in which a replica begins.
ghost use Rattle.std.specs.Prelude.{◌≡◌, ◌≢◌, ◌-◌, ◌≤◌, ◌⊎◌, List, ℕ, IfErr, None, OnOk, Some};
ghost use Rattle.std.specs.Prelude.{is_ok};
ghost use Rattle.state_steps.specs.Begins.{BeginKeeps, IsBeginDueOn, begin_change, begin_end};
ghost use Rattle.state_steps.specs.Begins.{begin_steps_left};
ghost use Rattle.state_steps.specs.Files.{HasWholeLine, StateDisk};
ghost use Rattle.state_steps.specs.declared.beginning.BeginStage.TheVariants.{Change};
ghost use Rattle.state_steps.specs.declared.file_step.FileStep.{FileStep};
ghost use Rattle.state_steps.specs.Steps.{StateTexts, WritesLine};
ghost use Rattle.state_calls.specs.Tries.{AfterTries, HasTried, HoldsSince, MakesFiles};
ghost use Rattle.state_calls.specs.Tries.{TriesKeep};

use crate::calls::{StepCalls, StepFault};
use state_steps::{BeginStep, Beginning, FileStep, laws};

/// Does the changes of files that are due in a beginning, one after another: all, or those before
/// the step `until`. At all times, also after an error, each line that was kept and that a snapshot
/// which is written has is kept.
///
/// - `due`: the files are as they have to be for the next step.
/// - `until`: that step is not done.
///
/// # Errors
/// A step failed; what is to be done is said.
pub fn begin<S, E: Drop, T: StepCalls<S, FileStep, E>>(
    calls: &mut T,
    with: &S,
    beginning: &mut Beginning,
    until: Option<FileStep>,
) -> Result<(), StepFault<E>>
    ensures due { (texts : StateTexts) (first : StateDisk)
        → AfterTries (MakesFiles texts) (T.tried calls.old) first
        (IsBeginDueOn texts beginning.old.stage)
        → OnOk result (AfterTries (MakesFiles texts) (T.tried calls.new) first
        (IsBeginDueOn texts beginning.new.stage)) }
    ensures keeps { (texts : StateTexts) (first : StateDisk) (line : List ℕ)
        → AfterTries (MakesFiles texts) (T.tried calls.old) first
        (λ disk. BeginKeeps texts beginning.old disk line) → HasWholeLine texts.snapshot line
        → AfterTries (MakesFiles texts) (T.tried calls.new) first
        (λ disk. BeginKeeps texts beginning.new disk line) }
    ensures always { (texts : StateTexts) (first : StateDisk) (line : List ℕ)
        → AfterTries (MakesFiles texts) (T.tried calls.old) first
        (λ disk. BeginKeeps texts beginning.old disk line) → HasWholeLine texts.snapshot line
        → HoldsSince (TriesKeep (MakesFiles texts) first line) (T.tried calls.old)
        (T.tried calls.new) }
    ensures over { OnOk result ((begin_change beginning.new.stage ≡ None)
        ⊎ (begin_change beginning.new.stage ≡ until)) }
    ensures until { (step : FileStep) → until ≡ Some step
        → begin_steps_left (Change step) ≤ begin_steps_left beginning.old.stage
        → OnOk result (begin_steps_left (Change step) ≤ begin_steps_left beginning.new.stage) }
{
    laws::stops();
    'steps: while let Some(BeginStep::Change(step)) = beginning.next() {
        if until == Some(step) {
            break;
        }
        try_begin(calls, with, beginning)?;
    }
    Ok(())
}

// Does the change of files that is due in a beginning, and says to the beginning what came of it.
// If none is due, nothing is done.
fn try_begin<S, E: Drop, T: StepCalls<S, FileStep, E>>(
    calls: &mut T,
    with: &S,
    beginning: &mut Beginning,
) -> Result<(), StepFault<E>>
    ensures tried { HasTried (begin_change beginning.old.stage) (is_ok result) (T.tried calls.old)
        (T.tried calls.new) }
    ensures due { (texts : StateTexts) (first : StateDisk)
        → AfterTries (MakesFiles texts) (T.tried calls.old) first
        (IsBeginDueOn texts beginning.old.stage)
        → OnOk result (AfterTries (MakesFiles texts) (T.tried calls.new) first
        (IsBeginDueOn texts beginning.new.stage)) }
    ensures keeps { (texts : StateTexts) (first : StateDisk) (line : List ℕ)
        → AfterTries (MakesFiles texts) (T.tried calls.old) first
        (λ disk. BeginKeeps texts beginning.old disk line)
        → WritesLine texts (begin_change beginning.old.stage) line
        → AfterTries (MakesFiles texts) (T.tried calls.new) first
        (λ disk. BeginKeeps texts beginning.new disk line) }
    ensures ends { IfErr result (λ failed. failed.end ≡ begin_end beginning.old.stage) }
    ensures steps { begin_change beginning.old.stage ≢ None → OnOk result
        (begin_steps_left beginning.new.stage ≡ begin_steps_left beginning.old.stage - 1) }
{
    let Some(BeginStep::Change(step)) = beginning.next() else {
        return Ok(());
    };
    match calls.try_step(with, step) {
        Ok(()) => {
            beginning.done();
            Ok(())
        }
        Err(fault) => {
            let end = beginning.failed();
            Err(StepFault { end, fault })
        }
    }
}
