//! The steps of a save.
ghost use Rattle.std.specs.Prelude.{◌≡◌, ◌-◌, List, ℕ, IfOk, OnOk, is_ok};
ghost use Rattle.state_steps.specs.Files.{HasWholeLine, StateDisk};
ghost use Rattle.state_steps.specs.Saves.{IsSaveDueOn, SaveKeeps, save_step, save_steps_left};
ghost use Rattle.state_steps.specs.Steps.{StateTexts, WritesLine};
ghost use Rattle.state_calls.specs.Tries.{AfterTries, HasTried, HoldsSince, MakesFiles};
ghost use Rattle.state_calls.specs.Tries.{TriesKeep};

use crate::calls::StepCalls;
use state_steps::{FileStep, Saving, laws};

/// Does the first steps of a save, at most `most` of its five. At all times, also after an error,
/// each line that was kept and that the snapshot has is kept.
///
/// - `due`: the files are as they have to be for the next step. So if the save is done, the
///   snapshot is the new one, and there is no journal.
///
/// # Errors
/// A step failed.
pub fn save<S, E: Drop, T: StepCalls<S, FileStep, E>>(
    calls: &mut T,
    with: &S,
    most: u32,
) -> Result<Saving, E>
    ensures due { IfOk result (λ saving. (texts : StateTexts) (first : StateDisk)
        → AfterTries (MakesFiles texts) (T.tried calls.new) first
        (IsSaveDueOn texts saving.stage)) }
    ensures keeps { (texts : StateTexts) (first : StateDisk) (line : List ℕ)
        → TriesKeep (MakesFiles texts) first line (T.tried calls.old)
        → HasWholeLine texts.snapshot line
        → HoldsSince (TriesKeep (MakesFiles texts) first line) (T.tried calls.old)
        (T.tried calls.new) }
    ensures steps { IfOk result (λ saving. save_steps_left saving.stage ≡ 5 - most) }
{
    laws::stops();
    let mut saving = Saving::begin();
    'steps: for _ in 0..most {
        try_save(calls, with, &mut saving)?;
    }
    Ok(saving)
}

// Does the step of a save that is due, and says to the save what came of it.
fn try_save<S, E: Drop, T: StepCalls<S, FileStep, E>>(
    calls: &mut T,
    with: &S,
    saving: &mut Saving,
) -> Result<(), E>
    ensures tried { HasTried (save_step saving.old.stage) (is_ok result) (T.tried calls.old)
        (T.tried calls.new) }
    ensures due { (texts : StateTexts) (first : StateDisk)
        → AfterTries (MakesFiles texts) (T.tried calls.old) first
        (IsSaveDueOn texts saving.old.stage)
        → OnOk result (AfterTries (MakesFiles texts) (T.tried calls.new) first
        (IsSaveDueOn texts saving.new.stage)) }
    ensures keeps { (texts : StateTexts) (first : StateDisk) (line : List ℕ)
        → AfterTries (MakesFiles texts) (T.tried calls.old) first
        (λ disk. SaveKeeps texts saving.old disk line)
        → WritesLine texts (save_step saving.old.stage) line
        → AfterTries (MakesFiles texts) (T.tried calls.new) first
        (λ disk. SaveKeeps texts saving.new disk line) }
    ensures steps { OnOk result
        (save_steps_left saving.new.stage ≡ save_steps_left saving.old.stage - 1) }
{
    let Some(step) = saving.next() else {
        return Ok(());
    };
    match calls.try_step(with, step) {
        Ok(()) => {
            saving.done();
            Ok(())
        }
        Err(fault) => {
            saving.failed();
            Err(fault)
        }
    }
}
