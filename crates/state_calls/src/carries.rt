//! The steps in which a state is carried over to another configuration.
ghost use Rattle.std.specs.Prelude.{◌≡◌, List, ℕ, OnOk, is_ok};
ghost use Rattle.state_steps.specs.Carries.{AreApart, CarryDisk, CarryKeeps, CarryTexts};
ghost use Rattle.state_steps.specs.Carries.{IsCarryDueOn, IsCarryKeptOn, IsOldState};
ghost use Rattle.state_steps.specs.Carries.{carry_step, following_carry};
ghost use Rattle.state_steps.specs.declared.carrying_over.CarryStage.TheVariants.{Done, Due};
ghost use Rattle.state_steps.specs.declared.carrying_over.CarryStep.TheVariants.{FoldState};
ghost use Rattle.state_calls.specs.Tries.{AfterTries, HasTried, HoldsSince, MakesCarried};
ghost use Rattle.state_calls.specs.Tries.{TriesStartWith};

use crate::calls::StepCalls;
use state_steps::{CarryStep, CarryingOver, laws};

/// Carries a state over. At all times, also after an error, a start finds each line that was kept.
///
/// - `carried`: then the state is one of the new configuration, and the previous state is the old
///   one.
///
/// # Errors
/// A step failed.
pub fn carry_state<S, E: Drop, T: StepCalls<S, CarryStep, E>>(
    calls: &mut T,
    with: &S,
) -> Result<(), E>
    ensures carried { OnOk result ((texts : CarryTexts) (first : CarryDisk)
        → AfterTries (MakesCarried texts) (T.tried calls.old) first (IsOldState texts)
        → AfterTries (MakesCarried texts) (T.tried calls.new) first (IsCarryDueOn texts Done)) }
    ensures keeps { (texts : CarryTexts) (first : CarryDisk) (line : List ℕ) → AreApart texts
        → AfterTries (MakesCarried texts) (T.tried calls.old) first
        (λ disk. IsOldState texts disk × IsCarryKeptOn texts (Due FoldState) disk line)
        → HoldsSince (TriesStartWith texts first line) (T.tried calls.old) (T.tried calls.new) }
{
    laws::stops();
    let mut carrying = CarryingOver::begin();
    'steps: for _ in 0..4u32 {
        try_carry(calls, with, &mut carrying)?;
    }
    Ok(())
}

// Does the step that is due, and says to the machine what came of it. If none is due, nothing is
// done.
fn try_carry<S, E: Drop, T: StepCalls<S, CarryStep, E>>(
    calls: &mut T,
    with: &S,
    carrying: &mut CarryingOver,
) -> Result<(), E>
    ensures tried { HasTried (carry_step carrying.old.stage) (is_ok result) (T.tried calls.old)
        (T.tried calls.new) }
    ensures due { (texts : CarryTexts) (first : CarryDisk)
        → AfterTries (MakesCarried texts) (T.tried calls.old) first
        (IsCarryDueOn texts carrying.old.stage)
        → OnOk result (AfterTries (MakesCarried texts) (T.tried calls.new) first
        (IsCarryDueOn texts carrying.new.stage)) }
    ensures keeps { (texts : CarryTexts) (first : CarryDisk) (line : List ℕ) → AreApart texts
        → AfterTries (MakesCarried texts) (T.tried calls.old) first
        (λ disk. CarryKeeps texts carrying.old disk line)
        → AfterTries (MakesCarried texts) (T.tried calls.new) first
        (λ disk. CarryKeeps texts carrying.new disk line) }
    ensures next { OnOk result (carrying.new.stage ≡ following_carry carrying.old.stage) }
{
    let Some(step) = carrying.next() else {
        return Ok(());
    };
    match calls.try_step(with, step) {
        Ok(()) => {
            carrying.done();
            Ok(())
        }
        Err(fault) => {
            carrying.failed();
            Err(fault)
        }
    }
}
