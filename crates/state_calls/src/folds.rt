//! The steps of a fold, after its snapshot is written.
ghost use Rattle.std.specs.Prelude.{◌≡◌, ◌≢◌, ◌∷◌, [], List, ℕ, IfErr, None, OnErr, OnOk, Some};
ghost use Rattle.std.specs.Prelude.{false, is_ok};
ghost use Rattle.state_steps.specs.Files.{KeepsLine, StateDisk, kept_file};
ghost use Rattle.state_steps.specs.Folds.{FoldKeeps, IsDueOn, fold_end, following_step};
ghost use Rattle.state_steps.specs.Steps.{StateTexts, WritesLine};
ghost use Rattle.state_steps.specs.declared.file_step.FileStep.TheVariants.{SyncJournal};
ghost use Rattle.state_steps.specs.declared.folding.FoldEnd.TheVariants.{JournalContinues};
ghost use Rattle.state_calls.specs.Looks.{IsSeenDue, IsSeenFor, end_of_fold};
ghost use Rattle.state_calls.specs.Tries.{AfterTries, HasTried, HoldsSince, MakesFiles};
ghost use Rattle.state_calls.specs.Tries.{TriesKeep};

use crate::calls::{FoldCalls, StepFault};
use state_steps::{FileStep, FoldEnd, Folding, laws};

/// Does the steps of a fold that are due, one after another, each right after a look at the files;
/// but none comes before the last step, when the journal has its new file. At all times, also after
/// an error, each line that was kept is kept.
///
/// - `snapshot`: then the snapshot is the new one, on the disk under its name.
///
/// # Errors
/// A step or a look failed: the journal is continued if it was not touched.
pub fn fold<S, E: Drop, T: FoldCalls<S, E>>(
    calls: &mut T,
    with: &S,
    folding: &mut Folding,
) -> Result<(), StepFault<E>>
    ensures over { OnOk result (folding.new.next ≡ None) }
    ensures snapshot { (texts : StateTexts) (first : StateDisk) → folding.old.next ≢ None
        → AfterTries (MakesFiles texts) (T.tried calls.old) first (IsDueOn texts folding.old.next)
        → OnOk result (AfterTries (MakesFiles texts) (T.tried calls.new) first
        (λ disk. disk.snapshot ≡ kept_file texts.snapshot ∷ [])) }
    ensures keeps { (texts : StateTexts) (first : StateDisk) (line : List ℕ)
        → AfterTries (MakesFiles texts) (T.tried calls.old) first
        (λ disk. FoldKeeps texts folding.old disk line) → WritesLine texts folding.old.next line
        → OnOk result (AfterTries (MakesFiles texts) (T.tried calls.new) first
        (λ disk. FoldKeeps texts folding.new disk line)) }
    ensures always { (texts : StateTexts) (first : StateDisk) (line : List ℕ)
        → AfterTries (MakesFiles texts) (T.tried calls.old) first
        (λ disk. FoldKeeps texts folding.old disk line) → WritesLine texts folding.old.next line
        → HoldsSince (TriesKeep (MakesFiles texts) first line) (T.tried calls.old)
        (T.tried calls.new) }
    ensures ends { end_of_fold (T.tried calls.old) ≡ JournalContinues
        → IfErr result (λ failed. failed.end ≡ end_of_fold (T.tried calls.new)) }
{
    laws::stops();
    'steps: while let Some(step) = folding.next() {
        look_before(calls, with, step)?;
        try_fold(calls, with, folding)?;
    }
    Ok(())
}

// Looks whether each file is as it was left, if that has to be before the step.
fn look_before<S, E: Drop, T: FoldCalls<S, E>>(
    calls: &mut T,
    with: &S,
    step: FileStep,
) -> Result<(), StepFault<E>>
    ensures tried { T.tried calls.new ≡ T.tried calls.old }
    ensures seen { OnOk result (IsSeenFor step (T.seen calls.new)) }
    ensures unseen { OnErr result ((T.seen calls.new ≡ false) × (step ≢ SyncJournal)) }
    ensures ends { IfErr result (λ failed. failed.end ≡ JournalContinues) }
{
    if step == FileStep::SyncJournal {
        return Ok(());
    }
    match calls.look(with) {
        Ok(()) => Ok(()),
        Err(fault) => Err(StepFault {
            end: FoldEnd::JournalContinues,
            fault,
        }),
    }
}

// Does the step of a fold that is due, and says to the fold what came of it. If none is due,
// nothing is done.
fn try_fold<S, E: Drop, T: FoldCalls<S, E>>(
    calls: &mut T,
    with: &S,
    folding: &mut Folding,
) -> Result<(), StepFault<E>>
    requires { IsSeenDue folding.old.next (T.seen calls.old) }
    ensures tried { HasTried folding.old.next (is_ok result) (T.tried calls.old)
        (T.tried calls.new) }
    ensures due { (texts : StateTexts) (first : StateDisk)
        → AfterTries (MakesFiles texts) (T.tried calls.old) first (IsDueOn texts folding.old.next)
        → OnOk result (AfterTries (MakesFiles texts) (T.tried calls.new) first
        (IsDueOn texts folding.new.next)) }
    ensures snapshot { (texts : StateTexts) (first : StateDisk) → folding.old.next ≢ None
        → folding.new.next ≡ None
        → AfterTries (MakesFiles texts) (T.tried calls.old) first (IsDueOn texts folding.old.next)
        → OnOk result (AfterTries (MakesFiles texts) (T.tried calls.new) first
        (λ disk. disk.snapshot ≡ kept_file texts.snapshot ∷ [])) }
    ensures keeps { (texts : StateTexts) (first : StateDisk) (line : List ℕ)
        → AfterTries (MakesFiles texts) (T.tried calls.old) first
        (λ disk. FoldKeeps texts folding.old disk line) → WritesLine texts folding.old.next line
        → OnOk result (AfterTries (MakesFiles texts) (T.tried calls.new) first
        (λ disk. FoldKeeps texts folding.new disk line)) }
    ensures failed { (texts : StateTexts) (first : StateDisk) (line : List ℕ)
        → AfterTries (MakesFiles texts) (T.tried calls.old) first
        (λ disk. FoldKeeps texts folding.old disk line)
        → OnErr result (AfterTries (MakesFiles texts) (T.tried calls.new) first
        (λ disk. KeepsLine disk line)) }
    ensures ends { IfErr result (λ failed. failed.end ≡ fold_end folding.old.next) }
    ensures next { OnOk result
        (folding.new.next ≡ following_step folding.old.is_whole folding.old.next) }
{
    let Some(step) = folding.next() else {
        return Ok(());
    };
    match calls.try_seen(with, step) {
        Ok(()) => {
            folding.done();
            Ok(())
        }
        Err(fault) => {
            let end = folding.failed();
            Err(StepFault { end, fault })
        }
    }
}
