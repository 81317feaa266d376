//! The steps in which lines are appended.
ghost use Rattle.std.specs.Prelude.{◌≡◌, ◌≢◌, ◌++◌, ◌↔◌, ◌⊎◌, IsTrue, List, ℕ, IfOk, false};
ghost use Rattle.std.specs.Prelude.{OnErr, OnOk, is_ok};
ghost use Rattle.state_steps.specs.Appends.{AppendKeeps, IsAppendedOn, append_step};
ghost use Rattle.state_steps.specs.Appends.{following_append, written_after};
ghost use Rattle.state_steps.specs.Files.{HasWholeLine, KeepsLine, StateDisk};
ghost use Rattle.state_steps.specs.declared.appending.AppendStage.TheVariants.{Due, Failed, OnDisk};
ghost use Rattle.state_steps.specs.declared.appending.AppendStep.TheVariants.{SyncLines};
ghost use Rattle.state_steps.specs.declared.appending.AppendStep.TheVariants.{WriteLines};
ghost use Rattle.state_calls.specs.Inside.{following_if};
ghost use Rattle.state_calls.specs.Tries.{AfterTries, HasTried, MakesAppended, due_with};

use crate::calls::LineCalls;
use state_steps::{AppendStep, Appending};

/// Has lines written at the end of a journal, and returns whether they are: after a failure none
/// may be. They may not be acknowledged yet.
///
/// - `written`: they are written exactly if no step has failed.
/// - `due`: the journal has them after what was written before.
/// - `keeps`, `failed`: each line that was kept is kept.
///
/// # Errors
/// The step failed. A part of them may be written.
pub fn append_lines<S, E: Drop, T: LineCalls<S, AppendStep, E>>(
    calls: &mut T,
    with: &S,
    appending: &mut Appending,
    lines: &[u8],
) -> Result<bool, E>
    ensures written { IfOk result (λ is. (IsTrue is → appending.new.stage ≡ Due SyncLines)
        × (is ≡ false → (appending.old.stage ≡ Failed) × (appending.new.stage ≡ Failed)
        × (T.tried calls.new ≡ T.tried calls.old))) }
    ensures due { (written : List ℕ) (first : StateDisk)
        → AfterTries MakesAppended (T.tried calls.old) first
        (IsAppendedOn written appending.old.stage)
        → IfOk result (λ is. IsTrue is → AfterTries MakesAppended (T.tried calls.new) first
        (IsAppendedOn (written ++ lines.now) appending.new.stage)) }
    ensures keeps { (written : List ℕ) (first : StateDisk) (line : List ℕ)
        → AfterTries MakesAppended (T.tried calls.old) first
        (λ disk. AppendKeeps written appending.old disk line)
        → IfOk result (λ is. IsTrue is → AfterTries MakesAppended (T.tried calls.new) first
        (λ disk. AppendKeeps (written ++ lines.now) appending.new disk line)) }
    ensures failed { (written : List ℕ) (first : StateDisk) (line : List ℕ)
        → AfterTries MakesAppended (T.tried calls.old) first
        (λ disk. AppendKeeps written appending.old disk line)
        → OnErr result (AfterTries MakesAppended (T.tried calls.new) first
        (λ disk. AppendKeeps written appending.new disk line)) }
    ensures over { OnErr result (appending.new.stage ≡ Failed) }
{
    appending.add();
    match appending.next() {
        Some(AppendStep::WriteLines) => {
            try_append(calls, with, appending, lines)?;
            Ok(true)
        }
        _ => Ok(false),
    }
}

/// Has all that was written to a journal put on the disk, and has it looked whether the names still
/// lead to its files. Returns whether that is so; then it may be acknowledged.
///
/// - `done`: it is so unless a step failed, or lines were announced and not written.
/// - `acknowledged`: then each whole line of what was written is kept.
/// - `keeps`: each line that was kept is kept.
///
/// # Errors
/// A step failed. Nothing may be acknowledged from then on.
pub fn sync_lines<S, E: Drop, T: LineCalls<S, AppendStep, E>>(
    calls: &mut T,
    with: &S,
    appending: &mut Appending,
) -> Result<bool, E>
    ensures done { IfOk result (λ is. (IsTrue is ↔ (appending.new.stage ≡ OnDisk))
        × (is ≡ false → (appending.new.stage ≡ appending.old.stage)
        × ((appending.old.stage ≡ Failed) ⊎ (appending.old.stage ≡ Due WriteLines)))) }
    ensures due { (written : List ℕ) (first : StateDisk)
        → AfterTries MakesAppended (T.tried calls.old) first
        (IsAppendedOn written appending.old.stage)
        → OnOk result (AfterTries MakesAppended (T.tried calls.new) first
        (IsAppendedOn written appending.new.stage)) }
    ensures acknowledged { (written : List ℕ) (first : StateDisk) (line : List ℕ)
        → AfterTries MakesAppended (T.tried calls.old) first
        (IsAppendedOn written appending.old.stage) → HasWholeLine written line
        → IfOk result (λ is. IsTrue is → AfterTries MakesAppended (T.tried calls.new) first
        (λ disk. KeepsLine disk line)) }
    ensures keeps { (written : List ℕ) (first : StateDisk) (line : List ℕ)
        → AfterTries MakesAppended (T.tried calls.old) first
        (λ disk. AppendKeeps written appending.old disk line)
        → AfterTries MakesAppended (T.tried calls.new) first
        (λ disk. AppendKeeps written appending.new disk line) }
    ensures over { OnErr result (appending.new.stage ≡ Failed) }
{
    try_if_due(calls, with, appending, AppendStep::SyncLines)?;
    try_if_due(calls, with, appending, AppendStep::SeeNames)?;
    Ok(appending.is_done())
}

// Does this step, which writes nothing, if it is due.
fn try_if_due<S, E: Drop, T: LineCalls<S, AppendStep, E>>(
    calls: &mut T,
    with: &S,
    appending: &mut Appending,
    step: AppendStep,
) -> Result<(), E>
    ensures due { (written : List ℕ) (first : StateDisk) → step ≢ WriteLines
        → AfterTries MakesAppended (T.tried calls.old) first
        (IsAppendedOn written appending.old.stage)
        → OnOk result (AfterTries MakesAppended (T.tried calls.new) first
        (IsAppendedOn written appending.new.stage)) }
    ensures keeps { (written : List ℕ) (first : StateDisk) (line : List ℕ) → step ≢ WriteLines
        → AfterTries MakesAppended (T.tried calls.old) first
        (λ disk. AppendKeeps written appending.old disk line)
        → AfterTries MakesAppended (T.tried calls.new) first
        (λ disk. AppendKeeps written appending.new disk line) }
    ensures next { OnOk result (appending.new.stage
        ≡ following_if step appending.old.stage) }
    ensures over { OnErr result (appending.new.stage ≡ Failed) }
{
    match appending.next() {
        Some(due) if due == step => try_append(calls, with, appending, b"".as_slice()),
        _ => Ok(()),
    }
}

// Does the step that is due with these lines, and says to the machine what came of it. If none is
// due, nothing is done.
fn try_append<S, E: Drop, T: LineCalls<S, AppendStep, E>>(
    calls: &mut T,
    with: &S,
    appending: &mut Appending,
    lines: &[u8],
) -> Result<(), E>
    ensures tried { HasTried (due_with lines.now (append_step appending.old.stage)) (is_ok result)
        (T.tried calls.old) (T.tried calls.new) }
    ensures keeps { (written : List ℕ) (first : StateDisk) (line : List ℕ)
        → AfterTries MakesAppended (T.tried calls.old) first
        (λ disk. AppendKeeps written appending.old disk line)
        → OnOk result (AfterTries MakesAppended (T.tried calls.new) first
        (λ disk. AppendKeeps (written_after lines.now appending.old.stage written)
        appending.new disk line)) }
    ensures failed { (written : List ℕ) (first : StateDisk) (line : List ℕ)
        → AfterTries MakesAppended (T.tried calls.old) first
        (λ disk. AppendKeeps written appending.old disk line)
        → OnErr result (AfterTries MakesAppended (T.tried calls.new) first
        (λ disk. AppendKeeps written appending.new disk line)) }
    ensures due { (written : List ℕ) (first : StateDisk)
        → AfterTries MakesAppended (T.tried calls.old) first
        (IsAppendedOn written appending.old.stage)
        → OnOk result (AfterTries MakesAppended (T.tried calls.new) first
        (IsAppendedOn (written_after lines.now appending.old.stage written)
        appending.new.stage)) }
    ensures next { OnOk result (appending.new.stage ≡ following_append appending.old.stage) }
    ensures over { OnErr result (appending.new.stage ≡ Failed) }
{
    let Some(step) = appending.next() else {
        return Ok(());
    };
    match calls.try_lines(with, step, lines) {
        Ok(()) => {
            appending.done();
            Ok(())
        }
        Err(fault) => {
            appending.failed();
            Err(fault)
        }
    }
}
