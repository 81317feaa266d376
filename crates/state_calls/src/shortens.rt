//! The steps in which a journal is shortened.
ghost use Rattle.std.specs.Prelude.{◌≡◌, ◌≢◌, ◌++◌, ◌∷◌, [], List, ℕ, IfErr, None, OnErr, OnOk};
ghost use Rattle.std.specs.Prelude.{false, is_ok};
ghost use Rattle.state_steps.specs.Files.{KeepsLine, StateDisk};
ghost use Rattle.state_steps.specs.Shortenings.{IsShortenDue, ShortensKeeps, following_shorten};
ghost use Rattle.state_steps.specs.Shortenings.{shorten_end};
ghost use Rattle.state_steps.specs.declared.folding.FoldEnd.TheVariants.{JournalContinues};
ghost use Rattle.state_steps.specs.declared.shortening.ShortenStep.TheVariants.{SyncFolder};
ghost use Rattle.state_calls.specs.Looks.{IsSeenDueToShorten, IsSeenToShorten, end_of_shortening};
ghost use Rattle.state_calls.specs.Tries.{AfterTries, HasTried, HoldsSince, MakesShorter};
ghost use Rattle.state_calls.specs.Tries.{TriesKeep, due_with};

use crate::calls::{ShortenCalls, StepFault};
use state_steps::{FoldEnd, ShortenStep, Shortening, laws};

/// Does the steps of a shortening that are due, one after another, with the lines that the new
/// journal gets after its first one. Each comes right after a look at the files, but none before
/// the last step, when the journal has its new file. At all times, also after an error, each line
/// that was kept is kept.
///
/// - `due`: when it is over, the journal is the new one, on the disk under its name.
///
/// # Errors
/// A step or a look failed: the journal is continued if it was not touched.
pub fn shorten<S, E: Drop, T: ShortenCalls<S, E>>(
    calls: &mut T,
    with: &S,
    shortening: &mut Shortening,
    lines: &[u8],
) -> Result<(), StepFault<E>>
    ensures over { OnOk result (shortening.new.next ≡ None) }
    ensures due { (head : List ℕ) (first : StateDisk)
        → AfterTries (MakesShorter head) (T.tried calls.old) first
        (IsShortenDue (head ++ lines.now) shortening.old.next)
        → OnOk result (AfterTries (MakesShorter head) (T.tried calls.new) first
        (IsShortenDue (head ++ lines.now) shortening.new.next)) }
    ensures always { (head : List ℕ) (first : StateDisk) (line : List ℕ)
        → AfterTries (MakesShorter head) (T.tried calls.old) first
        (λ disk. ShortensKeeps (head ++ lines.now) shortening.old disk line)
        → HoldsSince (TriesKeep (MakesShorter head) first line) (T.tried calls.old)
        (T.tried calls.new) }
    ensures ends { end_of_shortening (T.tried calls.old) ≡ JournalContinues
        → IfErr result (λ failed. failed.end ≡ end_of_shortening (T.tried calls.new)) }
{
    laws::stops();
    'steps: while let Some(step) = shortening.next() {
        look_before(calls, with, step)?;
        try_shorten(calls, with, shortening, lines)?;
    }
    Ok(())
}

// Looks whether each file is as it was left, if that has to be before the step.
fn look_before<S, E: Drop, T: ShortenCalls<S, E>>(
    calls: &mut T,
    with: &S,
    step: ShortenStep,
) -> Result<(), StepFault<E>>
    ensures tried { T.tried calls.new ≡ T.tried calls.old }
    ensures seen { OnOk result (IsSeenToShorten step (T.seen calls.new)) }
    ensures unseen { OnErr result ((T.seen calls.new ≡ false) × (step ≢ SyncFolder)) }
    ensures ends { IfErr result (λ failed. failed.end ≡ JournalContinues) }
{
    if step == ShortenStep::SyncFolder {
        return Ok(());
    }
    match calls.look(with) {
        Ok(()) => Ok(()),
        Err(fault) => Err(StepFault {
            end: FoldEnd::JournalContinues,
            fault,
        }),
    }
}

// Does the step of a shortening that is due, and says to the shortening what came of it. If none is
// due, nothing is done.
fn try_shorten<S, E: Drop, T: ShortenCalls<S, E>>(
    calls: &mut T,
    with: &S,
    shortening: &mut Shortening,
    lines: &[u8],
) -> Result<(), StepFault<E>>
    requires { IsSeenDueToShorten shortening.old.next (T.seen calls.old) }
    ensures tried { HasTried (due_with lines.now shortening.old.next) (is_ok result)
        (T.tried calls.old) (T.tried calls.new) }
    ensures due { (head : List ℕ) (first : StateDisk)
        → AfterTries (MakesShorter head) (T.tried calls.old) first
        (IsShortenDue (head ++ lines.now) shortening.old.next)
        → OnOk result (AfterTries (MakesShorter head) (T.tried calls.new) first
        (IsShortenDue (head ++ lines.now) shortening.new.next)) }
    ensures keeps { (head : List ℕ) (first : StateDisk) (line : List ℕ)
        → AfterTries (MakesShorter head) (T.tried calls.old) first
        (λ disk. ShortensKeeps (head ++ lines.now) shortening.old disk line)
        → OnOk result (AfterTries (MakesShorter head) (T.tried calls.new) first
        (λ disk. ShortensKeeps (head ++ lines.now) shortening.new disk line)) }
    ensures failed { (head : List ℕ) (first : StateDisk) (line : List ℕ)
        → AfterTries (MakesShorter head) (T.tried calls.old) first
        (λ disk. ShortensKeeps (head ++ lines.now) shortening.old disk line)
        → OnErr result (AfterTries (MakesShorter head) (T.tried calls.new) first
        (λ disk. KeepsLine disk line)) }
    ensures ends { IfErr result (λ failed. failed.end ≡ shorten_end shortening.old.next) }
    ensures next { OnOk result (shortening.new.next ≡ following_shorten shortening.old.next) }
{
    let Some(step) = shortening.next() else {
        return Ok(());
    };
    match calls.try_seen(with, step, lines) {
        Ok(()) => {
            shortening.done();
            Ok(())
        }
        Err(fault) => {
            let end = shortening.failed();
            Err(StepFault { end, fault })
        }
    }
}
