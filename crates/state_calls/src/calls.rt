//! What does the steps.
ghost use Rattle.std.specs.Prelude.{◌≡◌, ◌∷◌, Bool, List, ℕ, is_ok};
ghost use Rattle.state_steps.specs.declared.file_step.FileStep.{FileStep};
ghost use Rattle.state_steps.specs.declared.shortening.ShortenStep.{ShortenStep};
ghost use Rattle.state_calls.specs.Looks.{IsSeenFor, IsSeenToShorten};

use state_steps::{FileStep, FoldEnd, ShortenStep};

/// Does steps of one kind to files, with what they take.
pub trait StepCalls<S, P, E> {
    // The steps that were tried, the last first, each with whether it was done.
    ghost tried: { Self → List (P × Bool) };

    /// Does the step.
    ///
    /// # Errors
    /// The step is not done, or only a part of it.
    fn try_step(&mut self, with: &S, step: P) -> Result<(), E>
        ensures { tried self.new ≡ (step, is_ok result) ∷ tried self.old };
}

/// Does steps of one kind to a file to which lines are written, with what they take.
pub trait LineCalls<S, P, E> {
    // The steps that were tried with these lines, the last first, each with whether it was done.
    ghost tried: { Self → List ((P × List ℕ) × Bool) };

    /// Does the step with the lines.
    ///
    /// # Errors
    /// The step is not done, or only a part of it.
    fn try_lines(&mut self, with: &S, step: P, lines: &[u8]) -> Result<(), E>
        ensures { tried self.new ≡ ((step, lines.now), is_ok result) ∷ tried self.old };
}

/// Does the steps of a fold to files that others may touch, with what they take.
pub trait FoldCalls<S, E> {
    // The steps that were tried, the last first, each with whether it was done.
    ghost tried: { Self → List (FileStep × Bool) };

    // Whether the last call was a look that found each file as it was left.
    ghost seen: { Self → Bool };

    /// Looks whether each file is as it was left.
    ///
    /// # Errors
    /// It is not, or the system does not say.
    fn look(&mut self, with: &S) -> Result<(), E>
        ensures tried { tried self.new ≡ tried self.old }
        ensures seen { seen self.new ≡ is_ok result };

    /// Does the step, right after a look; but none comes before the last step.
    ///
    /// # Errors
    /// The step is not done, or only a part of it.
    fn try_seen(&mut self, with: &S, step: FileStep) -> Result<(), E>
        requires { IsSeenFor step (seen self.old) }
        ensures { tried self.new ≡ (step, is_ok result) ∷ tried self.old };
}

/// Does the steps that shorten a journal, to files that others may touch, with what they take.
pub trait ShortenCalls<S, E> {
    // The steps that were tried with these lines, the last first, each with whether it was done.
    ghost tried: { Self → List ((ShortenStep × List ℕ) × Bool) };

    // Whether the last call was a look that found each file as it was left.
    ghost seen: { Self → Bool };

    /// Looks whether each file is as it was left.
    ///
    /// # Errors
    /// It is not, or the system does not say.
    fn look(&mut self, with: &S) -> Result<(), E>
        ensures tried { tried self.new ≡ tried self.old }
        ensures seen { seen self.new ≡ is_ok result };

    /// Does the step with the lines, right after a look; but none comes before the last step.
    ///
    /// # Errors
    /// The step is not done, or only a part of it.
    fn try_seen(&mut self, with: &S, step: ShortenStep, lines: &[u8]) -> Result<(), E>
        requires { IsSeenToShorten step (seen self.old) }
        ensures { tried self.new ≡ ((step, lines.now), is_ok result) ∷ tried self.old };
}

/// A step that failed.
#[derive(Clone, Copy, Debug)]
pub struct StepFault<E> {
    /// What is to be done.
    pub end: FoldEnd,
    /// Why it failed.
    pub fault: E,
}
