//! Account of the steps that were tried. Only clauses read it: it takes no memory, and its methods
//! do nothing.
ghost use Rattle.std.specs.Prelude.{◌≡◌, List, ℕ, [], ◌∷◌};
ghost use Rattle.std.specs.Borrow.{ftrue};

use http_server::Log;
use std::marker::{Model, PhantomData};

/// The steps of one kind that were tried.
#[derive(Drop)]
pub struct StepLog<P> {
    log: Log<P, bool>,
}

impl<P> StepLog<P> {
    ghost use Rattle.state_calls.specs.Logs.{noted_steps};

    /// None was tried yet.
    pub fn new() -> StepLog<P>
        ensures { noted_steps result ≡ [] }
    {
        StepLog { log: Log::new() }
    }

    /// This one was, and it was done or not.
    pub fn note(&mut self, step: &P, is_done: bool)
        ensures { noted_steps self.new ≡ (step.now, is_done) ∷ noted_steps self.old }
    {
        self.log = self.log.and(step, &is_done);
    }
}

/// The steps of one kind that were tried, each with lines.
#[derive(Drop)]
pub struct LineLog<P> {
    steps: StepLog<P>,
    texts: TextLog,
}

impl<P> LineLog<P> {
    ghost use Rattle.state_calls.specs.Logs.{noted_lines};

    /// None was tried yet.
    pub fn new() -> LineLog<P>
        ensures { noted_lines result ≡ [] }
    {
        LineLog {
            steps: StepLog::new(),
            texts: TextLog::new(),
        }
    }

    /// This one was, with these lines, and it was done or not.
    pub fn note(&mut self, step: &P, lines: &[u8], is_done: bool)
        ensures { noted_lines self.new ≡ ((step.now, lines.now), is_done) ∷ noted_lines self.old }
    {
        self.steps.note(step, is_done);
        self.texts.note(lines);
    }
}

/// Texts, the last first.
#[derive(Drop)]
struct TextLog {
    of: PhantomData<u8>,
    pub ghost noted: { List (List ℕ) },
}

impl Model for TextLog {
    ghost also_owns = { λ _. ftrue };
}

impl TextLog {
    fn new() -> TextLog
        ensures { result.noted ≡ [] }
    {
        TextLog { of: PhantomData }
    }

    fn note(&mut self, _text: &[u8])
        ensures { self.new.noted ≡ _text.now ∷ self.old.noted }
    {}
}
