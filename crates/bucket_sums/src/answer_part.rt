//! What came of an answer.
ghost use Rattle.std.specs.Prelude.{◌≡◌, ◌⊎◌, false, not, IfErr, OnOk, None, Some, MatchOption};
ghost use Rattle.replica_core.specs.declared.error.SyncError.TheVariants.{NoMemory};
ghost use Rattle.bucket_sums.specs.Questions.{IsOtherLine, long_fault};

use crate::part_marks::Marks;
use fed_config::Config;
use replica_sync::{SyncError, read_first_line};
use std::alloc::Global;

/// What came of an answer: its first line or not, and the marks or not.
#[derive(Drop)]
pub(crate) struct AnswerPart {
    is_begun: bool,
    marks: Option<Marks>,
}

impl AnswerPart {
    ghost use Rattle.bucket_sums.specs.Asking.{IsLineOfMarks};
    ghost use Rattle.bucket_sums.specs.Inside.AnswerSteps.{RefusesLineOfAnswer, TakesLineOfAnswer};
    ghost use Rattle.bucket_sums.specs.Inside.AnswerSteps.{TakesMarks};

    /// Before the first line.
    pub(crate) fn new() -> AnswerPart
        ensures begun { result.is_begun ≡ false }
        ensures none { result.marks ≡ None }
    {
        AnswerPart {
            is_begun: false,
            marks: None,
        }
    }

    /// The marks, if they came.
    pub(crate) fn marks(&self) -> Option<&Marks>
        ensures { MatchOption result (self.now.marks ≡ None) (λ m. self.now.marks ≡ Some m.now) }
    {
        self.marks.as_ref()
    }

    /// Whether its first line has not come.
    pub(crate) fn is_unbegun(&self) -> bool
        ensures { result ≡ not self.now.is_begun }
    {
        !self.is_begun
    }

    /// Takes the next line.
    pub(crate) fn take(
        &mut self,
        alloc: Global,
        config: &Config,
        text: &[u8],
    ) -> Result<(), SyncError>
        ensures ok { OnOk result (TakesLineOfAnswer config.now self.old text.now self.new) }
        ensures refused { IfErr result (RefusesLineOfAnswer config.now self.old text.now) }
    {
        if self.is_begun {
            return self.take_marks(alloc, text);
        }
        read_first_line(config, text)?;
        self.is_begun = true;
        Ok(())
    }

    // Takes the line of the marks.
    fn take_marks(&mut self, alloc: Global, text: &[u8]) -> Result<(), SyncError>
        ensures ok { OnOk result (TakesMarks text.now self.new) }
        ensures refused { IfErr result (λ e. (e ≡ NoMemory)
            ⊎ IsOtherLine IsLineOfMarks 0 text.now e) }
        ensures begun { self.new.is_begun ≡ self.old.is_begun }
    {
        match Marks::read(alloc, text)? {
            Some(marks) => {
                self.marks = Some(marks);
                Ok(())
            }
            None => Err(SyncError::NotCanonical(2)),
        }
    }

    /// The error of the next line if it is too long.
    pub(crate) fn overlong(&self) -> SyncError
        ensures { result ≡ long_fault self.now.is_begun 0 }
    {
        if self.is_begun {
            SyncError::NotCanonical(2)
        } else {
            SyncError::BadHeader
        }
    }
}
