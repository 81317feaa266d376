//! The lines of a question, taken as they come.
ghost use Rattle.std.specs.Prelude.{◌≡◌, ◌<◌, ◌+◌, ◌⊎◌, [], true, false, IfErr, OnOk, length};
ghost use Rattle.replica_core.specs.declared.error.SyncError.TheVariants.{NoMemory};
ghost use Rattle.bucket_sums.specs.Lines.{IsSumLine, part_count};
ghost use Rattle.bucket_sums.specs.Questions.{IsOtherLine, long_fault};
ghost use Rattle.bucket_sums.specs.Inside.Comparing.{IsCompared, marks_so_far, own_sums};

use crate::part_sums::Sums;
use crate::sum_lines::SumLines;
use fed_config::Config;
use replica_sync::{SyncError, read_first_line};
use std::alloc::Global;

/// What came of a question: its first line or not, and then sums, compared with own ones.
#[derive(Drop)]
pub(crate) struct QuestionLines {
    is_begun: bool,
    sums: SumLines,
}

impl QuestionLines {
    ghost use Rattle.bucket_sums.specs.Inside.QuestionSteps.{RefusesQuestionLine};
    ghost use Rattle.bucket_sums.specs.Inside.QuestionSteps.{TakesQuestionLine};

    /// After the first line.
    pub(crate) fn begun(alloc: Global, own: Sums) -> QuestionLines
        ensures begun { result.is_begun ≡ true }
        ensures none { marks_so_far result.sums ≡ [] }
        ensures own { own_sums result.sums ≡ own }
    {
        QuestionLines {
            is_begun: true,
            sums: SumLines::new(alloc, own),
        }
    }

    /// What was compared so far.
    pub(crate) fn sums(&self) -> &SumLines
        ensures { result.now ≡ self.now.sums }
    {
        &self.sums
    }

    /// Takes the next line.
    pub(crate) fn take(&mut self, config: &Config, text: &[u8]) -> Result<(), SyncError>
        requires { length (marks_so_far self.old.sums) < part_count }
        ensures ok { OnOk result (TakesQuestionLine config.now self.old text.now self.new) }
        ensures refused { IfErr result (RefusesQuestionLine config.now self.old text.now) }
        ensures own { own_sums self.new.sums ≡ own_sums self.old.sums }
    {
        if self.is_begun {
            return self.take_sum(text);
        }
        read_first_line(config, text)?;
        self.is_begun = true;
        Ok(())
    }

    // Takes the line of a sum.
    fn take_sum(&mut self, text: &[u8]) -> Result<(), SyncError>
        requires { length (marks_so_far self.old.sums) < part_count }
        ensures ok { OnOk result (IsCompared self.old.sums text.now self.new.sums) }
        ensures refused { IfErr result (λ e. (e ≡ NoMemory)
            ⊎ IsOtherLine IsSumLine (length (marks_so_far self.old.sums)) text.now e) }
        ensures begun { self.new.is_begun ≡ self.old.is_begun }
        ensures own { own_sums self.new.sums ≡ own_sums self.old.sums }
    {
        let number = self.next_number();
        if self.sums.compare(text)? {
            Ok(())
        } else {
            Err(SyncError::NotCanonical(number))
        }
    }

    // The number of the next sum's line, counted from 1.
    fn next_number(&self) -> u64
        ensures { result ≡ length (marks_so_far self.now.sums) + 2 }
    {
        self.sums.count() as u64 + 2
    }

    /// The error of the next line if it is too long.
    pub(crate) fn overlong(&self) -> SyncError
        ensures { result ≡ long_fault self.now.is_begun (length (marks_so_far self.now.sums)) }
    {
        if self.is_begun {
            SyncError::NotCanonical(self.next_number())
        } else {
            SyncError::BadHeader
        }
    }
}
