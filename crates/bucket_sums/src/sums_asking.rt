//! The question, and the answer to it that comes in pieces.
ghost use Rattle.std.specs.Prelude.{◌≡◌, ◌≤◌, ◌⊎◌, ◌++◌, [], List, ℕ, None, Some, length};
ghost use Rattle.std.specs.Prelude.{IsTrue, IfOk, IfErr, OnOk, MatchOption, MatchResult, ◌↔◌};
ghost use Rattle.fed_config.specs.Configuration.{Configuration};
ghost use Rattle.replica_core.specs.declared.error.SyncError.TheVariants.{Truncated};
ghost use Rattle.replica_sync.specs.Pieces.{longest};
ghost use Rattle.bucket_sums.specs.Questions.{longest_line, sums_question as question_of};

use crate::answer_part::AnswerPart;
use crate::part_marks::Marks;
use crate::part_sums::Sums;
use crate::sums_serving::LONGEST_LINE;
use fed_config::Config;
use replica_sync::{LinePart, PieceEnd, SyncError, write_first_line};
use std::alloc::{AllocError, Global};

/// The question: the first line with which a snapshot of the configuration begins, and a line for
/// each sum, of 64 lower-case hexadecimal digits.
///
/// # Errors
/// Memory ran out.
pub fn sums_question(alloc: Global, config: &Config, sums: &Sums) -> Result<Vec<u8>, AllocError>
    ensures { IfOk result (λ text. text.items ≡ question_of config.now sums.now) }
{
    let mut text = write_first_line(alloc, config)?;
    text.extend_from_slice(b"\n")?;
    sums.push_lines(&mut text)?;
    Ok(text)
}

/// The side of a question of sums that asks, without the connection: it is given the bytes of the
/// answer in pieces of any size, and then says which parts differ.
#[derive(Drop)]
pub struct SumsAsking {
    part: LinePart,
    answer: AnswerPart,
    fault: Option<SyncError>,
    ghost limit: { longest part ≡ longest_line },
}

impl SumsAsking {
    ghost use Rattle.bucket_sums.specs.Asking.{HasTakenAnswer, fault_of_answer, marks_answered};
    ghost use Rattle.bucket_sums.specs.Serving.{TakesToLine, bytes_taken};
    ghost use Rattle.bucket_sums.specs.Inside.AnswerSteps.{FailsAnswer, StepsAnswer};

    /// Before the first byte of the answer.
    pub fn new(alloc: Global) -> SumsAsking
        ensures begins { (config : Configuration) → HasTakenAnswer config result [] }
        ensures sound { fault_of_answer result ≡ None }
        ensures waits { marks_answered result ≡ None }
    {
        SumsAsking {
            part: LinePart::new(alloc, LONGEST_LINE),
            answer: AnswerPart::new(),
            fault: None,
        }
    }

    /// Takes the next bytes of the answer, up to the end of a line at most, and returns how many
    /// were taken: all, or those up to the end of a line. After the answer's last line it takes
    /// none.
    ///
    /// # Errors
    /// Each later call returns the same error. The first of these that holds:
    /// - [`SyncError::BadHeader`]: the first line is not one of a snapshot, or has
    ///   more than 512 bytes,
    /// - [`SyncError::ConfigDiffers`]: it is of another configuration,
    /// - [`SyncError::VersionDiffers`]: it is of another format,
    /// - [`SyncError::NotCanonical`]: the second line is not 257 marks,
    /// - [`SyncError::NoMemory`]: memory ran out.
    pub fn read(&mut self, alloc: Global, config: &Config, piece: &[u8]) -> Result<usize, SyncError>
        ensures takes { (came : List ℕ) → HasTakenAnswer config.now self.old came
            → HasTakenAnswer config.now self.new (came ++ bytes_taken piece.now result) }
        ensures within { IfOk result (λ used. used ≤ length piece.now) }
        ensures taken { IfOk result (TakesToLine (marks_answered self.new ≡ None → ⊥) piece.now) }
        ensures fault { MatchResult result (λ _. fault_of_answer self.new ≡ None)
            (λ e. fault_of_answer self.new ≡ Some e) }
    {
        if let Some(why) = self.fault {
            return Err(why);
        }
        if !self.is_waiting() {
            return Ok(0);
        }
        match self.advance(alloc, config, piece) {
            Ok(used) => Ok(used),
            Err(why) => {
                self.fault = Some(why);
                Err(why)
            }
        }
    }

    // Takes the piece up to the end of a line.
    fn advance(&mut self, alloc: Global, config: &Config, piece: &[u8]) -> Result<usize, SyncError>
        ensures ok { IfOk result (λ used. StepsAnswer config.now self.old piece.now used self.new) }
        ensures refused { IfErr result (FailsAnswer config.now self.old piece.now) }
        ensures fault { self.new.fault ≡ self.old.fault }
    {
        match self.part.take(piece)? {
            PieceEnd::Within => Ok(piece.len()),
            PieceEnd::TooLong => Err(self.answer.overlong()),
            PieceEnd::Line(used) => {
                self.answer.take(alloc, config, self.part.line())?;
                Ok(used)
            }
        }
    }

    /// Which parts differ. `None` before the answer has ended.
    pub fn marks(&self) -> Option<&Marks>
        ensures { MatchOption result (marks_answered self.now ≡ None)
            (λ m. marks_answered self.now ≡ Some m.now) }
    {
        self.answer.marks()
    }

    /// Whether no byte of the answer came.
    pub fn is_unanswered(&self) -> bool
        ensures { (config : Configuration) (came : List ℕ) → HasTakenAnswer config self.now came
            → fault_of_answer self.now ≡ None → marks_answered self.now ≡ None
            → (IsTrue result ↔ (came ≡ [])) }
    {
        self.answer.is_unbegun() && self.part.is_empty()
    }

    // Whether the answer has not ended yet.
    fn is_waiting(&self) -> bool
        ensures { IsTrue result ↔ (marks_answered self.now ≡ None) }
    {
        self.marks().is_none()
    }

    /// Whether the stream may end here: the answer has ended.
    ///
    /// # Errors
    /// The error that was found; or [`SyncError::Truncated`]: the stream ends before that.
    pub fn end(&self) -> Result<(), SyncError>
        ensures whole { OnOk result ((fault_of_answer self.now ≡ None)
            × (marks_answered self.now ≡ None → ⊥)) }
        ensures refused { IfErr result (λ e. (fault_of_answer self.now ≡ Some e)
            ⊎ ((fault_of_answer self.now ≡ None) × (e ≡ Truncated)
            × (marks_answered self.now ≡ None))) }
    {
        match self.fault {
            Some(why) => Err(why),
            None => match self.marks() {
                Some(_) => Ok(()),
                None => Err(SyncError::Truncated),
            },
        }
    }
}
