//! A question that comes in pieces, and the answer to it.
ghost use Rattle.std.specs.Prelude.{◌≡◌, ◌↔◌, ◌<◌, ◌≤◌, ◌++◌, List, ℕ, None, Some, length};
ghost use Rattle.std.specs.Prelude.{IsTrue, IfOk, IfErr, MatchResult, slice_index_or, true};
ghost use Rattle.fed_config.specs.Configuration.{Configuration};
ghost use Rattle.replica_texts.specs.Snapshots.{ended};
ghost use Rattle.replica_texts.specs.SoleLines.{written_header};
ghost use Rattle.replica_sync.specs.Pieces.{longest};
ghost use Rattle.bucket_sums.specs.Lines.{part_count};
ghost use Rattle.bucket_sums.specs.Questions.{longest_line, sums_answer};

use crate::part_marks::{PART_COUNT, marks_text};
use crate::part_sums::Sums;
use crate::question_lines::QuestionLines;
use fed_config::Config;
use replica_sync::{LinePart, PieceEnd, SyncError, write_first_line};
use std::alloc::{AllocError, Global};

// The most bytes of a line.
pub(crate) const LONGEST_LINE: usize = 512;

/// The side of a question of sums that answers, without the connection: it is given the bytes of
/// the question in pieces of any size, and then says the answer. It compares each sum as its line
/// comes, and keeps none of them.
#[derive(Drop)]
pub(crate) struct SumsServing {
    part: LinePart,
    question: QuestionLines,
    fault: Option<SyncError>,
    ghost limit: { longest part ≡ longest_line },
}

impl SumsServing {
    ghost use Rattle.bucket_sums.specs.Serving.{HasAsked, HasTakenQuestion, bytes_taken};
    ghost use Rattle.bucket_sums.specs.Serving.{TakesToLine};
    ghost use Rattle.bucket_sums.specs.Serving.{fault_of_question, marks_made, own_sums_of};
    ghost use Rattle.bucket_sums.specs.Inside.QuestionSteps.{FailsQuestion, StepsQuestion};

    /// A question whose first line came.
    pub(crate) fn after_first_line(alloc: Global, own: Sums) -> SumsServing
        ensures begins { (config : Configuration)
            → HasTakenQuestion config result (ended (written_header config)) }
        ensures own { own_sums_of result ≡ own }
        ensures sound { fault_of_question result ≡ None }
    {
        SumsServing {
            part: LinePart::new(alloc, LONGEST_LINE),
            question: QuestionLines::begun(alloc, own),
            fault: None,
        }
    }

    /// Takes the next bytes of the question, up to the end of a line at most, and returns how many
    /// were taken: all, or those up to the end of a line. After the question's last line it takes
    /// none.
    ///
    /// # Errors
    /// Each later call returns the same error. The first of these that holds:
    /// - [`SyncError::BadHeader`]: the first line is not one of a snapshot, or has
    ///   more than 512 bytes,
    /// - [`SyncError::ConfigDiffers`]: it is of another configuration,
    /// - [`SyncError::VersionDiffers`]: it is of another format,
    /// - [`SyncError::NotCanonical`]: a line after it is not 64 lower-case hexadecimal digits,
    /// - [`SyncError::NoMemory`]: memory ran out.
    fn read(&mut self, alloc: Global, config: &Config, piece: &[u8]) -> Result<usize, SyncError>
        ensures takes { (came : List ℕ) → HasTakenQuestion config.now self.old came
            → HasTakenQuestion config.now self.new (came ++ bytes_taken piece.now result) }
        ensures within { IfOk result (λ used. used ≤ length piece.now) }
        ensures taken { IfOk result (TakesToLine (HasAsked self.new) piece.now) }
        ensures own { own_sums_of self.new ≡ own_sums_of self.old }
        ensures fault { MatchResult result (λ _. fault_of_question self.new ≡ None)
            (λ e. fault_of_question self.new ≡ Some e) }
    {
        if let Some(why) = self.fault {
            return Err(why);
        }
        if self.has_asked() {
            return Ok(0);
        }
        match self.advance(config, piece) {
            Ok(used) => Ok(used),
            Err(why) => {
                self.fault = Some(why);
                Err(why)
            }
        }
    }

    /// Takes the next bytes of the question, up to its end at most, and returns how many were
    /// taken: all, or those up to its end.
    ///
    /// # Errors
    /// Those of [`SumsServing::read`].
    pub(crate) fn read_lines(
        &mut self,
        alloc: Global,
        config: &Config,
        piece: &[u8],
    ) -> Result<usize, SyncError>
        ensures takes { (came : List ℕ) → HasTakenQuestion config.now self.old came
            → HasTakenQuestion config.now self.new (came ++ bytes_taken piece.now result) }
        ensures within { IfOk result (λ used. used ≤ length piece.now) }
        ensures taken { IfOk result (λ used. used < length piece.now → HasAsked self.new) }
        ensures own { own_sums_of self.new ≡ own_sums_of self.old }
        ensures fault { MatchResult result (λ _. fault_of_question self.new ≡ None)
            (λ e. fault_of_question self.new ≡ Some e) }
    {
        let mut used: usize = 0;
        'lines: loop {
            match self.read(alloc, config, &piece[used..]) {
                Ok(more) => {
                    used += more;
                    if more == 0 || used == piece.len() {
                        return Ok(used);
                    }
                }
                Err(why) => return Err(why),
            }
        }
    }

    // Takes the piece up to the end of a line.
    fn advance(&mut self, config: &Config, piece: &[u8]) -> Result<usize, SyncError>
        requires { HasAsked self.old → ⊥ }
        ensures ok { IfOk result
            (λ used. StepsQuestion config.now self.old piece.now used self.new) }
        ensures refused { IfErr result (FailsQuestion config.now self.old piece.now) }
        ensures own { own_sums_of self.new ≡ own_sums_of self.old }
        ensures fault { self.new.fault ≡ self.old.fault }
    {
        match self.part.take(piece)? {
            PieceEnd::Within => Ok(piece.len()),
            PieceEnd::TooLong => Err(self.question.overlong()),
            PieceEnd::Line(used) => {
                self.question.take(config, self.part.line())?;
                Ok(used)
            }
        }
    }

    /// Whether the question has ended. What follows it is not read.
    pub(crate) fn has_asked(&self) -> bool
        ensures asked { IsTrue result ↔ HasAsked self.now }
        ensures all { length (own_sums_of self.now) ≡ part_count }
    {
        self.question.sums().count() == PART_COUNT
    }

    /// The answer to the question: the first line with which a snapshot begins, and a line with a
    /// mark for the records and for each bucket: `1` if it differs, and `0` if not.
    ///
    /// # Errors
    /// Memory ran out.
    pub(crate) fn answer(&self, alloc: Global, config: &Config) -> Result<Vec<u8>, AllocError>
        ensures { IfOk result
            (λ text. text.items ≡ sums_answer config.now (marks_made self.now)) }
    {
        let mut text = write_first_line(alloc, config)?;
        text.extend_from_slice(b"\n")?;
        let marks = marks_text(alloc, self.question.sums().marks())?;
        text.extend_from_slice(marks.as_slice())?;
        text.extend_from_slice(b"\n")?;
        Ok(text)
    }

    /// Whether the sum of the records of distrust is another one. Before its line came this is
    /// true.
    pub(crate) fn records_differ(&self) -> bool
        ensures { result ≡ slice_index_or (marks_made self.now) 0 true }
    {
        match self.question.sums().marks().first() {
            Some(mark) => *mark,
            None => true,
        }
    }
}
