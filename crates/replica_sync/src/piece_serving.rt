//! Haves that come in pieces, and the answers to them.
ghost use Rattle.std.specs.Prelude.{◌≡◌, ◌≢◌, ◌+◌, ◌≤◌, ◌<◌, ◌++◌, ◌⊎◌, [], ◌∷◌, List, ℕ};
ghost use Rattle.std.specs.Prelude.{IfOk, IfErr, OnOk, None, Some, length, take, drop, vec_len};
ghost use Rattle.std.specs.Prelude.{MatchResult};
ghost use Rattle.replica_core.specs.Session.{give_of};
ghost use Rattle.replica_core.specs.declared.error.SyncError.TheVariants.{Io, Truncated};
ghost use Rattle.replica_texts.specs.FirstLines.{RefusesHaveLine};
ghost use Rattle.replica_texts.specs.Messages.{give_text};
ghost use Rattle.byte_lines.specs.Limits.{line_limit};
ghost use Rattle.byte_lines.specs.Lines.{HasNoFeed};
ghost use Rattle.replica_sync.specs.Pieces.{longest, piece_run};
ghost use Rattle.replica_sync.specs.AnsweredFrom.{answered_from};
ghost use Rattle.replica_sync.specs.Inside.ServingSteps.{AnswersLine};
ghost use Rattle.replica_sync.specs.declared.answer_records.AnswerRecords.TheVariants.{All};
ghost use Rattle.replica_sync.specs.declared.answer_records.AnswerRecords.TheVariants.{LeftOut};

use crate::answer_records::AnswerRecords;
use crate::line_part::{LinePart, PieceEnd};
use crate::text_sink::TextSink;
use closure_core::Closure;
use replica_core::{Have, SyncError, answer};
use replica_texts::{read_have_line, write_answer};
use std::alloc::{AllocError, Global};

// The most bytes that a line has, without its line feed.
const LONGEST_HAVE: usize = 8_388_608;

/// A session in which haves are answered, without the connection: it is given the bytes of the
/// stream in pieces of any size, and says what is to be written.
///
/// Each have is answered with what is held when its last byte comes. It is taken only when the
/// answer to the one before it is written, so one answer at most is kept in memory.
#[derive(Drop)]
pub struct Serving {
    part: LinePart,
    // Which records the next answer has.
    records: AnswerRecords,
    // The answer that is being written, and how much of it was.
    answer: Vec<u8>,
    written: usize,
    fault: Option<SyncError>,
    ghost inside: { written ≤ vec_len answer },
    ghost limit: { longest part ≡ line_limit },
}

impl Serving {
    ghost use Rattle.replica_sync.specs.ServedPieces.{Came, HasServedPieces, came_taken};
    ghost use Rattle.replica_sync.specs.ServedPieces.{due_give, fault_of_serving, kept_have};
    ghost use Rattle.replica_sync.specs.ServedPieces.{TakesUpToHave, records_answered};
    ghost use Rattle.replica_sync.specs.Inside.ServingSteps.{RefusesPiece, TakesHave};

    /// The beginning of a session.
    pub fn new(alloc: Global) -> Serving
        ensures begins { HasServedPieces result [] [] }
        ensures sound { fault_of_serving result ≡ None }
        ensures idle { due_give result ≡ [] }
        ensures records { records_answered result ≡ All }
    {
        Serving {
            part: LinePart::new(alloc, LONGEST_HAVE),
            records: AnswerRecords::All,
            answer: Vec::new(alloc),
            written: 0,
            fault: None,
        }
    }

    /// Leaves the records of distrust out of all answers from now on.
    pub fn leave_out_records(&mut self)
        ensures serves { (came : List Came) (written : List ℕ)
            → HasServedPieces self.old came written → HasServedPieces self.new came written }
        ensures records { records_answered self.new ≡ LeftOut }
        ensures due { due_give self.new ≡ due_give self.old }
        ensures fault { fault_of_serving self.new ≡ fault_of_serving self.old }
    {
        self.records = AnswerRecords::LeftOut;
    }

    /// Takes the next bytes of the stream, up to the end of a have at most, and returns how many
    /// were taken. It takes all of them, unless there is something to be written then. The others
    /// are to be given again once that is written.
    ///
    /// # Errors
    /// The answers to the haves before the error may still be written, and nothing else ever is.
    /// Each later call returns the same error. The first of these that holds:
    /// - [`SyncError::BadHeader`]: a line is not a have's, of whatever format and number of
    ///   buckets, or its bucket is not below that number, or its ids do not rise strictly, or it
    ///   has more than 8,388,608 bytes,
    /// - [`SyncError::ConfigDiffers`]: a have is of another configuration,
    /// - [`SyncError::VersionDiffers`]: it has another format than 2, or another number of buckets
    ///   than 256,
    /// - [`SyncError::NoMemory`]: memory ran out.
    pub fn read<C: Closure>(
        &mut self,
        alloc: Global,
        closure: &C,
        piece: &[u8],
    ) -> Result<usize, SyncError>
        ensures serves { (came : List Came) (written : List ℕ)
            → HasServedPieces self.old came written → HasServedPieces self.new
            (came ++ came_taken piece.now (answered_from (records_answered self.old)
            (C.state closure.now).meaning) result ∷ []) written }
        ensures records { records_answered self.new ≡ records_answered self.old }
        ensures taken { IfOk result (λ used. (used ≤ length piece.now)
            × ((used ≡ length piece.now) ⊎ (0 < length (due_give self.new)))) }
        ensures whole { due_give self.old ≡ [] → HasNoFeed piece.now
            → IfOk result (λ used. used ≡ length piece.now) }
        ensures quiet { due_give self.old ≡ [] → HasNoFeed piece.now → due_give self.new ≡ [] }
        ensures step { due_give self.old ≡ [] → IfOk result (λ used. TakesUpToHave
            (answered_from (records_answered self.old) (C.state closure.now).meaning)
            (piece_run line_limit (kept_have self.old) piece.now) used self.new) }
        ensures waits { 0 < length (due_give self.old) → self.new ≡ self.old }
        ensures refused { fault_of_serving self.old ≡ None → IfErr result (λ e. RefusesPiece
            (answered_from (records_answered self.old) (C.state closure.now).meaning)
            (kept_have self.old) piece.now e) }
        ensures calm { fault_of_serving self.old ≡ None → IfErr result (λ e. e ≢ Io) }
        ensures fault { MatchResult result (λ _. fault_of_serving self.new ≡ None)
            (λ e. fault_of_serving self.new ≡ Some e) }
    {
        if let Some(why) = self.fault {
            return Err(why);
        }
        if !self.output().is_empty() {
            return Ok(0);
        }
        match self.advance(alloc, closure, piece) {
            Ok(used) => Ok(used),
            Err(why) => {
                self.fault = Some(why);
                Err(why)
            }
        }
    }

    // Takes the piece up to the end of a have, and makes the answer.
    fn advance<C: Closure>(
        &mut self,
        alloc: Global,
        closure: &C,
        piece: &[u8],
    ) -> Result<usize, SyncError>
        requires idle { due_give self.old ≡ [] }
        ensures ok { IfOk result (λ used. TakesHave
            (answered_from (records_answered self.old) (C.state closure.now).meaning)
            (kept_have self.old) piece.now used (kept_have self.new) (due_give self.new)) }
        ensures refused { IfErr result (λ e. RefusesPiece
            (answered_from (records_answered self.old) (C.state closure.now).meaning)
            (kept_have self.old) piece.now e) }
        ensures calm { IfErr result (λ e. e ≢ Io) }
        ensures records { records_answered self.new ≡ records_answered self.old }
        ensures quiet { IfErr result (λ e. due_give self.new ≡ []) }
        ensures fault { self.new.fault ≡ self.old.fault }
    {
        match self.part.take(piece)? {
            PieceEnd::Within => Ok(piece.len()),
            PieceEnd::TooLong => Err(SyncError::BadHeader),
            PieceEnd::Line(used) => {
                let answer = give_of_line(alloc, closure, self.records, self.part.line())?;
                self.answer = answer;
                self.written = 0;
                Ok(used)
            }
        }
    }

    /// What is to be written next.
    pub fn output(&self) -> &[u8]
        ensures { result.now ≡ due_give self.now }
    {
        &self.answer[self.written..]
    }

    /// Says that the first `count` bytes of the output were written.
    pub fn wrote(&mut self, count: usize)
        requires { count ≤ length (due_give self.old) }
        ensures serves { (came : List Came) (written : List ℕ)
            → HasServedPieces self.old came written
            → HasServedPieces self.new came (written ++ take count (due_give self.old)) }
        ensures due { due_give self.new ≡ drop count (due_give self.old) }
        ensures kept { kept_have self.new ≡ kept_have self.old }
        ensures fault { fault_of_serving self.new ≡ fault_of_serving self.old }
        ensures records { records_answered self.new ≡ records_answered self.old }
    {
        self.written += count;
        if self.written == self.answer.len() {
            // It needs no memory any more.
            self.answer = Vec::new(*self.answer.allocator());
            self.written = 0;
        }
    }

    /// Whether the stream may end here: no error was found, and no beginning of a have is kept.
    ///
    /// # Errors
    /// The error that was found; or [`SyncError::Truncated`]: the stream ends within a have.
    pub fn end(&self) -> Result<(), SyncError>
        ensures whole { OnOk result
            ((fault_of_serving self.now ≡ None) × (kept_have self.now ≡ [])) }
        ensures refused { IfErr result (λ e. (fault_of_serving self.now ≡ Some e)
            ⊎ ((fault_of_serving self.now ≡ None) × (e ≡ Truncated)
            × (kept_have self.now ≡ [] → ⊥))) }
    {
        match self.fault {
            Some(why) => Err(why),
            None => {
                if self.part.is_empty() {
                    Ok(())
                } else {
                    Err(SyncError::Truncated)
                }
            }
        }
    }
}

// The answer to the have whose line this is, of what the closure holds, with these records.
fn give_of_line<C: Closure>(
    alloc: Global,
    closure: &C,
    records: AnswerRecords,
    text: &[u8],
) -> Result<Vec<u8>, SyncError>
    ensures ok { IfOk result
        (λ give. AnswersLine (answered_from records (C.state closure.now).meaning) text.now
        give.items) }
    ensures refused { IfErr result
        (RefusesHaveLine (Some (C.state closure.now).meaning.config) text.now) }
{
    let have = read_have_line(alloc, closure.config(), text)?;
    let give = give_to(alloc, closure, records, &have)?;
    Ok(give)
}

// The answer to the have, of what the closure holds, with these records.
fn give_to<C: Closure>(
    alloc: Global,
    closure: &C,
    records: AnswerRecords,
    have: &Have,
) -> Result<Vec<u8>, AllocError>
    ensures { IfOk result (λ text. text.items
        ≡ give_text (give_of (answered_from records (C.state closure.now).meaning) have.now)) }
{
    let mut sink = TextSink::new(alloc);
    let whole = answer(closure, have);
    let given = match records {
        AnswerRecords::All => whole,
        AnswerRecords::LeftOut => whole.without_records(),
    };
    match write_answer(alloc, given, &mut sink) {
        Ok(()) => Ok(sink.into_text()),
        Err(_) => Err(AllocError),
    }
}
