//! A session in which this replica asks for sums, and then about the parts that differ.
ghost use Rattle.std.specs.Prelude.{◌≡◌, ◌≤◌, ◌<◌, ◌++◌, ◌∷◌, ◌⊎◌, ◌↔◌, [], List, ℕ, None};
ghost use Rattle.std.specs.Prelude.{IfOk, IfErr, IsTrue, OnOk, MatchResult, Some, drop, length};
ghost use Rattle.std.specs.Prelude.{take, vec_len};
ghost use Rattle.receipt_core.specs.Acceptance.{Meaning};
ghost use Rattle.replica_core.specs.Session.{have_of, state_of};
ghost use Rattle.replica_core.specs.declared.error.SyncError.TheVariants.{NoMemory};
ghost use Rattle.replica_sync.specs.PulledPieces.{JournalsAll, PulledPiece, bytes_read};
ghost use Rattle.replica_texts.specs.Messages.{have_text};
ghost use Rattle.bucket_sums.specs.Questions.{sums_question as question_of};
ghost use Rattle.bucket_sums.specs.Sums.{sums_of};

use crate::summed_closure::SummedClosure;
use crate::sums_asking::{SumsAsking, sums_question};
use closure_core::Closure;
use replica_sync::{Pulling, SyncError};
use std::alloc::Global;

/// Whose answer is next.
#[derive(Drop)]
pub(crate) enum Stage {
    /// That to the question of sums.
    Asking(SumsAsking),
    /// Those to haves.
    Pulling(Pulling),
}

/// A session in which a replica pulls, without the connection: it is given the bytes of the answers
/// in pieces of any size, and says what is to be written.
///
/// It asks for the sums first, and then about the buckets that differ, in order, as a [`Pulling`]
/// does; about bucket 0, if only the records of distrust differ, since each answer has all of them.
/// If nothing differs, the session is over.
#[derive(Drop)]
pub struct QuietPulling {
    stage: Stage,
    // The question of sums, and how much of it was written.
    question: Vec<u8>,
    written: usize,
    fault: Option<SyncError>,
    ghost inside: { written ≤ vec_len question },
}

impl QuietPulling {
    ghost use Rattle.bucket_sums.specs.QuietPulls.{HasPulledQuietly, IsOverQuietly, PullsQuietly};
    ghost use Rattle.bucket_sums.specs.Inside.QuietPullSteps.{StepsQuietly};
    ghost use Rattle.bucket_sums.specs.Quiet.{fault_in};
    ghost use Rattle.bucket_sums.specs.QuietPulls.{IsUnanswered, count_of_quiet, due_asked};
    ghost use Rattle.bucket_sums.specs.QuietPulls.{fault_of_asked};
    ghost use Rattle.bucket_sums.specs.Serving.{TakesToLine};
    ghost use Rattle.replica_core.specs.declared.error.SyncError.TheVariants.{Truncated};

    /// The beginning of a session that asks for sums first: the question is to be written.
    ///
    /// # Errors
    /// [`SyncError::NoMemory`]: memory ran out.
    pub fn new<C: Closure>(
        alloc: Global,
        closure: &mut SummedClosure<C>,
    ) -> Result<QuietPulling, SyncError>
        ensures ok { IfOk result (λ p. HasPulledQuietly p (C.state closure.old).meaning [] []) }
        ensures asks { IfOk result
            (λ p. due_asked p ≡ question_of (C.state closure.old).meaning.config
            (sums_of (state_of (C.state closure.old).meaning))) }
        ensures same { closure.new ≡ closure.old }
        ensures refused { IfErr result (λ e. e ≡ NoMemory) }
    {
        let sums = closure.sums(alloc)?;
        Ok(QuietPulling {
            stage: Stage::Asking(SumsAsking::new(alloc)),
            question: sums_question(alloc, closure.config(), &sums)?,
            written: 0,
            fault: None,
        })
    }

    /// The beginning of a session that asks about each bucket, and for no sums: for a peer that
    /// does not know them. The have about the first bucket is to be written.
    ///
    /// # Errors
    /// [`SyncError::NoMemory`]: memory ran out.
    pub fn without_sums<C: Closure>(alloc: Global, closure: &C) -> Result<QuietPulling, SyncError>
        ensures ok { IfOk result (λ p. HasPulledQuietly p (C.state closure.now).meaning [] []) }
        ensures asks { IfOk result
            (λ p. due_asked p ≡ have_text (have_of (C.state closure.now).meaning 0)) }
        ensures refused { IfErr result (λ e. e ≡ NoMemory) }
    {
        Ok(QuietPulling {
            stage: Stage::Pulling(Pulling::new(alloc, closure)?),
            question: Vec::new(alloc),
            written: 0,
            fault: None,
        })
    }

    /// Takes the next bytes of the stream, and returns how many were taken: of the answer to the
    /// question up to the end of a line at most, and then as [`Pulling::read_lines`]. The others
    /// are to be given again. None is taken while something is to be written.
    ///
    /// What the lines say that was not held is held afterwards, and is appended to the journal, in
    /// the order of the lines. This may be so also if an error is returned.
    ///
    /// # Errors
    /// Each later call returns the same error. It is one of [`SumsAsking::read`] before the haves,
    /// and one of [`Pulling::read`] then.
    pub fn read_lines<C: Closure>(
        &mut self,
        alloc: Global,
        closure: &mut C,
        piece: &[u8],
        journal: &mut Vec<u8>,
    ) -> Result<usize, SyncError>
        ensures pulls { PullsQuietly self.old (record {
          bytes = bytes_read piece.now result;
          old = (C.state closure.old).meaning;
          new = (C.state closure.new).meaning;
        }) self.new }
        ensures journals { JournalsAll (C.state closure.old).meaning (C.state closure.new).meaning
            journal.old.items journal.new.items }
        ensures within { IfOk result (λ used. used ≤ length piece.now) }
        ensures taken { IfOk result (TakesToLine
            ((0 < length (due_asked self.new)) ⊎ IsOverQuietly self.new) piece.now) }
        ensures fault { MatchResult result (λ _. fault_of_asked self.new ≡ None)
            (λ e. fault_of_asked self.new ≡ Some e) }
    {
        if let Some(why) = self.fault {
            return Err(why);
        }
        match self.advance(alloc, closure, piece, journal) {
            Ok(used) => Ok(used),
            Err(why) => {
                self.fault = Some(why);
                Err(why)
            }
        }
    }

    // Takes the piece.
    fn advance<C: Closure>(
        &mut self,
        alloc: Global,
        closure: &mut C,
        piece: &[u8],
        journal: &mut Vec<u8>,
    ) -> Result<usize, SyncError>
        ensures pulls { StepsQuietly self.old (record {
          bytes = bytes_read piece.now result;
          old = (C.state closure.old).meaning;
          new = (C.state closure.new).meaning;
        }) (fault_in result) self.new }
        ensures journals { JournalsAll (C.state closure.old).meaning (C.state closure.new).meaning
            journal.old.items journal.new.items }
        ensures within { IfOk result (λ used. used ≤ length piece.now) }
        ensures taken { IfOk result (TakesToLine
            ((0 < length (due_asked self.new)) ⊎ IsOverQuietly self.new) piece.now) }
        ensures fault { self.new.fault ≡ self.old.fault }
    {
        let is_asked = self.written == self.question.len();
        match &mut self.stage {
            Stage::Pulling(pulling) => pulling.read_lines(alloc, closure, piece, journal),
            Stage::Asking(asking) => {
                if !is_asked {
                    return Ok(0);
                }
                let used = asking.read(alloc, closure.config(), piece)?;
                if let Some(marks) = asking.marks() {
                    let buckets = marks.asked(alloc)?;
                    let pulling = Pulling::about(alloc, &*closure, buckets)?;
                    self.stage = Stage::Pulling(pulling);
                }
                Ok(used)
            }
        }
    }

    /// What is to be written next.
    pub fn output(&self) -> &[u8]
        ensures { result.now ≡ due_asked self.now }
    {
        if self.written < self.question.len() {
            return &self.question[self.written..];
        }
        match &self.stage {
            Stage::Asking(_) => b"".as_slice(),
            Stage::Pulling(pulling) => pulling.output(),
        }
    }

    /// Says that the first `count` bytes of the output were written.
    pub fn wrote(&mut self, count: usize)
        requires { count ≤ length (due_asked self.old) }
        ensures pulls { (start : Meaning) (came : List PulledPiece) (written : List ℕ)
            → HasPulledQuietly self.old start came written
            → HasPulledQuietly self.new start came (written ++ take count (due_asked self.old)) }
    {
        if self.written < self.question.len() {
            self.written += count;
            return;
        }
        match &mut self.stage {
            Stage::Asking(_) => {}
            Stage::Pulling(pulling) => pulling.wrote(count),
        }
    }

    /// Whether all was answered. What follows is not read.
    pub fn is_over(&self) -> bool
        ensures { IsTrue result ↔ IsOverQuietly self.now }
    {
        match &self.stage {
            Stage::Asking(_) => false,
            Stage::Pulling(pulling) => pulling.is_over(),
        }
    }

    /// How many receipts were taken that were not held.
    pub fn taken(&self) -> u64
        ensures { result ≡ count_of_quiet self.now }
    {
        match &self.stage {
            Stage::Asking(_) => 0,
            Stage::Pulling(pulling) => pulling.taken(),
        }
    }

    /// Whether sums were asked, and no byte of an answer came. If the other side ends the
    /// connection then, it does not know sums: an earlier release refuses the question, and writes
    /// nothing. After an error of [`QuietPulling::read_lines`] it says nothing.
    pub fn is_unanswered(&self) -> bool
        ensures { (start : Meaning) (came : List PulledPiece) (written : List ℕ)
            → HasPulledQuietly self.now start came written → fault_of_asked self.now ≡ None
            → (IsTrue result ↔ IsUnanswered self.now came) }
    {
        match &self.stage {
            Stage::Asking(asking) => asking.is_unanswered(),
            Stage::Pulling(_) => false,
        }
    }

    /// Whether the stream may end here: all was answered.
    ///
    /// # Errors
    /// The error that was found; or [`SyncError::Truncated`]: the stream ends before that.
    pub fn end(&self) -> Result<(), SyncError>
        ensures whole { OnOk result
            ((fault_of_asked self.now ≡ None) × IsOverQuietly self.now) }
        ensures refused { IfErr result (λ e. (fault_of_asked self.now ≡ Some e)
            ⊎ ((fault_of_asked self.now ≡ None) × (e ≡ Truncated)
            × (IsOverQuietly self.now → ⊥))) }
    {
        match self.fault {
            Some(why) => Err(why),
            None => {
                if self.is_over() {
                    Ok(())
                } else {
                    Err(SyncError::Truncated)
                }
            }
        }
    }
}
