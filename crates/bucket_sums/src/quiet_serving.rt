//! A connection that is served: a question of sums or none, and then haves.
ghost use Rattle.std.specs.Prelude.{◌≡◌, ◌+◌, ◌≤◌, ◌<◌, ◌++◌, ◌∷◌, ◌⊎◌, [], List, ℕ, None, Some};
ghost use Rattle.std.specs.Prelude.{IfOk, IfErr, OnOk, MatchResult, drop, length, take, vec_len};
ghost use Rattle.fed_config.specs.Configuration.{Configuration};
ghost use Rattle.replica_sync.specs.ServedPieces.{Came, HasServedPieces, came_taken, due_give};
ghost use Rattle.replica_sync.specs.ServedPieces.{fault_of_serving, records_answered};
ghost use Rattle.bucket_sums.specs.RecordsOnce.{has_feed, left_out_if};
ghost use Rattle.bucket_sums.specs.Inside.QuietSteps.{limit_of_opening};
ghost use Rattle.bucket_sums.specs.Questions.{longest_line};

use crate::first_line::{FirstLine, take_first_line};
use crate::part_marks::PART_COUNT;
use crate::summed_closure::SummedClosure;
use crate::sums_serving::{LONGEST_LINE, SumsServing};
use closure_core::Closure;
use replica_sync::{LinePart, Serving, SyncError};
use std::alloc::Global;

// The lines of a question: the first one, and one for each sum.
const QUESTION_SIZE: u64 = PART_COUNT as u64 + 1;

/// What comes first on a connection.
#[derive(Drop)]
pub(crate) enum Opening {
    /// Its first line has not ended.
    FirstLine(LinePart),
    /// It is a question of sums, which has not ended.
    Question(SumsServing),
    /// It is not a question, and haves come.
    Plain,
    /// It was a question, which is answered, and haves come now.
    Answered,
}

/// A session in which another replica asks, without the connection: it is given the bytes of the
/// stream in pieces of any size, and says what is to be written.
///
/// If the first line is that of a question of sums, the question is answered with what is held when
/// that line ends, and haves come after it. If the records of distrust differ, the answer to the
/// first of these has all records, and no other answer has any. Else haves come from the beginning
/// on, and all is as with a [`Serving`].
#[derive(Drop)]
pub struct QuietServing {
    opening: Opening,
    // The haves. As long as the first line may be that of a have, it has the same bytes.
    haves: Serving,
    // The answer to the question, and how much of it was written.
    marks: Vec<u8>,
    written: usize,
    fault: Option<SyncError>,
    ghost inside: { written ≤ vec_len marks },
    ghost limit: { limit_of_opening opening ≡ longest_line },
}

impl QuietServing {
    ghost use Rattle.bucket_sums.specs.Quiet.{HasServedQuietly, ServesQuietly, due_marks};
    ghost use Rattle.bucket_sums.specs.Quiet.{IsBetween, due_quiet, fault_in, fault_of_quiet};
    ghost use Rattle.bucket_sums.specs.QuietRuns.{lines_asked};
    ghost use Rattle.bucket_sums.specs.Inside.QuietTurns.{bytes_owed, turns_left};
    ghost use Rattle.bucket_sums.specs.Serving.{TakesToLine};
    ghost use Rattle.replica_sync.specs.ServedPieces.{fault_of_serving};
    ghost use Rattle.replica_core.specs.declared.error.SyncError.TheVariants.{Truncated};

    /// The beginning of a session.
    pub fn new(alloc: Global) -> QuietServing
        ensures begins { (config : Configuration) → HasServedQuietly config result [] [] }
        ensures idle { due_quiet result ≡ [] }
    {
        QuietServing {
            opening: Opening::FirstLine(LinePart::new(alloc, LONGEST_LINE)),
            haves: Serving::new(alloc),
            marks: Vec::new(alloc),
            written: 0,
            fault: None,
        }
    }

    /// Takes the next bytes of the stream, up to the end of the question or of a have at most, and
    /// returns how many were taken: all of them, or those up to the end of a line. It takes none
    /// while there is something to be written. The others are to be given again.
    ///
    /// # Errors
    /// What is due may still be written, and nothing else ever is. Each later call returns the same
    /// error. It is one of [`Serving::read`]; or, if the first line is that of a question:
    /// - [`SyncError::ConfigDiffers`]: the line is of another configuration,
    /// - [`SyncError::VersionDiffers`]: it is of another format,
    /// - [`SyncError::NotCanonical`]: a line after it is not 64 lower-case hexadecimal digits.
    pub fn read<C: Closure>(
        &mut self,
        alloc: Global,
        closure: &mut SummedClosure<C>,
        piece: &[u8],
    ) -> Result<usize, SyncError>
        ensures serves { (config : Configuration) (came : List Came) (written : List ℕ)
            → (C.state closure.old).meaning.config ≡ config
            → HasServedQuietly config self.old came written → HasServedQuietly config self.new
            (came ++ came_taken piece.now (C.state closure.old).meaning result ∷ []) written }
        ensures same { closure.new ≡ closure.old }
        ensures within { IfOk result (λ used. used ≤ length piece.now) }
        ensures taken { IfOk result (TakesToLine (0 < length (due_quiet self.new)) piece.now) }
        ensures goes { due_quiet self.old ≡ [] → 0 < length piece.now
            → IfOk result (λ used. turns_left self.new < turns_left self.old + used) }
        ensures waits { 0 < length (due_quiet self.old) → self.new ≡ self.old }
        ensures fault { MatchResult result (λ _. fault_of_quiet self.new ≡ None)
            (λ e. fault_of_quiet self.new ≡ Some e) }
    {
        if let Some(why) = self.fault {
            return Err(why);
        }
        if !self.output().is_empty() {
            return Ok(0);
        }
        match self.advance(alloc, closure, piece) {
            Ok(used) => Ok(used),
            Err(why) => {
                self.fault = Some(why);
                Err(why)
            }
        }
    }

    // Takes the piece.
    fn advance<C: Closure>(
        &mut self,
        alloc: Global,
        closure: &mut SummedClosure<C>,
        piece: &[u8],
    ) -> Result<usize, SyncError>
        requires { due_quiet self.old ≡ [] }
        ensures serves { (config : Configuration) (came : List Came) (written : List ℕ)
            → (C.state closure.old).meaning.config ≡ config
            → ServesQuietly None config self.old came written
            → ServesQuietly (fault_in result) config self.new
            (came ++ came_taken piece.now (C.state closure.old).meaning result ∷ []) written }
        ensures same { closure.new ≡ closure.old }
        ensures within { IfOk result (λ used. used ≤ length piece.now) }
        ensures taken { IfOk result (TakesToLine (0 < length (due_quiet self.new)) piece.now) }
        ensures goes { 0 < length piece.now
            → IfOk result (λ used. turns_left self.new < turns_left self.old + used) }
        ensures fault { self.new.fault ≡ self.old.fault }
    {
        let config = closure.config();
        match &mut self.opening {
            Opening::Plain => self.haves.read(alloc, &*closure, piece),
            Opening::Answered => {
                let used = self.haves.read(alloc, &*closure, piece)?;
                leave_out_if(&mut self.haves, has_line_feed(&piece[..used]));
                Ok(used)
            }
            Opening::Question(question) => {
                let used = question.read_lines(alloc, config, piece)?;
                if question.has_asked() {
                    let marks = question.answer(alloc, config)?;
                    leave_out_if(&mut self.haves, !question.records_differ());
                    self.marks = marks;
                    self.written = 0;
                    self.opening = Opening::Answered;
                }
                Ok(used)
            }
            Opening::FirstLine(part) => match take_first_line(part, config, piece)? {
                FirstLine::Within => self.haves.read(alloc, &*closure, piece),
                FirstLine::Sums(used) => {
                    let own = closure.sums(alloc)?;
                    self.opening = Opening::Question(SumsServing::after_first_line(alloc, own));
                    self.haves = Serving::new(alloc);
                    Ok(used)
                }
                FirstLine::Haves => {
                    self.opening = Opening::Plain;
                    self.haves.read(alloc, &*closure, piece)
                }
            },
        }
    }

    /// What is to be written next.
    pub fn output(&self) -> &[u8]
        ensures { result.now ≡ due_quiet self.now }
    {
        if self.written < self.marks.len() {
            &self.marks[self.written..]
        } else {
            self.haves.output()
        }
    }

    /// Says that the first `count` bytes of the output were written.
    pub fn wrote(&mut self, count: usize)
        requires { count ≤ length (due_quiet self.old) }
        ensures serves { (config : Configuration) (came : List Came) (written : List ℕ)
            → HasServedQuietly config self.old came written → HasServedQuietly config self.new came
            (written ++ take count (due_quiet self.old)) }
        ensures owed { bytes_owed self.new + count ≡ bytes_owed self.old }
        ensures turns { turns_left self.new ≡ turns_left self.old }
        ensures fault { fault_of_quiet self.new ≡ fault_of_quiet self.old }
    {
        if self.written < self.marks.len() {
            self.written += count;
        } else {
            self.haves.wrote(count);
        }
    }

    // How many of the lines that came are the question's, once it is answered.
    pub(crate) fn question_size(&self) -> u64
        ensures { result ≡ lines_asked self.now }
    {
        match self.opening {
            Opening::Answered => QUESTION_SIZE,
            Opening::FirstLine(_) | Opening::Question(_) | Opening::Plain => 0,
        }
    }

    /// Whether the stream may end here: no error was found, and neither a question nor a have is
    /// begun.
    ///
    /// # Errors
    /// The error that was found; or [`SyncError::Truncated`]: the stream ends within a question or
    /// a have.
    pub fn end(&self) -> Result<(), SyncError>
        ensures whole { OnOk result ((fault_of_quiet self.now ≡ None) × IsBetween self.now) }
        ensures refused { IfErr result (λ e. (fault_of_quiet self.now ≡ Some e)
            ⊎ ((fault_of_quiet self.now ≡ None) × (e ≡ Truncated)
            × (fault_of_serving self.now.haves ≡ None → IsBetween self.now → ⊥))) }
    {
        if let Some(why) = self.fault {
            return Err(why);
        }
        match &self.opening {
            Opening::Question(_) => Err(SyncError::Truncated),
            // An error of the haves is the session's, so here they have none.
            Opening::FirstLine(_) | Opening::Plain | Opening::Answered => match self.haves.end() {
                Ok(()) => Ok(()),
                Err(_) => Err(SyncError::Truncated),
            },
        }
    }
}

// Leaves the records out of the answers from now on, if this is true.
fn leave_out_if(haves: &mut Serving, is_due: bool)
    ensures serves { (came : List Came) (written : List ℕ)
        → HasServedPieces haves.old came written → HasServedPieces haves.new came written }
    ensures records { records_answered haves.new ≡ left_out_if is_due (records_answered haves.old) }
    ensures due { due_give haves.new ≡ due_give haves.old }
    ensures fault { fault_of_serving haves.new ≡ fault_of_serving haves.old }
{
    if is_due {
        haves.leave_out_records();
    }
}

fn has_line_feed(bytes: &[u8]) -> bool
    ensures { result ≡ has_feed bytes.now }
{
    bytes.contains(&b'\n')
}
