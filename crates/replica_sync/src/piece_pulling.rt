//! A pull whose answers come in pieces.
ghost use Rattle.std.specs.Prelude.{◌≡◌, ◌+◌, ◌-◌, ◌≤◌, ◌<◌, ◌++◌, ◌⊎◌, ◌↔◌, [], ◌∷◌, List, ℕ};
ghost use Rattle.std.specs.Prelude.{IfOk, IfErr, IsTrue, OnOk, OnErr, Option, None, Some};
ghost use Rattle.std.specs.Prelude.{MatchResult};
ghost use Rattle.std.specs.Prelude.{length, take, drop, true, vec_len};
ghost use Rattle.receipt_core.specs.Acceptance.{Meaning};
ghost use Rattle.replica_core.specs.Session.{have_of};
ghost use Rattle.replica_core.specs.declared.error.SyncError.TheVariants.{NoMemory, Truncated};
ghost use Rattle.replica_texts.specs.Messages.{have_text};
ghost use Rattle.byte_lines.specs.Limits.{line_limit};
ghost use Rattle.replica_sync.specs.Pieces.{longest};
ghost use Rattle.replica_sync.specs.PulledPieces.{Journals, JournalsAll, PulledPiece};
ghost use Rattle.replica_sync.specs.PulledPieces.{bytes_read, piece_pulled};
ghost use Rattle.replica_sync.specs.Inside.AnswerSteps.{Asks};
ghost use Rattle.replica_sync.specs.Inside.Waiting.{Waits, held_with};

use crate::answer_lines::AnswerLines;
use crate::bucket_plan::BucketPlan;
use crate::line_part::{LinePart, PieceEnd};
use crate::news::News;
use crate::text_sink::TextSink;
use closure_core::Closure;
use replica_core::{Have, SyncError, have};
use replica_texts::write_have;
use std::alloc::{AllocError, Global};
use std::mem;

// The most bytes that a line of an answer has, without its line feed.
const LONGEST_LINE: usize = 8_388_608;

/// A session in which a replica pulls, without the connection: it is given the bytes of the answers
/// in pieces of any size, and says what is to be written.
///
/// It asks about each bucket in order, from 0 to 255, as [`pull`](crate::pull) does; or about those
/// that it is given. Each have has the ids that are held when the answer before it ends. Each
/// record and each receipt is taken when its line ends, so a session that breaks off loses nothing.
/// The closure is borrowed by each call. It is always to be one of the same configuration, and may
/// change between two calls.
///
/// Apart from what is held, memory is taken for one have and for a few lines, and never for a
/// number that the other side says.
#[derive(Drop)]
pub struct Pulling {
    part: LinePart,
    lines: AnswerLines,
    plan: BucketPlan,
    // The have that is being written, and how much of it was.
    have: Vec<u8>,
    written: usize,
    fault: Option<SyncError>,
    ghost inside: { written ≤ vec_len have },
    ghost limit: { longest part ≡ line_limit },
}

impl Pulling {
    ghost use Rattle.replica_sync.specs.Plans.{answered_of, asked_count, plan_of};
    ghost use Rattle.replica_sync.specs.PullSessions.{HasPulledAbout, HasPulledPieces};
    ghost use Rattle.replica_sync.specs.PullSessions.{IsOverPulling};
    ghost use Rattle.replica_sync.specs.PullSessions.{PullsLines, StopsNow};
    ghost use Rattle.replica_sync.specs.PullSessions.{count_of_pulling, due_have, kept_answer};
    ghost use Rattle.replica_sync.specs.PullSessions.{fault_of_pulling, TakesBytes, TakesLines};
    ghost use Rattle.replica_sync.specs.Inside.AnswerSteps.{FailsPulled, TakesPulled};
    ghost use Rattle.replica_sync.specs.Inside.AnswerSteps.{HasSameCountsBut, IsNextAt};

    /// The beginning of a session: the have about the first bucket is to be written.
    ///
    /// # Errors
    /// [`SyncError::NoMemory`]: memory ran out.
    pub fn new<C: Closure>(alloc: Global, closure: &C) -> Result<Pulling, SyncError>
        ensures ok { IfOk result
            (λ p. HasPulledPieces p (C.state closure.now).meaning [] []) }
        ensures sound { IfOk result (λ p. fault_of_pulling p ≡ None) }
        ensures refused { IfErr result (λ e. e ≡ NoMemory) }
    {
        Pulling::begin(alloc, closure, BucketPlan::all())
    }

    /// The beginning of a session that asks about these buckets, in this order: the have about the
    /// first of them is to be written. Without buckets the session is over.
    ///
    /// # Errors
    /// [`SyncError::NoMemory`]: memory ran out.
    pub fn about<C: Closure>(
        alloc: Global,
        closure: &C,
        buckets: Vec<u8>,
    ) -> Result<Pulling, SyncError>
        ensures ok { IfOk result (λ p.
            HasPulledAbout (Some buckets.items) p (C.state closure.now).meaning [] []) }
        ensures refused { IfErr result (λ e. e ≡ NoMemory) }
    {
        Pulling::begin(alloc, closure, BucketPlan::listed(buckets))
    }

    // The beginning of a session that asks about the buckets of the plan.
    fn begin<C: Closure>(alloc: Global, closure: &C, plan: BucketPlan) -> Result<Pulling, SyncError>
        requires { answered_of plan ≡ 0 }
        ensures ok { IfOk result
            (λ p. HasPulledAbout (plan_of plan) p (C.state closure.now).meaning [] []) }
        ensures sound { IfOk result (λ p. fault_of_pulling p ≡ None) }
        ensures refused { IfErr result (λ e. e ≡ NoMemory) }
    {
        let mut lines = AnswerLines::new(alloc);
        lines.wait_for(plan.next());
        let have = next_have(alloc, closure, &lines)?;
        Ok(Pulling {
            part: LinePart::new(alloc, LONGEST_LINE),
            lines,
            plan,
            have,
            written: 0,
            fault: None,
        })
    }

    /// Takes the next bytes of the stream, up to the end of a line at most, and returns how many
    /// were taken. The others are to be given again. None is taken while something is to be
    /// written, and none after the last answer; else all are, or those up to the end of a line.
    ///
    /// If the line says what was not held, it is held now, and is appended to the journal as
    /// [`push_entry`](replica_journal::push_entry) does: one receipt or one record at most. This
    /// may be so also if an error is returned.
    ///
    /// # Errors
    /// What the lines before the error say remains held, and nothing is to be written any more.
    /// Each later call returns the same error, and takes nothing. Lines are counted from 1 over all
    /// answers. The first of these that holds:
    /// - [`SyncError::BadHeader`]: a line is not an answer's first, of whatever format and number
    ///   of buckets, or is about another bucket than was asked about, or has more than 8,388,608
    ///   bytes,
    /// - [`SyncError::ConfigDiffers`]: it is of another configuration,
    /// - [`SyncError::VersionDiffers`]: it has another format than 2, or another number of buckets
    ///   than 256,
    /// - [`SyncError::NotCanonical`]: a line that should be a record's is not, or one that should
    ///   be a receipt's is not, or a line has more than 8,388,608 bytes,
    /// - [`SyncError::NotRising`]: a line is not greater than the one before it in its answer,
    /// - [`SyncError::Refused`]: a receipt or a record is not of the configuration, or is one too
    ///   many,
    /// - [`SyncError::NoMemory`]: memory ran out.
    pub fn read<C: Closure>(
        &mut self,
        alloc: Global,
        closure: &mut C,
        piece: &[u8],
        journal: &mut Vec<u8>,
    ) -> Result<usize, SyncError>
        ensures pulls { (plan : Option (List ℕ)) (start : Meaning) (came : List PulledPiece)
            (written : List ℕ) → (C.state closure.old).meaning.config ≡ start.config
            → HasPulledAbout plan self.old start came written
            → HasPulledAbout plan self.new start
            (came ++ piece_pulled piece.now (C.state closure.old).meaning
            (C.state closure.new).meaning result ∷ []) written }
        ensures journals { Journals (C.state closure.old).meaning (C.state closure.new).meaning
            journal.old.items journal.new.items }
        ensures taken { IfOk result (TakesBytes piece.now self.new) }
        ensures waits { 0 < length (due_have self.old) → self.new ≡ self.old }
        ensures fault { MatchResult result (λ _. fault_of_pulling self.new ≡ None)
            (λ e. fault_of_pulling self.new ≡ Some e) }
    {
        let _valid = closure.config();
        let mut news = News::new(mem::replace(journal, Vec::new(alloc)));
        let read = self.read_line(alloc, closure, piece, &mut news);
        news.settle(closure);
        *journal = news.into_journal();
        read
    }

    /// Takes the next bytes of the stream, up to the end of an answer at most, and returns how many
    /// were taken: as [`Pulling::read`] does, given the same piece again and again. Records of
    /// distrust that come in one piece are taken together, by one merge: what rests on them is
    /// looked at only once for all of them.
    ///
    /// What the lines say that was not held is held afterwards, and is appended to the journal, in
    /// the order of the lines. This may be so also if an error is returned. In addition to what
    /// `read` takes, memory is taken for the records that come in the piece, and for a closure of
    /// them.
    ///
    /// # Errors
    /// Those of [`Pulling::read`], of the first line that has one.
    pub fn read_lines<C: Closure>(
        &mut self,
        alloc: Global,
        closure: &mut C,
        piece: &[u8],
        journal: &mut Vec<u8>,
    ) -> Result<usize, SyncError>
        ensures pulls { PullsLines self.old (record {
          bytes = bytes_read piece.now result;
          old = (C.state closure.old).meaning;
          new = (C.state closure.new).meaning;
        }) self.new }
        ensures journals { JournalsAll (C.state closure.old).meaning (C.state closure.new).meaning
            journal.old.items journal.new.items }
        ensures taken { IfOk result (TakesLines piece.now self.new) }
        ensures moves { IfOk result (λ used. due_have self.old ≡ []
            → (IsOverPulling self.old → ⊥) → 0 < length piece.now → 0 < used) }
        ensures fault { MatchResult result (λ _. fault_of_pulling self.new ≡ None)
            (λ e. fault_of_pulling self.new ≡ Some e) }
    {
        let _valid = closure.config();
        let mut news = News::new(mem::replace(journal, Vec::new(alloc)));
        let read = self.take_lines(alloc, closure, piece, &mut news);
        news.settle(closure);
        *journal = news.into_journal();
        read
    }

    // Takes the next bytes, up to the end of an answer at most.
    fn take_lines<C: Closure>(
        &mut self,
        alloc: Global,
        closure: &mut C,
        piece: &[u8],
        news: &mut News,
    ) -> Result<usize, SyncError>
        requires waits { Waits (C.state closure.old).meaning news.old }
        ensures pulls { PullsLines self.old (record {
          bytes = bytes_read piece.now result;
          old = held_with news.old (C.state closure.old).meaning;
          new = held_with news.new (C.state closure.new).meaning;
        }) self.new }
        ensures journals { JournalsAll (held_with news.old (C.state closure.old).meaning)
            (held_with news.new (C.state closure.new).meaning)
            news.old.journal.items news.new.journal.items }
        ensures waits { Waits (C.state closure.new).meaning news.new }
        ensures taken { IfOk result (TakesLines piece.now self.new) }
        ensures moves { IfOk result (λ used. due_have self.old ≡ []
            → (IsOverPulling self.old → ⊥) → 0 < length piece.now → 0 < used) }
        ensures fault { MatchResult result (λ _. fault_of_pulling self.new ≡ None)
            (λ e. fault_of_pulling self.new ≡ Some e) }
    {
        let mut used: usize = 0;
        'lines: loop {
            match self.read_line(alloc, closure, &piece[used..], news) {
                Ok(more) => {
                    used += more;
                    if more == 0 || used == piece.len() {
                        return Ok(used);
                    }
                }
                Err(why) => return Err(why),
            }
        }
    }

    // Takes the next bytes, up to the end of a line at most.
    fn read_line<C: Closure>(
        &mut self,
        alloc: Global,
        closure: &mut C,
        piece: &[u8],
        news: &mut News,
    ) -> Result<usize, SyncError>
        requires waits { Waits (C.state closure.old).meaning news.old }
        ensures pulls { (plan : Option (List ℕ)) (start : Meaning) (came : List PulledPiece)
            (written : List ℕ) → (C.state closure.old).meaning.config ≡ start.config
            → HasPulledAbout plan self.old start came written
            → HasPulledAbout plan self.new start
            (came ++ piece_pulled piece.now (held_with news.old (C.state closure.old).meaning)
            (held_with news.new (C.state closure.new).meaning) result ∷ []) written }
        ensures stops { IfErr result (λ e. fault_of_pulling self.old ≡ None
            → (plan : Option (List ℕ)) (start : Meaning) (came : List PulledPiece)
            (written : List ℕ) → (C.state closure.old).meaning.config ≡ start.config
            → HasPulledAbout plan self.old start came written
            → StopsNow plan start came (record {
              bytes = piece.now;
              old = held_with news.old (C.state closure.old).meaning;
              new = held_with news.new (C.state closure.new).meaning;
            }) written e) }
        ensures journals { Journals (held_with news.old (C.state closure.old).meaning)
            (held_with news.new (C.state closure.new).meaning)
            news.old.journal.items news.new.journal.items }
        ensures waiting { Waits (C.state closure.new).meaning news.new }
        ensures taken { IfOk result (TakesBytes piece.now self.new) }
        ensures moves { IfOk result (λ used. due_have self.old ≡ []
            → (IsOverPulling self.old → ⊥) → 0 < length piece.now → 0 < used) }
        ensures waits { 0 < length (due_have self.old) → self.new ≡ self.old }
        ensures fault { MatchResult result (λ _. fault_of_pulling self.new ≡ None)
            (λ e. fault_of_pulling self.new ≡ Some e) }
    {
        if let Some(why) = self.fault {
            return Err(why);
        }
        if self.is_over() {
            return Ok(0);
        }
        if !self.output().is_empty() {
            return Ok(0);
        }
        match self.advance(alloc, closure, piece, news) {
            Ok(used) => Ok(used),
            Err(why) => {
                self.fault = Some(why);
                Err(why)
            }
        }
    }

    // Takes the piece up to the end of a line, and makes the next have when an answer ends.
    fn advance<C: Closure>(
        &mut self,
        alloc: Global,
        closure: &mut C,
        piece: &[u8],
        news: &mut News,
    ) -> Result<usize, SyncError>
        requires idle { due_have self.old ≡ [] }
        requires more { self.old.lines.bucket < 256 }
        requires waits { Waits (C.state closure.old).meaning news.old }
        ensures ok { IfOk result (λ used. TakesPulled (record {
          held = held_with news.old (C.state closure.old).meaning;
          lines = self.old.lines;
          asked = self.old.plan;
          kept = kept_answer self.old;
        }) piece.now used (record {
          held = held_with news.new (C.state closure.new).meaning;
          lines = self.new.lines;
          asked = self.new.plan;
          kept = kept_answer self.new;
        }) (due_have self.new)) }
        ensures refused { IfErr result (FailsPulled (record {
          held = held_with news.old (C.state closure.old).meaning;
          lines = self.old.lines;
          asked = self.old.plan;
          kept = kept_answer self.old;
        }) piece.now (record {
          held = held_with news.new (C.state closure.new).meaning;
          lines = self.new.lines;
          asked = self.new.plan;
          kept = kept_answer self.new;
        })) }
        ensures quiet { OnErr result (due_have self.new ≡ []) }
        ensures fault { self.new.fault ≡ self.old.fault }
        ensures plan { plan_of self.new.plan ≡ plan_of self.old.plan }
        ensures taken { self.new.lines.taken ≡ self.old.lines.taken
            + (length (C.state closure.new).meaning.held
            - length (C.state closure.old).meaning.held) }
        ensures waits { Waits (C.state closure.new).meaning news.new }
        ensures journals { Journals (held_with news.old (C.state closure.old).meaning)
            (held_with news.new (C.state closure.new).meaning)
            news.old.journal.items news.new.journal.items }
    {
        match self.part.take(piece)? {
            PieceEnd::Within => Ok(piece.len()),
            PieceEnd::TooLong => Err(self.lines.overlong(alloc)),
            PieceEnd::Line(used) => {
                if self.lines.take(alloc, closure, self.part.line(), news)? {
                    self.ask(alloc, closure)?;
                }
                Ok(used)
            }
        }
    }

    // Makes the have about the next bucket of the plan, if there is one.
    fn ask<C: Closure>(&mut self, alloc: Global, closure: &C) -> Result<(), AllocError>
        requires idle { due_have self.old ≡ [] }
        ensures ok { OnOk result
            (Asks (C.state closure.now).meaning self.new.lines true (due_have self.new)) }
        ensures refused { OnErr result
            ((self.new.lines.bucket < 256) × (due_have self.new ≡ [])) }
        ensures plan { plan_of self.new.plan ≡ plan_of self.old.plan }
        ensures more { answered_of self.old.plan < asked_count (plan_of self.old.plan)
            → answered_of self.new.plan ≡ answered_of self.old.plan + 1 }
        ensures counts { HasSameCountsBut self.old.lines self.new.lines }
        ensures next { IsNextAt (plan_of self.new.plan) (answered_of self.new.plan)
            self.new.lines }
        ensures part { self.new.part ≡ self.old.part }
        ensures fault { self.new.fault ≡ self.old.fault }
    {
        self.move_on();
        if let Some(bucket) = self.lines.bucket() {
            self.have = have_about(alloc, closure, bucket)?;
            self.written = 0;
        }
        Ok(())
    }

    // Waits for the answer about the next bucket of the plan.
    fn move_on(&mut self)
        ensures plan { plan_of self.new.plan ≡ plan_of self.old.plan }
        ensures more { answered_of self.old.plan < asked_count (plan_of self.old.plan)
            → answered_of self.new.plan ≡ answered_of self.old.plan + 1 }
        ensures counts { HasSameCountsBut self.old.lines self.new.lines }
        ensures next { IsNextAt (plan_of self.new.plan) (answered_of self.new.plan)
            self.new.lines }
        ensures due { due_have self.new ≡ due_have self.old }
        ensures part { self.new.part ≡ self.old.part }
        ensures fault { self.new.fault ≡ self.old.fault }
    {
        self.plan.pass();
        self.lines.wait_for(self.plan.next());
    }

    /// What is to be written next.
    pub fn output(&self) -> &[u8]
        ensures { result.now ≡ due_have self.now }
    {
        &self.have[self.written..]
    }

    /// Says that the first `count` bytes of the output were written.
    pub fn wrote(&mut self, count: usize)
        requires { count ≤ length (due_have self.old) }
        ensures pulls { (plan : Option (List ℕ)) (start : Meaning) (came : List PulledPiece)
            (written : List ℕ) → HasPulledAbout plan self.old start came written
            → HasPulledAbout plan self.new start came (written ++ take count (due_have self.old)) }
        ensures due { due_have self.new ≡ drop count (due_have self.old) }
        ensures fault { fault_of_pulling self.new ≡ fault_of_pulling self.old }
    {
        self.written += count;
        if self.written == self.have.len() {
            // It needs no memory any more.
            self.have = Vec::new(*self.have.allocator());
            self.written = 0;
        }
    }

    /// Whether the last answer was taken to its end. What follows it is not read.
    pub fn is_over(&self) -> bool
        ensures { IsTrue result ↔ IsOverPulling self.now }
    {
        self.lines.bucket().is_none()
    }

    /// How many receipts were taken that were not held.
    pub fn taken(&self) -> u64
        ensures { result ≡ count_of_pulling self.now }
    {
        self.lines.taken()
    }

    /// Whether the stream may end here: the last answer was taken to its end.
    ///
    /// # Errors
    /// The error that was found; or [`SyncError::Truncated`]: the stream ends before that.
    pub fn end(&self) -> Result<(), SyncError>
        ensures whole { OnOk result
            ((fault_of_pulling self.now ≡ None) × IsOverPulling self.now) }
        ensures refused { IfErr result (λ e. (fault_of_pulling self.now ≡ Some e)
            ⊎ ((fault_of_pulling self.now ≡ None) × (e ≡ Truncated)
            × (IsOverPulling self.now → ⊥))) }
    {
        match self.fault {
            Some(why) => Err(why),
            None => {
                if self.is_over() {
                    Ok(())
                } else {
                    Err(SyncError::Truncated)
                }
            }
        }
    }
}

// The have about the bucket whose answer is next. Nothing after the last one.
fn next_have<C: Closure>(
    alloc: Global,
    closure: &C,
    lines: &AnswerLines,
) -> Result<Vec<u8>, AllocError>
    ensures { IfOk result (λ text. Asks (C.state closure.now).meaning lines.now true text.items) }
{
    match lines.bucket() {
        Some(bucket) => have_about(alloc, closure, bucket),
        None => Ok(Vec::new(alloc)),
    }
}

// The have about the bucket, as text, of what the closure holds.
fn have_about<C: Closure>(alloc: Global, closure: &C, bucket: u8) -> Result<Vec<u8>, AllocError>
    ensures { IfOk result
        (λ text. text.items ≡ have_text (have_of (C.state closure.now).meaning bucket)) }
{
    match have(alloc, closure, bucket) {
        Ok(own) => have_line(alloc, &own),
        Err(_) => Err(AllocError),
    }
}

fn have_line(alloc: Global, own: &Have) -> Result<Vec<u8>, AllocError>
    ensures { IfOk result (λ text. text.items ≡ have_text own.now) }
{
    let mut sink = TextSink::new(alloc);
    match write_have(alloc, own, &mut sink) {
        Ok(()) => Ok(sink.into_text()),
        Err(_) => Err(AllocError),
    }
}
