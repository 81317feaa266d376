//! Answers about all buckets, taken line by line as the lines come.
ghost use Rattle.std.specs.Prelude.{◌≡◌, ◌+◌, ◌-◌, ◌<◌, ◌≤◌, [], true, IfOk, IfErr, OnErr};
ghost use Rattle.std.specs.Prelude.{MatchOption, Some, length};
ghost use Rattle.replica_texts.specs.FirstLines.{RefusesGiveLine};
ghost use Rattle.replica_texts.specs.Gives.{Heads};
ghost use Rattle.replica_sync.specs.Inside.NextLines.{IsNextOf};
ghost use Rattle.replica_sync.specs.Inside.Waiting.{Waits, held_with};
ghost use Rattle.replica_sync.specs.PulledPieces.{Journals};

use crate::news::News;
use bundle_doc::KnownDocuments;
use closure_core::Closure;
use fed_config::Config;
use replica_core::SyncError;
use replica_texts::{Wanted, next_entry_with, read_give_line};
use std::alloc::{AllocError, Global};

/// How many receipts and how many records are still to come of an answer.
#[derive(Clone, Copy, Debug)]
pub(crate) struct DueLines {
    receipts: u64,
    records: u64,
}

/// How far the answers about all buckets came.
#[derive(Drop)]
pub(crate) struct AnswerLines {
    // About which bucket the answer is that is next, or of which the lines come. It is 256 after
    // the last one.
    bucket: u16,
    // Whether its first line came, and what is still to come then.
    is_begun: bool,
    due: DueLines,
    // Its last line that is not the first; empty if there is no such line.
    last: Vec<u8>,
    // What is known of its lines, and of those of the answers before it.
    known: KnownDocuments,
    // How many lines were read, and how many receipts were new.
    read: u64,
    taken: u64,
    ghost few: { bucket ≤ 256 },
    ghost some: { is_begun ≡ true → 0 < due.receipts + due.records },
    ghost counted: { taken ≤ read },
}

// What a line leaves to come of its answer, and how many receipts it brought that were not held.
#[derive(Clone, Copy, Debug)]
struct LineStep {
    due: DueLines,
    new: u64,
}

impl AnswerLines {
    ghost use Rattle.replica_sync.specs.Inside.AnswerSteps.{HasNoLines, HasSameCounts};
    ghost use Rattle.replica_sync.specs.Inside.AnswerSteps.{HasSameCountsBut};
    ghost use Rattle.replica_sync.specs.Inside.AnswerSteps.{IsLongFault, MovesOn};
    ghost use Rattle.replica_sync.specs.Inside.AnswerSteps.{RefusesAnswerLine, RefusesLater};
    ghost use Rattle.replica_sync.specs.Inside.AnswerSteps.{StepsEntry, StepsLine};
    ghost use Rattle.replica_sync.specs.Inside.AnswerSteps.{TakesAnswerLine};

    /// Before the first line of all.
    pub(crate) fn new(alloc: Global) -> AnswerLines
        ensures { HasNoLines result }
    {
        AnswerLines {
            bucket: 0,
            is_begun: false,
            due: DueLines {
                receipts: 0,
                records: 0,
            },
            last: Vec::new(alloc),
            known: KnownDocuments::new(alloc),
            read: 0,
            taken: 0,
        }
    }

    /// About which bucket the answer is that is next, or of which the lines come. `None` after the
    /// last one.
    pub(crate) fn bucket(&self) -> Option<u8>
        ensures { MatchOption result (self.now.bucket ≡ 256)
            (λ b. (self.now.bucket < 256) × (b ≡ self.now.bucket)) }
    {
        if self.bucket < 256 {
            Some(self.bucket as u8)
        } else {
            None
        }
    }

    /// Waits for the answer about this bucket next, or for no other one.
    pub(crate) fn wait_for(&mut self, bucket: Option<u8>)
        ensures at { MatchOption bucket (self.new.bucket ≡ 256)
            (λ b. (self.new.bucket < 256) × (self.new.bucket ≡ b)) }
        ensures counts { HasSameCountsBut self.old self.new }
    {
        self.bucket = match bucket {
            Some(bucket) => u16::from(bucket),
            None => 256,
        };
    }

    /// How many receipts were new.
    pub(crate) fn taken(&self) -> u64
        ensures { result ≡ self.now.taken }
    {
        self.taken
    }

    /// The error of the next line if it is too long.
    pub(crate) fn overlong(&self, alloc: Global) -> SyncError
        ensures { IsLongFault self.now result }
    {
        if !self.is_begun {
            return SyncError::BadHeader;
        }
        match next_number(alloc, self.read) {
            Ok(number) => SyncError::NotCanonical(number),
            Err(_) => SyncError::NoMemory,
        }
    }

    /// Takes the next line, which is one of an answer. What it says that was not held is taken, or
    /// waits in `news`. Returns whether the answer ends with the line.
    pub(crate) fn take<C: Closure>(
        &mut self,
        alloc: Global,
        closure: &mut C,
        text: &[u8],
        news: &mut News,
    ) -> Result<bool, SyncError>
        requires few { self.old.bucket < 256 }
        requires waits { Waits (C.state closure.old).meaning news.old }
        ensures ok { IfOk result (TakesAnswerLine
            (held_with news.old (C.state closure.old).meaning) self.old text.now
            (held_with news.new (C.state closure.new).meaning) self.new) }
        ensures refused { IfErr result
            (RefusesAnswerLine (held_with news.old (C.state closure.old).meaning) self.old
            text.now) }
        ensures same { OnErr result
            (held_with news.new (C.state closure.new).meaning
            ≡ held_with news.old (C.state closure.old).meaning) }
        ensures taken { self.new.taken ≡ self.old.taken
            + (length (C.state closure.new).meaning.held
            - length (C.state closure.old).meaning.held) }
        ensures waits { Waits (C.state closure.new).meaning news.new }
        ensures journals { Journals (held_with news.old (C.state closure.old).meaning)
            (held_with news.new (C.state closure.new).meaning)
            news.old.journal.items news.new.journal.items }
    {
        let number = next_number(alloc, self.read)?;
        let step = self.step(alloc, closure, number, text, news)?;
        self.read = number;
        self.taken += step.new;
        Ok(self.move_on(step.due))
    }

    // Takes what the line with this number says.
    fn step<C: Closure>(
        &mut self,
        alloc: Global,
        closure: &mut C,
        number: u64,
        text: &[u8],
        news: &mut News,
    ) -> Result<LineStep, SyncError>
        requires bucket { self.old.bucket < 256 }
        requires number { number ≡ self.old.read + 1 }
        requires waits { Waits (C.state closure.old).meaning news.old }
        ensures ok { IfOk result (λ s. StepsLine
            (held_with news.old (C.state closure.old).meaning) self.old text.now
            (held_with news.new (C.state closure.new).meaning) (record {
              receipts = s.due.receipts;
              records = s.due.records;
              last = self.new.last.items;
            })) }
        ensures new { IfOk result (λ s. (s.new ≤ 1)
            × (length (C.state closure.new).meaning.held
            ≡ length (C.state closure.old).meaning.held + s.new)) }
        ensures refused { IfErr result
            (RefusesAnswerLine (held_with news.old (C.state closure.old).meaning) self.old
            text.now) }
        ensures same { OnErr result
            (held_with news.new (C.state closure.new).meaning
            ≡ held_with news.old (C.state closure.old).meaning) }
        ensures counts { HasSameCounts self.old self.new }
        ensures waits { Waits (C.state closure.new).meaning news.new }
        ensures journals { Journals (held_with news.old (C.state closure.old).meaning)
            (held_with news.new (C.state closure.new).meaning)
            news.old.journal.items news.new.journal.items }
    {
        if self.is_begun {
            self.take_entry(alloc, closure, number, text, news)
        } else {
            self.begin(alloc, closure.config(), text)
        }
    }

    // Takes the first line of an answer.
    fn begin(&mut self, alloc: Global, config: &Config, text: &[u8]) -> Result<LineStep, SyncError>
        requires { self.old.bucket < 256 }
        ensures ok { IfOk result
            (λ s. Heads (Some (record { config = config.now; bucket = self.old.bucket })) text.now
            s.due.receipts s.due.records) }
        ensures new { IfOk result (λ s. (s.new ≡ 0) × (self.new.last.items ≡ [])) }
        ensures refused { IfErr result
            (RefusesGiveLine (Some (record { config = config.now; bucket = self.old.bucket }))
            text.now) }
        ensures counts { HasSameCounts self.old self.new }
    {
        let (receipts, records) = read_give_line(alloc, config, self.bucket as u8, text)?;
        self.last.clear();
        Ok(LineStep {
            due: DueLines { receipts, records },
            new: 0,
        })
    }

    // Takes the line of a receipt or a record. Memory to keep it is taken first, so that nothing is
    // taken without it.
    fn take_entry<C: Closure>(
        &mut self,
        alloc: Global,
        closure: &mut C,
        number: u64,
        text: &[u8],
        news: &mut News,
    ) -> Result<LineStep, SyncError>
        requires begun { self.old.is_begun ≡ true }
        requires number { number ≡ self.old.read + 1 }
        requires waits { Waits (C.state closure.old).meaning news.old }
        ensures ok { IfOk result (λ s. StepsEntry
            (held_with news.old (C.state closure.old).meaning) self.old text.now
            (held_with news.new (C.state closure.new).meaning) (record {
              receipts = s.due.receipts;
              records = s.due.records;
              last = self.new.last.items;
            })) }
        ensures new { IfOk result (λ s. (s.new ≤ 1)
            × (length (C.state closure.new).meaning.held
            ≡ length (C.state closure.old).meaning.held + s.new)) }
        ensures refused { IfErr result
            (RefusesLater (held_with news.old (C.state closure.old).meaning) self.old text.now) }
        ensures same { OnErr result
            (held_with news.new (C.state closure.new).meaning
            ≡ held_with news.old (C.state closure.old).meaning) }
        ensures counts { HasSameCounts self.old self.new }
        ensures waits { Waits (C.state closure.new).meaning news.new }
        ensures journals { Journals (held_with news.old (C.state closure.old).meaning)
            (held_with news.new (C.state closure.new).meaning)
            news.old.journal.items news.new.journal.items }
    {
        let (wanted, due) = next_of(self.due);
        let entry = next_entry_with(
            alloc,
            &mut self.known,
            wanted,
            self.last.as_slice(),
            number,
            text,
        )?;
        let last = text.to_vec(alloc)?;
        let new = news.take(closure, number, entry)?;
        self.last = last;
        Ok(LineStep { due, new })
    }

    // Waits for what is still to come, and for the next answer if that is nothing. Returns whether
    // it is.
    fn move_on(&mut self, due: DueLines) -> bool
        requires { self.old.bucket < 256 }
        ensures moves { MovesOn self.old self.new (record {
          receipts = due.receipts;
          records = due.records;
          last = self.old.last.items;
        }) result }
        ensures last { self.new.last ≡ self.old.last }
        ensures read { self.new.read ≡ self.old.read }
        ensures taken { self.new.taken ≡ self.old.taken }
    {
        let is_whole = due.receipts == 0 && due.records == 0;
        self.is_begun = !is_whole;
        self.due = due;
        if is_whole {
            self.bucket += 1;
        }
        is_whole
    }
}

// Which line comes next, if this much is still to come, and what then is.
fn next_of(due: DueLines) -> (Wanted, DueLines)
    requires { 0 < due.receipts + due.records }
    ensures { IsNextOf due.receipts due.records result.0 result.1.receipts result.1.records }
{
    if due.records > 0 {
        let rest = DueLines {
            records: due.records - 1,
            ..due
        };
        (Wanted::Records, rest)
    } else {
        let rest = DueLines {
            receipts: due.receipts - 1,
            ..due
        };
        (Wanted::Receipts, rest)
    }
}

// The number of the line after this many. There is no memory for lines whose number has more than
// 64 bits: for these it asks for a growth that is always refused.
fn next_number(alloc: Global, read: u64) -> Result<u64, AllocError>
    ensures { IfOk result (λ number. number ≡ read + 1) }
{
    if read == u64::MAX {
        let mut room: Vec<u8> = Vec::new(alloc);
        room.try_reserve(usize::MAX)?;
    }
    Ok(read + 1)
}
