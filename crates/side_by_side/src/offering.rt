//! Lines of a journal, offered to a closure of another configuration.
ghost use Rattle.std.specs.Prelude.{◌≡◌, ◌≤◌, length, IfOk, OnErr, MatchResult};
ghost use Rattle.byte_lines.specs.Lines.{lines_of};
ghost use Rattle.replica_core.specs.declared.entry.Entry.TheVariants.{Record};
ghost use Rattle.replica_core.specs.declared.entry.Entry.TheVariants.{Receipt as AReceipt};
ghost use Rattle.replica_texts.specs.SoleLines.{IsWellFormed};
ghost use Rattle.side_by_side.specs.Offering.{HasOffered, HasOfferedPart, OffersEntry, OffersLine};
ghost use Rattle.side_by_side.specs.Offering.{TakesAs, as_kept};
ghost use Rattle.side_by_side.specs.Promise.{AddsOnlyFitting, LinesSay, TakesFitting};
ghost use Rattle.side_by_side.specs.Inside.Steps.{kept_line};

use crate::fate::{Fate, fate_of};
use crate::journal_lines::first_line;
use crate::offer_counts::{Offered, count_line, no_lines};
use closure_core::{Closure, Distrusted, Taken};
use receipt_core::{Distrust, Receipt};
use replica_core::{Entry, SyncError};
use replica_journal::push_entry;
use replica_texts::{Wanted, next_entry};
use std::alloc::{AllocError, Global};

/// Offers the lines of a journal to a closure, one after another, whatever configuration they come
/// from. What a line says is taken if it fits the closure's configuration, is not held, and has a
/// place. Then the line is appended to `journal`, the closure's own. All other lines are passed
/// over: each is counted by what came of it. A rest without a line feed says nothing.
///
/// What is held then is what was held, and what the lines say and fits; nothing of that is missing
/// unless the closure is full of receipts, or of records.
///
/// The work is linear in the bytes, apart from that of the takes.
///
/// # Errors
/// Memory ran out at one of the lines. The lines before it were offered: what was taken is
/// held, and its lines are in the journal. The same lines may be offered again.
pub fn offer_lines<C: Closure>(
    alloc: Global,
    lines: &[u8],
    to: &mut C,
    journal: &mut Vec<u8>,
) -> Result<Offered, AllocError>
    ensures offers { IfOk result (HasOffered
        (as_kept (C.state to.old).meaning journal.old.items) (lines_of lines.now).whole
        (as_kept (C.state to.new).meaning journal.new.items)) }
    ensures begun { OnErr result (HasOfferedPart
        (as_kept (C.state to.old).meaning journal.old.items) (lines_of lines.now).whole
        (as_kept (C.state to.new).meaning journal.new.items)) }

    // What is held lies between what was held and all that is to be.
    ensures adds { AddsOnlyFitting (C.state to.old).meaning
        (LinesSay (lines_of lines.now).whole) (C.state to.new).meaning }
    ensures takes { IfOk result (λ offered. TakesFitting (C.state to.old).meaning
        (LinesSay (lines_of lines.now).whole) (C.state to.new).meaning) }
{
    receipt_core::laws::sets();
    let _old = to.config();
    let mut offered = no_lines();
    let mut rest = lines;
    'lines: while let Some(line) = first_line(rest) {
        offered = count_line(offered, offer_line(alloc, line.text, to, journal)?);
        rest = line.after;
    }
    Ok(offered)
}

// Offers what the line says.
fn offer_line<C: Closure>(
    alloc: Global,
    text: &[u8],
    to: &mut C,
    journal: &mut Vec<u8>,
) -> Result<Fate, AllocError>
    ensures { MatchResult result
        (OffersLine (as_kept (C.state to.old).meaning journal.old.items) text.now
        (as_kept (C.state to.new).meaning journal.new.items))
        (λ why. as_kept (C.state to.new).meaning journal.new.items
        ≡ as_kept (C.state to.old).meaning journal.old.items) }
{
    match next_entry(alloc, Wanted::Either, b"".as_slice(), 1, text) {
        Ok(entry) => offer_entry(alloc, entry, to, journal),
        Err(SyncError::NotCanonical(_)) => Ok(Fate::Unread),
        // A line that is one comes after the empty text, so memory ran out.
        Err(_) => Err(AllocError),
    }
}

/// Offers a receipt or a record, and appends its line to the journal if it was taken.
pub(crate) fn offer_entry<C: Closure>(
    alloc: Global,
    entry: Entry,
    to: &mut C,
    journal: &mut Vec<u8>,
) -> Result<Fate, AllocError>
    ensures { MatchResult result
        (OffersEntry (as_kept (C.state to.old).meaning journal.old.items) entry
        (as_kept (C.state to.new).meaning journal.new.items))
        (λ why. as_kept (C.state to.new).meaning journal.new.items
        ≡ as_kept (C.state to.old).meaning journal.old.items) }
{
    let before = journal.len();
    push_entry(alloc, &entry, journal)?;
    match take_entry(to, entry) {
        Ok(fate) => {
            keep_line(fate, before, journal);
            Ok(fate)
        }
        Err(why) => {
            journal.truncate(before);
            Err(why)
        }
    }
}

// Keeps the line that was appended after these bytes if what it says was taken.
fn keep_line(fate: Fate, before: usize, journal: &mut Vec<u8>)
    requires { before ≤ length journal.old.items }
    ensures { journal.new.items ≡ kept_line fate before journal.old.items }
{
    match fate {
        Fate::Taken => {}
        Fate::Held => journal.truncate(before),
        Fate::Unfit => journal.truncate(before),
        Fate::NoPlace => journal.truncate(before),
        Fate::Unread => journal.truncate(before),
    }
}

// Takes a receipt or a record if it fits, is not held, and has a place.
fn take_entry<C: Closure>(to: &mut C, entry: Entry) -> Result<Fate, AllocError>
    ensures { MatchResult result
        (TakesAs (C.state to.old).meaning entry (C.state to.new).meaning)
        (λ why. (C.state to.new).meaning ≡ (C.state to.old).meaning) }
{
    match entry {
        Entry::Record(distrust) => take_record(to, &distrust),
        Entry::Receipt(receipt) => take_receipt(to, receipt),
    }
}

fn take_receipt<C: Closure>(to: &mut C, receipt: Receipt) -> Result<Fate, AllocError>
    ensures { MatchResult result
        (TakesAs (C.state to.old).meaning (AReceipt receipt) (C.state to.new).meaning)
        (λ why. (C.state to.new).meaning ≡ (C.state to.old).meaning) }
{
    let config = to.config();
    let _form = config.domains();
    match to.take(receipt) {
        Ok(Taken::New { .. }) => Ok(Fate::Taken),
        Ok(Taken::Already) => Ok(Fate::Held),
        Err(refused) => fate_of(refused.why).ok_or(AllocError),
    }
}

fn take_record<C: Closure>(to: &mut C, distrust: &Distrust) -> Result<Fate, AllocError>
    ensures { MatchResult result
        (TakesAs (C.state to.old).meaning (Record distrust.now) (C.state to.new).meaning)
        (λ why. (C.state to.new).meaning ≡ (C.state to.old).meaning) }
{
    match to.distrust(&distrust.domain, distrust.key) {
        Ok(Distrusted::New { .. }) => Ok(Fate::Taken),
        Ok(Distrusted::Already) => Ok(Fate::Held),
        Err(why) => fate_of(why).ok_or(AllocError),
    }
}
