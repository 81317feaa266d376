//! Receipts and records that come one by one, and the journal of those that are new.
ghost use Rattle.std.specs.Prelude.{◌≤◌, ◌↔◌, IsTrue, IfOk, MatchResult};
ghost use Rattle.replica_texts.specs.SoleLines.{IsWellFormed};
ghost use Rattle.replica_texts.specs.Inside.EntrySteps.{HasRefusedEntry, TakesEntry};
ghost use Rattle.replica_sync.specs.PulledPieces.{Journals};
ghost use Rattle.replica_sync.specs.Inside.NewEntries.{HasRefusedNew, IsHeldEntry, IsNamed};

use closure_core::{Closure, Distrusted, TakeError, Taken};
use receipt_core::{Distrust, Receipt};
use replica_core::{Entry, SyncError};
use replica_journal::push_entry;
use std::alloc::Global;

/// Takes what the line with this number says. If it was not held, its line is appended to the
/// journal. Returns how many receipts are held now and were not.
pub(crate) fn take_new<C: Closure>(
    alloc: Global,
    closure: &mut C,
    number: u64,
    entry: Entry,
    journal: &mut Vec<u8>,
) -> Result<u64, SyncError>
    requires { IsWellFormed entry }
    ensures takes { MatchResult result
        (TakesEntry (C.state closure.old).meaning entry (C.state closure.new).meaning)
        (HasRefusedNew (C.state closure.old).meaning number entry (C.state closure.new).meaning) }
    ensures few { IfOk result (λ count. count ≤ 1) }
    ensures journals { Journals (C.state closure.old).meaning (C.state closure.new).meaning
        journal.old.items journal.new.items }
{
    receipt_core::laws::sets();
    let _valid = closure.config();
    if is_held(closure, &entry) {
        return Ok(0);
    }
    let before = journal.len();
    push_entry(alloc, &entry, journal)?;
    match take_unheld(closure, entry) {
        Ok(count) => Ok(count),
        Err(why) => {
            journal.truncate(before);
            Err(named(number, why))
        }
    }
}

// Why the line with this number is refused.
fn named(number: u64, why: TakeError) -> SyncError
    ensures { IsNamed number why result }
{
    match why {
        TakeError::NoMemory => SyncError::NoMemory,
        other => SyncError::Refused(number, other),
    }
}

fn is_held<C: Closure>(closure: &C, entry: &Entry) -> bool
    ensures { IsTrue result ↔ IsHeldEntry (C.state closure.now).meaning entry.now }
{
    match entry {
        Entry::Record(distrust) => closure.is_distrusted(&distrust.domain, distrust.key),
        Entry::Receipt(receipt) => closure.holds(receipt),
    }
}

// Takes what is not held, and returns how many receipts are held now and were not.
fn take_unheld<C: Closure>(closure: &mut C, entry: Entry) -> Result<u64, TakeError>
    ensures takes { MatchResult result
        (TakesEntry (C.state closure.old).meaning entry (C.state closure.new).meaning)
        (HasRefusedEntry (C.state closure.old).meaning entry (C.state closure.new).meaning) }
    ensures few { IfOk result (λ count. count ≤ 1) }
{
    match entry {
        Entry::Record(distrust) => take_record(closure, &distrust),
        Entry::Receipt(receipt) => take_receipt(closure, receipt),
    }
}

fn take_receipt<C: Closure>(closure: &mut C, receipt: Receipt) -> Result<u64, TakeError>
    ensures takes { MatchResult result
        (TakesEntry (C.state closure.old).meaning (Entry.Receipt receipt)
        (C.state closure.new).meaning)
        (HasRefusedEntry (C.state closure.old).meaning (Entry.Receipt receipt)
        (C.state closure.new).meaning) }
    ensures few { IfOk result (λ count. count ≤ 1) }
{
    receipt_core::laws::sets();
    let _config = closure.config();
    match closure.take(receipt) {
        Ok(Taken::New { .. }) => Ok(1),
        Ok(Taken::Already) => Ok(0),
        Err(refused) => Err(refused.why),
    }
}

fn take_record<C: Closure>(closure: &mut C, distrust: &Distrust) -> Result<u64, TakeError>
    ensures takes { MatchResult result
        (TakesEntry (C.state closure.old).meaning (Entry.Record distrust.now)
        (C.state closure.new).meaning)
        (HasRefusedEntry (C.state closure.old).meaning (Entry.Record distrust.now)
        (C.state closure.new).meaning) }
    ensures few { IfOk result (λ count. count ≤ 1) }
{
    receipt_core::laws::sets();
    let _config = closure.config();
    match closure.distrust(&distrust.domain, distrust.key) {
        Ok(Distrusted::New { .. }) => Ok(0),
        Ok(Distrusted::Already) => Ok(0),
        Err(why) => Err(why),
    }
}
