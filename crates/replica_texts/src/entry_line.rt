//! One line of a list of receipts and records of distrust, read and judged (not canonical, not
//! sorted, refused) for snapshots and answers alike.
ghost use Rattle.std.specs.Prelude.{◌≡◌, MatchResult, length};
ghost use Rattle.receipt_core.specs.Line.{RefusesRecord, RefusesReceiptLine as RefusesReceipt};
ghost use Rattle.replica_texts.specs.Entries.{IsEntry, IsNextEntry, RefusesEntryText, placed_line};
ghost use Rattle.replica_texts.specs.Inside.EntrySteps.{RefusesSpelling, TakesEntry};
ghost use Rattle.replica_texts.specs.Inside.EntrySteps.{TakesEntryText, HasRefusedEntry};
ghost use Rattle.replica_texts.specs.Inside.EntrySteps.{HasRefusedLine};

use bundle_doc::KnownDocuments;
use closure_core::{Closure, Distrusted, TakeError, Taken};
use receipt_core::{Distrust, LineError, Receipt};
use replica_core::{Entry, SyncError};
use std::alloc::Global;
use std::cmp::Ordering;

/// Which lines may be at a place.
#[derive(Clone, Copy, Debug)]
pub enum Wanted {
    /// Those of records of distrust.
    Records,
    /// Those of receipts.
    Receipts,
    /// Both.
    Either,
}

/// Reads the line with this number, and takes what it says. `last` is the line before it, which is
/// empty for the first; documents are known. Returns how many receipts are held now and were not.
pub(crate) fn take_line<C: Closure>(
    alloc: Global,
    closure: &mut C,
    known: &mut KnownDocuments,
    wanted: Wanted,
    last: &[u8],
    number: u64,
    text: &[u8],
) -> Result<u64, SyncError>
    ensures { MatchResult result
        (TakesEntryText wanted (C.state closure.old).meaning last.now text.now
        (C.state closure.new).meaning)
        (HasRefusedLine wanted (C.state closure.old).meaning last.now number text.now
        (C.state closure.new).meaning) }
{
    let entry = next_entry_with(alloc, known, wanted, last, number, text)?;
    match take_entry(closure, entry) {
        Ok(count) => Ok(count),
        Err(TakeError::NoMemory) => Err(SyncError::NoMemory),
        Err(why) => Err(SyncError::Refused(number, why)),
    }
}

/// What the line with this number says. `last` is the line before it, which is empty for the first.
///
/// # Errors
/// They name the line by this number. The first of these that holds:
/// - [`SyncError::NotCanonical`]: it is not a line that may be there, or has more than 8,388,608
///   bytes,
/// - [`SyncError::NotRising`]: it is not greater than the line before it,
/// - [`SyncError::NoMemory`]: memory ran out.
pub fn next_entry(
    alloc: Global,
    wanted: Wanted,
    last: &[u8],
    number: u64,
    text: &[u8],
) -> Result<Entry, SyncError>
    ensures { MatchResult result (IsNextEntry wanted last.now text.now)
        (RefusesEntryText (placed_line wanted last.now number text.now)) }
{
    next_entry_with(
        alloc,
        &mut KnownDocuments::none(alloc),
        wanted,
        last,
        number,
        text,
    )
}

/// The same, for those who read many lines: `known` is what is known of the lines before.
///
/// # Errors
/// Those of [`next_entry`].
pub fn next_entry_with(
    alloc: Global,
    known: &mut KnownDocuments,
    wanted: Wanted,
    last: &[u8],
    number: u64,
    text: &[u8],
) -> Result<Entry, SyncError>
    ensures { MatchResult result (IsNextEntry wanted last.now text.now)
        (RefusesEntryText (placed_line wanted last.now number text.now)) }
{
    match read_entry(alloc, known, wanted, text) {
        Ok(entry) => {
            if last.cmp(text) == Ordering::Less {
                Ok(entry)
            } else {
                Err(SyncError::NotRising(number))
            }
        }
        Err(LineError::NoMemory) => Err(SyncError::NoMemory),
        Err(_) => Err(SyncError::NotCanonical(number)),
    }
}

/// Takes what a line says, and returns how many receipts are held now and were not.
fn take_entry<C: Closure>(closure: &mut C, entry: Entry) -> Result<u64, TakeError>
    ensures { MatchResult result
        (TakesEntry (C.state closure.old).meaning entry (C.state closure.new).meaning)
        (HasRefusedEntry (C.state closure.old).meaning entry (C.state closure.new).meaning) }
{
    match entry {
        Entry::Record(distrust) => take_record(closure, &distrust),
        Entry::Receipt(receipt) => take_receipt(closure, receipt),
    }
}

fn take_receipt<C: Closure>(closure: &mut C, receipt: Receipt) -> Result<u64, TakeError>
    ensures { MatchResult result
        (TakesEntry (C.state closure.old).meaning (Entry.Receipt receipt)
        (C.state closure.new).meaning)
        (HasRefusedEntry (C.state closure.old).meaning (Entry.Receipt receipt)
        (C.state closure.new).meaning) }
{
    receipt_core::laws::sets();
    let _config = closure.config();
    match closure.take(receipt) {
        Ok(Taken::New { .. }) => Ok(1),
        Ok(Taken::Already) => Ok(0),
        Err(refused) => Err(refused.why),
    }
}

fn take_record<C: Closure>(closure: &mut C, distrust: &Distrust) -> Result<u64, TakeError>
    ensures { MatchResult result
        (TakesEntry (C.state closure.old).meaning (Entry.Record distrust.now)
        (C.state closure.new).meaning)
        (HasRefusedEntry (C.state closure.old).meaning (Entry.Record distrust.now)
        (C.state closure.new).meaning) }
{
    receipt_core::laws::sets();
    let _config = closure.config();
    match closure.distrust(&distrust.domain, distrust.key) {
        Ok(Distrusted::New { .. }) => Ok(0),
        Ok(Distrusted::Already) => Ok(0),
        Err(why) => Err(why),
    }
}

fn read_entry(
    alloc: Global,
    known: &mut KnownDocuments,
    wanted: Wanted,
    text: &[u8],
) -> Result<Entry, LineError>
    ensures { MatchResult result (IsEntry wanted text.now) (RefusesSpelling wanted text.now) }
{
    match wanted {
        Wanted::Records => read_record(alloc, text),
        Wanted::Receipts => read_receipt(alloc, known, text),
        Wanted::Either => match read_receipt(alloc, known, text) {
            Err(LineError::NotCanonical) => read_record(alloc, text),
            read => read,
        },
    }
}

fn read_record(alloc: Global, text: &[u8]) -> Result<Entry, LineError>
    ensures { MatchResult result (IsEntry Wanted.Records text.now) (RefusesRecord text.now) }
{
    Ok(Entry::Record(Distrust::read_line(alloc, text)?))
}

fn read_receipt(alloc: Global, known: &mut KnownDocuments, text: &[u8]) -> Result<Entry, LineError>
    ensures { MatchResult result (IsEntry Wanted.Receipts text.now) (RefusesReceipt text.now) }
{
    Ok(Entry::Receipt(Receipt::read_line_with(alloc, text, known)?))
}
