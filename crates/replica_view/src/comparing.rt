//! What one replica holds and another one does not.
ghost use Rattle.std.specs.Prelude.{◌≡◌, ◌↔◌, ◌||◌, [], true, Contains, Err, IfOk, IsTrue, OnOk};
ghost use Rattle.byte_lines.specs.Device.{is_source_fault};
ghost use Rattle.byte_lines.specs.declared.error.DeviceError.TheVariants.{Io, NoMemory};
ghost use Rattle.text_lines.specs.TextLines.{BeginsSome, WritesSome};
ghost use Rattle.replica_view.specs.HeldLines.{ShowsReceipt, ShowsRecord};
ghost use Rattle.replica_view.specs.HeldTexts.{AreDifferenceLines, AreLackedLines, HoldSame};
ghost use Rattle.replica_view.specs.HeldTexts.{IsHeldDifference};
ghost use Rattle.replica_view.specs.Inside.MadeLines.{AddsLinesFor};
ghost use Rattle.replica_view.specs.Inside.Offered.{IsOfferSet};

use crate::held_lines::{push_receipt, push_record};
use crate::offered::offer_set;
use byte_lines::{DeviceError, Sink};
use closure_core::Closure;
use receipt_core::Triple;
use std::alloc::{AllocError, Global};
use std::collections::BTreeSet;
use text_lines::{TextLine, write_lines};

/// Writes what only one of two replicas holds: the lines that [`crate::write_held`] would write of
/// what `other` does not hold, each after `- `, and then those of what `one` does not hold, each
/// after `+ `. Returns whether both hold the same, and then nothing is written. The status in a
/// line is that in the replica that holds the receipt.
///
/// The work grows as that of [`crate::write_held`], since each receipt is looked up in the other
/// replica. All memory is taken before the first byte is written.
///
/// # Errors
/// - [`DeviceError::Io`]: the sink failed, and holds a beginning of the text.
/// - [`DeviceError::NoMemory`]: memory ran out. Nothing was written.
pub fn write_held_difference<C: Closure, W: Sink>(
    alloc: Global,
    one: &C,
    other: &C,
    sink: &mut W,
) -> Result<bool, DeviceError>
    ensures same { IfOk result (λ same. IsTrue same
        ↔ HoldSame (C.state one.now).meaning (C.state other.now).meaning) }
    ensures ok { OnOk result (WritesSome
        (IsHeldDifference (C.state one.now).meaning (C.state other.now).meaning)
        (W.contents sink.old) (W.contents sink.new)) }
    ensures io { result ≡ Err Io → (W.has_failed sink.new ≡ true)
        × BeginsSome (IsHeldDifference (C.state one.now).meaning (C.state other.now).meaning)
        (W.contents sink.old) (W.contents sink.new) }
    ensures memory { result ≡ Err NoMemory → sink.new ≡ sink.old }
    ensures fault { W.has_failed sink.new ≡ (is_source_fault result || W.has_failed sink.old) }
{
    let lines = difference_lines(alloc, one, other)?;
    write_lines(alloc, lines.as_slice(), sink)?;
    Ok(is_none(lines.as_slice()))
}

fn is_none(lines: &[TextLine]) -> bool
    ensures { IsTrue result ↔ (lines.now ≡ []) }
{
    lines.is_empty()
}

fn difference_lines<C: Closure>(
    alloc: Global,
    one: &C,
    other: &C,
) -> Result<Vec<TextLine>, AllocError>
    ensures { IfOk result (λ lines. AreDifferenceLines (C.state one.now).meaning
        (C.state other.now).meaning lines.items) }
{
    let mut lines = lacked_lines(alloc, one, other, b"- ")?;
    let mut gained = lacked_lines(alloc, other, one, b"+ ")?;
    lines.append(&mut gained)?;
    Ok(lines)
}

// The lines of what the one holds and the other does not.
fn lacked_lines<C: Closure>(
    alloc: Global,
    one: &C,
    other: &C,
    mark: &[u8],
) -> Result<Vec<TextLine>, AllocError>
    ensures { IfOk result (λ lines. AreLackedLines (C.state one.now).meaning
        (C.state other.now).meaning mark.now lines.items) }
{
    let offered = offer_set(alloc, one)?;
    let mut lines = Vec::new(alloc);
    push_lacked_receipts(alloc, one, other, &offered, mark, &mut lines)?;
    push_lacked_records(alloc, one, other, mark, &mut lines)?;
    Ok(lines)
}

fn push_lacked_receipts<C: Closure>(
    alloc: Global,
    one: &C,
    other: &C,
    offered: &BTreeSet<Triple>,
    mark: &[u8],
    lines: &mut Vec<TextLine>,
) -> Result<(), AllocError>
    requires { IsOfferSet (C.state one.now).meaning offered.now }
    ensures { OnOk result (AddsLinesFor (Contains (C.state other.now).meaning.held)
        (ShowsReceipt (C.state one.now).meaning mark.now) (C.state one.now).meaning.held
        lines.old.items lines.new.items) }
{
    for receipt in one.receipts() {
        if other.holds(receipt) {
            continue;
        }
        push_receipt(alloc, one, offered, mark, receipt, lines)?;
    }
    Ok(())
}

fn push_lacked_records<C: Closure>(
    alloc: Global,
    one: &C,
    other: &C,
    mark: &[u8],
    lines: &mut Vec<TextLine>,
) -> Result<(), AllocError>
    ensures { OnOk result (AddsLinesFor (Contains (C.state other.now).meaning.records)
        (ShowsRecord mark.now) (C.state one.now).meaning.records lines.old.items
        lines.new.items) }
{
    for (domain, key) in one.distrusts() {
        if other.is_distrusted(domain, *key) {
            continue;
        }
        push_record(alloc, mark, domain, key, lines)?;
    }
    Ok(())
}
