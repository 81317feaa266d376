//! Places for more records and receipts, of which this many may be held. Free places are counted,
//! and what is held is looked up only if not all that is left has one.
ghost use Rattle.std.specs.Prelude.{◌≡◌, ◌+◌, ◌<◌, ◌↔◌, IsTrue, MatchOption, Contains, length};
ghost use Rattle.std.specs.Prelude.{slice_get, Some};
ghost use Rattle.std.specs.List.{AllByRecursion};
ghost use Rattle.receipt_core.specs.Receipt.{IsReceipt, receipt_cmp, distrust_cmp};
ghost use Rattle.receipt_core.specs.Rising.{with_items};
ghost use Rattle.replica_core.specs.Inside.Earlier.{passed};
ghost use Rattle.replica_core.specs.Inside.FreePlaces.{HasNoPlace, HasPlace, HasPlaces};
ghost use Rattle.receipt_core.specs.Limits.{receipt_limit, record_limit};

use crate::earlier::Earlier;
use closure_core::Closure;
use receipt_core::{Distrust, Receipt};

/// How many places are free for the others once this record, the first of those left, is held too.
/// Now the records before it are held and this many places are free. `None` if there is no place
/// for it. What is held is looked up only if not all that are left have a place.
pub(crate) fn place_for_record<C: Closure>(
    closure: &C,
    before: &mut Earlier<'_, Distrust>,
    free: usize,
    left: usize,
    distrust: &Distrust,
) -> Option<usize>
    requires left { 0 < left }
    requires next { slice_get before.old.items before.old.count ≡ Some distrust.now }
    requires places { HasPlaces (record_limit (C.state closure.now).meaning.config)
        (length (with_items distrust_cmp (passed before.old)
        (C.state closure.now).meaning.records)) free left }
    ensures items { before.new.items ≡ before.old.items }
    ensures count { before.new.count ≡ before.old.count + 1 }
    ensures place { MatchOption result
        (HasNoPlace (record_limit (C.state closure.now).meaning.config)
        (with_items distrust_cmp (passed before.old) (C.state closure.now).meaning.records)
        distrust.now)
        (HasPlace distrust_cmp (record_limit (C.state closure.now).meaning.config)
        (with_items distrust_cmp (passed before.old)
        (C.state closure.now).meaning.records) distrust.now left) }
{
    receipt_core::laws::sets();
    let _valid = closure.config();
    if left <= free {
        before.pass();
        return Some(free - 1);
    }
    if is_record_among(closure, before, distrust) {
        return Some(free);
    }
    if free == 0 { None } else { Some(free - 1) }
}

/// As [`place_for_record`], of receipts.
pub(crate) fn place_for_receipt<C: Closure>(
    closure: &C,
    before: &mut Earlier<'_, Receipt>,
    free: usize,
    left: usize,
    receipt: &Receipt,
) -> Option<usize>
    requires left { 0 < left }
    requires next { slice_get before.old.items before.old.count ≡ Some receipt.now }
    requires places { HasPlaces (receipt_limit (C.state closure.now).meaning.config)
        (length (with_items receipt_cmp (passed before.old)
        (C.state closure.now).meaning.held)) free left }
    requires form { IsReceipt receipt.now }
    requires forms { AllByRecursion IsReceipt (passed before.old) }
    ensures items { before.new.items ≡ before.old.items }
    ensures count { before.new.count ≡ before.old.count + 1 }
    ensures place { MatchOption result
        (HasNoPlace (receipt_limit (C.state closure.now).meaning.config)
        (with_items receipt_cmp (passed before.old) (C.state closure.now).meaning.held)
        receipt.now)
        (HasPlace receipt_cmp (receipt_limit (C.state closure.now).meaning.config)
        (with_items receipt_cmp (passed before.old)
        (C.state closure.now).meaning.held) receipt.now left) }
{
    receipt_core::laws::sets();
    let _valid = closure.config();
    if left <= free {
        before.pass();
        return Some(free - 1);
    }
    if is_receipt_among(closure, before, receipt) {
        return Some(free);
    }
    if free == 0 { None } else { Some(free - 1) }
}

// Whether the record is held, or one of those before it.
fn is_record_among<C: Closure>(
    closure: &C,
    before: &mut Earlier<'_, Distrust>,
    distrust: &Distrust,
) -> bool
    requires next { slice_get before.old.items before.old.count ≡ Some distrust.now }
    ensures items { before.new.items ≡ before.old.items }
    ensures count { before.new.count ≡ before.old.count + 1 }
    ensures among { IsTrue result
        ↔ Contains (with_items distrust_cmp (passed before.old)
        (C.state closure.now).meaning.records) distrust.now }
{
    receipt_core::laws::sets();
    let is_repeat = before.is_repeat(distrust);
    if closure.is_distrusted(&distrust.domain, distrust.key) {
        return true;
    }
    is_repeat
}

/// Whether the receipt is held, or one of those before it. Afterwards it counts among those.
pub(crate) fn is_receipt_among<C: Closure>(
    closure: &C,
    before: &mut Earlier<'_, Receipt>,
    receipt: &Receipt,
) -> bool
    requires next { slice_get before.old.items before.old.count ≡ Some receipt.now }
    requires form { IsReceipt receipt.now }
    requires forms { AllByRecursion IsReceipt (passed before.old) }
    ensures items { before.new.items ≡ before.old.items }
    ensures count { before.new.count ≡ before.old.count + 1 }
    ensures among { IsTrue result
        ↔ Contains (with_items receipt_cmp (passed before.old)
        (C.state closure.now).meaning.held) receipt.now }
{
    receipt_core::laws::sets();
    let _valid = closure.config();
    let is_repeat = before.is_repeat(receipt);
    if closure.holds(receipt) {
        return true;
    }
    is_repeat
}
