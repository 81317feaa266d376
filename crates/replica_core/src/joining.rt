//! Records and receipts that are welcome are taken.
ghost use Rattle.std.specs.Prelude.{◌≡◌, IfSome, MatchBool};
ghost use Rattle.receipt_core.specs.Receipt.{receipt_cmp, distrust_cmp};
ghost use Rattle.receipt_core.specs.Rising.{with_items};
ghost use Rattle.closure_core.specs.Changes.{IsUnchanged};
ghost use Rattle.closure_core.specs.Refusals.{IsRoomier};
ghost use Rattle.replica_core.specs.Absorbing.{AreWelcome, of_records, of_receipts, room_for};
ghost use Rattle.replica_core.specs.Inside.RecordsToo.{HasRecordsToo, only_records};

use closure_core::Closure;
use fed_config::Config;
use receipt_core::{Distrust, Receipt};
use std::alloc::Global;

/// From how many new records on they are taken by one merge.
const FEWEST_MERGED: usize = 16;

/// Distrusts all of these. They have to be *welcome*: the closure would refuse none of them, if it
/// were given one after another. If 16 or more of them are new they are taken by one merge, which
/// looks at each edge that they reach at most twice, however many they are. One after another they
/// may look at the same edges each time. That is done only if they are fewer, or if there is no
/// memory for a closure of them.
pub fn distrust_all<C: Closure>(alloc: Global, closure: &mut C, records: &[Distrust])
    requires { AreWelcome (C.state closure.old).meaning (of_records records.now) }
    ensures meaning { (C.state closure.new).meaning
        ≡ record (C.state closure.old).meaning
        { records = with_items distrust_cmp records.now (C.state closure.old).meaning.records } }
    ensures room { IsRoomier (C.state closure.old).room (C.state closure.new).room }
{
    if count_new(closure, records) < FEWEST_MERGED || !merge_records(alloc, closure, records) {
        distrust_each(closure, records);
    }
}

// How many of the records are not held. That only decides how they are taken, which no clause of
// `distrust_all` depends on.
fn count_new<C: Closure>(closure: &C, records: &[Distrust]) -> usize {
    let mut count: usize = 0;
    for record in records {
        if !closure.is_distrusted(&record.domain, record.key) {
            count = count.saturating_add(1);
        }
    }
    count
}

// Takes the records by one merge, or nothing. Returns whether it took them.
fn merge_records<C: Closure>(alloc: Global, closure: &mut C, records: &[Distrust]) -> bool
    ensures { MatchBool result
        (HasRecordsToo (C.state closure.old) records.now (C.state closure.new))
        (IsUnchanged (C.state closure.old) (C.state closure.new)) }
{
    receipt_core::laws::sets();
    match closure_of(alloc, closure.config(), records) {
        Some(besides) => match closure.merge(&besides) {
            Ok(_) => true,
            Err(_) => false,
        },
        None => false,
    }
}

// A closure of the configuration that holds only these records. `None` if memory ran out, or if
// they are not all of the configuration, or too many.
fn closure_of<C: Closure>(alloc: Global, config: &Config, records: &[Distrust]) -> Option<C>
    ensures { IfSome result (λ c. (C.state c).meaning ≡ only_records config.now records.now) }
{
    receipt_core::laws::sets();
    let mut besides = C::new(alloc, config).ok()?;
    for record in records {
        let _valid = besides.config();
        besides.distrust(&record.domain, record.key).ok()?;
    }
    Some(besides)
}

// Distrusts these, which are welcome, one after another.
fn distrust_each<C: Closure>(closure: &mut C, records: &[Distrust])
    requires { AreWelcome (C.state closure.old).meaning (of_records records.now) }
    ensures meaning { (C.state closure.new).meaning
        ≡ record (C.state closure.old).meaning
        { records = with_items distrust_cmp records.now (C.state closure.old).meaning.records } }
    ensures room { (C.state closure.new).room ≡ (C.state closure.old).room }
{
    receipt_core::laws::sets();
    for record in records {
        let _valid = closure.config();
        // It is welcome, so it is never refused.
        let _ = closure.distrust(&record.domain, record.key);
    }
}

/// Takes all of these. They are welcome, and there is room for those that are not held.
pub(crate) fn take_all<C: Closure>(closure: &mut C, receipts: Vec<Receipt>)
    requires welcome { AreWelcome (C.state closure.old).meaning (of_receipts receipts.items) }
    requires room { IsRoomier (room_for (C.state closure.old).meaning receipts.items)
        (C.state closure.old).room }
    ensures { (C.state closure.new).meaning
        ≡ record (C.state closure.old).meaning
        { held = with_items receipt_cmp receipts.items (C.state closure.old).meaning.held } }
{
    receipt_core::laws::sets();
    for receipt in receipts {
        let _valid = closure.config();
        let _form = receipt.domain();
        // It is welcome, and there is room, so it is never refused.
        let _ = closure.take(receipt);
    }
}
