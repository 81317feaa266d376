//! All that another closure holds is taken in, or nothing. All memory is there before the first
//! change, and a take within room is never refused. `merge_into` is generic over the trait
//! `Mergeable`.
ghost use Rattle.std.specs.Prelude.{◌≡◌, ◌⊎◌, ℕ, List, IsTrue, IsOk, OnOk, MatchBool};
ghost use Rattle.std.specs.Prelude.{MatchResult};
ghost use Rattle.receipt_core.specs.declared.distrust.Distrust.{Distrust};
ghost use Rattle.receipt_core.specs.Receipt.{receipt_cmp, distrust_cmp};
ghost use Rattle.receipt_core.specs.Rising.{with_items};
ghost use Rattle.closure_core.specs.Changes.{Merges};
ghost use Rattle.closure_parts.specs.Held.{meaning_of};
ghost use Rattle.closure_parts.specs.Merge.{FitWithinRoom, HasSpentOn, AreKnown};
ghost use Rattle.closure_parts.specs.Merge.{AreOld, HasNewRecord};

use crate::copies::plan_merge;
use crate::held::Held;
use closure_core::{Distrusts, NoMemory, Refused, TakeError, Taken};
use receipt_core::Receipt;

/// What a merge asks of a closure. Each closure that is built of [`Held`] has it.
pub trait Mergeable {
    ghost use Rattle.closure_parts.specs.Held.{meaning_of};
    ghost use Rattle.closure_core.specs.Refusals.{IsRoomier};
    ghost use Rattle.closure_parts.specs.Merge.{AreKnown, AreOld, HasNewRecord};
    ghost use Rattle.closure_core.specs.Changes.{HeldAndRoom, Takes};

    ghost state: { Self → HeldAndRoom };

    // How much work the last new records of distrust were, as this closure counts it; and that it
    // would be this much if these records were held as well.
    ghost work_done: { Self → ℕ };

    ghost IsWork: { Self → List Distrust → ℕ → Type 0 };

    /// What it holds.
    fn held(&self) -> &Held
        ensures { meaning_of result.now ≡ (state self.now).meaning };

    /// As [`closure_core::Closure::take`].
    ///
    /// # Errors
    /// As there.
    fn take_one(&mut self, receipt: Receipt) -> Result<Taken, Refused>
        ensures takes { Takes (state self.old) receipt (state self.new) result }
        ensures same_work { work_done self.new ≡ work_done self.old };

    /// Distrusts keys in domains of the configuration, no more than may be held. It takes no work
    /// if none of the records is new.
    fn distrust_all(&mut self, records: Distrusts<'_>)
        requires { AreKnown (state self.old).meaning records }
        ensures meaning { (state self.new).meaning ≡ record (state self.old).meaning
            { records = with_items distrust_cmp records.entry (state self.old).meaning.records } }
        ensures room { (state self.new).room ≡ (state self.old).room }
        ensures none_new { AreOld (state self.old).meaning records.entry
            → work_done self.new ≡ work_done self.old }
        ensures some_new { HasNewRecord (state self.old).meaning records.entry
            → IsWork self.old records.entry (work_done self.new) };

    /// As [`closure_core::Closure::try_reserve`].
    ///
    /// # Errors
    /// Memory ran out. Only the room may have grown.
    fn make_room(&mut self, receipts: usize, offers: usize) -> Result<(), NoMemory>
        ensures meaning { (state self.new).meaning ≡ (state self.old).meaning }
        ensures room { IsRoomier (state self.old).room (state self.new).room }
        ensures ok { OnOk result
            (IsRoomier (record { receipts = receipts; offers = offers }) (state self.new).room) }
        ensures within { IsRoomier (record { receipts = receipts; offers = offers })
            (state self.old).room → IsOk result }
        ensures work { (records : List Distrust) (count : ℕ) → IsWork self.new records count
            → IsWork self.old records count }
        ensures same_work { work_done self.new ≡ work_done self.old };
}

/// Takes all receipts and all records of distrust of another closure, or none, and returns how many
/// receipts were not held. All memory is there before the first of them is taken.
///
/// # Errors
/// As [`closure_core::Closure::merge`] says.
pub fn merge_into<C: Mergeable>(closure: &mut C, other: &C) -> Result<usize, TakeError>
    ensures merges { Merges (C.state closure.old) (C.state other.now).meaning (C.state closure.new)
        result }
    ensures work { MatchResult result
        (λ count. (AreOld (C.state closure.old).meaning (C.state other.now).meaning.records
        → C.work_done closure.new ≡ C.work_done closure.old)
        × (HasNewRecord (C.state closure.old).meaning (C.state other.now).meaning.records
        → C.IsWork closure.old (C.state other.now).meaning.records (C.work_done closure.new)))
        (λ why. C.work_done closure.new ≡ C.work_done closure.old) }
{
    let share = plan_merge(closure.held(), other.held())?;
    let count = share.copies.len();
    if closure.make_room(count, share.offers).is_err() {
        return Err(TakeError::NoMemory);
    }
    closure.distrust_all(other.held().distrusts());
    take_all(closure, share.copies);
    Ok(count)
}

/// Holds records of distrust in domains of the configuration, no more than may be held, and returns
/// whether one of them is new. It takes no memory.
pub fn hold_all(held: &mut Held, records: Distrusts<'_>) -> bool
    requires { AreKnown (meaning_of held.old) records }
    ensures meaning { meaning_of held.new ≡ record (meaning_of held.old)
        { records = with_items distrust_cmp records.entry (meaning_of held.old).records } }
    ensures arrived { held.new.arrived ≡ held.old.arrived }
    ensures capacity { held.new.capacity ≡ held.old.capacity }
    ensures new { MatchBool result (HasNewRecord (meaning_of held.old) records.entry)
        (AreOld (meaning_of held.old) records.entry) }
    ensures none { IsTrue result ⊎ (meaning_of held.new ≡ meaning_of held.old) }
{
    let left = held.records_left();
    for (domain, key) in records {
        let _valid = held.config();
        // The domain is one of the configuration, and there are not too many, so it is never
        // refused.
        let _ = held.add_record(domain, *key);
    }
    held.records_left() < left
}

/// Takes receipts that fit, and for which there is room.
fn take_all<C: Mergeable>(closure: &mut C, receipts: Vec<Receipt>)
    requires { FitWithinRoom (C.state closure.old) receipts.items }
    ensures meaning { (C.state closure.new).meaning ≡ record (C.state closure.old).meaning
        { held = with_items receipt_cmp receipts.items (C.state closure.old).meaning.held } }
    ensures room { HasSpentOn (C.state closure.old).room receipts.items
        (C.state closure.new).room }
    ensures same_work { C.work_done closure.new ≡ C.work_done closure.old }
{
    for receipt in receipts {
        let _valid = closure.held().config();
        // It fits, and there is room, so it is never refused.
        let _ = closure.take_one(receipt);
    }
}
