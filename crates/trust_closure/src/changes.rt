//! Takes and distrusts over an index.
ghost use Rattle.std.specs.Prelude.{◌≡◌, ℕ, ◌+◌, ◌^◌, ◌<◌, ◌≤◌, ◌∷◌, ◌++◌, [], length, take, IsOk};
ghost use Rattle.std.specs.Prelude.{OnOk};
ghost use Rattle.receipt_core.specs.Receipt.{pair_of, offers_of, with_receipt};
ghost use Rattle.closure_core.specs.Changes.{Takes};
ghost use Rattle.closure_core.specs.Refusals.{IsRoomier};
ghost use Rattle.closure_parts.specs.Held.{meaning_of};
ghost use Rattle.trust_closure.specs.Inside.Indexed.{IsIndexedClosure, Reserves, ArrivesLast};
ghost use Rattle.trust_closure.specs.Inside.Indexed.{room_of};
ghost use Rattle.trust_closure.specs.Inside.Indexed.{closure_state};

use crate::grow::add;
use closure_core::{Refused, TakeError, Taken};
use closure_parts::{Held, Lookup, Pairs};
use label_index::LabelIndex;
use receipt_core::Receipt;
use std::alloc::AllocError;

/// For how many receipts more, and for how many offers of theirs, there is room.
#[derive(Clone, Copy, Debug, PartialEq, Eq, Drop)]
pub(crate) struct FreeRoom {
    pub(crate) receipts: usize,
    pub(crate) offers: usize,
}

/// Takes a receipt: all growths come before the first change.
pub(crate) fn take_into(
    held: &mut Held,
    pairs: &mut Pairs,
    label_index: &mut LabelIndex,
    spare: &mut FreeRoom,
    receipt: Receipt,
) -> Result<Taken, Refused>
    requires { IsIndexedClosure held.old pairs.old label_index.old spare.old }
    ensures kept { IsIndexedClosure held.new pairs.new label_index.new spare.new }
    ensures takes { Takes (closure_state held.old spare.old) receipt
        (closure_state held.new spare.new) result }
    ensures arrived { ArrivesLast held.old.arrived receipt held.new.arrived result }
    ensures marked { take (length label_index.old.marked) label_index.new.marked
        ≡ label_index.old.marked }
{
    let place = match held.standing(&receipt) {
        Ok(Lookup::Present) => return Ok(Taken::Already),
        Ok(Lookup::Absent(place)) => place,
        Err(why) => return Err(Refused { why, receipt }),
    };
    let offers = receipt.offers().len();
    match reserve(held, pairs, label_index, spare, 1, offers) {
        Ok(()) => {
            let accepted_now = add(held, pairs, label_index, place, receipt);
            spare.receipts -= 1;
            spare.offers -= offers;
            Ok(Taken::New { accepted_now })
        }
        Err(_) => Err(Refused {
            why: TakeError::NoMemory,
            receipt,
        }),
    }
}

/// Makes room for this many more receipts, with this many offers together.
pub(crate) fn reserve(
    held: &mut Held,
    pairs: &mut Pairs,
    label_index: &mut LabelIndex,
    spare: &mut FreeRoom,
    receipts: usize,
    offers: usize,
) -> Result<(), AllocError>
    requires { IsIndexedClosure held.old pairs.old label_index.old spare.old }
    ensures reserves { Reserves held.old held.new pairs.old pairs.new label_index.old
        label_index.new spare.old spare.new }
    ensures ok { OnOk result
        (IsRoomier (record { receipts = receipts; offers = offers }) (room_of spare.new)) }
    ensures within { IsRoomier (record { receipts = receipts; offers = offers }) (room_of spare.old)
        → IsOk result }
{
    if receipts <= spare.receipts && offers <= spare.offers {
        return Ok(());
    }
    let receipts = receipts.max(spare.receipts);
    let offers = offers.max(spare.offers);
    // From 2^32 nodes on the first growth is refused, and from 2^32 edges on the last.
    pairs.try_reserve(receipts)?;
    held.try_reserve(receipts)?;
    label_index.try_reserve(receipts, receipts.saturating_add(offers))?;
    spare.receipts = receipts;
    spare.offers = offers;
    Ok(())
}
