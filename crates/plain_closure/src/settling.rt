//! Takes and distrusts by rounds over all receipts.
ghost use Rattle.std.specs.Prelude.{◌≡◌, ℕ, ◌+◌, ◌^◌, ◌<◌, ◌≤◌, ◌↔◌, ◌∷◌, ◌++◌, [], false, List};
ghost use Rattle.std.specs.Prelude.{length, vec_capacity, Contains, IsOk, OnOk};
ghost use Rattle.receipt_core.specs.Receipt.{Receipt, distrust_cmp, with_receipt};
ghost use Rattle.receipt_core.specs.Rising.{with_items};
ghost use Rattle.closure_parts.specs.Merge.{AreKnown};
ghost use Rattle.closure_core.specs.Inside.Flags.{raised_count};
ghost use Rattle.closure_core.specs.Changes.{IsGain, Takes, TakesDistrust};
ghost use Rattle.closure_parts.specs.Held.{HeldReceipts, meaning_of, IsAbsent};
ghost use Rattle.closure_parts.specs.Held.{IsBefore};
ghost use Rattle.closure_core.specs.Inside.Nodes.{is_raised};
ghost use Rattle.receipt_core.specs.declared.distrust.Distrust.{Distrust};
ghost use Rattle.plain_closure.specs.Plain.{AreSeedOffers, IsSet, HasPlainFlags, WasSettled};
ghost use Rattle.plain_closure.specs.Plain.{AreSound, AreReleased, HasFreeRoom};
ghost use Rattle.plain_closure.specs.Plain.{IsPlainClosure};
ghost use Rattle.plain_closure.specs.Plain.{plain_state, IsRoomierTable};

use crate::flags::lower_all;
use crate::rounds::{count_accepted, run_rounds};
use closure_core::{Distrusted, Distrusts, Refused, TakeError, Taken};
use closure_parts::{Held, Insertion, Lookup, Pairs, hold_all};
use jwk_set::KeyId;
use receipt_core::{Receipt, Triple};
use spiffe_name::TrustDomain;
use std::alloc::AllocError;

/// Takes a receipt: all growths come before the first change.
pub(crate) fn take_into(
    held: &mut Held,
    pairs: &mut Pairs,
    seed_offers: &[Triple],
    released: &mut Vec<bool>,
    spare: &mut usize,
    receipt: Receipt,
) -> Result<Taken, Refused>
    requires { IsPlainClosure held.old pairs.old seed_offers.now released.old.items
        (vec_capacity released.old) spare.old }
    ensures kept { IsPlainClosure held.new pairs.new seed_offers.now released.new.items
        (vec_capacity released.new) spare.new }
    ensures takes { Takes (plain_state held.old spare.old) receipt (plain_state held.new spare.new)
        result }
{
    let place = match held.standing(&receipt) {
        Ok(Lookup::Present) => return Ok(Taken::Already),
        Ok(Lookup::Absent(place)) => place,
        Err(why) => return Err(Refused { why, receipt }),
    };
    match reserve(held, pairs, seed_offers, released, spare, 1) {
        Ok(()) => {
            let accepted_now = add(held, pairs, seed_offers, released, place, receipt);
            *spare -= 1;
            Ok(Taken::New { accepted_now })
        }
        Err(_) => Err(Refused {
            why: TakeError::NoMemory,
            receipt,
        }),
    }
}

/// Makes room for this many more receipts.
pub(crate) fn reserve(
    held: &mut Held,
    pairs: &mut Pairs,
    seed_offers: &[Triple],
    released: &mut Vec<bool>,
    spare: &mut usize,
    receipts: usize,
) -> Result<(), AllocError>
    requires { IsPlainClosure held.old pairs.old seed_offers.now released.old.items
        (vec_capacity released.old) spare.old }
    ensures kept { IsPlainClosure held.new pairs.new seed_offers.now released.new.items
        (vec_capacity released.new) spare.new }
    ensures meaning { meaning_of held.new ≡ meaning_of held.old }
    ensures roomier { spare.old ≤ spare.new }
    ensures ok { OnOk result (receipts ≤ spare.new) }
    ensures within { receipts ≤ spare.old → IsOk result }
{
    let _ = seed_offers.len();
    grow(held, pairs, released, spare, receipts)
}

/// Holds a receipt that is absent, at its place, and returns how many documents of domains are
/// accepted now and were not before. There is room for it.
pub(crate) fn add(
    held: &mut Held,
    pairs: &mut Pairs,
    seed_offers: &[Triple],
    released: &mut Vec<bool>,
    place: usize,
    receipt: Receipt,
) -> usize
    requires settled { HasPlainFlags held.old pairs.old seed_offers.now released.old.items }
    requires absent { IsAbsent (meaning_of held.old) receipt place }
    requires held_room { length held.old.arrived < held.old.capacity }
    requires pairs_room { length pairs.old.heads < pairs.old.capacity }
    requires released_room { length released.old.items < vec_capacity released.old }
    requires few { length pairs.old.heads < 2 ^ 32 }
    ensures settled { HasPlainFlags held.new pairs.new seed_offers.now released.new.items }
    ensures held { held.new
        ≡ record held.old {
          arrived = held.old.arrived ++ receipt ∷ [];
          held = with_receipt receipt held.old.held;
        } }
    ensures gain { IsGain (meaning_of held.old) (meaning_of held.new) result }
    ensures heads { length pairs.new.heads ≡ length pairs.old.heads + 1 }
    ensures capacity { pairs.new.capacity ≡ pairs.old.capacity }
    ensures size { length released.new.items ≡ length released.old.items + 1 }
    ensures released_capacity { vec_capacity released.new ≡ vec_capacity released.old }
{
    place_receipt(held, pairs, seed_offers, released, place, receipt);
    let _valid = held.config();
    settle(held, seed_offers, released);
    let before = pairs.clear();
    let after = count_accepted(pairs, held.config().seeds().len(), released);
    after - before
}

/// Holds a receipt that is absent, at its place, with a flag that is not raised and a count of 0.
fn place_receipt(
    held: &mut Held,
    pairs: &mut Pairs,
    seed_offers: &[Triple],
    released: &mut Vec<bool>,
    place: usize,
    receipt: Receipt,
)
    requires settled { HasPlainFlags held.old pairs.old seed_offers.now released.old.items }
    requires absent { IsAbsent (meaning_of held.old) receipt place }
    requires held_room { length held.old.arrived < held.old.capacity }
    requires pairs_room { length pairs.old.heads < pairs.old.capacity }
    requires released_room { length released.old.items < vec_capacity released.old }
    requires few { length pairs.old.heads < 2 ^ 32 }
    ensures set { IsSet held.new pairs.new seed_offers.now released.new.items }
    ensures sound { AreSound (meaning_of held.new) held.new.arrived released.new.items }
    ensures held { held.new
        ≡ record held.old {
          arrived = held.old.arrived ++ receipt ∷ [];
          held = with_receipt receipt held.old.held;
        } }
    ensures heads { (first : ℕ) × (pairs.new.heads ≡ pairs.old.heads ++ first ∷ []) }
    ensures counts { pairs.new.counts ≡ pairs.old.counts ++ 0 ∷ [] }
    ensures capacity { pairs.new.capacity ≡ pairs.old.capacity }
    ensures released { released.new.items ≡ released.old.items ++ false ∷ [] }
    ensures released_capacity { vec_capacity released.new ≡ vec_capacity released.old }
{
    let seeds = held.config().seeds();
    let domain_hint = held.domain_hint_of(&receipt);
    pairs.add(
        seeds,
        held.arrived(),
        domain_hint,
        receipt.domain(),
        receipt.document(),
    );
    held.insert(place, receipt);
    released.push_reserved(false);
    let _valid = held.config();
}

/// Distrusts a key in a domain: the flags are lowered, and rounds raise again those that are still
/// vouched for.
///
/// # Errors
/// The domain is not one of the configuration, or there may be no more records.
pub(crate) fn retract(
    held: &mut Held,
    pairs: &mut Pairs,
    seed_offers: &[Triple],
    released: &mut Vec<bool>,
    domain: &TrustDomain,
    key: KeyId,
) -> Result<Distrusted, TakeError>
    requires settled { HasPlainFlags held.old pairs.old seed_offers.now released.old.items }
    ensures settled { HasPlainFlags held.new pairs.new seed_offers.now released.new.items }
    ensures meaning { TakesDistrust (meaning_of held.old)
        (record { domain = domain.now; key = key }) (meaning_of held.new) result }
    ensures arrived { held.new.arrived ≡ held.old.arrived }
    ensures held_capacity { held.new.capacity ≡ held.old.capacity }
    ensures heads { pairs.new.heads ≡ pairs.old.heads }
    ensures capacity { pairs.new.capacity ≡ pairs.old.capacity }
    ensures size { length released.new.items ≡ length released.old.items }
    ensures released_capacity { vec_capacity released.new ≡ vec_capacity released.old }
{
    match held.add_record(domain, key)? {
        Insertion::Added => Ok(Distrusted::New {
            lost: fall(held, pairs, seed_offers, released),
        }),
        Insertion::There => Ok(Distrusted::Already),
        Insertion::Full => Err(TakeError::Full),
    }
}

/// Distrusts keys in domains of the configuration, no more than may be held: the flags are lowered
/// once, and rounds raise again those that are still vouched for.
pub(crate) fn retract_all(
    held: &mut Held,
    pairs: &mut Pairs,
    seed_offers: &[Triple],
    released: &mut Vec<bool>,
    records: Distrusts<'_>,
)
    requires settled { HasPlainFlags held.old pairs.old seed_offers.now released.old.items }
    requires known { AreKnown (meaning_of held.old) records }
    ensures settled { HasPlainFlags held.new pairs.new seed_offers.now released.new.items }
    ensures meaning { meaning_of held.new ≡ record (meaning_of held.old)
        { records = with_items distrust_cmp records.entry (meaning_of held.old).records } }
    ensures arrived { held.new.arrived ≡ held.old.arrived }
    ensures held_capacity { held.new.capacity ≡ held.old.capacity }
    ensures heads { pairs.new.heads ≡ pairs.old.heads }
    ensures capacity { pairs.new.capacity ≡ pairs.old.capacity }
    ensures size { length released.new.items ≡ length released.old.items }
    ensures released_capacity { vec_capacity released.new ≡ vec_capacity released.old }
{
    hold_all(held, records);
    fall(held, pairs, seed_offers, released);
}

/// Lowers all flags, raises again those that are still vouched for without the new records, and
/// returns how many documents of domains were accepted and are not now.
fn fall(held: &Held, pairs: &mut Pairs, seed_offers: &[Triple], released: &mut Vec<bool>) -> usize
    requires before { WasSettled held.now pairs.old seed_offers.now released.old.items }
    ensures settled { HasPlainFlags held.now pairs.new seed_offers.now released.new.items }
    ensures loss { (old : HeldReceipts) (more : List Distrust) → IsBefore old more held.now
        → HasPlainFlags old pairs.old seed_offers.now released.old.items
        → IsGain (meaning_of held.now) (meaning_of old) result }
    ensures heads { pairs.new.heads ≡ pairs.old.heads }
    ensures capacity { pairs.new.capacity ≡ pairs.old.capacity }
    ensures size { length released.new.items ≡ length released.old.items }
    ensures released_capacity { vec_capacity released.new ≡ vec_capacity released.old }
{
    let _valid = held.config();
    lower(released);
    settle(held, seed_offers, released);
    let before = pairs.clear();
    let after = count_accepted(pairs, held.config().seeds().len(), released);
    before - after
}

fn lower(released: &mut Vec<bool>)
    ensures lowered { (number : ℕ) → is_raised released.new.items number ≡ false }
    ensures size { length released.new.items ≡ length released.old.items }
    ensures capacity { vec_capacity released.new ≡ vec_capacity released.old }
{
    lower_all(released);
}

/// Raises the flags of the receipts that accepted documents vouch for.
fn settle(held: &Held, seed_offers: &[Triple], released: &mut Vec<bool>)
    requires offers { AreSeedOffers held.now.config.seeds seed_offers.now }
    requires size { length released.old.items ≡ length held.now.arrived }
    requires same { (r : Receipt) → Contains held.now.held r ↔ Contains held.now.arrived r }
    requires sound { AreSound (meaning_of held.now) held.now.arrived released.old.items }
    ensures size { length released.new.items ≡ length released.old.items }
    ensures released { AreReleased (meaning_of held.now) held.now.arrived released.new.items }
    ensures capacity { vec_capacity released.new ≡ vec_capacity released.old }
{
    run_rounds(held, seed_offers, released);
}

/// Grows all that a receipt more needs, by this many receipts.
fn grow(
    held: &mut Held,
    pairs: &mut Pairs,
    released: &mut Vec<bool>,
    spare: &mut usize,
    receipts: usize,
) -> Result<(), AllocError>
    requires spare { HasFreeRoom held.old pairs.old (length released.old.items)
        (vec_capacity released.old) spare.old }
    requires counts { length pairs.old.counts ≡ length pairs.old.heads }
    requires numbers { length pairs.old.numbers ≤ length pairs.old.heads }
    ensures spare { HasFreeRoom held.new pairs.new (length released.new.items)
        (vec_capacity released.new) spare.new }
    ensures held { held.new ≡ record held.old { capacity = held.new.capacity } }
    ensures pairs { IsRoomierTable pairs.old pairs.new }
    ensures released { released.new.items ≡ released.old.items }
    ensures roomier { spare.old ≤ spare.new }
    ensures ok { OnOk result (receipts ≤ spare.new) }
    ensures within { receipts ≤ spare.old → IsOk result }
{
    if receipts <= *spare {
        return Ok(());
    }
    // Past 2^32 nodes this first growth is refused.
    pairs.try_reserve(receipts)?;
    held.try_reserve(receipts)?;
    released.try_reserve(receipts)?;
    *spare = receipts;
    Ok(())
}
