//! Rounds over all receipts: what an accepted document vouches for is accepted too. A round raises
//! the flag of each receipt, in order of arrival, for which a configured document or that of a
//! receipt with a raised flag vouches. Rounds continue until one raises none.
//!
//! A round is sound: an accepted document vouches for each receipt with a raised flag. The last one
//! is quiet: no such document vouches for a receipt whose flag is not raised. With
//! `closure_core::laws::least`, the flags are exactly those of the released receipts.
ghost use Rattle.std.specs.Prelude.{◌≡◌, ℕ, ◌+◌, ◌^◌, ◌<◌, ◌≤◌, ◌↔◌, true, false, length, Contains};
ghost use Rattle.std.specs.Prelude.{IsTrue, Some, slice_get, slice_set};
ghost use Rattle.std.specs.List.{All};
ghost use Rattle.receipt_core.specs.Receipt.{Receipt, need_of};
ghost use Rattle.receipt_core.specs.Acceptance.{IsMeaning};
ghost use Rattle.closure_core.specs.Inside.Nodes.{is_raised, flags_of, count_at};
ghost use Rattle.closure_core.specs.Inside.Flags.{raised_count};
ghost use Rattle.closure_parts.specs.Held.{meaning_of};
ghost use Rattle.plain_closure.specs.Plain.{AreSeedOffers, IsOffered, IsOfferedBelow};
ghost use Rattle.plain_closure.specs.Plain.{IsVouched};
ghost use Rattle.plain_closure.specs.Plain.{AreSound, AreQuietBelow, AreReleased};
ghost use Rattle.plain_closure.specs.Plain.{IsAcceptedNode};
ghost use Rattle.plain_closure.specs.Plain.{IsFirstAccepted};

use closure_parts::{Held, Pairs};
use receipt_core::{Receipt, Triple};
use wait_index::NodeNo;

/// Rounds until one raises no flag: then the flags are those of the receipts that an accepted
/// document vouches for.
pub(crate) fn run_rounds(held: &Held, seed_offers: &[Triple], released: &mut [bool])
    requires offers { AreSeedOffers held.now.config.seeds seed_offers.now }
    requires size { length released.old ≡ length held.now.arrived }
    requires same { (r : Receipt) → Contains held.now.held r ↔ Contains held.now.arrived r }
    requires sound { AreSound (meaning_of held.now) held.now.arrived released.old }
    ensures size { length released.new ≡ length released.old }
    ensures released { AreReleased (meaning_of held.now) held.now.arrived released.new }
{
    let _valid = held.config();
    while round(held, seed_offers, released) > 0 {}
}

/// Raises the flags of receipts for which an accepted document vouches, in order of arrival, and
/// returns how many.
fn round(held: &Held, seed_offers: &[Triple], released: &mut [bool]) -> usize
    requires offers { AreSeedOffers held.now.config.seeds seed_offers.now }
    requires size { length released.old ≡ length held.now.arrived }
    requires same { (r : Receipt) → Contains held.now.held r ↔ Contains held.now.arrived r }
    ensures size { length released.new ≡ length released.old }
    ensures sound { AreSound (meaning_of held.now) held.now.arrived released.old
        → AreSound (meaning_of held.now) held.now.arrived released.new }
    ensures quiet { result ≡ 0
        → AreQuietBelow held.now.records seed_offers.now held.now.arrived released.new
        (length held.now.arrived) }
    ensures count { raised_count released.new ≡ raised_count released.old + result }
{
    let _valid = held.config();
    let mut count = 0;
    for place in 0..released.len() {
        if is_due(held, seed_offers, released, place) {
            raise(released, place);
            count += 1;
        }
    }
    count
}

/// Whether the receipt's flag is not raised, and an accepted document vouches for it.
fn is_due(held: &Held, seed_offers: &[Triple], released: &[bool], place: usize) -> bool
    requires size { length released.now ≡ length held.now.arrived }
    requires within { place < length released.now }
    ensures { (r : Receipt) → slice_get held.now.arrived place ≡ Some r
        → IsTrue result ↔ ((is_raised released.now place ≡ false)
        × IsVouched held.now.records seed_offers.now held.now.arrived released.now r) }
{
    !released[place] && is_vouched(held, seed_offers, released, &held.arrived()[place])
}

/// Whether an accepted document vouches for the receipt.
fn is_vouched(held: &Held, seed_offers: &[Triple], released: &[bool], receipt: &Receipt) -> bool
    requires { length released.now ≡ length held.now.arrived }
    ensures { IsTrue result
        ↔ IsVouched held.now.records seed_offers.now held.now.arrived released.now receipt.now }
{
    let need = receipt.need();
    !held.is_distrusted(need.domain(), need.key())
        && is_offered(seed_offers, held.arrived(), released, need)
}

/// Whether an accepted document offers what is needed.
fn is_offered(
    seed_offers: &[Triple],
    receipts: &[Receipt],
    released: &[bool],
    need: &Triple,
) -> bool
    requires { length released.now ≡ length receipts.now }
    ensures { IsTrue result ↔ IsOffered seed_offers.now receipts.now released.now need.now }
{
    has_triple(seed_offers, need) || is_offered_by_receipt(receipts, released, need)
}

fn is_offered_by_receipt(receipts: &[Receipt], released: &[bool], need: &Triple) -> bool
    requires { length released.now ≡ length receipts.now }
    ensures { IsTrue result
        ↔ IsOfferedBelow receipts.now released.now need.now (length receipts.now) }
{
    for place in 0..receipts.len() {
        if released[place] && has_triple(receipts[place].offers(), need) {
            return true;
        }
    }
    false
}

fn has_triple(triples: &[Triple], sought: &Triple) -> bool
    ensures { IsTrue result ↔ Contains triples.now sought.now }
{
    triples.contains(sought)
}

/// Adds one for each accepted document to its count, and returns how many different ones those
/// are. All counts were 0.
pub(crate) fn count_accepted(pairs: &mut Pairs, seeds: usize, released: &[bool]) -> usize
    requires size { length pairs.old.heads ≡ seeds + length released.now }
    requires counted { length pairs.old.counts ≡ length pairs.old.heads }
    requires heads { All (λ f. f < length pairs.old.counts) pairs.old.heads }
    requires lowered { (number : ℕ) → count_at pairs.old.counts number ≡ 0 }
    requires few { length pairs.old.heads < 2 ^ 32 }
    ensures numbers { pairs.new.numbers ≡ pairs.old.numbers }
    ensures heads { pairs.new.heads ≡ pairs.old.heads }
    ensures size { length pairs.new.counts ≡ length pairs.old.counts }
    ensures raised { (number : ℕ) → (is_raised (flags_of pairs.new.counts) number ≡ true)
        ↔ IsFirstAccepted seeds released.now pairs.old.heads (length pairs.old.heads) number }
    ensures count { raised_count (flags_of pairs.new.counts) ≡ result }
    ensures capacity { pairs.new.capacity ≡ pairs.old.capacity }
{
    let mut count = 0;
    for node in 0..pairs.len() {
        if is_accepted_node(seeds, released, node) {
            count += pairs.raise(&[NodeNo::new(node as u32)]);
        }
    }
    count
}

/// Whether the node is that of a configured document, or of a receipt whose flag is raised.
fn is_accepted_node(seeds: usize, released: &[bool], node: usize) -> bool
    requires { node < seeds + length released.now }
    ensures { IsTrue result ↔ IsAcceptedNode seeds released.now node }
{
    node < seeds || released[node - seeds]
}

fn raise(released: &mut [bool], place: usize)
    requires within { place < length released.old }
    requires lowered { is_raised released.old place ≡ false }
    ensures flags { released.new ≡ slice_set released.old place true }
    ensures count { raised_count released.new ≡ raised_count released.old + 1 }
{
    released[place] = true;
}

/// How many flags are raised.
pub(crate) fn count_raised(flags: &[bool]) -> usize
    ensures count { result ≡ raised_count flags.now }
    ensures few { result ≤ length flags.now }
{
    flags.iter().filter(|flag| **flag).count()
}
