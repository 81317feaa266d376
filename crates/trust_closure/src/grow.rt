//! What is held, its different documents and its index change together.
ghost use Rattle.std.specs.Prelude.{◌≡◌, ℕ, ◌+◌, ◌^◌, ◌<◌, ◌≤◌, ◌∷◌, ◌++◌, [], List, length, take};
ghost use Rattle.fed_config.specs.Configuration.{HasDomain};
ghost use Rattle.receipt_core.specs.declared.distrust.Distrust.{Distrust};
ghost use Rattle.receipt_core.specs.Receipt.{distrust_cmp, pair_of, offers_of, with_receipt};
ghost use Rattle.receipt_core.specs.Rising.{with_items};
ghost use Rattle.closure_core.specs.Changes.{IsGain, TakesDistrust};
ghost use Rattle.closure_parts.specs.Held.{HeldReceipts, meaning_of, IsAbsent};
ghost use Rattle.trust_closure.specs.Inside.Indexed.{IsBuilt, IsIndexed, WasIndexed};
ghost use Rattle.closure_parts.specs.Held.{IsBefore};
ghost use Rattle.trust_closure.specs.Inside.Indexed.{indexed_of};
ghost use Rattle.closure_parts.specs.Merge.{AreKnown};
ghost use Rattle.trust_closure.specs.Work.{ClosesAtOnce, Works, IsWorkOf, WorksOnce};
ghost use Rattle.trust_closure.specs.declared.changes.FreeRoom.{FreeRoom};

use crate::distrusted_labels::DistrustedLabels;
use crate::recount::recount;
use crate::wire::{add_receipt, domain_number};
use closure_core::{Distrusted, Distrusts, TakeError};
use closure_parts::{Held, Insertion, Pairs, hold_all};
use jwk_set::KeyId;
use label_index::LabelIndex;
use receipt_core::Receipt;
use spiffe_name::TrustDomain;

/// Holds a receipt that is absent, at its place, and returns how many documents of domains are
/// accepted now and were not before. There is room for it: it takes no memory, and looks at its own
/// edges and at what is marked from now on.
pub(crate) fn add(
    held: &mut Held,
    pairs: &mut Pairs,
    label_index: &mut LabelIndex,
    place: usize,
    receipt: Receipt,
) -> usize
    requires indexed { IsIndexed held.old pairs.old label_index.old }
    requires absent { IsAbsent (meaning_of held.old) receipt place }
    requires held_room { length held.old.arrived < held.old.capacity }
    requires pairs_room { length pairs.old.heads < pairs.old.capacity }
    requires few { length pairs.old.heads < 2 ^ 32 }
    requires nodes { 0 < label_index.old.nodes }
    requires edges { length (offers_of (pair_of receipt)) < label_index.old.edges }
    ensures indexed { IsIndexed held.new pairs.new label_index.new }
    ensures held { held.new
        ≡ record held.old {
          arrived = held.old.arrived ++ receipt ∷ [];
          held = with_receipt receipt held.old.held;
        } }
    ensures gain { IsGain (meaning_of held.old) (meaning_of held.new) result }
    ensures front { take (length label_index.old.marked) label_index.new.marked
        ≡ label_index.old.marked }
    ensures heads { length pairs.new.heads ≡ length pairs.old.heads + 1 }
    ensures pairs_room { pairs.new.capacity ≡ pairs.old.capacity }
    ensures nodes { label_index.old.nodes ≡ label_index.new.nodes + 1 }
    ensures edges { label_index.old.edges
        ≤ label_index.new.edges + (length (offers_of (pair_of receipt)) + 1) }
{
    let count = label_index.reach().marked().len();
    place_receipt(held, pairs, label_index, place, receipt);
    let _few = held.config();
    pairs.raise(&label_index.reach().marked()[count..])
}

/// Holds a receipt that is absent, at its place, and adds its node.
fn place_receipt(
    held: &mut Held,
    pairs: &mut Pairs,
    label_index: &mut LabelIndex,
    place: usize,
    receipt: Receipt,
)
    requires built { IsBuilt held.old pairs.old label_index.old }
    requires absent { IsAbsent (meaning_of held.old) receipt place }
    requires held_room { length held.old.arrived < held.old.capacity }
    requires pairs_room { length pairs.old.heads < pairs.old.capacity }
    requires few { length pairs.old.heads < 2 ^ 32 }
    requires nodes { 0 < label_index.old.nodes }
    requires edges { length (offers_of (pair_of receipt)) < label_index.old.edges }
    ensures built { IsBuilt held.new pairs.new label_index.new }
    ensures held { held.new
        ≡ record held.old {
          arrived = held.old.arrived ++ receipt ∷ [];
          held = with_receipt receipt held.old.held;
        } }
    ensures heads { (first : ℕ) × (pairs.new.heads ≡ pairs.old.heads ++ first ∷ []) }
    ensures counts { pairs.new.counts ≡ pairs.old.counts ++ 0 ∷ [] }
    ensures front { take (length label_index.old.marked) label_index.new.marked
        ≡ label_index.old.marked }
    ensures pairs_room { pairs.new.capacity ≡ pairs.old.capacity }
    ensures nodes { label_index.old.nodes ≡ label_index.new.nodes + 1 }
    ensures edges { label_index.old.edges
        ≤ label_index.new.edges + (length (offers_of (pair_of receipt)) + 1) }
{
    let seeds = held.config().seeds();
    let domain_hint = held.domain_hint_of(&receipt);
    pairs.add(
        seeds,
        held.arrived(),
        domain_hint,
        receipt.domain(),
        receipt.document(),
    );
    add_receipt(label_index, held, &receipt);
    held.insert(place, receipt);
    let _valid = held.config();
}

/// What came of a close of labels.
#[derive(Clone, Copy, Drop)]
struct Fall {
    /// How many documents of domains were accepted and are not now.
    lost: usize,
    /// How many times the close looked at an edge.
    work: usize,
}

/// Distrusts a key in a domain, and notes the work if the record is new. It takes no memory: the
/// labels of the key are closed together, and only the counts of documents whose nodes fell are
/// looked at.
///
/// # Errors
/// The domain is not one of the configuration, or there may be no more records.
pub(crate) fn retract(
    held: &mut Held,
    pairs: &mut Pairs,
    label_index: &mut LabelIndex,
    work: &mut usize,
    domain: &TrustDomain,
    key: KeyId,
) -> Result<Distrusted, TakeError>
    requires indexed { IsIndexed held.old pairs.old label_index.old }
    ensures indexed { IsIndexed held.new pairs.new label_index.new }
    ensures meaning { TakesDistrust (meaning_of held.old)
        (record { domain = domain.now; key = key }) (meaning_of held.new) result }
    ensures work { (spare : FreeRoom) → Works (indexed_of held.old label_index.old spare work.old)
        (record { domain = domain.now; key = key })
        (indexed_of held.new label_index.new spare work.new) result }
    ensures arrived { held.new.arrived ≡ held.old.arrived }
    ensures capacity { held.new.capacity ≡ held.old.capacity }
    ensures heads { pairs.new.heads ≡ pairs.old.heads }
    ensures pairs_room { pairs.new.capacity ≡ pairs.old.capacity }
    ensures nodes { label_index.new.nodes ≡ label_index.old.nodes }
    ensures edges { label_index.new.edges ≡ label_index.old.edges }
{
    match held.add_record(domain, key)? {
        Insertion::Added => {
            let fall = close(held, pairs, label_index, domain, key);
            *work = fall.work;
            Ok(Distrusted::New { lost: fall.lost })
        }
        Insertion::There => Ok(Distrusted::Already),
        Insertion::Full => Err(TakeError::Full),
    }
}

/// Closes the labels of a key that is distrusted from now on.
fn close(
    held: &Held,
    pairs: &mut Pairs,
    label_index: &mut LabelIndex,
    domain: &TrustDomain,
    key: KeyId,
) -> Fall
    requires domain { HasDomain held.now.config domain.now }
    requires before { WasIndexed held.now (record { domain = domain.now; key = key } ∷ []) pairs.old
        label_index.old }
    ensures indexed { IsIndexed held.now pairs.new label_index.new }
    ensures loss { (old : HeldReceipts)
        → IsBefore old (record { domain = domain.now; key = key } ∷ []) held.now
        → IsIndexed old pairs.old label_index.old
        → IsGain (meaning_of held.now) (meaning_of old) result.lost }
    ensures work { (old : HeldReceipts) (spare : FreeRoom) (work : ℕ)
        → IsBefore old (record { domain = domain.now; key = key } ∷ []) held.now
        → IsIndexed old pairs.old label_index.old
        → ClosesAtOnce (indexed_of old label_index.old spare work)
        (record { domain = domain.now; key = key } ∷ [])
        (indexed_of held.now label_index.new spare result.work) }
    ensures heads { pairs.new.heads ≡ pairs.old.heads }
    ensures pairs_room { pairs.new.capacity ≡ pairs.old.capacity }
    ensures nodes { label_index.new.nodes ≡ label_index.old.nodes }
    ensures edges { label_index.new.edges ≡ label_index.old.edges }
{
    let number = domain_number(held.config(), domain);
    let work = label_index.close_key(number, key);
    let lost = recount(pairs, label_index.reach());
    Fall { lost, work }
}

/// Distrusts keys in domains of the configuration, no more than may be held. It takes no memory. If
/// one of the records is new, all their labels are closed together, and the work is noted.
pub(crate) fn retract_all(
    held: &mut Held,
    pairs: &mut Pairs,
    label_index: &mut LabelIndex,
    work: &mut usize,
    records: Distrusts<'_>,
)
    requires indexed { IsIndexed held.old pairs.old label_index.old }
    requires known { AreKnown (meaning_of held.old) records }
    ensures indexed { IsIndexed held.new pairs.new label_index.new }
    ensures meaning { meaning_of held.new ≡ record (meaning_of held.old)
        { records = with_items distrust_cmp records.entry (meaning_of held.old).records } }
    ensures work { (spare : FreeRoom) → WorksOnce
        (indexed_of held.old label_index.old spare work.old)
        records.entry (indexed_of held.new label_index.new spare work.new) }
    ensures arrived { held.new.arrived ≡ held.old.arrived }
    ensures capacity { held.new.capacity ≡ held.old.capacity }
    ensures heads { pairs.new.heads ≡ pairs.old.heads }
    ensures pairs_room { pairs.new.capacity ≡ pairs.old.capacity }
    ensures nodes { label_index.new.nodes ≡ label_index.old.nodes }
    ensures edges { label_index.new.edges ≡ label_index.old.edges }
{
    if hold_all(held, records) {
        *work = close_all(held, pairs, label_index);
    }
}

/// Closes the labels of all keys that are distrusted, and returns how many edges were looked at.
fn close_all(held: &Held, pairs: &mut Pairs, label_index: &mut LabelIndex) -> usize
    requires before { (more : List Distrust) × WasIndexed held.now more pairs.old label_index.old }
    ensures indexed { IsIndexed held.now pairs.new label_index.new }
    ensures work { (old : HeldReceipts) (more : List Distrust) (spare : FreeRoom) (work : ℕ)
        → IsBefore old more held.now
        → IsIndexed old pairs.old label_index.old
        → IsWorkOf (indexed_of old label_index.old spare work) more result }
    ensures heads { pairs.new.heads ≡ pairs.old.heads }
    ensures pairs_room { pairs.new.capacity ≡ pairs.old.capacity }
    ensures nodes { label_index.new.nodes ≡ label_index.old.nodes }
    ensures edges { label_index.new.edges ≡ label_index.old.edges }
{
    let _valid = held.config();
    let work = label_index.close_where(&DistrustedLabels::new(held));
    recount(pairs, label_index.reach());
    work
}
