//! What follows from only the definitions. A call that needs a law calls its function, which does
//! nothing, and cites what it ensures.
ghost use Rattle.std.specs.Prelude.{◌≡◌, ◌↔◌, [], ◌∷◌, ◌++◌, ℕ, List, Option, Contains};
ghost use Rattle.fed_config.specs.Configuration.{Configuration, ReachesFloor};
ghost use Rattle.std.specs.declared.cmp.Ordering.TheVariants.{Less};
ghost use Rattle.std.specs.Ordering.{nat_cmp};
ghost use Rattle.std.specs.Cmp.Lexicographic.{slice_cmp};
ghost use Rattle.receipt_core.specs.Receipt.{Receipt, IsReceipt, line, receipt_cmp, triple_cmp};
ghost use Rattle.receipt_core.specs.Receipt.{Pair, pair_of, offers_of, need_of, IsDistrust};
ghost use Rattle.receipt_core.specs.Receipt.{distrust_line, distrust_cmp};
ghost use Rattle.receipt_core.specs.Acceptance.{AreLetThrough, IsFitting, IsMeaning, IsMember};
ghost use Rattle.receipt_core.specs.Acceptance.{Meaning, Vouches, distrust_of, without_floors};
ghost use Rattle.std.specs.List.{AllByRecursion};
ghost use Rattle.receipt_core.specs.RaisedFloors.{HasNoLower};
ghost use Rattle.receipt_core.specs.Chain.{IsChain};
ghost use Rattle.receipt_core.specs.Sets.{AreSets, Always};
ghost use Rattle.receipt_core.specs.declared.distrust.Distrust.{Distrust};

pub use byte_lines::laws::{pieces, streams};

/// One line, one receipt, and one record of distrust: the orders of receipts and of records are
/// those of their lines, and distinguish what differs. A record's line comes before each receipt's.
pub fn lines()
    ensures one_receipt { (r s : Receipt) → IsReceipt r → IsReceipt s → line r ≡ line s → r ≡ s }
    ensures one_record { (x y : Distrust) → IsDistrust x → IsDistrust y
        → distrust_line x ≡ distrust_line y → x ≡ y }
    ensures records { (x y : Distrust) → IsDistrust x → IsDistrust y
        → slice_cmp nat_cmp (distrust_line x) (distrust_line y) ≡ distrust_cmp x y }
    ensures record_first { (x : Distrust) (r : Receipt) → IsDistrust x → IsReceipt r
        → slice_cmp nat_cmp (distrust_line x) (line r) ≡ Less }
{}

/// Receipts, triples and records of distrust in strictly sorted lists are sets.
pub fn sets()
    ensures receipts { AreSets IsReceipt receipt_cmp }
    ensures triples { AreSets Always triple_cmp }
    ensures records { AreSets Always distrust_cmp }
{}

/// A document vouches for a receipt exactly if what the receipt needs is among what the document
/// offers, and no record distrusts the key in the endpoint's trust domain.
pub fn vouching()
    ensures { (records : List Distrust) (p : Pair) (r : Receipt) → Vouches records p r
        ↔ (Contains (offers_of p) (need_of r)
        × (Contains records (distrust_of r.endpoint.domain r) → ⊥)) }
{}

/// The last document of a chain is accepted under each meaning of this configuration that holds the
/// chain's receipts and whose records are among these.
pub fn chains()
    ensures { (m : Meaning) (records : List Distrust) (front : List Receipt) (r : Receipt)
        → IsChain m.config records (front ++ r ∷ [])
        → AllByRecursion (Contains m.held) (front ++ r ∷ [])
        → ((x : Distrust) → Contains m.records x → Contains records x)
        → IsMember m (pair_of r) }
{}

/// What floors cost: the receipts below them, and nothing else. A receipt fits exactly if it fits
/// the configuration without its floors and its document reaches the floor of its domain. What is
/// accepted is what is accepted under the configuration without floors from the receipts that the
/// floors let through; a replica holds no others, so that is from all that it holds. What fits
/// under higher floors fits under lower ones, if the relationships are the same: a receipt that was
/// left out does not fit again when floors are raised.
pub fn floors()
    ensures fitting { (c : Configuration) (r : Receipt) → IsFitting c r
        ↔ (IsFitting (without_floors c) r × ReachesFloor c r.domain r.document) }
    ensures accepted { (m : Meaning) (through : List Receipt)
        → AreLetThrough m.config m.held through → (p : Pair) → IsMember m p
        ↔ IsMember (record {
          config = without_floors m.config;
          held = through;
          records = m.records;
        }) p }
    ensures held { (m : Meaning) → IsMeaning m → (p : Pair) → IsMember m p
        ↔ IsMember (record m { config = without_floors m.config }) p }
    ensures higher { (low high : Configuration) → high.relationships ≡ low.relationships
        → AllByRecursion (HasNoLower high.floors) low.floors
        → (r : Receipt) → IsFitting high r → IsFitting low r }
{}
