//! What holds of every configuration, every set of receipts and every set of records of distrust.
ghost use Rattle.std.specs.Prelude.{◌≡◌, ℕ, ◌↔◌, Bool, true, List, Contains};
ghost use Rattle.std.specs.List.Sorted.{IsStrictlySortedBy};
ghost use Rattle.bundle_doc.specs.Bundle.{Bundle};
ghost use Rattle.receipt_core.specs.declared.distrust.Distrust.{Distrust};
ghost use Rattle.receipt_core.specs.Receipt.{Receipt, Pair, receipt_cmp, distrust_cmp};
ghost use Rattle.fed_config.specs.Configuration.{Configuration, config_id_of};
ghost use Rattle.receipt_core.specs.Acceptance.{Meaning, IsClosed, IsFitting, IsMeaning, IsMember};
ghost use Rattle.receipt_core.specs.Chain.{IsChain};
ghost use Rattle.closure_core.specs.Alike.{AreAlike, IsSameTrust};
ghost use Rattle.closure_core.specs.Changes.{IsGain, union_of};
ghost use Rattle.closure_core.specs.AcceptedList.{IsAcceptedList, IsPendingCount};

use std::marker::Brand;

/// A set of documents of domains. A caller's proof picks one if the call passes [`Brand`].
pub trait DocumentSet {
    ghost use Rattle.receipt_core.specs.Receipt.{Pair};

    ghost has: { Pair → Type 0 };
}

impl DocumentSet for Brand {
    ghost has = { λ p. Unit {0} };
}

/// What is accepted is the least set that has the configured documents and, with a document, the
/// document of each held receipt that it vouches for: it is such a set, and each such set has all
/// of it, also one that no test decides.
pub fn least<S: DocumentSet>()
    ensures closed { (m : Meaning) → IsClosed m (IsMember m) }
    ensures least { (m : Meaning) → IsClosed m S.has → (p : Pair) → IsMember m p → S.has p }
    ensures tests { (m : Meaning) (set : Pair → Bool) → IsClosed m (λ p. set p ≡ true) → (p : Pair)
        → IsMember m p → set p ≡ true }
{}

/// What relationships, seeds and floors determine, whatever the limits: the digest, which receipts
/// fit, and what is a chain. So a chain that one replica gives is one for each that has the same.
pub fn same_trust()
    ensures digest { (b c : Configuration) → IsSameTrust b c → config_id_of b ≡ config_id_of c }
    ensures fitting { (b c : Configuration) (r : Receipt) → IsSameTrust b c
        → IsFitting b r → IsFitting c r }
    ensures chains { (b c : Configuration) (records : List Distrust) (chain : List Receipt)
        → IsSameTrust b c → IsChain b records chain → IsChain c records chain }
{}

/// With more receipts no less is accepted, and with more records of distrust no more. So what is
/// accepted depends only on the sets, and on relationships, seeds and floors: never on limits.
pub fn larger_and_smaller()
    ensures receipts { (old new : Meaning) → IsSameTrust old.config new.config
        → old.records ≡ new.records
        → ((r : Receipt) → Contains old.held r → Contains new.held r) → (p : Pair) → IsMember old p
        → IsMember new p }
    ensures records { (old new : Meaning) → IsSameTrust old.config new.config
        → old.held ≡ new.held
        → ((x : Distrust) → Contains old.records x → Contains new.records x) → (p : Pair)
        → IsMember new p → IsMember old p }
    ensures sets { (one other : Meaning) → IsSameTrust one.config other.config
        → ((r : Receipt) → (Contains one.held r ↔ Contains other.held r))
        → ((x : Distrust) → (Contains one.records x ↔ Contains other.records x))
        → (p : Pair) → (IsMember one p ↔ IsMember other p) }
{}

/// A number that a clause calls a count is the only one. Replicas that hold the same have one
/// number of pending receipts, whatever their limits.
pub fn one_number()
    ensures gain { (old new : Meaning) (n k : ℕ) → IsGain old new n → IsGain old new k → n ≡ k }
    ensures pending { (one other : Meaning) (n k : ℕ) → AreAlike one other
        → IsPendingCount one n → IsPendingCount other k → n ≡ k }
{}

/// A set has one list that rises, so sets are equal exactly when their lists are. Replicas that
/// hold the same, under whatever limits, have one list of accepted documents of each domain.
pub fn one_list()
    ensures receipts { (rs ss : List Receipt) → IsStrictlySortedBy receipt_cmp rs
        → IsStrictlySortedBy receipt_cmp ss
        → ((r : Receipt) → (Contains rs r ↔ Contains ss r)) → rs ≡ ss }
    ensures records { (xs ys : List Distrust) → IsStrictlySortedBy distrust_cmp xs
        → IsStrictlySortedBy distrust_cmp ys
        → ((x : Distrust) → (Contains xs x ↔ Contains ys x)) → xs ≡ ys }
    ensures accepted { (one other : Meaning) (domain : List ℕ) (ds es : List Bundle)
        → AreAlike one other → IsAcceptedList one domain ds → IsAcceptedList other domain es
        → ds ≡ es }
{}

/// Two closures may be merged in any order, three in any grouping, and one with itself, which
/// changes nothing. So replicas that merge with each other hold one union, whatever their limits.
pub fn merges()
    ensures order { (m n : Meaning) → IsMeaning m → IsMeaning n
        → union_of m n ≡ record (union_of n m) { config = m.config } }
    ensures grouping { (l m n : Meaning) → IsMeaning l → IsMeaning m → IsMeaning n
        → union_of (union_of l m) n ≡ union_of l (union_of m n) }
    ensures itself { (m : Meaning) → IsMeaning m → union_of m m ≡ m }
{}
