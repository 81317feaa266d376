//! What holds of every report. A call that needs a law calls its function, which does nothing, and
//! cites what it ensures.
ghost use Rattle.std.specs.Prelude.{◌≡◌, ◌++◌, ◌∷◌, [], ◌<◌, ℕ, List, Option, length, Contains};
ghost use Rattle.fed_config.specs.Configuration.{Configuration};
ghost use Rattle.fed_config.specs.declared.seed.Seed.{Seed};
ghost use Rattle.receipt_core.specs.Receipt.{Receipt, Pair, pair_of};
ghost use Rattle.receipt_core.specs.Chain.{IsChain};
ghost use Rattle.bundle_view.specs.Explain.{IsShortest};
ghost use Rattle.bundle_doc.specs.Bundle.{Bundle};
ghost use Rattle.receipt_core.specs.Acceptance.{Meaning, IsMember, pair_of_seed};
ghost use Rattle.closure_core.specs.Alike.{AreAlike, IsSameTrust};
ghost use Rattle.closure_core.specs.AcceptedList.{IsAcceptedList};
ghost use Rattle.bundle_view.specs.Current.{IsCurrent, IsNoLower};
ghost use Rattle.bundle_view.specs.Conflicts.{ConflictGroup, AreConflicts, ReportedConflict};
ghost use Rattle.bundle_view.specs.Conflicts.{AreAllConflicts};
ghost use Rattle.bundle_view.specs.Report.{IsReport};
ghost use Rattle.closure_core.specs.declared.error.TakeError.TheVariants.{Full, NoMemory};
ghost use Rattle.bundle_view.specs.Observe.{ObserveCall, IsObservation, RefusesObservation};
ghost use Rattle.bundle_view.specs.declared.observe_error.ObserveError.{ObserveError};
ghost use Rattle.bundle_view.specs.declared.observe_error.ObserveError.TheVariants.{Take};

pub use poll_log::laws::one_log;

/// The relationships, seeds and floors, the receipts and the records of distrust determine the
/// whole report, and each part of it: replicas that have the same have one report, one list of
/// conflicts, and one current document of a domain, whatever their limits.
pub fn one_view()
    ensures report { (one other : Meaning) (s t : List ℕ) → AreAlike one other
        → IsReport one s → IsReport other t → s ≡ t }
    ensures conflicts { (one other : Meaning) (cs ds : List ReportedConflict) → AreAlike one other
        → AreAllConflicts one cs → AreAllConflicts other ds → cs ≡ ds }
    ensures current { (one other : Meaning) (domain : List ℕ) (documents : List Bundle)
        (a b : Option Bundle) → AreAlike one other → IsAcceptedList one domain documents
        → IsCurrent one domain a → IsCurrent other domain b → a ≡ b }
{
    closure_core::laws::one_number();
}

/// As receipts are added, and no record of distrust, the current document of a domain never gets
/// lower: it is unchanged, or a greater one takes its place.
pub fn current_grows()
    ensures { (old new : Meaning) → IsSameTrust old.config new.config
        → old.records ≡ new.records
        → ((r : Receipt) → Contains old.held r → Contains new.held r) → (domain : List ℕ)
        → (before after : Option Bundle) → IsCurrent old domain before
        → IsCurrent new domain after → IsNoLower before after }
{
    closure_core::laws::larger_and_smaller();
}

/// What explains a document is a chain to anybody who has the same relationships, seeds and floors,
/// and the records of distrust, unless it is empty; it ends in the document; only an accepted
/// document has one, only a configured one an empty one, and all that explain one document have the
/// same length.
pub fn explanations()
    ensures chain { (c : Configuration) (m : Meaning) (p : Pair) (chain : List Receipt)
        → IsSameTrust m.config c → IsShortest m p chain → 0 < length chain
        → IsChain c m.records chain }
    ensures end { (m : Meaning) (p : Pair) (front : List Receipt) (last : Receipt)
        → IsShortest m p (front ++ last ∷ []) → pair_of last ≡ p }
    ensures accepted { (m : Meaning) (p : Pair) (chain : List Receipt) → IsShortest m p chain
        → IsMember m p }
    ensures configured { (m : Meaning) (s : Seed) (chain : List Receipt) → Contains m.config.seeds s
        → IsShortest m (pair_of_seed s) chain → chain ≡ [] }
    ensures one_length { (m : Meaning) (p : Pair) (chain other : List Receipt)
        → IsShortest m p chain → IsShortest m p other → length chain ≡ length other }
{}

/// What is observed is determined: there is one receipt of a verdict and of bytes, and one cause
/// for which they are refused, apart from lack of memory. A receipt that exists is refused only
/// because of what the store holds.
pub fn one_observation()
    ensures receipt { (call : ObserveCall) (r s : Receipt)
        → IsObservation call.meaning call.fetched r → IsObservation call.meaning call.fetched s
        → r ≡ s }
    ensures cause { (call : ObserveCall) (d e : ObserveError)
        → RefusesObservation call.meaning call.fetched d
        → RefusesObservation call.meaning call.fetched e
        → (d ≡ Take NoMemory → ⊥) → (e ≡ Take NoMemory → ⊥) → d ≡ e }
    ensures store { (call : ObserveCall) (r : Receipt) (e : ObserveError)
        → IsObservation call.meaning call.fetched r
        → RefusesObservation call.meaning call.fetched e
        → (e ≡ Take Full → ⊥) → (e ≡ Take NoMemory → ⊥) → ⊥ }
{}
