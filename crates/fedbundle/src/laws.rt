//! What holds of every stream. A call that needs a law calls its function, which does nothing, and
//! cites what it ensures.
ghost use Rattle.std.specs.Prelude.{◌≡◌, ◌<◌, ◌++◌, ◌↔◌, ℕ, List, length};
ghost use Rattle.fed_config.specs.Configuration.{Configuration};
ghost use Rattle.byte_lines.specs.Lines.{Lines};
ghost use Rattle.receipt_core.specs.Receipt.{Receipt};
ghost use Rattle.receipt_core.specs.Acceptance.{Meaning};
ghost use Rattle.bundle_view.specs.Report.{IsReport};
ghost use Rattle.replica_core.specs.World.{WorldRun, rules_in, world_after, followed_by};
ghost use Rattle.replica_core.specs.World.{meant_by};
ghost use Rattle.replica_core.specs.Convergence.{AreEvents, Settles};
ghost use Rattle.replica_core.specs.declared.event.Event.{Event};
ghost use Rattle.fedbundle.specs.Stream.{IsTaken, AreTaken, OverfillStore, NumberedError};
ghost use Rattle.fedbundle.specs.Stream.{AreLineErrors, AreFirstLineErrors};
ghost use Rattle.receipt_core.specs.Limits.{receipt_limit};
ghost use Rattle.closure_core.specs.Alike.{IsSameTrust};
ghost use Rattle.fedbundle.specs.Report.{meaning_of_receipts};
ghost use Rattle.fedbundle.specs.SameSets.{HaveOneSnapshot, HoldSameSets};

/// Two streams with the same receipts that fit among their lines have one report, whatever their
/// order, their repeats and their other lines, whichever closure took them, and under whatever
/// limits.
pub fn one_report()
    ensures { (c d : Configuration) (one other : Lines) (rs ss : List Receipt) (s t : List ℕ)
        → IsSameTrust c d
        → ((r : Receipt) → (IsTaken c one.whole r ↔ IsTaken d other.whole r))
        → AreTaken c one.whole rs → AreTaken d other.whole ss
        → IsReport (meaning_of_receipts c rs) s → IsReport (meaning_of_receipts d ss) t → s ≡ t }
{
    closure_core::laws::one_list();
    bundle_view::laws::one_view();
}

/// Replicas that hold equal sets under the same relationships, seeds and floors have one report,
/// and one snapshot in each format, whatever their limits. It does not matter which calls brought
/// the receipts and records: the lines of a stream, a snapshot, `merge`, `observe`, `distrust`,
/// `pull` or `absorb`, and in which order.
pub fn one_text()
    ensures report { (one other : Meaning) (s t : List ℕ) → HoldSameSets one other
        → IsReport one s → IsReport other t → s ≡ t }
    ensures snapshot { (one other : Meaning) → HoldSameSets one other
        → HaveOneSnapshot one other }
{
    closure_core::laws::one_list();
    bundle_view::laws::one_view();
    replica_texts::laws::snapshots();
}

/// Replicas of one world that each pulled, in quiet, from each other one have one report, whatever
/// the limits of each.
pub fn settled_reports()
    ensures { (past : WorldRun) (since : List Event) (i j : ℕ) (s t : List ℕ)
        → AreEvents past.events → i < past.replicas → j < past.replicas
        → Settles (rules_in past) (world_after past) since
        → IsReport (meant_by (followed_by past since) i) s
        → IsReport (meant_by (followed_by past since) j) t
        → s ≡ t }
{
    replica_core::laws::agreement();
    bundle_view::laws::one_view();
}

/// A stream has one list of errors, and the first of them are a beginning of it.
pub fn one_reporting()
    ensures all { (c : Configuration) (lines : Lines) (xs ys : List NumberedError)
        → AreLineErrors c lines xs → AreLineErrors c lines ys → xs ≡ ys }
    ensures first { (c : Configuration) (lines : Lines) (xs ys : List NumberedError)
        → AreFirstLineErrors c lines xs → AreLineErrors c lines ys
        → (rest : List NumberedError) × (ys ≡ xs ++ rest) }
{}

/// If there are too many receipts, no closure can hold those that are taken.
pub fn too_many()
    ensures { (c : Configuration) (texts : List (List ℕ)) (rs : List Receipt)
        → OverfillStore c texts → AreTaken c texts rs → receipt_limit c < length rs }
{}
