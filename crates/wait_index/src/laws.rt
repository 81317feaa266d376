//! What holds of every net of nodes and labels.
ghost use Rattle.std.specs.Prelude.{◌≡◌, ℕ, ◌+◌, ◌*◌, ◌<◌, ◌≤◌, ◌↔◌, ◌⊎◌, ◌∷◌, Bool, true, false};
ghost use Rattle.std.specs.Prelude.{List, length, Contains};
ghost use Rattle.wait_index.specs.Edge.{IsEdge};
ghost use Rattle.wait_index.specs.Net.{Net, is_root, is_closed, IsReached, IsMore, IsClosedUnder};
ghost use Rattle.wait_index.specs.Index.{Index};
ghost use Rattle.wait_index.specs.Close.{AreUnopened, ClosesWithWork};
ghost use Rattle.wait_index.specs.Net.{with_closed, with_all_closed, visits_of, HasReachOf};
ghost use Rattle.wait_index.specs.Net.{edges_at};

use std::marker::Brand;

/// A set of nodes. A caller's proof chooses one for a call that passes [`Brand`].
pub trait SetOfNodes {
    ghost has: { ℕ → Type 0 };
}

impl SetOfNodes for Brand {
    ghost has = { λ node. Unit {0} };
}

/// What is reached is the least set that has the roots, and with a node each one that awaits what
/// the node offers, by a label that is not closed: it is such a set, and each such set has all of
/// it, also one that no test decides.
pub fn least<S: SetOfNodes>()
    ensures roots { (net : Net) (node : ℕ) → is_root net node ≡ true → IsReached net node }
    ensures steps { (net : Net) (node label next i j : ℕ) → IsReached net node
        → IsEdge net.offers i node label
        → is_closed net label ≡ false → IsEdge net.waits j label next → IsReached net next }
    ensures least { (net : Net) → IsClosedUnder net S.has → (node : ℕ) → IsReached net node
        → S.has node }
    ensures tests { (net : Net) (nodes : ℕ → Bool) → IsClosedUnder net (λ node. nodes node ≡ true)
        → (node : ℕ) → IsReached net node → nodes node ≡ true }
{}

/// A net with more roots and edges, and no label closed that was not, reaches no less.
pub fn more_reaches_no_less()
    ensures { (old new : Net) → IsMore old new → (node : ℕ) → IsReached old node
        → IsReached new node }
{}

/// After labels were closed one after another, those and the ones that were closed before are
/// closed. So the order does not matter.
pub fn closes_in_any_order()
    ensures one_by_one { (net : Net) (label : ℕ) (labels : List ℕ)
        → with_all_closed (with_closed net label) labels ≡ with_all_closed net (label ∷ labels) }
    ensures closed { (net : Net) (labels : List ℕ) (label : ℕ) → label < length net.closed →
        ((is_closed (with_all_closed net labels) label ≡ true)
        ↔ ((is_closed net label ≡ true) ⊎ Contains labels label)) }
    ensures order { (net : Net) (labels others : List ℕ)
        → ((label : ℕ) → (Contains labels label ↔ Contains others label))
        → with_all_closed net labels ≡ with_all_closed net others }
{}

/// The visits are at most the edges: until a label is closed no edge is followed twice.
pub fn no_edge_twice()
    ensures { (net : Net) (nodes : List ℕ)
        → visits_of net nodes ≤ length net.offers + length net.waits }
{}

/// How much work a close is.
///
/// - `near`: it looks only at edges at labels to which the closed ones lead, and at each at most
///   twice.
/// - `unopened`: there is no work if no label was open.
/// - `one`: it is one number, whatever way the close took, and however its labels are listed.
pub fn work_of_a_close()
    ensures near { (old new : Index) (labels : List ℕ) (work : ℕ)
        → ClosesWithWork old labels new work → (reach : ℕ → Bool)
        → HasReachOf old.net labels reach → work ≤ 2 * edges_at old.net reach }
    ensures unopened { (old new : Index) (labels : List ℕ) (work : ℕ)
        → ClosesWithWork old labels new work → AreUnopened old labels → work ≡ 0 }
    ensures one { (old new other : Index) (labels others : List ℕ) (work more : ℕ)
        → ((label : ℕ) → (Contains labels label ↔ Contains others label))
        → ClosesWithWork old labels new work → ClosesWithWork old others other more
        → work ≡ more }
{}
