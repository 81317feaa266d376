//! What holds of every closure, which `closure_core` shows, and of every index of one.
ghost use Rattle.std.specs.Prelude.{ℕ, ◌+◌, ◌*◌, ◌≤◌, Bool, List, length};
ghost use Rattle.receipt_core.specs.declared.distrust.Distrust.{Distrust};
ghost use Rattle.wait_index.specs.Net.{HasReachOf, edges_at};
ghost use Rattle.trust_closure.specs.Inside.Indexed.{Indexed};
ghost use Rattle.trust_closure.specs.Work.{ClosesAtOnce, IsWorkOf};

pub use closure_core::laws::{larger_and_smaller, least, one_list, one_number};

/// How often a close looks at edges, whatever the keys that are distrusted and however many their
/// labels are. This bounds the number of all looks together.
///
/// - `near`: at most twice the number of edges at the labels to which those of the keys lead.
/// - `distrust`, `merge`: so at most twice the number of edges, also for many records.
pub fn twice_the_edges()
    ensures near { (old new : Indexed) (records : List Distrust)
        → (close : ClosesAtOnce old records new) → (reach : ℕ → Bool)
        → HasReachOf old.wired.net close.closing reach
        → new.work ≤ 2 * edges_at old.wired.net reach }
    ensures distrust { (old new : Indexed) (records : List Distrust) → ClosesAtOnce old records new
        → new.work ≤ 2 * (length old.wired.net.offers + length old.wired.net.waits) }
    ensures merge { (old : Indexed) (records : List Distrust) (work : ℕ)
        → IsWorkOf old records work
        → work ≤ 2 * (length old.wired.net.offers + length old.wired.net.waits) }
{}
