//! Counts of documents after labels were closed.
ghost use Rattle.std.specs.Prelude.{◌≡◌, ◌+◌, ◌^◌, ◌<◌, ◌≤◌, drop, length};
ghost use Rattle.std.specs.List.{All};
ghost use Rattle.closure_core.specs.Inside.Flags.{raised_count};
ghost use Rattle.trust_closure.specs.Inside.Indexed.{WasCounted};
ghost use Rattle.closure_core.specs.Inside.Nodes.{flags_of};
ghost use Rattle.closure_parts.specs.NodeCounts.{AreCounts};

use closure_parts::Pairs;
use wait_index::{NodeNo, Reach};

/// Takes the nodes that the last close unmarked off the counts, adds those that it marked again,
/// and returns how many documents were accepted and are not now. It looks at no other node.
pub(crate) fn recount(pairs: &mut Pairs, reach: &Reach) -> usize
    requires before { WasCounted pairs.old reach.now }
    requires heads { All (λ f. f < length pairs.old.counts) pairs.old.heads }
    requires few { length pairs.old.heads < 2 ^ 32 }
    ensures numbers { pairs.new.numbers ≡ pairs.old.numbers }
    ensures heads { pairs.new.heads ≡ pairs.old.heads }
    ensures size { length pairs.new.counts ≡ length pairs.old.counts }
    ensures counts { AreCounts pairs.new.heads reach.now.marked pairs.new.counts }
    ensures count { raised_count (flags_of pairs.old.counts)
        ≡ raised_count (flags_of pairs.new.counts) + result }
    ensures capacity { pairs.new.capacity ≡ pairs.old.capacity }
{
    let marked = reach.marked();
    let fell = pairs.lower(reach.fallen());
    let again = nodes_after(marked, reach.kept());
    let back = pairs.raise(again);
    fell - back
}

/// The nodes after this many first ones.
fn nodes_after(nodes: &[NodeNo], count: usize) -> &[NodeNo]
    requires { count ≤ length nodes.now }
    ensures { result.now ≡ drop count nodes.now }
{
    &nodes[count..]
}
