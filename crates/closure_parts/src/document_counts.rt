//! How many of the marked nodes have each of the different documents.
ghost use Rattle.std.specs.Prelude.{◌≡◌, ℕ, ◌+◌, ◌-◌, ◌^◌, ◌<◌, ◌≤◌, All, length, slice_set};
ghost use Rattle.closure_core.specs.Inside.Flags.{raised_count};
ghost use Rattle.closure_core.specs.Inside.Nodes.{flags_of, count_at};
ghost use Rattle.closure_parts.specs.NodeCounts.{nodes_with, AddsNodes};

use wait_index::NodeNo;

/// Adds one for each of the nodes to the count of its document, and returns how many counts were 0
/// and are not now.
pub(crate) fn raise_all(counts: &mut [u32], heads: &[u32], nodes: &[NodeNo]) -> usize
    requires nodes { All (λ n. n < length heads.now) nodes.now }
    requires heads { All (λ f. f < length counts.old) heads.now }
    requires few { (number : ℕ) → count_at counts.old number + length nodes.now < 2 ^ 32 }
    ensures adds { AddsNodes heads.now nodes.now counts.old counts.new }
    ensures count { raised_count (flags_of counts.new) ≡ raised_count (flags_of counts.old)
        + result }
{
    let mut count = 0;
    for node in nodes {
        count += raise(counts, heads[node.index()] as usize);
    }
    count
}

/// Adds one to a count, and returns 1 if it was 0, otherwise 0.
fn raise(counts: &mut [u32], number: usize) -> usize
    requires number { number < length counts.old }
    requires few { count_at counts.old number + 1 < 2 ^ 32 }
    ensures counts { counts.new ≡ slice_set counts.old number (count_at counts.old number + 1) }
    ensures count { raised_count (flags_of counts.new) ≡ raised_count (flags_of counts.old)
        + result }
    ensures few { result ≤ 1 }
{
    counts[number] += 1;
    if counts[number] > 1 {
        return 0;
    }
    1
}

/// Takes one for each of the nodes off the count of its document, and returns how many counts were
/// not 0 and are now.
pub(crate) fn lower_all(counts: &mut [u32], heads: &[u32], nodes: &[NodeNo]) -> usize
    requires nodes { All (λ n. n < length heads.now) nodes.now }
    requires heads { All (λ f. f < length counts.old) heads.now }
    requires counted { (number : ℕ)
        → nodes_with heads.now nodes.now number ≤ count_at counts.old number }
    ensures takes { AddsNodes heads.now nodes.now counts.new counts.old }
    ensures count { raised_count (flags_of counts.old) ≡ raised_count (flags_of counts.new)
        + result }
{
    let mut count = 0;
    for node in nodes {
        count += lower(counts, heads[node.index()] as usize);
    }
    count
}

/// Takes one off a count that is not 0, and returns 1 if it is 0 now, otherwise 0.
fn lower(counts: &mut [u32], number: usize) -> usize
    requires number { number < length counts.old }
    requires counted { 0 < count_at counts.old number }
    ensures counts { counts.new ≡ slice_set counts.old number (count_at counts.old number - 1) }
    ensures count { raised_count (flags_of counts.old) ≡ raised_count (flags_of counts.new)
        + result }
    ensures few { result ≤ 1 }
{
    counts[number] -= 1;
    if counts[number] > 0 {
        return 0;
    }
    1
}

/// Sets all counts to 0, and returns how many were not.
pub(crate) fn clear(counts: &mut [u32]) -> usize
    ensures size { length counts.new ≡ length counts.old }
    ensures cleared { (number : ℕ) → count_at counts.new number ≡ 0 }
    ensures count { result ≡ raised_count (flags_of counts.old) }
{
    let count = counts.iter().filter(|count| **count != 0).count();
    counts.fill(0);
    count
}
