//! Searches over the blocks of a sequence: the block by the first numbers of the blocks, and then
//! the place in it.
ghost use Rattle.std.specs.Prelude.{◌≡◌, ℕ, ◌+◌, ◌-◌, ◌^◌, ◌<◌, ◌≤◌, length, slice_get, IfSome};
ghost use Rattle.std.specs.List.{All, concat};
ghost use Rattle.sorted_order.specs.Inside.Blocks.{AreFilled, block_at, length_before, IsSpot};
ghost use Rattle.sorted_order.specs.Inside.Blocks.{IsBoundary};
ghost use Rattle.sorted_order.specs.Inside.Blocks.{IsEdgeBlock};
ghost use Rattle.sorted_order.specs.Inside.Seeking.{FindsAt};

use crate::block::Block;
use crate::probe::Probe;

/// The place that what is sought would have: a block, and a place in it. Items often come in their
/// order, so it looks at the last number first.
pub(crate) fn edge<P: Probe>(blocks: &[Block], probe: &P) -> (usize, usize)
    requires some { 0 < length blocks.now }
    requires filled { AreFilled blocks.now }
    requires known { All (P.knows probe.now) (concat blocks.now) }
    ensures spot { IsSpot blocks.now (length_before blocks.now result.0 + result.1) result.0
        result.1 }
    ensures edge { IsBoundary (P.compared probe.now) (concat blocks.now)
        (length_before blocks.now result.0 + result.1) }
{
    if let Some(end) = edge_at_end(blocks, probe) {
        return end;
    }
    edge_among(blocks, probe)
}

/// The end, if there are numbers and the last of them comes before what is sought.
pub(crate) fn edge_at_end<P: Probe>(blocks: &[Block], probe: &P) -> Option<(usize, usize)>
    requires some { 0 < length blocks.now }
    requires known { All (P.knows probe.now) (concat blocks.now) }
    ensures { IfSome result (λ end.
        IsSpot blocks.now (length_before blocks.now end.0 + end.1) end.0 end.1
        × IsBoundary (P.compared probe.now) (concat blocks.now)
        (length_before blocks.now end.0 + end.1)) }
{
    let last = blocks.len() - 1;
    let numbers = blocks[last].as_slice();
    let len = numbers.len();
    if len > 0 && probe.compare(numbers[len - 1]).is_lt() {
        return Some((last, len));
    }
    None
}

/// The same as [`edge`], by the first numbers of the blocks.
pub(crate) fn edge_among<P: Probe>(blocks: &[Block], probe: &P) -> (usize, usize)
    requires some { 0 < length blocks.now }
    requires filled { AreFilled blocks.now }
    requires known { All (P.knows probe.now) (concat blocks.now) }
    ensures spot { IsSpot blocks.now (length_before blocks.now result.0 + result.1) result.0
        result.1 }
    ensures edge { IsBoundary (P.compared probe.now) (concat blocks.now)
        (length_before blocks.now result.0 + result.1) }
{
    let block = edge_block(blocks, probe);
    let place = edge_in(blocks[block].as_slice(), probe);
    (block, place)
}

/// The last block that begins before what is sought, or else the first.
fn edge_block<P: Probe>(blocks: &[Block], probe: &P) -> usize
    requires some { 0 < length blocks.now }
    requires filled { AreFilled blocks.now }
    requires known { All (P.knows probe.now) (concat blocks.now) }
    ensures { IsEdgeBlock (P.compared probe.now) blocks.now result }
{
    let mut low = 0;
    let mut high = blocks.len();
    while low + 1 < high {
        let middle = low + (high - low) / 2;
        let first = blocks[middle].as_slice()[0];
        if probe.compare(first).is_lt() {
            low = middle;
        } else {
            high = middle;
        }
    }
    low
}

/// How many numbers of the block come before what is sought.
fn edge_in<P: Probe>(numbers: &[u32], probe: &P) -> usize
    requires { All (P.knows probe.now) numbers.now }
    ensures { IsBoundary (P.compared probe.now) numbers.now result }
{
    let mut low = 0;
    let mut high = numbers.len();
    while low < high {
        let middle = low + (high - low) / 2;
        if probe.compare(numbers[middle]).is_lt() {
            low = middle + 1;
        } else {
            high = middle;
        }
    }
    low
}

/// The number at that place of the sequence, if there is one.
pub(crate) fn first_from(blocks: &[Block], block: usize, place: usize) -> Option<u32>
    requires block { block < length blocks.now }
    requires place { place ≤ length (block_at blocks.now block) }
    requires filled { AreFilled blocks.now }
    ensures { result ≡ slice_get (concat blocks.now) (length_before blocks.now block + place) }
{
    if place < blocks[block].len() {
        return Some(blocks[block].as_slice()[place]);
    }
    if block + 1 < blocks.len() {
        return Some(blocks[block + 1].as_slice()[0]);
    }
    None
}

/// The number at that place of the sequence, if it is in the place of what is sought.
pub(crate) fn equal_from<P: Probe>(
    blocks: &[Block],
    block: usize,
    place: usize,
    probe: &P,
) -> Option<u32>
    requires block { block < length blocks.now }
    requires place { place ≤ length (block_at blocks.now block) }
    requires filled { AreFilled blocks.now }
    requires known { All (P.knows probe.now) (concat blocks.now) }
    ensures { FindsAt (P.compared probe.now) (concat blocks.now)
        (length_before blocks.now block + place) result }
{
    let number = first_from(blocks, block, place)?;
    if probe.compare(number).is_eq() {
        Some(number)
    } else {
        None
    }
}
