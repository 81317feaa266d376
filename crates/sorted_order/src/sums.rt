//! Sums over the blocks of a sequence: how many numbers lie in each group of 64 blocks. By them a
//! place is found, and the numbers before a block are counted.
ghost use Rattle.std.specs.Prelude.{◌≡◌, ℕ, ◌+◌, ◌*◌, ◌/◌, ◌^◌, ◌<◌, ◌≤◌, length, take};
ghost use Rattle.std.specs.Prelude.{slice_index, slice_set, OnOk};
ghost use Rattle.std.specs.List.{concat, sum};
ghost use Rattle.sorted_order.specs.Inside.Blocks.{AreSums, length_before};

use crate::block::Block;
use std::alloc::AllocError;

/// How many blocks make a group.
pub(crate) const GROUP: usize = 64;

/// The group in which a place of the sequence lies, and the place in it. At the border of two
/// groups it is the end of the earlier one.
pub(crate) fn group_at(sums: &[usize], at: usize) -> (usize, usize)
    requires place { at ≤ sum sums.now }
    requires some { 0 < length sums.now }
    ensures listed { result.0 < length sums.now }
    ensures whole { sum (take result.0 sums.now) + result.1 ≡ at }
    ensures earlier { 0 < at → 0 < result.1 }
    ensures later { 0 < result.0 → 0 < result.1 }
{
    let mut group = 0;
    let mut within = at;
    while within > sums[group] {
        within -= sums[group];
        group += 1;
    }
    (group, within)
}

/// How many numbers come before a block.
pub(crate) fn length_before_block(blocks: &[Block], sums: &[usize], block: usize) -> usize
    requires block { block ≤ length blocks.now }
    requires few { length (concat blocks.now) < 2 ^ 64 }
    requires summed { AreSums sums.now blocks.now }
    ensures { result ≡ length_before blocks.now block }
{
    let group = block / GROUP;
    total(&sums[..group]) + length_of(&blocks[group * GROUP..block])
}

/// What the sums add up to.
fn total(sums: &[usize]) -> usize
    requires { sum sums.now < 2 ^ 64 }
    ensures { result ≡ sum sums.now }
{
    sums.iter().sum()
}

/// How many numbers the blocks hold.
fn length_of(blocks: &[Block]) -> usize
    requires { length (concat blocks.now) < 2 ^ 64 }
    ensures { result ≡ length (concat blocks.now) }
{
    let mut numbers = 0;
    for block in blocks {
        numbers += block.len();
    }
    numbers
}

/// Counts one number more in the group of a block.
pub(crate) fn count_one(sums: &mut [usize], block: usize)
    requires block { block < 64 * length sums.old }
    requires few { sum sums.old + 1 < 2 ^ 64 }
    ensures { sums.new ≡ slice_set sums.old (block / 64) (slice_index sums.old (block / 64) + 1) }
{
    sums[block / GROUP] += 1;
}

/// Makes all sums again.
pub(crate) fn sum_up(blocks: &[Block], sums: &mut [usize])
    requires all { length blocks.now ≤ 64 * length sums.old }
    requires few { length (concat blocks.now) < 2 ^ 64 }
    ensures summed { AreSums sums.new blocks.now }
    ensures groups { length sums.new ≡ length sums.old }
{
    let mut rest = blocks;
    for group in 0..sums.len() {
        let end = rest.len().min(GROUP);
        sums[group] = length_of(&rest[..end]);
        rest = &rest[end..];
    }
}

/// Makes room for the sums of this many blocks.
pub(crate) fn add_groups(
    blocks: &[Block],
    sums: &mut Vec<usize>,
    wanted: usize,
) -> Result<(), AllocError>
    requires few { length (concat blocks.now) < 2 ^ 64 }
    requires summed { AreSums sums.old.items blocks.now }
    ensures summed { AreSums sums.new.items blocks.now }
    ensures groups { length sums.old.items ≤ length sums.new.items }
    ensures ok { OnOk result (wanted ≤ 64 * length sums.new.items) }
{
    let groups = wanted.div_ceil(GROUP).max(sums.len());
    sums.resize(groups, 0)?;
    sum_up(blocks, sums.as_mut_slice());
    Ok(())
}
