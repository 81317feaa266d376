//! Calls over the blocks of a sequence, a list of lists: finding the block of a place, putting a
//! number in, cutting a full block into halves with a spare one, making spare blocks.
ghost use Rattle.std.specs.Prelude.{◌≡◌, ℕ, ◌+◌, ◌-◌, ◌*◌, ◌^◌, ◌<◌, ◌≤◌, length, vec_capacity};
ghost use Rattle.std.specs.Prelude.{OnOk};
ghost use Rattle.std.specs.List.{concat, insert};
ghost use Rattle.sorted_order.specs.Inside.Blocks.{AreFilled, AreSums, block_at, put, halved};
ghost use Rattle.sorted_order.specs.Inside.Blocks.{IsSpot};
ghost use Rattle.sorted_order.specs.Inside.Blocks.{capacity_of};

use crate::block::{BLOCK, Block, HALF};
use crate::sums::{GROUP, add_groups, count_one, group_at, sum_up};
use std::alloc::{AllocError, Global};

/// The block in which a place of the sequence lies, and the place in it. At the border of two
/// blocks it is the end of the earlier one.
pub(crate) fn locate(blocks: &[Block], sums: &[usize], at: usize) -> (usize, usize)
    requires place { at ≤ length (concat blocks.now) }
    requires some { 0 < length blocks.now }
    requires summed { AreSums sums.now blocks.now }
    ensures spot { IsSpot blocks.now at result.0 result.1 }
    ensures earlier { 0 < at → 0 < result.1 }
{
    let (group, rest) = group_at(sums, at);
    let first = group * GROUP;
    let (block, place) = locate_among(&blocks[first..], rest);
    (first + block, place)
}

/// The same, only by the lengths of the blocks.
pub(crate) fn locate_among(blocks: &[Block], at: usize) -> (usize, usize)
    requires place { at ≤ length (concat blocks.now) }
    requires some { 0 < length blocks.now }
    ensures spot { IsSpot blocks.now at result.0 result.1 }
    ensures earlier { 0 < at → 0 < result.1 }
{
    let mut block = 0;
    let mut within = at;
    while within > blocks[block].len() {
        within -= blocks[block].len();
        block += 1;
    }
    (block, within)
}

/// Puts a number and its hint into the sequence.
pub(crate) fn put_number(
    blocks: &mut Vec<Block>,
    spare: &mut Vec<Block>,
    sums: &mut [usize],
    at: usize,
    number: u32,
    hint: u64,
)
    requires place { at ≤ length (concat blocks.old.items) }
    requires filled { AreFilled blocks.old.items }
    requires room { length (concat blocks.old.items)
        < capacity_of (length blocks.old.items) (length spare.old.items) }
    requires first { 0 < length spare.old.items → 0 < length blocks.old.items }
    requires directory { length blocks.old.items + length spare.old.items
        ≤ vec_capacity blocks.old }
    requires few { length (concat blocks.old.items) < 2 ^ 32 }
    requires summed { AreSums sums.old blocks.old.items }
    requires grouped { length blocks.old.items + length spare.old.items ≤ 64 * length sums.old }
    ensures items { concat blocks.new.items ≡ insert (concat blocks.old.items) at number }
    ensures filled { AreFilled blocks.new.items }
    ensures blocks { length blocks.new.items + length spare.new.items
        ≡ length blocks.old.items + length spare.old.items }
    ensures some { 0 < length blocks.new.items }
    ensures directory { vec_capacity blocks.new ≡ vec_capacity blocks.old }
    ensures summed { AreSums sums.new blocks.new.items }
    ensures groups { length sums.new ≡ length sums.old }
{
    let (block, place) = make_room(blocks, spare, sums, at);
    put_into(blocks, block, place, number, hint);
    count_one(sums, block);
}

/// The block in which a place lies, and the place in it. If it is full, it is cut into halves
/// first.
fn make_room(
    blocks: &mut Vec<Block>,
    spare: &mut Vec<Block>,
    sums: &mut [usize],
    at: usize,
) -> (usize, usize)
    requires place { at ≤ length (concat blocks.old.items) }
    requires filled { AreFilled blocks.old.items }
    requires room { length (concat blocks.old.items)
        < capacity_of (length blocks.old.items) (length spare.old.items) }
    requires first { 0 < length spare.old.items → 0 < length blocks.old.items }
    requires directory { length blocks.old.items + length spare.old.items
        ≤ vec_capacity blocks.old }
    requires few { length (concat blocks.old.items) < 2 ^ 32 }
    requires summed { AreSums sums.old blocks.old.items }
    requires grouped { length blocks.old.items + length spare.old.items ≤ 64 * length sums.old }
    ensures spot { IsSpot blocks.new.items at result.0 result.1 }
    ensures room { length (block_at blocks.new.items result.0) < 512 }
    ensures items { concat blocks.new.items ≡ concat blocks.old.items }
    ensures filled { AreFilled blocks.new.items }
    ensures blocks { length blocks.new.items + length spare.new.items
        ≡ length blocks.old.items + length spare.old.items }
    ensures directory { vec_capacity blocks.new ≡ vec_capacity blocks.old }
    ensures summed { AreSums sums.new blocks.new.items }
    ensures groups { length sums.new ≡ length sums.old }
{
    let (block, place) = locate(blocks.as_slice(), sums, at);
    let len = blocks[block].len();
    if len < BLOCK {
        return (block, place);
    }
    split(blocks, spare, block);
    sum_up(blocks.as_slice(), sums);
    if place <= HALF {
        return (block, place);
    }
    (block + 1, place - HALF)
}

fn put_into(blocks: &mut Vec<Block>, block: usize, within: usize, number: u32, hint: u64)
    requires block { block < length blocks.old.items }
    requires within { within ≤ length (block_at blocks.old.items block) }
    requires room { length (block_at blocks.old.items block) < 512 }
    ensures items { blocks.new.items ≡ put blocks.old.items block within number }
    ensures directory { vec_capacity blocks.new ≡ vec_capacity blocks.old }
{
    let chosen = &mut blocks[block];
    chosen.insert(within, number, hint);
}

/// Cuts a block into halves.
fn split(blocks: &mut Vec<Block>, spare: &mut Vec<Block>, block: usize)
    requires block { block < length blocks.old.items }
    requires half { 256 ≤ length (block_at blocks.old.items block) }
    requires spare { 0 < length spare.old.items }
    requires directory { length blocks.old.items < vec_capacity blocks.old }
    ensures items { blocks.new.items ≡ halved blocks.old.items block }
    ensures spare { length spare.new.items + 1 ≡ length spare.old.items }
    ensures directory { vec_capacity blocks.new ≡ vec_capacity blocks.old }
{
    let mut second = spare.take_last();
    let first = &mut blocks[block];
    first.halve(&mut second);
    // There is room, so it is never refused.
    let _ = blocks.insert(block + 1, second);
}

/// Makes spare blocks until there are this many blocks in all, the first of them for the sequence
/// if that has none.
pub(crate) fn add_blocks(
    blocks: &mut Vec<Block>,
    spare: &mut Vec<Block>,
    sums: &mut Vec<usize>,
    wanted: usize,
) -> Result<(), AllocError>
    requires filled { AreFilled blocks.old.items }
    requires first { 0 < length spare.old.items → 0 < length blocks.old.items }
    requires listed { length blocks.old.items + length spare.old.items ≤ vec_capacity blocks.old }
    requires more { length blocks.old.items + length spare.old.items < wanted }
    requires few { length (concat blocks.old.items) < 2 ^ 32 }
    requires summed { AreSums sums.old.items blocks.old.items }
    requires grouped { length blocks.old.items + length spare.old.items
        ≤ 64 * length sums.old.items }
    ensures items { concat blocks.new.items ≡ concat blocks.old.items }
    ensures filled { AreFilled blocks.new.items }
    ensures first { 0 < length spare.new.items → 0 < length blocks.new.items }
    ensures listed { length blocks.new.items + length spare.new.items ≤ vec_capacity blocks.new }
    ensures more { length blocks.old.items + length spare.old.items
        ≤ length blocks.new.items + length spare.new.items }
    ensures most { length blocks.new.items + length spare.new.items ≤ wanted }
    ensures ok { OnOk result (length blocks.new.items + length spare.new.items ≡ wanted) }
    ensures summed { AreSums sums.new.items blocks.new.items }
    ensures grouped { length blocks.new.items + length spare.new.items
        ≤ 64 * length sums.new.items }
{
    blocks.try_reserve(wanted - blocks.len())?;
    add_groups(blocks.as_slice(), sums, wanted)?;
    if blocks.is_empty() {
        let first = Block::try_new(*blocks.allocator())?;
        blocks.push_reserved(first);
    }
    add_spares(spare, *blocks.allocator(), wanted - blocks.len())
}

fn add_spares(spare: &mut Vec<Block>, alloc: Global, wanted: usize) -> Result<(), AllocError>
    requires { length spare.old.items ≤ wanted }
    ensures more { length spare.old.items ≤ length spare.new.items }
    ensures most { length spare.new.items ≤ wanted }
    ensures ok { OnOk result (length spare.new.items ≡ wanted) }
{
    spare.try_reserve(wanted - spare.len())?;
    while spare.len() < wanted {
        let block = Block::try_new(alloc)?;
        spare.push_reserved(block);
    }
    Ok(())
}
