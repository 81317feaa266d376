//! Numbers lent from the last to the first.
ghost use Rattle.std.specs.Prelude.{◌≡◌, ◌≤◌, [], ◌++◌, length, take};
ghost use Rattle.std.specs.List.{concat};
ghost use Rattle.std.specs.Iterator.{YieldsLast, item_count};
ghost use Rattle.sorted_order.specs.Inside.Blocks.{AreHalfFull};

use crate::block::Block;
use crate::directory::locate_among;
use std::marker::Model;

/// Numbers of a sequence that are lent from the last to the first, seen as the list of those that
/// are left, in the order of the sequence.
#[derive(Drop)]
pub struct Backward<'a> {
    first: &'a [u32],
    blocks: &'a [Block],
    last: &'a [u32],
}

impl<'a> Model for Backward<'a> {
    ghost use Rattle.std.specs.Prelude.{ℕ, List, ◌++◌};
    ghost use Rattle.std.specs.List.{concat};
    ghost use Rattle.sorted_order.specs.Inside.Blocks.{AreHalfFull};

    ghost Value = { List ℕ };

    ghost view = { λ b. b.first.now ++ (concat b.blocks.now ++ b.last.now) };

    ghost invariant = { λ b. AreHalfFull b.blocks.now };
}

impl<'a> Backward<'a> {
    /// This many of the numbers here and in the blocks.
    pub(crate) fn new(here: &'a [u32], blocks: &'a [Block], left: usize) -> Self
        requires filled { AreHalfFull blocks.now }
        requires within { left ≤ length (here.now ++ concat blocks.now) }
        ensures { result ≡ take left (here.now ++ concat blocks.now) }
    {
        if left <= here.len() {
            return Backward {
                first: &[],
                blocks: &[],
                last: &here[..left],
            };
        }
        let (block, place) = locate_among(blocks, left - here.len());
        Backward {
            first: here,
            blocks: &blocks[..block],
            last: &blocks[block].as_slice()[..place],
        }
    }
}

impl<'a> Iterator for Backward<'a> {
    type Item = u32;

    ghost next_gives = { YieldsLast (λ rest. rest) };

    ghost remaining = { item_count (λ rest. rest) };

    fn next(&mut self) -> Option<u32> {
        let (first, blocks, last) = last_of(self.first, self.blocks, self.last);
        let (number, others) = last.split_last()?;
        self.first = first;
        self.blocks = blocks;
        self.last = others;
        Some(*number)
    }
}

/// The same numbers; if there are any, some are in the last part.
fn last_of<'a>(
    first: &'a [u32],
    blocks: &'a [Block],
    last: &'a [u32],
) -> (&'a [u32], &'a [Block], &'a [u32])
    requires filled { AreHalfFull blocks.now }
    ensures numbers { first.now ++ (concat blocks.now ++ last.now)
        ≡ result.0.now ++ (concat result.1.now ++ result.2.now) }
    ensures filled { AreHalfFull result.1.now }
    ensures some { length result.2.now ≡ 0 → first.now ++ (concat blocks.now ++ last.now) ≡ [] }
{
    if !last.is_empty() {
        return (first, blocks, last);
    }
    match blocks.split_last() {
        Some((block, others)) => (first, others, block.as_slice()),
        None => (&[], blocks, first),
    }
}
