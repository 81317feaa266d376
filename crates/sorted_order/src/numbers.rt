//! Numbers lent in order.
ghost use Rattle.std.specs.Prelude.{◌≡◌, ℕ, ◌+◌, ◌<◌, ◌≤◌, ◌∷◌, ◌++◌, length, take, drop};
ghost use Rattle.std.specs.List.{concat};
ghost use Rattle.std.specs.Iterator.{YieldsFirst, item_count};
ghost use Rattle.sorted_order.specs.Inside.Blocks.{AreFilled, AreHalfFull, AreSums};

use crate::backward::Backward;
use crate::block::Block;
use crate::directory::locate;
use std::marker::Model;

/// Numbers of a sequence in order, seen as the list of those that are left.
#[derive(Drop)]
pub struct Numbers<'a> {
    here: &'a [u32],
    blocks: &'a [Block],
    left: usize,
}

impl<'a> Model for Numbers<'a> {
    ghost use Rattle.std.specs.Prelude.{ℕ, List, ◌++◌, take};
    ghost use Rattle.std.specs.List.{concat};
    ghost use Rattle.sorted_order.specs.Inside.Blocks.{IsLeft};

    ghost Value = { List ℕ };

    ghost view = { λ n. take n.left (n.here.now ++ concat n.blocks.now) };

    ghost invariant = { λ n. IsLeft n.here.now n.blocks.now n.left };
}

impl<'a> Numbers<'a> {
    pub(crate) fn new(blocks: &'a [Block], sums: &[usize], at: usize, numbers: usize) -> Self
        requires filled { AreFilled blocks.now }
        requires summed { AreSums sums.now blocks.now }
        requires within { at + numbers ≤ length (concat blocks.now) }
        ensures { result ≡ take numbers (drop at (concat blocks.now)) }
    {
        if blocks.is_empty() {
            return Numbers {
                here: &[],
                blocks,
                left: 0,
            };
        }
        let (block, place) = locate(blocks, sums, at);
        Numbers {
            here: &blocks[block].as_slice()[place..],
            blocks: &blocks[block + 1..],
            left: numbers,
        }
    }

    /// The same numbers, lent from the end. It passes over the lengths of the blocks in which they
    /// lie, and over no number.
    pub fn backward(self) -> Backward<'a>
        ensures { result ≡ self.entry }
    {
        Backward::new(self.here, self.blocks, self.left)
    }
}

impl<'a> Iterator for Numbers<'a> {
    type Item = u32;

    ghost next_gives = { YieldsFirst (λ rest. rest) };

    ghost remaining = { item_count (λ rest. rest) };

    fn next(&mut self) -> Option<u32> {
        if self.left == 0 {
            return None;
        }
        let (number, here, blocks) = first_of(self.here, self.blocks);
        self.here = here;
        self.blocks = blocks;
        self.left -= 1;
        Some(number)
    }
}

/// The first number, the others of its block, and the blocks after it.
fn first_of<'a>(here: &'a [u32], blocks: &'a [Block]) -> (u32, &'a [u32], &'a [Block])
    requires some { 0 < length (here.now ++ concat blocks.now) }
    requires filled { AreHalfFull blocks.now }
    ensures numbers { here.now ++ concat blocks.now
        ≡ result.0 ∷ (result.1.now ++ concat result.2.now) }
    ensures filled { AreHalfFull result.2.now }
{
    if !here.is_empty() {
        return (here[0], &here[1..], blocks);
    }
    let next = blocks[0].as_slice();
    (next[0], &next[1..], &blocks[1..])
}
