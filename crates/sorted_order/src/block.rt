//! A block: a vector of at most 512 numbers whose room is there from the start, and a hint for
//! each. Contracts see it as the list of the numbers.
ghost use Rattle.std.specs.Prelude.{◌≡◌, ℕ, ◌<◌, ◌≤◌, List, [], length, take, drop, vec_capacity};
ghost use Rattle.std.specs.Prelude.{IfOk};
ghost use Rattle.std.specs.List.{insert};

use std::alloc::{AllocError, Global};
use std::marker::Model;

/// The most numbers that a block holds.
pub(crate) const BLOCK: usize = 512;

/// Half of them.
pub(crate) const HALF: usize = 256;

/// Numbers, and for each a hint in the same place. No clause speaks of hints, and nothing relies on
/// their number.
#[derive(Drop)]
pub(crate) struct Block {
    numbers: Vec<u32>,
    hints: Vec<u64>,
}

impl Model for Block {
    ghost Value = { List ℕ };

    ghost view = { λ block. block.numbers.items };

    ghost invariant = { λ block. (length block.numbers.items ≤ 512)
        × (512 ≤ vec_capacity block.numbers) };
}

impl Block {
    pub(crate) fn try_new(alloc: Global) -> Result<Block, AllocError>
        ensures { IfOk result (λ block. block ≡ []) }
    {
        Ok(Block {
            numbers: Vec::with_capacity(alloc, BLOCK)?,
            hints: Vec::with_capacity(alloc, BLOCK)?,
        })
    }

    pub(crate) fn len(&self) -> usize
        ensures len { result ≡ length self.now }
        ensures most { result ≤ 512 }
    {
        self.numbers.len()
    }

    pub(crate) fn as_slice(&self) -> &[u32]
        ensures { result.now ≡ self.now }
    {
        self.numbers.as_slice()
    }

    /// The hints of the numbers.
    pub(crate) fn hints(&self) -> &[u64] {
        self.hints.as_slice()
    }

    pub(crate) fn insert(&mut self, at: usize, number: u32, hint: u64)
        requires place { at ≤ length self.old }
        requires room { length self.old < 512 }
        ensures { self.new ≡ insert self.old at number }
    {
        // There is room, so it is never refused.
        let _ = self.numbers.insert(at, number);
        insert_hint(&mut self.hints, at, hint);
    }

    /// Moves the second half into a spare block, and forgets what that held.
    pub(crate) fn halve(&mut self, spare: &mut Block)
        requires { 256 ≤ length self.old }
        ensures first { self.new ≡ take 256 self.old }
        ensures second { spare.new ≡ drop 256 self.old }
    {
        spare.numbers.clear();
        // There is room, so it is never refused.
        let _ = spare.numbers.extend_from_slice(&self.numbers[HALF..]);
        self.numbers.truncate(HALF);
        halve_hints(&mut self.hints, &mut spare.hints);
    }
}

fn insert_hint(hints: &mut Vec<u64>, at: usize, hint: u64) {
    if at <= hints.len() {
        // There is room. If a hint is refused, only guesses are worse.
        let _ = hints.insert(at, hint);
    }
}

fn halve_hints(hints: &mut Vec<u64>, spare: &mut Vec<u64>) {
    spare.clear();
    if HALF <= hints.len() {
        // There is room. If hints are refused, only guesses are worse.
        let _ = spare.extend_from_slice(&hints[HALF..]);
    }
    hints.truncate(HALF);
}
