//! Guesses of the place of what is sought. They are made by parts of what is compared, and believed
//! only if comparisons next to the place show that they hold.
ghost use Rattle.std.specs.Prelude.{◌≡◌, ◌≢◌, ℕ, ◌+◌, ◌-◌, ◌<◌, ◌≤◌, length};
ghost use Rattle.std.specs.Prelude.{slice_get, slice_index, Some, IsTrue};
ghost use Rattle.std.specs.List.{All, concat};
ghost use Rattle.std.specs.declared.cmp.Ordering.TheVariants.{Less};
ghost use Rattle.sorted_order.specs.Inside.Blocks.{AreFilled, block_at, length_before, IsSpot};
ghost use Rattle.sorted_order.specs.Inside.Blocks.{IsBoundary};

use crate::block::Block;
use crate::probe::{ByItem, Probe};
use crate::search::{edge_among, edge_at_end, first_from};
use std::cmp::Ordering;

/// On how many bytes the nearest known texts on both sides seem to agree with the one that is
/// sought.
#[derive(Clone, Copy, Debug)]
pub struct Agreed {
    /// That of the nearest one that seems to come before it.
    pub before: usize,
    /// That of the nearest other one.
    pub after: usize,
}

/// Guesses the places of numbers, for those who seek by a hint, and by a text or a number if hints
/// are equal. No clause speaks of it: if a guess does not hold, the search compares.
pub trait Guess {
    /// What is known beforehand of the place of what is sought. As far as hints differ, they grow
    /// with the order. Each number has the hint that it was inserted with.
    fn hint(&self) -> u64;

    /// Whether the number, which is between those on both sides, seems to come before what is
    /// sought; and on how many bytes their texts seem to agree. It is asked only of numbers with
    /// the same hint.
    fn guess(&self, number: u32, agreed: Agreed) -> (bool, usize);
}

/// Guesses the places of items, for those who seek by a hint, and by a text or a number if hints
/// are equal. No clause speaks of it: if a guess does not hold, the search compares.
pub trait ItemGuess<T> {
    /// What is known beforehand of the place of what is sought. As far as hints differ, they grow
    /// with the order. Each item has the hint that it was inserted with.
    fn hint(&self) -> u64;

    /// Whether the item, which is between those on both sides, seems to come before what is sought;
    /// and on how many bytes their texts seem to agree. It is asked only of items with the same
    /// hint.
    fn guess(&self, item: &T, agreed: Agreed) -> (bool, usize);
}

impl<'a, T, P: ItemGuess<T>> Guess for ByItem<'a, T, P> {
    fn hint(&self) -> u64 {
        self.probe.hint()
    }

    fn guess(&self, number: u32, agreed: Agreed) -> (bool, usize) {
        match self.items.get(number as usize) {
            Some(item) => self.probe.guess(item, agreed),
            None => (false, 0),
        }
    }
}

/// How one text, which is between those on both sides, seems to compare to the other, which is
/// sought: by the first byte that seems to differ. And on how many bytes they seem to agree. If one
/// side agrees on more bytes than the other, only samples of those are read, so nothing is promised
/// of a guess.
pub fn guess_text(one: &[u8], other: &[u8], agreed: Agreed) -> (Ordering, usize) {
    let place = agreement(one, other, agreed);
    match (one.get(place), other.get(place)) {
        (Some(byte), Some(another)) => (byte.cmp(another), place),
        (Some(_), None) => (Ordering::Greater, place),
        (None, Some(_)) => (Ordering::Less, place),
        (None, None) => (Ordering::Equal, place),
    }
}

/// How many bytes are compared in one step.
const STRIDE: usize = 64;

/// From sample to sample, and how many bytes a sample has. Texts of two RSA keys mostly differ in
/// more bytes than lie in between.
const SAMPLE_STEP: usize = 256;

const SAMPLE: usize = 16;

/// On how many bytes the texts seem to agree.
fn agreement(one: &[u8], other: &[u8], agreed: Agreed) -> usize {
    let both = one.len().min(other.len());
    let near = agreed.before.min(agreed.after).min(both);
    let far = agreed.before.max(agreed.after).min(both);
    let mut place = sampled(one, other, near, far);
    'strides: while both - place >= STRIDE && is_same(one, other, place, STRIDE) {
        place += STRIDE;
    }
    'bytes: while place < both && one[place] == other[place] {
        place += 1;
    }
    place
}

/// The place from which the first byte that differs is to be looked for: after the samples in which
/// the texts agree.
fn sampled(one: &[u8], other: &[u8], near: usize, far: usize) -> usize
    requires order { near ≤ far }
    requires one { far ≤ length one.now }
    requires other { far ≤ length other.now }
    ensures { result ≤ far }
{
    let mut place = near;
    'samples: while far - place >= SAMPLE_STEP {
        if !is_same(one, other, place, SAMPLE) {
            return near.max(place.saturating_sub(SAMPLE_STEP));
        }
        place += SAMPLE_STEP;
    }
    place
}

fn is_same(one: &[u8], other: &[u8], place: usize, bytes: usize) -> bool
    requires one { place + bytes ≤ length one.now }
    requires other { place + bytes ≤ length other.now }
{
    one[place..place + bytes] == other[place..place + bytes]
}

/// The same as [`crate::search::edge`], by a guess if that holds.
pub(crate) fn edge_by_guess<P: Probe + Guess>(blocks: &[Block], probe: &P) -> (usize, usize)
    requires some { 0 < length blocks.now }
    requires filled { AreFilled blocks.now }
    requires known { All (P.knows probe.now) (concat blocks.now) }
    ensures spot { IsSpot blocks.now (length_before blocks.now result.0 + result.1) result.0
        result.1 }
    ensures edge { IsBoundary (P.compared probe.now) (concat blocks.now)
        (length_before blocks.now result.0 + result.1) }
{
    if let Some(end) = edge_at_end(blocks, probe) {
        return end;
    }
    let (block, place) = guessed(blocks, probe);
    if is_edge(blocks, probe, block, place) {
        return (block, place);
    }
    edge_among(blocks, probe)
}

/// Whether the place is the one that what is sought would have. A yes is sure.
fn is_edge<P: Probe>(blocks: &[Block], probe: &P, block: usize, place: usize) -> bool
    requires filled { AreFilled blocks.now }
    requires known { All (P.knows probe.now) (concat blocks.now) }
    ensures spot { IsTrue result
        → IsSpot blocks.now (length_before blocks.now block + place) block place }
    ensures edge { IsTrue result → IsBoundary (P.compared probe.now) (concat blocks.now)
        (length_before blocks.now block + place) }
{
    if block >= blocks.len() {
        return false;
    }
    if place > blocks[block].len() {
        return false;
    }
    if is_past(blocks, probe, block, place) {
        is_not_past(blocks, probe, block, place)
    } else {
        false
    }
}

/// Whether the number just before the place, which is in the same block, comes before what is
/// sought, or there is no number before.
fn is_past<P: Probe>(blocks: &[Block], probe: &P, block: usize, place: usize) -> bool
    requires block { block < length blocks.now }
    requires place { place ≤ length (block_at blocks.now block) }
    requires known { All (P.knows probe.now) (concat blocks.now) }
    ensures before { IsTrue result → 0 < place
        → P.compared probe.now (slice_index (block_at blocks.now block) (place - 1)) ≡ Less }
    ensures start { IsTrue result → place ≡ 0 → block ≡ 0 }
{
    if place == 0 {
        return block == 0;
    }
    let numbers = blocks[block].as_slice();
    probe.compare(numbers[place - 1]).is_lt()
}

/// Whether the number at the place does not come before what is sought, or there is no number.
fn is_not_past<P: Probe>(blocks: &[Block], probe: &P, block: usize, place: usize) -> bool
    requires block { block < length blocks.now }
    requires place { place ≤ length (block_at blocks.now block) }
    requires filled { AreFilled blocks.now }
    requires known { All (P.knows probe.now) (concat blocks.now) }
    ensures { IsTrue result → (number : ℕ)
        → slice_get (concat blocks.now) (length_before blocks.now block + place) ≡ Some number
        → P.compared probe.now number ≢ Less }
{
    match first_from(blocks, block, place) {
        Some(number) => !probe.compare(number).is_lt(),
        None => true,
    }
}

// ---- the guess, of which nothing is promised

/// A block, and a place in it.
fn guessed<G: Guess>(blocks: &[Block], guess: &G) -> (usize, usize) {
    let mut known = Known {
        hint: guess.hint(),
        agreed: Agreed {
            before: 0,
            after: 0,
        },
    };
    let block = guessed_block(blocks, guess, &mut known);
    match blocks.get(block) {
        Some(found) => (block, guessed_place(found, guess, &mut known)),
        None => (0, 0),
    }
}

/// What a search knows: the hint of what is sought, and how the texts on both sides agree.
#[derive(Clone, Copy, Debug)]
struct Known {
    hint: u64,
    agreed: Agreed,
}

/// The last block that seems to begin before what is sought, or else the first.
fn guessed_block<G: Guess>(blocks: &[Block], guess: &G, known: &mut Known) -> usize {
    let mut low = 0;
    let mut high = blocks.len();
    while high - low > 1 {
        let middle = low + (high - low) / 2;
        if seems_before(&blocks[middle], 0, guess, known) {
            low = middle;
        } else {
            high = middle;
        }
    }
    low
}

/// How many numbers of the block seem to come before what is sought.
fn guessed_place<G: Guess>(block: &Block, guess: &G, known: &mut Known) -> usize {
    let mut low = 0;
    let mut high = block.len();
    while low < high {
        let middle = low + (high - low) / 2;
        if seems_before(block, middle, guess, known) {
            low = middle + 1;
        } else {
            high = middle;
        }
    }
    low
}

/// Whether the number at the place seems to come before what is sought. The caller is asked only if
/// its hint is that of what is sought.
fn seems_before<G: Guess>(block: &Block, place: usize, guess: &G, known: &mut Known) -> bool {
    let Some(hint) = block.hints().get(place) else {
        return false;
    };
    match hint.cmp(&known.hint) {
        Ordering::Less => true,
        Ordering::Equal => is_guessed_before(block.as_slice().get(place), guess, known),
        Ordering::Greater => false,
    }
}

/// Whether the number is guessed to come before what is sought. It keeps on how many bytes they
/// agree.
fn is_guessed_before<G: Guess>(number: Option<&u32>, guess: &G, known: &mut Known) -> bool {
    let Some(number) = number else {
        return false;
    };
    let (before, bytes) = guess.guess(*number, known.agreed);
    if before {
        known.agreed.before = bytes;
    } else {
        known.agreed.after = bytes;
    }
    before
}
