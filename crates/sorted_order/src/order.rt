//! A sequence of numbers in the order that its caller gives: blocks, spare blocks, sums and the
//! count.
//!
//! Each block but the first is at least half full. The blocks, spare ones among them, number at
//! most one for each 256 numbers of capacity and one more. So if there is room, a full block means
//! that a spare one is left, and insertion needs no memory. A number of capacity costs 24 bytes: 8
//! for numbers and 16 for their hints.
ghost use Rattle.std.specs.Prelude.{◌≡◌, ℕ, ◌+◌, ◌-◌, ◌*◌, ◌^◌, ◌<◌, ◌≤◌, [], length, take, drop};
ghost use Rattle.std.specs.Prelude.{slice_get, slice_index, min, IsOk, OnOk};
ghost use Rattle.std.specs.List.{All, filter, insert};
ghost use Rattle.sorted_order.specs.Sought.{IsRising, IsGap, Finds, is_equal};
ghost use Rattle.sorted_order.specs.Inside.Seeking.{FindsFirst};

use crate::block::{Block, HALF};
use crate::directory::{add_blocks, locate, put_number};
use crate::guess::{Guess, edge_by_guess};
use crate::numbers::Numbers;
use crate::probe::{Past, Probe};
use crate::search::{edge, equal_from, first_from};
use crate::sums::length_before_block;
use std::alloc::{AllocError, Global};
use std::marker::Model;

/// The most blocks, so that there are fewer than 2^32 numbers.
const MOST_BLOCKS: usize = 16_777_216;

/// The most numbers that there can be room for.
const MOST_NUMBERS: usize = 4_294_967_040;

/// Numbers of 32 bits in the order that the caller gives, each with a hint, by which a search can
/// guess a place without looking at what the numbers mean.
///
/// They lie in blocks of at most 512, and there is a sum for each group of 64 blocks. A place is
/// found by passing over the sums of the groups before it, at most one for each 16,000 numbers and
/// one more, and over the lengths of at most 64 blocks. An insertion looks at those, raises one
/// sum, and moves at most 6 KiB of numbers and hints. If it finds a full block, at most once in 256
/// insertions on average, it cuts that into halves, moves the directory's entries after it and
/// makes all sums again.
#[derive(Drop)]
pub struct Order {
    blocks: Vec<Block>,
    spare: Vec<Block>,
    sums: Vec<usize>,
    count: usize,
}

impl Model for Order {
    ghost use Rattle.std.specs.Prelude.{length, vec_capacity};
    ghost use Rattle.std.specs.List.{concat};
    ghost use Rattle.sorted_order.specs.Sequence.{Sequence};
    ghost use Rattle.sorted_order.specs.Inside.Blocks.{AreKept, capacity_of};

    ghost Value = { Sequence };

    ghost view = { λ o. record {
      items = concat o.blocks.items;
      capacity = capacity_of (length o.blocks.items) (length o.spare.items);
    } };

    ghost invariant = { λ o. AreKept o.blocks.items o.sums.items (length o.spare.items) o.count
        (vec_capacity o.blocks) };
}

impl Order {
    /// A sequence of no numbers, without room. It takes no memory.
    pub fn new(alloc: Global) -> Self
        ensures { result ≡ record { items = []; capacity = 0 } }
    {
        Order {
            blocks: Vec::new(alloc),
            spare: Vec::new(alloc),
            sums: Vec::new(alloc),
            count: 0,
        }
    }

    /// How many numbers there are.
    pub fn len(&self) -> usize
        ensures len { result ≡ length self.now.items }
        ensures within { result ≤ self.now.capacity }
        ensures few { self.now.capacity < 2 ^ 32 }
    {
        self.count
    }

    /// How many numbers more can be inserted without memory.
    pub fn room(&self) -> usize
        ensures { length self.now.items + result ≡ self.now.capacity }
    {
        let blocks = self.blocks.len() + self.spare.len();
        HALF * blocks.saturating_sub(1) - self.len()
    }

    /// Makes room for this many more numbers. If the room is not there yet, it at least doubles the
    /// room in all, as far as there can be room: for fewer than 2^32 numbers.
    ///
    /// # Errors
    /// Memory ran out, or there cannot be that much room. All numbers are still there, and only the
    /// room may have grown.
    pub fn try_reserve(&mut self, numbers: usize) -> Result<(), AllocError>
        ensures items { self.new.items ≡ self.old.items }
        ensures capacity { self.old.capacity ≤ self.new.capacity }
        ensures ok { OnOk result (length self.new.items + numbers ≤ self.new.capacity) }
        ensures within { length self.old.items + numbers ≤ self.old.capacity
            → (IsOk result) × (self.new ≡ self.old) }
        ensures doubles { self.old.capacity < length self.old.items + numbers
            → OnOk result (min (2 * self.old.capacity) 4294967040 ≤ self.new.capacity) }
    {
        if numbers <= self.room() {
            return Ok(());
        }
        self.try_count(numbers)?;
        let present = self.blocks.len() + self.spare.len();
        let needed = (self.len() + numbers).div_ceil(HALF) + 1;
        let wanted = needed.max(present * 2).min(MOST_BLOCKS);
        add_blocks(&mut self.blocks, &mut self.spare, &mut self.sums, wanted)
    }

    /// With this many more there have to be fewer than 2^32 numbers: past that it asks for a growth
    /// that is always refused.
    fn try_count(&mut self, numbers: usize) -> Result<(), AllocError>
        ensures same { self.new ≡ self.old }
        ensures ok { OnOk result (length self.new.items + numbers ≤ 4294967040) }
    {
        if numbers > MOST_NUMBERS.saturating_sub(self.len()) {
            self.spare.try_reserve(usize::MAX)?;
        }
        Ok(())
    }

    /// Puts a number at a place: those from there on move one place on. It takes no memory. Its
    /// hint is 0.
    pub fn insert(&mut self, at: usize, number: u32)
        requires place { at ≤ length self.old.items }
        requires room { length self.old.items < self.old.capacity }
        ensures items { self.new.items ≡ insert self.old.items at number }
        ensures capacity { self.new.capacity ≡ self.old.capacity }
    {
        self.insert_with_hint(at, number, 0);
    }

    /// The same with a hint, for [`Order::find_by_guess`]. No clause speaks of it.
    pub fn insert_with_hint(&mut self, at: usize, number: u32, hint: u64)
        requires place { at ≤ length self.old.items }
        requires room { length self.old.items < self.old.capacity }
        ensures items { self.new.items ≡ insert self.old.items at number }
        ensures capacity { self.new.capacity ≡ self.old.capacity }
    {
        let sums = self.sums.as_mut_slice();
        put_number(&mut self.blocks, &mut self.spare, sums, at, number, hint);
        self.count += 1;
    }

    /// The number at a place.
    pub fn get(&self, at: usize) -> u32
        requires { at < length self.now.items }
        ensures { result ≡ slice_index self.now.items at }
    {
        let (block, past) = locate(self.blocks.as_slice(), self.sums.as_slice(), at + 1);
        self.blocks[block].as_slice()[past - 1]
    }

    /// The numbers from a place on, in order.
    pub fn from(&self, at: usize) -> Numbers<'_>
        requires { at ≤ length self.now.items }
        ensures { result ≡ drop at self.now.items }
    {
        self.range(at, self.len() - at)
    }

    /// This many numbers from a place on, in order.
    pub(crate) fn range(&self, at: usize, numbers: usize) -> Numbers<'_>
        requires { at + numbers ≤ length self.now.items }
        ensures { result ≡ take numbers (drop at self.now.items) }
    {
        Numbers::new(self.blocks.as_slice(), self.sums.as_slice(), at, numbers)
    }

    /// How many numbers come before what is sought.
    pub fn before<P: Probe>(&self, probe: &P) -> usize
        requires known { All (P.knows probe.now) self.now.items }
        requires rising { IsRising (P.compared probe.now) self.now.items }
        ensures { IsGap (P.compared probe.now) self.now.items result }
    {
        let (place, _) = self.seek(probe);
        place
    }

    /// The first place of what is sought, or, as an error, the place that it would have.
    pub fn find<P: Probe>(&self, probe: &P) -> Result<usize, usize>
        requires known { All (P.knows probe.now) self.now.items }
        requires rising { IsRising (P.compared probe.now) self.now.items }
        ensures { Finds (P.compared probe.now) self.now.items result }
    {
        let (place, found) = self.seek(probe);
        match found {
            Some(number) => if probe.compare(number).is_eq() {
                Ok(place)
            } else {
                Err(place)
            },
            None => Err(place),
        }
    }

    /// The same, but the place is guessed first, by the hints of the numbers and, if these are
    /// equal, by what the caller guesses. So few numbers are compared whole.
    pub fn find_by_guess<P: Probe + Guess>(&self, probe: &P) -> Result<usize, usize>
        requires known { All (P.knows probe.now) self.now.items }
        requires rising { IsRising (P.compared probe.now) self.now.items }
        ensures { Finds (P.compared probe.now) self.now.items result }
    {
        let (place, found) = self.seek_by_guess(probe);
        match found {
            Some(number) => if probe.compare(number).is_eq() {
                Ok(place)
            } else {
                Err(place)
            },
            None => Err(place),
        }
    }

    /// The numbers in the place of what is sought, in order.
    pub fn matching<P: Probe>(&self, probe: &P) -> Numbers<'_>
        requires known { All (P.knows probe.now) self.now.items }
        requires rising { IsRising (P.compared probe.now) self.now.items }
        ensures { result ≡ filter (λ number. is_equal (P.compared probe.now number))
            self.now.items }
    {
        let first = self.before(probe);
        let end = self.before(&Past::new(probe));
        self.range(first, end - first)
    }

    /// The first number in the place of what is sought, or, as an error, the place that it would
    /// have. If it finds one it adds up no lengths.
    pub(crate) fn find_number<P: Probe>(&self, probe: &P) -> Result<u32, usize>
        requires known { All (P.knows probe.now) self.now.items }
        requires rising { IsRising (P.compared probe.now) self.now.items }
        ensures { FindsFirst (P.compared probe.now) self.now.items result }
    {
        if self.blocks.is_empty() {
            return Err(0);
        }
        let blocks = self.blocks.as_slice();
        let (block, place) = edge(blocks, probe);
        match equal_from(blocks, block, place, probe) {
            Some(number) => Ok(number),
            None => Err(length_before_block(blocks, self.sums.as_slice(), block) + place),
        }
    }

    /// The same, but the place is guessed first. So few numbers are compared whole.
    pub(crate) fn find_number_by_guess<P: Probe + Guess>(&self, probe: &P) -> Result<u32, usize>
        requires known { All (P.knows probe.now) self.now.items }
        requires rising { IsRising (P.compared probe.now) self.now.items }
        ensures { FindsFirst (P.compared probe.now) self.now.items result }
    {
        if self.blocks.is_empty() {
            return Err(0);
        }
        let blocks = self.blocks.as_slice();
        let (block, place) = edge_by_guess(blocks, probe);
        match equal_from(blocks, block, place, probe) {
            Some(number) => Ok(number),
            None => Err(length_before_block(blocks, self.sums.as_slice(), block) + place),
        }
    }

    /// How many numbers come before what is sought, and the number after those.
    pub(crate) fn seek<P: Probe>(&self, probe: &P) -> (usize, Option<u32>)
        requires known { All (P.knows probe.now) self.now.items }
        requires rising { IsRising (P.compared probe.now) self.now.items }
        ensures gap { IsGap (P.compared probe.now) self.now.items result.0 }
        ensures number { result.1 ≡ slice_get self.now.items result.0 }
    {
        if self.blocks.is_empty() {
            return (0, None);
        }
        let blocks = self.blocks.as_slice();
        let (block, place) = edge(blocks, probe);
        let number = first_from(blocks, block, place);
        (
            length_before_block(blocks, self.sums.as_slice(), block) + place,
            number,
        )
    }

    /// The same, but the place is guessed first.
    fn seek_by_guess<P: Probe + Guess>(&self, probe: &P) -> (usize, Option<u32>)
        requires known { All (P.knows probe.now) self.now.items }
        requires rising { IsRising (P.compared probe.now) self.now.items }
        ensures gap { IsGap (P.compared probe.now) self.now.items result.0 }
        ensures number { result.1 ≡ slice_get self.now.items result.0 }
    {
        if self.blocks.is_empty() {
            return (0, None);
        }
        let blocks = self.blocks.as_slice();
        let (block, place) = edge_by_guess(blocks, probe);
        let number = first_from(blocks, block, place);
        (
            length_before_block(blocks, self.sums.as_slice(), block) + place,
            number,
        )
    }
}
