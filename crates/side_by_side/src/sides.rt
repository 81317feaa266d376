//! Both closures of a replica that is between two configurations.
ghost use Rattle.std.specs.Prelude.{◌≡◌, ◌↔◌, None, IsTrue, IfOk, OnErr, OnSome, MatchOption};
ghost use Rattle.std.specs.Borrow.{LendsIf, LendsSo, sem};
ghost use Rattle.byte_lines.specs.Lines.{lines_of};
ghost use Rattle.side_by_side.specs.Sides.{HasDigest, IsUnder, NamesSide, Passing, lines_in};
ghost use Rattle.side_by_side.specs.Sides.{PassesToOther, PassesPartToOther, meanings};
ghost use Rattle.side_by_side.specs.Sides.{side_meaning, sides_held};
ghost use Rattle.side_by_side.specs.LentSides.{HasLent, with_side};
ghost use Rattle.side_by_side.specs.contracts.sides.Sides.{the_row};

use crate::held_offering::offer_held;
use crate::offer_counts::{Offered, no_lines};
use crate::offering::offer_lines;
use closure_core::Closure;
use fed_config::ConfigId;
use std::alloc::{AllocError, Global};

/// One of two configurations.
#[derive(Clone, Copy, Debug, PartialEq, Eq)]
pub enum Side {
    /// The one that is changed to.
    Next,
    /// The one that is changed from.
    Previous,
}

/// A closure for the configuration that is changed to, and one for the configuration that is
/// changed from, if there is one. Nothing here changes the configuration of either.
#[derive(Drop)]
pub struct Sides<C> {
    /// What is held under the configuration that is changed to.
    pub next: C,
    /// What is held under the configuration that is changed from.
    pub previous: Option<C>,
}

impl<C: Closure> Sides<C> {
    /// The side whose configuration has this digest: if both have it, the next one.
    pub fn side_of(&self, digest: ConfigId) -> Option<Side>
        ensures { NamesSide (sides_held (λ c. (C.state c).meaning) self.now.next self.now.previous)
            digest.0 result }
    {
        if is_of(&self.next, digest) {
            return Some(Side::Next);
        }
        match &self.previous {
            Some(closure) => {
                if is_of(closure, digest) {
                    Some(Side::Previous)
                } else {
                    None
                }
            }
            None => None,
        }
    }

    /// The closure of a side, if there is one.
    pub fn closure(&mut self, side: Side) -> Option<&mut C>
        ensures* lends { sem 𝓛 (LendsIf (the_row C.row) C.row self.entry result
            (with_side side self.old) self.old) }
        ensures is { meanings (λ c. (C.state c.now).meaning) result
            ≡ side_meaning (sides_held (λ c. (C.state c).meaning) self.old.next self.old.previous)
            side }
    {
        match side {
            Side::Next => Some(&mut self.next),
            Side::Previous => self.previous.as_mut(),
        }
    }

    /// The closure by which a question or a have is answered that names this digest: that of the
    /// side whose configuration has it. Nothing that the other side holds is in it.
    pub fn under(&mut self, digest: ConfigId) -> Option<&mut C>
        ensures* lends { sem 𝓛 (LendsSo (the_row C.row) C.row self.entry result
            (λ new w. OnSome result (HasLent (λ side. NamesSide
            (sides_held (λ c. (C.state c).meaning) self.old.next self.old.previous)
            digest.0 (Some side)) self.old new w))
            (λ new. new ≡ self.old)) }
        ensures is { MatchOption result
            (NamesSide (sides_held (λ c. (C.state c).meaning) self.old.next self.old.previous)
            digest.0 None)
            (λ c. IsUnder (sides_held (λ c. (C.state c).meaning) self.old.next self.old.previous)
            digest.0 (C.state c.now).meaning) }
    {
        match self.side_of(digest) {
            Some(side) => self.closure(side),
            None => None,
        }
    }

    /// Offers the lines of what one side took to the other side, and appends to `journal`, which is
    /// that other side's, the lines of what it takes. Nothing happens if the other side is missing.
    ///
    /// # Errors
    /// Memory ran out at one of the lines. The lines before it were offered: what was taken is
    /// held, and its lines are in the journal. The same lines may be offered again.
    pub fn pass_on(
        &mut self,
        alloc: Global,
        from: Side,
        lines: &[u8],
        journal: &mut Vec<u8>,
    ) -> Result<Offered, AllocError>
        ensures passes { IfOk result (PassesToOther from
            (record {
              old = sides_held (λ c. (C.state c).meaning) self.old.next self.old.previous;
              before = journal.old.items;
              texts = (lines_of lines.now).whole;
              new = sides_held (λ c. (C.state c).meaning) self.new.next self.new.previous;
              after = journal.new.items;
            })) }
        ensures begun { OnErr result (PassesPartToOther from
            (record {
              old = sides_held (λ c. (C.state c).meaning) self.old.next self.old.previous;
              before = journal.old.items;
              texts = (lines_of lines.now).whole;
              new = sides_held (λ c. (C.state c).meaning) self.new.next self.new.previous;
              after = journal.new.items;
            })) }
    {
        match from {
            Side::Next => match &mut self.previous {
                Some(to) => offer_lines(alloc, lines, to, journal),
                None => Ok(no_lines()),
            },
            Side::Previous => offer_lines(alloc, lines, &mut self.next, journal),
        }
    }

    /// Offers all that one side holds to the other side, as [`Sides::pass_on`] offers lines. This
    /// is for the beginning, when each side has a state of its own.
    ///
    /// # Errors
    /// Memory ran out at a record or a receipt. Those before it were offered, and all may be
    /// offered again.
    pub fn share(
        &mut self,
        alloc: Global,
        from: Side,
        journal: &mut Vec<u8>,
    ) -> Result<Offered, AllocError>
        ensures passes { IfOk result (PassesToOther from
            (record {
              old = sides_held (λ c. (C.state c).meaning) self.old.next self.old.previous;
              before = journal.old.items;
              texts = lines_in (side_meaning (sides_held (λ c. (C.state c).meaning) self.old.next
                  self.old.previous) from);
              new = sides_held (λ c. (C.state c).meaning) self.new.next self.new.previous;
              after = journal.new.items;
            })) }
        ensures begun { OnErr result (PassesPartToOther from
            (record {
              old = sides_held (λ c. (C.state c).meaning) self.old.next self.old.previous;
              before = journal.old.items;
              texts = lines_in (side_meaning (sides_held (λ c. (C.state c).meaning) self.old.next
                  self.old.previous) from);
              new = sides_held (λ c. (C.state c).meaning) self.new.next self.new.previous;
              after = journal.new.items;
            })) }
    {
        match from {
            Side::Next => match &mut self.previous {
                Some(to) => offer_held(alloc, &self.next, to, journal),
                None => Ok(no_lines()),
            },
            Side::Previous => match &self.previous {
                Some(held) => offer_held(alloc, held, &mut self.next, journal),
                None => Ok(no_lines()),
            },
        }
    }
}

// Whether the digest is that of the closure's configuration.
fn is_of<C: Closure>(closure: &C, digest: ConfigId) -> bool
    ensures { IsTrue result ↔ HasDigest (C.state closure.now).meaning digest.0 }
{
    closure.config().digest() == digest
}
