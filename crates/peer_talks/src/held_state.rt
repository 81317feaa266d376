//! What a replica holds, and what of it is not on the disk yet.
ghost use Rattle.std.specs.Prelude.{◌≡◌, IfOk};
ghost use Rattle.change_view.specs.TurnTexts.{turn_journal};

use bucket_sums::SummedClosure;
use change_view::{JournalledChange, TurnLines, lines_of_changes};
use closure_core::Closure;
use side_by_side::{Side, Sides};
use state_steps::OnDisk;
use std::alloc::{AllocError, Global};

/// What a replica holds, and what its peers brought that is not on the disk yet.
///
/// What is taken on one side is offered to the other. The files have what the next side holds: what
/// fits only the previous configuration, and comes while both are held, is only in memory.
#[derive(Drop)]
pub struct HeldState<C: Closure> {
    /// What it holds under each configuration, with the sums of that.
    pub sides: Sides<SummedClosure<C>>,
    /// The journal's lines of what its peers brought.
    pub fresh: Vec<u8>,
    /// The changes whose lines these are, in their order.
    pub pulled: Vec<JournalledChange>,
    /// Whether memory ran out for what is reported of a change that is not on the disk yet.
    pub has_unreported: bool,
    // How many bytes of the lines are of what was held when it began.
    start: usize,
    // The sides of which something was not offered to the other one, since memory ran out.
    owes_next: bool,
    owes_previous: bool,
}

impl<C: Closure> HeldState<C> {
    /// Holds what both sides hold. The lines are those of the next side that are not on the disk.
    pub fn new(alloc: Global, sides: Sides<C>, fresh: Vec<u8>) -> HeldState<C> {
        HeldState {
            sides: summed(alloc, sides),
            start: fresh.len(),
            fresh,
            pulled: Vec::new(alloc),
            has_unreported: false,
            owes_next: false,
            owes_previous: false,
        }
    }

    /// All of the next side is on the disk. What its peers brought is offered to the previous side.
    pub fn settle(&mut self, alloc: Global, _on_disk: &OnDisk) {
        self.owes_previous |= !offer_previous(alloc, &mut self.sides, self.fresh.as_slice());
        if self.owes_previous {
            let mut unkept = Vec::new(alloc);
            let shared = self.sides.share(alloc, Side::Next, &mut unkept);
            self.owes_previous = shared.is_err();
        }
        self.fresh.clear();
        self.pulled.clear();
        self.has_unreported = false;
        self.start = 0;
    }

    /// All lines of what its peers brought, those of each change by themselves.
    ///
    /// # Errors
    /// Memory ran out.
    pub fn turn_lines(&self, alloc: Global) -> Result<Vec<TurnLines<'_>>, AllocError>
        ensures { IfOk result (λ turn. turn_journal turn.items ≡ self.now.fresh.items) }
    {
        let noted = if self.has_unreported {
            0
        } else {
            self.pulled.len()
        };
        let changes = &self.pulled[..noted];
        lines_of_changes(alloc, self.fresh.as_slice(), self.start, changes)
    }

    /// These lines of the next side, which a request brought, are on the disk: they are offered to
    /// the previous side.
    pub fn pass_on(&mut self, alloc: Global, lines: &[u8], _on_disk: &OnDisk) {
        self.owes_previous |= !offer_previous(alloc, &mut self.sides, lines);
    }

    /// Offers the next side the lines that the previous side took. What it takes is to be put on
    /// the disk.
    ///
    /// # Errors
    /// Memory ran out. The next call offers all that the previous side holds.
    pub(crate) fn pass_back(&mut self, alloc: Global, lines: &[u8]) -> Result<(), AllocError> {
        if self.owes_next {
            self.sides.share(alloc, Side::Previous, &mut self.fresh)?;
            self.owes_next = false;
        }
        let passed = self
            .sides
            .pass_on(alloc, Side::Previous, lines, &mut self.fresh);
        self.owes_next = passed.is_err();
        passed?;
        Ok(())
    }
}

// Both sides, of which no sum is computed yet.
fn summed<C: Closure>(alloc: Global, sides: Sides<C>) -> Sides<SummedClosure<C>> {
    let Sides { next, previous } = sides;
    let next = SummedClosure::of(alloc, next);
    match previous {
        Some(closure) => Sides {
            next,
            previous: Some(SummedClosure::of(alloc, closure)),
        },
        None => Sides {
            next,
            previous: None,
        },
    }
}

// Returns whether memory was enough.
fn offer_previous<C: Closure>(alloc: Global, sides: &mut Sides<C>, lines: &[u8]) -> bool {
    if sides.previous.is_none() || lines.is_empty() {
        return true;
    }
    let mut unkept = Vec::new(alloc);
    sides.pass_on(alloc, Side::Next, lines, &mut unkept).is_ok()
}
