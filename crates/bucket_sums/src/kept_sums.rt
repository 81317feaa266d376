//! The sums of what is held, kept from one session to the next.
ghost use Rattle.std.specs.Prelude.{◌≡◌, ◌<◌, IfOk, IfSome, IsTrue, Some, length, map, slice_get};
ghost use Rattle.closure_core.specs.AcceptedList.{receipts_in};
ghost use Rattle.receipt_core.specs.Acceptance.{IsMeaning};
ghost use Rattle.replica_core.specs.Session.{state_of};
ghost use Rattle.replica_core.specs.State.{State};
ghost use Rattle.bucket_sums.specs.Parts.{count_in, part_sum};
ghost use Rattle.bucket_sums.specs.Inside.KeptSteps.{sums_in};
ghost use Rattle.bucket_sums.specs.Lines.{part_count};
ghost use Rattle.bucket_sums.specs.Sums.{sums_of};

use crate::held_sums::{sum_of_bucket, sum_of_records};
use crate::part_marks::PART_COUNT;
use crate::part_sums::Sums;
use crate::sum::Sum;
use closure_core::Closure;
use std::alloc::{AllocError, Global};

/// The sum of a part, and how many receipts or records it is of.
#[derive(Clone, Copy, Debug)]
pub(crate) struct CountedSum {
    count: usize,
    sum: Sum,
}

/// The sums of what a closure holds, kept from one session to the next. What is held only grows. So
/// a part whose number of receipts or records is that of when its sum was computed is the same, and
/// its sum is not computed again.
#[derive(Debug, Drop)]
pub(crate) struct KeptSums {
    // Those of the records, and of each bucket; none before the first time.
    parts: Vec<CountedSum>,
    // How many receipts were held then.
    receipts: usize,
}

impl KeptSums {
    ghost use Rattle.bucket_sums.specs.Inside.KeptSteps.{AreKeptSums, ArePartSums, IsSumOf};
    ghost use Rattle.bucket_sums.specs.Inside.KeptSteps.{HasCountsOf};

    /// Keeps none yet.
    pub(crate) fn new(alloc: Global) -> KeptSums
        ensures { (state : State) → AreKeptSums result state }
    {
        KeptSums {
            parts: Vec::new(alloc),
            receipts: 0,
        }
    }

    /// The sums of what the closure holds.
    pub(crate) fn sums_of<C: Closure>(
        &mut self,
        alloc: Global,
        closure: &C,
    ) -> Result<Sums, AllocError>
        requires { AreKeptSums self.old (state_of (C.state closure.now).meaning) }
        ensures sums { IfOk result
            (λ sums. sums ≡ sums_of (state_of (C.state closure.now).meaning)) }
        ensures kept { AreKeptSums self.new (state_of (C.state closure.now).meaning) }
    {
        let _valid = closure.config();
        if self.is_same(closure) {
            return copied(alloc, self.parts.as_slice());
        }
        let parts = self.parts_of(alloc, closure)?;
        self.receipts = closure.receipt_count();
        self.parts = parts;
        copied(alloc, self.parts.as_slice())
    }

    // Whether all is as it was when the sums were computed.
    fn is_same<C: Closure>(&self, closure: &C) -> bool
        ensures { IsTrue result → HasCountsOf self.now (state_of (C.state closure.now).meaning) }
    {
        if self.parts.len() != PART_COUNT || self.receipts != closure.receipt_count() {
            return false;
        }
        match self.kept(0) {
            Some(kept) => kept.count == count_of(closure, 0),
            None => false,
        }
    }

    // The sum of the part that is kept.
    fn kept(&self, part: usize) -> Option<CountedSum>
        ensures { IfSome result (λ k. slice_get self.now.parts.items part ≡ Some k) }
    {
        self.parts.get(part).copied()
    }

    // The sums of all parts.
    fn parts_of<C: Closure>(
        &self,
        alloc: Global,
        closure: &C,
    ) -> Result<Vec<CountedSum>, AllocError>
        requires valid { IsMeaning (C.state closure.now).meaning }
        requires kept { AreKeptSums self.now (state_of (C.state closure.now).meaning) }
        ensures all { IfOk result (λ parts. length parts.items ≡ part_count) }
        ensures sums { IfOk result
            (λ parts. ArePartSums (state_of (C.state closure.now).meaning) 0 parts.items) }
    {
        let mut parts = Vec::with_capacity(alloc, PART_COUNT)?;
        'places: for part in 0..PART_COUNT {
            let counted = self.counted(alloc, closure, part)?;
            parts.push(counted)?;
        }
        Ok(parts)
    }

    // The sum of the part: the one that is kept, if the part still has its number of receipts or
    // records.
    fn counted<C: Closure>(
        &self,
        alloc: Global,
        closure: &C,
        part: usize,
    ) -> Result<CountedSum, AllocError>
        requires part { part < part_count }
        requires valid { IsMeaning (C.state closure.now).meaning }
        requires kept { AreKeptSums self.now (state_of (C.state closure.now).meaning) }
        ensures { IfOk result (λ k. IsSumOf (state_of (C.state closure.now).meaning) part k) }
    {
        let count = count_of(closure, part);
        if let Some(kept) = self.kept(part) {
            if kept.count == count {
                return Ok(kept);
            }
        }
        let sum = sum_of_part(alloc, closure, part)?;
        Ok(CountedSum { count, sum })
    }
}

// How many receipts or records the part has.
fn count_of<C: Closure>(closure: &C, part: usize) -> usize
    requires { part < part_count }
    ensures { result ≡ count_in (state_of (C.state closure.now).meaning) part }
{
    if part == 0 {
        record_count(closure)
    } else {
        bucket_count(closure, (part - 1) as u8)
    }
}

fn record_count<C: Closure>(closure: &C) -> usize
    ensures { result ≡ length (C.state closure.now).meaning.records }
{
    // There are few of them.
    let _valid = closure.config();
    closure.distrusts().count()
}

fn bucket_count<C: Closure>(closure: &C, bucket: u8) -> usize
    ensures { result ≡ length (receipts_in bucket (C.state closure.now).meaning.held) }
{
    let _valid = closure.config();
    closure.receipts_of(bucket).count()
}

fn sum_of_part<C: Closure>(alloc: Global, closure: &C, part: usize) -> Result<Sum, AllocError>
    requires { part < part_count }
    ensures { IfOk result
        (λ sum. sum.0 ≡ part_sum (state_of (C.state closure.now).meaning) part) }
{
    if part == 0 {
        sum_of_records(alloc, closure)
    } else {
        sum_of_bucket(alloc, closure, (part - 1) as u8)
    }
}

// The sums of all parts.
fn copied(alloc: Global, parts: &[CountedSum]) -> Result<Sums, AllocError>
    requires { length parts.now ≡ part_count }
    ensures { IfOk result (λ sums. sums ≡ sums_in parts.now) }
{
    let sums = sums_alone(alloc, parts)?;
    Ok(Sums::of_all(sums))
}

fn sums_alone(alloc: Global, parts: &[CountedSum]) -> Result<Vec<Sum>, AllocError>
    ensures { IfOk result (λ sums. sums.items ≡ map (λ k. k.sum) parts.now) }
{
    parts.iter().map(|part| part.sum).collect(alloc)
}
