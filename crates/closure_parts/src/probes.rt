//! What is sought among receipts.
ghost use Rattle.std.specs.Prelude.{◌≡◌};

use crate::receipt_hint::receipt_hint;
use receipt_core::Receipt;
use sorted_order::{Agreed, ItemGuess, ItemProbe, Probe, guess_text};
use std::cmp::Ordering;

/// A receipt by its line.
#[derive(Drop)]
pub(crate) struct OfReceipt<'a> {
    receipt: &'a Receipt,
    hint: u64,
}

/// The place of a receipt among numbers of receipts in the order of buckets.
#[derive(Drop)]
pub(crate) struct PlaceInBuckets<'a> {
    receipts: &'a [Receipt],
    receipt: &'a Receipt,
}

/// The receipts of a bucket among numbers of receipts.
#[derive(Drop)]
pub(crate) struct InBucket<'a> {
    receipts: &'a [Receipt],
    bucket: u8,
}

impl<'a> OfReceipt<'a> {
    /// Seeks the receipt among those that are held, whose hints are [`receipt_hint`]'s.
    pub(crate) fn new(held: &[Receipt], receipt: &'a Receipt) -> Self
        ensures { result.receipt.now ≡ receipt.now }
    {
        OfReceipt {
            receipt,
            hint: receipt_hint(held, receipt),
        }
    }
}

impl<'a> PlaceInBuckets<'a> {
    pub(crate) fn new(receipts: &'a [Receipt], receipt: &'a Receipt) -> Self
        ensures receipts { result.receipts.now ≡ receipts.now }
        ensures receipt { result.receipt.now ≡ receipt.now }
    {
        PlaceInBuckets { receipts, receipt }
    }
}

impl<'a> InBucket<'a> {
    pub(crate) fn new(receipts: &'a [Receipt], bucket: u8) -> Self
        ensures receipts { result.receipts.now ≡ receipts.now }
        ensures bucket { result.bucket ≡ bucket }
    {
        InBucket { receipts, bucket }
    }
}

impl<'a> ItemProbe<Receipt> for OfReceipt<'a> {
    ghost use Rattle.receipt_core.specs.Receipt.{receipt_cmp};

    ghost compared = { λ sought r. receipt_cmp r sought.receipt.now };

    fn compare(&self, item: &Receipt) -> Ordering {
        item.cmp(self.receipt)
    }
}

impl<'a> ItemGuess<Receipt> for OfReceipt<'a> {
    fn hint(&self) -> u64 {
        self.hint
    }

    // By the texts of the documents. Receipts of one document are compared whole.
    fn guess(&self, item: &Receipt, agreed: Agreed) -> (bool, usize) {
        let sought = self.receipt.document().canonical();
        match guess_text(item.document().canonical(), sought, agreed) {
            (Ordering::Equal, bytes) => (item.cmp(self.receipt).is_lt(), bytes),
            (order, bytes) => (order.is_lt(), bytes),
        }
    }
}

impl<'a> Probe for PlaceInBuckets<'a> {
    ghost use Rattle.std.specs.Prelude.{◌<◌, length};
    ghost use Rattle.sorted_order.specs.ArenaView.{compared_at};
    ghost use Rattle.closure_parts.specs.Held.{bucket_cmp};

    ghost compared = { λ sought number. compared_at (λ r. bucket_cmp r sought.receipt.now)
        sought.receipts.now number };

    ghost knows = { λ sought number. number < length sought.receipts.now };

    fn compare(&self, number: u32) -> Ordering {
        let item = &self.receipts[number as usize];
        match item.id().0[0].cmp(&self.receipt.id().0[0]) {
            Ordering::Equal => item.cmp(self.receipt),
            unequal => unequal,
        }
    }
}

impl<'a> Probe for InBucket<'a> {
    ghost use Rattle.std.specs.Prelude.{◌<◌, length};
    ghost use Rattle.std.specs.Ordering.{nat_cmp};
    ghost use Rattle.sorted_order.specs.ArenaView.{compared_at};
    ghost use Rattle.closure_parts.specs.Held.{bucket_of};

    ghost compared = { λ sought number. compared_at (λ r. nat_cmp (bucket_of r) sought.bucket)
        sought.receipts.now number };

    ghost knows = { λ sought number. number < length sought.receipts.now };

    fn compare(&self, number: u32) -> Ordering {
        let item = &self.receipts[number as usize];
        item.id().0[0].cmp(&self.bucket)
    }
}
