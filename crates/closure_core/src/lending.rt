//! What a closure lends, in order and without memory: three iterators over slices. Their value in
//! contracts is the list that is left. Those who implement `Closure` make them, by the numbers of
//! `nodes` and the rows of `record`; `specs/Inside/` says what these and their flags mean.
ghost use Rattle.std.specs.Prelude.{◌≡◌, [], length, IfSome, None, option_copied};
ghost use Rattle.std.specs.List.{last_or};
ghost use Rattle.std.specs.Iterator.{YieldsFirstBy, YieldsFirstRef, item_count};
ghost use Rattle.bundle_doc.specs.Bundle.{doc_id_of};
ghost use Rattle.closure_core.specs.Inside.Nodes.{flags_of, pairs_of, raised_documents, AreNumbers};
ghost use Rattle.closure_core.specs.Inside.Records.{distrusts_of, AreWithin};
ghost use Rattle.closure_core.specs.AcceptedList.{is_within, receipts_in, receipts_within};

use crate::nodes::{document_at, document_with_id};
use crate::record::Record;
use bundle_doc::{DocId, Document};
use fed_config::Seed;
use jwk_set::KeyId;
use receipt_core::Receipt;
use sorted_order::{Lent, Numbers};
use spiffe_name::TrustDomain;
use std::marker::Model;

/// Receipts, in the order of their lines' bytes: all that are lent, or those of one bucket.
#[derive(Drop)]
pub struct Receipts<'a> {
    lent: Lent<'a, Receipt>,
    bucket: Option<u8>,
}

/// Accepted documents of one domain, each once, sorted by rank, with an absent one first, and then
/// by canonical text.
#[derive(Drop)]
pub struct Accepted<'a> {
    numbers: Numbers<'a>,
    counts: &'a [u32],
    seeds: &'a [Seed],
    receipts: &'a [Receipt],
}

/// Records of distrust, sorted by key id and then by domain.
#[derive(Drop)]
pub struct Distrusts<'a> {
    domains: &'a [TrustDomain],
    rest: &'a [Record],
}

impl<'a> Model for Receipts<'a> {
    ghost use Rattle.std.specs.Prelude.{List};
    ghost use Rattle.receipt_core.specs.Receipt.{Receipt};
    ghost use Rattle.closure_core.specs.AcceptedList.{receipts_within};

    ghost Value = { List Receipt };

    ghost view = { λ a. receipts_within a.bucket a.lent };
}

impl<'a> Model for Accepted<'a> {
    ghost use Rattle.std.specs.Prelude.{List};
    ghost use Rattle.bundle_doc.specs.Bundle.{Bundle};
    ghost use Rattle.closure_core.specs.Inside.Nodes.{flags_of, pairs_of, raised_documents};
    ghost use Rattle.closure_core.specs.Inside.Nodes.{AreNumbers};

    ghost Value = { List Bundle };

    ghost view = { λ a. raised_documents (pairs_of a.seeds.now a.receipts.now)
        (flags_of a.counts.now) a.numbers };

    ghost invariant = { λ a. AreNumbers (pairs_of a.seeds.now a.receipts.now)
        (flags_of a.counts.now) a.numbers };
}

impl<'a> Model for Distrusts<'a> {
    ghost use Rattle.std.specs.Prelude.{List, length, ◌<◌};
    ghost use Rattle.receipt_core.specs.declared.distrust.Distrust.{Distrust};
    ghost use Rattle.closure_core.specs.Inside.Records.{distrusts_of, AreWithin};

    ghost Value = { List Distrust };

    ghost view = { λ a. distrusts_of a.domains.now a.rest.now };

    ghost invariant = { λ a. AreWithin (length a.domains.now) a.rest.now };
}

impl<'a> Receipts<'a> {
    /// Receipts that are lent, for those who implement [`crate::Closure`].
    pub fn new(lent: Lent<'a, Receipt>) -> Self
        ensures { result ≡ lent.entry }
    {
        Receipts { lent, bucket: None }
    }

    /// Those of the receipts that are lent whose id begins with the byte, for those who implement
    /// [`crate::Closure`]. The id of each receipt is looked at, and computed if it does not keep
    /// it.
    pub fn of_bucket(lent: Lent<'a, Receipt>, bucket: u8) -> Self
        ensures { result ≡ receipts_in bucket lent.entry }
    {
        Receipts {
            lent,
            bucket: Some(bucket),
        }
    }
}

impl<'a> Accepted<'a> {
    /// The documents with these numbers whose counts are not 0, for those who implement
    /// [`crate::Closure`].
    pub fn new(
        numbers: Numbers<'a>,
        counts: &'a [u32],
        seeds: &'a [Seed],
        receipts: &'a [Receipt],
    ) -> Self
        requires { AreNumbers (pairs_of seeds.now receipts.now) (flags_of counts.now) numbers }
        ensures { result ≡ raised_documents (pairs_of seeds.now receipts.now) (flags_of counts.now)
            numbers.entry }
    {
        Accepted {
            numbers,
            counts,
            seeds,
            receipts,
        }
    }

    /// The next document, as [`Iterator::next`] lends it, and its id as one of this domain. If
    /// the documents are of the domain, the ids of most are at hand; any other is computed, which
    /// takes time for each byte of its document.
    pub fn next_with_id(&mut self, domain: &TrustDomain) -> Option<(&'a Document, DocId)>
        ensures next { YieldsFirstBy (λ found. found.0.now) (λ rest. rest) self.old result
            self.new }
        ensures id { IfSome result (λ found. found.1.0 ≡ doc_id_of domain.now found.0.now) }
    {
        while let Some(number) = self.numbers.next() {
            if self.counts[number as usize] != 0 {
                return Some(document_with_id(self.seeds, self.receipts, number as usize, domain));
            }
        }
        None
    }

    /// The last of the documents that are left, which is the greatest of them. It looks from the
    /// end, so it passes over no other accepted document.
    pub fn into_last(self) -> Option<&'a Document>
        ensures { option_copied result ≡ last_or None self.entry }
    {
        let mut numbers = self.numbers.backward();
        while let Some(number) = numbers.next() {
            if self.counts[number as usize] != 0 {
                return Some(document_at(self.seeds, self.receipts, number as usize));
            }
        }
        None
    }
}

impl<'a> Distrusts<'a> {
    /// These records, whose domains are named by their numbers, for those who implement
    /// [`crate::Closure`].
    pub fn new(domains: &'a [TrustDomain], records: &'a [Record]) -> Self
        requires { AreWithin (length domains.now) records.now }
        ensures { result ≡ distrusts_of domains.now records.now }
    {
        Distrusts {
            domains,
            rest: records,
        }
    }

    /// None of them.
    pub fn emptied(self) -> Self
        ensures { result ≡ [] }
    {
        Distrusts {
            domains: self.domains,
            rest: &self.rest[..0],
        }
    }
}

impl<'a> Iterator for Receipts<'a> {
    type Item = &'a Receipt;

    ghost next_gives = { YieldsFirstRef (λ rest. rest) };

    ghost remaining = { item_count (λ rest. rest) };

    fn next(&mut self) -> Option<&'a Receipt> {
        while let Some(receipt) = self.lent.next() {
            if is_within(self.bucket, receipt) {
                return Some(receipt);
            }
        }
        None
    }
}

impl<'a> Iterator for Accepted<'a> {
    type Item = &'a Document;

    ghost next_gives = { YieldsFirstRef (λ rest. rest) };

    ghost remaining = { item_count (λ rest. rest) };

    fn next(&mut self) -> Option<&'a Document> {
        while let Some(number) = self.numbers.next() {
            if self.counts[number as usize] != 0 {
                return Some(document_at(self.seeds, self.receipts, number as usize));
            }
        }
        None
    }
}

impl<'a> Iterator for Distrusts<'a> {
    type Item = (&'a TrustDomain, &'a KeyId);

    ghost next_gives = { YieldsFirstBy (λ item. record { domain = item.0.now; key = item.1.now })
        (λ rest. rest) };

    ghost remaining = { item_count (λ rest. rest) };

    fn next(&mut self) -> Option<(&'a TrustDomain, &'a KeyId)> {
        let (first, others) = self.rest.split_first()?;
        self.rest = others;
        Some((&self.domains[first.domain as usize], &first.key))
    }
}

/// Whether the receipt is one of the bucket, or no bucket is asked for.
fn is_within(bucket: Option<u8>, receipt: &Receipt) -> bool
    ensures { result ≡ is_within bucket receipt.now }
{
    match bucket {
        Some(bucket) => receipt.id().0[0] == bucket,
        None => true,
    }
}
