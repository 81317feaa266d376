//! Answers.
ghost use Rattle.std.specs.Prelude.{◌≡◌, [], length, map};
ghost use Rattle.std.specs.Iterator.{YieldsFirstRef, item_count};
ghost use Rattle.std.specs.List.Sorted.{IsStrictlySortedBy};
ghost use Rattle.replica_core.specs.State.{id_cmp};
ghost use Rattle.replica_core.specs.Lacking.{not_named};

use crate::asking::is_named;
use closure_core::{Distrusts, Receipts};
use fed_config::ConfigId;
use receipt_core::{Receipt, ReceiptId};
use std::marker::Model;

/// An answer: the receipts of a bucket that a have does not name, and all records of distrust
/// of the answerer.
#[derive(Drop)]
pub struct Answer<'a> {
    pub(crate) bucket: u8,
    pub(crate) config: ConfigId,
    pub(crate) count: usize,
    pub(crate) records: usize,
    pub(crate) distrusts: Distrusts<'a>,
    pub(crate) receipts: Lacking<'a>,
}

/// Receipts that a have does not name, in the order of their lines' bytes.
#[derive(Drop)]
pub struct Lacking<'a> {
    receipts: Receipts<'a>,
    ids: &'a [ReceiptId],
}

impl<'a> Model for Answer<'a> {
    ghost use Rattle.std.specs.Prelude.{length};
    ghost use Rattle.replica_core.specs.Session.{GiveMessage, HasCounts};

    ghost Value = { GiveMessage };

    ghost view = { λ a. record {
      bucket = a.bucket;
      config = a.config.0;
      content = record { held = a.receipts; records = a.distrusts };
    } };

    ghost invariant = { λ a. HasCounts (record { held = a.receipts; records = a.distrusts }) a.count
        a.records };
}

impl<'a> Model for Lacking<'a> {
    ghost use Rattle.std.specs.Prelude.{List, map};
    ghost use Rattle.std.specs.List.Sorted.{IsStrictlySortedBy};
    ghost use Rattle.receipt_core.specs.Receipt.{Receipt};
    ghost use Rattle.replica_core.specs.State.{id_cmp};
    ghost use Rattle.replica_core.specs.Lacking.{not_named};

    ghost Value = { List Receipt };

    ghost view = { λ a. not_named (map (λ id. id.0) a.ids.now) a.receipts };

    ghost invariant = { λ a. IsStrictlySortedBy id_cmp (map (λ id. id.0) a.ids.now) };
}

impl<'a> Answer<'a> {
    /// The bucket.
    pub fn bucket(&self) -> u8
        ensures { result ≡ self.now.bucket }
    {
        self.bucket
    }

    /// The digest of the answerer's configuration.
    pub fn config(&self) -> ConfigId
        ensures { result.0 ≡ self.now.config }
    {
        self.config
    }

    /// How many receipts it has.
    pub fn receipt_count(&self) -> usize
        ensures { result ≡ length self.now.content.held }
    {
        self.count
    }

    /// How many records of distrust it has.
    pub fn record_count(&self) -> usize
        ensures { result ≡ length self.now.content.records }
    {
        self.records
    }

    /// The same receipts, and no record.
    pub fn without_records(self) -> Self
        ensures { result ≡ record {
          bucket = self.entry.bucket;
          config = self.entry.config;
          content = record { held = self.entry.content.held; records = [] };
        } }
    {
        Answer {
            records: 0,
            distrusts: self.distrusts.emptied(),
            ..self
        }
    }

    /// The records of distrust, and the receipts, each in their order.
    pub fn into_parts(self) -> (Distrusts<'a>, Lacking<'a>)
        ensures records { result.0 ≡ self.entry.content.records }
        ensures receipts { result.1 ≡ self.entry.content.held }
    {
        (self.distrusts, self.receipts)
    }
}

impl<'a> Lacking<'a> {
    pub(crate) fn new(receipts: Receipts<'a>, ids: &'a [ReceiptId]) -> Self
        requires { IsStrictlySortedBy id_cmp (map (λ id. id.0) ids.now) }
        ensures { result ≡ not_named (map (λ id. id.0) ids.now) receipts.entry }
    {
        Lacking { receipts, ids }
    }
}

impl<'a> Iterator for Lacking<'a> {
    type Item = &'a Receipt;

    ghost next_gives = { YieldsFirstRef (λ rest. rest) };

    ghost remaining = { item_count (λ rest. rest) };

    fn next(&mut self) -> Option<&'a Receipt> {
        while let Some(receipt) = self.receipts.next() {
            if !is_named(self.ids, &receipt.id()) {
                return Some(receipt);
            }
        }
        None
    }
}
