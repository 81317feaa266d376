//! The records of distrust that a closure keeps: a sorted vector of at most a given number, whose
//! room is made at the start.
ghost use Rattle.std.specs.Prelude.{◌≡◌, ◌+◌, ◌≤◌, ◌↔◌, [], length, Contains, IfOk, IsTrue};
ghost use Rattle.std.specs.List.Sorted.{IsStrictlySortedBy};
ghost use Rattle.closure_parts.specs.Records.{InsertsRecord, record_cmp};

use closure_core::Record;
use std::alloc::{AllocError, Global};
use std::marker::Model;

/// What came of a record of distrust.
#[derive(Drop)]
pub enum Insertion {
    /// It was not held, and is held now.
    Added,
    /// It was held.
    There,
    /// It is not held, and there may be no more.
    Full,
}

/// Records of distrust in their order, with room for the most that there may be.
#[derive(Drop)]
pub(crate) struct Records {
    items: Vec<Record>,
    limit: usize,
}

impl Model for Records {
    ghost use Rattle.std.specs.Prelude.{vec_capacity};
    ghost use Rattle.closure_parts.specs.Records.{AreRecords, KeptRecords};

    ghost Value = { KeptRecords };

    ghost view = { λ r. record { records = r.items.items; limit = r.limit } };

    ghost invariant = { λ r. AreRecords (record { records = r.items.items; limit = r.limit })
        (vec_capacity r.items) };
}

impl Records {
    pub(crate) fn new(alloc: Global, limit: usize) -> Result<Records, AllocError>
        ensures { IfOk result (λ r. r ≡ record { records = []; limit = limit }) }
    {
        Ok(Records {
            items: Vec::with_capacity(alloc, limit)?,
            limit,
        })
    }

    pub(crate) fn as_slice(&self) -> &[Record]
        ensures records { result.now ≡ self.now.records }
        ensures rising { IsStrictlySortedBy record_cmp self.now.records }
        ensures few { length self.now.records ≤ self.now.limit }
    {
        self.items.as_slice()
    }

    pub(crate) fn holds(&self, sought: &Record) -> bool
        ensures { IsTrue result ↔ Contains self.now.records sought.now }
    {
        self.items.binary_search(sought).is_ok()
    }

    /// How many more there may be.
    pub(crate) fn left(&self) -> usize
        ensures { length self.now.records + result ≡ self.now.limit }
    {
        self.limit - self.items.len()
    }

    pub(crate) fn alloc(&self) -> Global {
        *self.items.allocator()
    }

    /// Takes no memory.
    pub(crate) fn add(&mut self, entry: Record) -> Insertion
        ensures { InsertsRecord self.old entry self.new result }
    {
        match self.items.binary_search(&entry) {
            Ok(_) => Insertion::There,
            Err(_) if self.items.len() >= self.limit => Insertion::Full,
            Err(place) => {
                // There is room, so it is never refused.
                let _ = self.items.insert(place, entry);
                Insertion::Added
            }
        }
    }
}
