//! What the lines of answers bring that was not held. Records of distrust wait, so that those that
//! come together are taken together.
ghost use Rattle.std.specs.Prelude.{◌≡◌, [], Contains, IsTrue};
ghost use Rattle.std.specs.declared.cmp.Ordering.TheVariants.{Less};
ghost use Rattle.std.specs.List.{AllByRecursion};
ghost use Rattle.std.specs.List.Sorted.{IsStrictlySortedBy};
ghost use Rattle.receipt_core.specs.Receipt.{distrust_cmp};

use crate::new_entry::take_new;
use closure_core::Closure;
use fed_config::Config;
use receipt_core::{Distrust, record_limit};
use replica_core::{Entry, SyncError, distrust_all};
use replica_journal::push_record;
use std::cmp::Ordering;

/// What lines bring that was not held.
///
/// Records that come together wait until [`News::settle`] takes them by one merge (D-436). One
/// after another, each might look at every edge again.
#[derive(Drop)]
pub(crate) struct News {
    // The lines of what is new are appended to it.
    journal: Vec<u8>,
    // The records that wait, sorted.
    later: Vec<Distrust>,
    // How many more have a place.
    free: usize,
}

impl News {
    ghost use Rattle.replica_core.specs.declared.entry.Entry.TheVariants.{Record};
    ghost use Rattle.replica_texts.specs.SoleLines.{IsWellFormed};
    ghost use Rattle.replica_sync.specs.Inside.Waiting.{IsEmptyNews, MayWait, TakesNews, Waits};
    ghost use Rattle.replica_sync.specs.Inside.Waiting.{held_with};

    /// Nothing yet. What is new is appended to the journal.
    pub(crate) fn new(journal: Vec<u8>) -> News
        ensures journal { result.journal ≡ journal }
        ensures empty { IsEmptyNews result }
    {
        let alloc = *journal.allocator();
        News {
            journal,
            later: Vec::new(alloc),
            free: 0,
        }
    }

    /// The journal.
    pub(crate) fn into_journal(self) -> Vec<u8>
        ensures { result ≡ self.journal }
    {
        self.journal
    }

    /// Takes what the line with this number says. If it was not held, its line is appended to the
    /// journal. Returns how many receipts are held now and were not.
    pub(crate) fn take<C: Closure>(
        &mut self,
        closure: &mut C,
        number: u64,
        entry: Entry,
    ) -> Result<u64, SyncError>
        requires form { IsWellFormed entry }
        requires waits { Waits (C.state closure.old).meaning self.old }
        ensures { TakesNews (C.state closure.old).meaning self.old number entry
            (C.state closure.new).meaning self.new result }
    {
        match entry {
            Entry::Record(distrust) => self.take_record(closure, number, distrust),
            Entry::Receipt(receipt) => self.take_at_once(closure, number, Entry::Receipt(receipt)),
        }
    }

    // Takes a record, or lets it wait.
    fn take_record<C: Closure>(
        &mut self,
        closure: &mut C,
        number: u64,
        distrust: Distrust,
    ) -> Result<u64, SyncError>
        requires form { IsWellFormed (Record distrust) }
        requires waits { Waits (C.state closure.old).meaning self.old }
        ensures { TakesNews (C.state closure.old).meaning self.old number (Record distrust)
            (C.state closure.new).meaning self.new result }
    {
        receipt_core::laws::sets();
        let _valid = closure.config();
        if closure.is_distrusted(&distrust.domain, distrust.key) {
            return Ok(0);
        }
        self.count_places(closure);
        if self.has_place(closure, &distrust) {
            return self.keep(closure, number, distrust);
        }
        self.take_at_once(closure, number, Entry::Record(distrust))
    }

    // Counts how many records have a place, if none waits.
    fn count_places<C: Closure>(&mut self, closure: &C)
        requires waits { Waits (C.state closure.now).meaning self.old }
        ensures waits { Waits (C.state closure.now).meaning self.new }
        ensures later { self.new.later ≡ self.old.later }
        ensures journal { self.new.journal ≡ self.old.journal }
    {
        if self.later.is_empty() {
            self.free = record_limit(closure.config()) - closure.distrusts().count();
        }
    }

    // Whether the record, which is not held, may wait after those that do.
    fn has_place<C: Closure>(&self, closure: &C, distrust: &Distrust) -> bool
        requires waits { Waits (C.state closure.now).meaning self.now }
        requires unheld { Contains (C.state closure.now).meaning.records distrust.now → ⊥ }
        ensures { IsTrue result → MayWait (C.state closure.now).meaning self.now distrust.now }
    {
        let config = closure.config();
        let _form = config.domains();
        if self.free == 0 {
            return false;
        }
        if !is_above(self.later.as_slice(), distrust) {
            return false;
        }
        config.domain_no(&distrust.domain).is_some()
    }

    // Lets a record wait.
    fn keep<C: Closure>(
        &mut self,
        closure: &C,
        number: u64,
        distrust: Distrust,
    ) -> Result<u64, SyncError>
        requires form { IsWellFormed (Record distrust) }
        requires waits { Waits (C.state closure.now).meaning self.old }
        requires may { MayWait (C.state closure.now).meaning self.old distrust }
        ensures { TakesNews (C.state closure.now).meaning self.old number (Record distrust)
            (C.state closure.now).meaning self.new result }
    {
        receipt_core::laws::sets();
        let _valid = closure.config();
        let alloc = *self.journal.allocator();
        self.later.try_reserve(1)?;
        push_record(alloc, &distrust, &mut self.journal)?;
        self.later.push_reserved(distrust);
        self.free -= 1;
        Ok(0)
    }

    // Takes what the line with this number says, after the records that wait.
    fn take_at_once<C: Closure>(
        &mut self,
        closure: &mut C,
        number: u64,
        entry: Entry,
    ) -> Result<u64, SyncError>
        requires form { IsWellFormed entry }
        requires waits { Waits (C.state closure.old).meaning self.old }
        ensures { TakesNews (C.state closure.old).meaning self.old number entry
            (C.state closure.new).meaning self.new result }
    {
        self.settle(closure);
        let alloc = *self.journal.allocator();
        let taken = take_new(alloc, closure, number, entry, &mut self.journal);
        let _valid = closure.config();
        taken
    }

    /// Takes the records that wait.
    pub(crate) fn settle<C: Closure>(&mut self, closure: &mut C)
        requires waits { Waits (C.state closure.old).meaning self.old }
        ensures meaning { (C.state closure.new).meaning
            ≡ held_with self.old (C.state closure.old).meaning }
        ensures empty { IsEmptyNews self.new }
        ensures waits { Waits (C.state closure.new).meaning self.new }
        ensures journal { self.new.journal ≡ self.old.journal }
    {
        let alloc = *self.journal.allocator();
        distrust_all(alloc, closure, self.later.as_slice());
        self.later.clear();
        self.free = 0;
        let _valid = closure.config();
    }
}

// Whether the record is above all of these, which rise.
fn is_above(later: &[Distrust], distrust: &Distrust) -> bool
    requires { IsStrictlySortedBy distrust_cmp later.now }
    ensures { IsTrue result → AllByRecursion (λ y. distrust_cmp y distrust.now ≡ Less) later.now }
{
    receipt_core::laws::sets();
    match later.last() {
        Some(last) => match last.cmp(distrust) {
            Ordering::Less => true,
            _ => false,
        },
        None => true,
    }
}
