//! The closure of a replica that exchanges receipts: one over an index, which also keeps the ids of
//! its receipts and their order by bucket.
ghost use Rattle.std.specs.Prelude.{◌≡◌, IsOk, OnOk, IfOk};
ghost use Rattle.closure_core.specs.Changes.{empty_of, Takes, TakesDistrust, Merges};
ghost use Rattle.closure_core.specs.Refusals.{IsRoomier};
ghost use Rattle.trust_closure.specs.Work.{Works, MergesOnce};

use crate::closure::IndexedClosure;
use bundle_doc::Document;
use closure_core::{
    Accepted, Closure, Distrusted, Distrusts, NoMemory, Receipts, Refused, TakeError, Taken,
};
use fed_config::Config;
use jwk_set::KeyId;
use receipt_core::Receipt;
use spiffe_name::TrustDomain;
use std::alloc::Global;
use std::marker::Model;
use wait_index::Reach;

/// An [`IndexedClosure`] for those who ask and answer other replicas. It computes the id of each
/// receipt once, when that is taken, and keeps it with the receipt and in an order by bucket: so
/// [`Closure::receipts_of`] lends the receipts of a bucket without a look at any other, and their
/// ids are at hand. The other closures compute the ids of all receipts for each bucket.
#[derive(Drop)]
pub struct ExchangeClosure {
    closure: IndexedClosure,
}

impl Model for ExchangeClosure {
    ghost use Rattle.trust_closure.specs.Inside.Indexed.{Indexed};

    ghost Value = { Indexed };

    ghost view = { λ c. c.closure };
}

impl ExchangeClosure {
    ghost use Rattle.trust_closure.specs.Inside.Indexed.{IsIndexOf, GrowsAtItsEnd};

    /// A closure of the configuration that holds no receipt and no record of distrust. It makes
    /// room for all records.
    ///
    /// # Errors
    /// Memory ran out.
    pub fn new(alloc: Global, config: &Config) -> Result<Self, NoMemory>
        ensures empty { IfOk result (λ c. c.state.meaning ≡ empty_of config.now) }
        ensures work { IfOk result (λ c. c.work ≡ 0) }
    {
        Ok(ExchangeClosure {
            closure: IndexedClosure::for_exchange(alloc, config)?,
        })
    }

    /// Takes a receipt, as [`IndexedClosure::take`] does: one that was not held comes last, and the
    /// index is not rebuilt.
    pub fn take(&mut self, receipt: Receipt) -> Result<Taken, Refused>
        ensures takes { Takes self.old.state receipt self.new.state result }
        ensures grows { GrowsAtItsEnd self.old receipt self.new result }
        ensures same_work { self.new.work ≡ self.old.work }
    {
        self.closure.take(receipt)
    }

    /// Takes all receipts and all records of distrust of another closure, or none, and returns how
    /// many receipts were not held. The labels of all records are closed together.
    ///
    /// # Errors
    /// What is held is as before. The causes and their order are those of [`Closure::merge`].
    pub fn merge(&mut self, other: &Self) -> Result<usize, TakeError>
        ensures merges { Merges self.old.state other.now.state.meaning self.new.state result }
        ensures work { MergesOnce self.old other.now.state.meaning self.new result }
    {
        self.closure.merge(&other.closure)
    }

    /// Distrusts a key in a domain. It takes no memory. All labels of the key are closed together,
    /// and [`work`](ExchangeClosure::work) says how many edges were looked at.
    pub fn distrust(&mut self, domain: &TrustDomain, key: KeyId) -> Result<Distrusted, TakeError>
        ensures meaning { TakesDistrust self.old.state.meaning
            (record { domain = domain.now; key = key }) self.new.state.meaning result }
        ensures work { Works self.old (record { domain = domain.now; key = key }) self.new result }
        ensures room { self.new.state.room ≡ self.old.state.room }
    {
        self.closure.distrust(domain, key)
    }

    /// Makes room for this many more receipts, with this many offers together.
    pub fn try_reserve(&mut self, receipts: usize, offers: usize) -> Result<(), NoMemory>
        ensures meaning { self.new.state.meaning ≡ self.old.state.meaning }
        ensures room { IsRoomier self.old.state.room self.new.state.room }
        ensures ok { OnOk result
            (IsRoomier (record { receipts = receipts; offers = offers }) self.new.state.room) }
        ensures within { IsRoomier (record { receipts = receipts; offers = offers })
            self.old.state.room → IsOk result }
        ensures arrived { self.new.arrived ≡ self.old.arrived }
        ensures net { self.new.wired.net ≡ self.old.wired.net }
        ensures marked { self.new.wired.marked ≡ self.old.wired.marked }
        ensures same_work { self.new.work ≡ self.old.work }
    {
        self.closure.try_reserve(receipts, offers)
    }

    /// How many edges the last `distrust` or `merge` that held a new record of distrust looked at,
    /// as [`IndexedClosure::work`] says it.
    pub fn work(&self) -> usize
        ensures { result ≡ self.now.work }
    {
        self.closure.work()
    }

    /// The index.
    pub fn index(&self) -> &Reach
        ensures net { result.now.net ≡ self.now.wired.net }
        ensures marked { result.now.marked ≡ self.now.wired.marked }
        ensures is { IsIndexOf self.now }
    {
        self.closure.index()
    }
}

impl Closure for ExchangeClosure {
    ghost state = { λ c. c.state };

    fn new(alloc: Global, config: &Config) -> Result<Self, NoMemory> {
        ExchangeClosure::new(alloc, config)
    }

    fn config(&self) -> &Config {
        self.closure.config()
    }

    fn take(&mut self, receipt: Receipt) -> Result<Taken, Refused> {
        self.take(receipt)
    }

    fn merge(&mut self, other: &Self) -> Result<usize, TakeError> {
        self.merge(other)
    }

    fn distrust(&mut self, domain: &TrustDomain, key: KeyId) -> Result<Distrusted, TakeError> {
        self.distrust(domain, key)
    }

    fn is_accepted(&self, domain: &TrustDomain, document: &Document) -> bool {
        self.closure.is_accepted(domain, document)
    }

    fn accepted(&self, domain: &TrustDomain) -> Accepted<'_> {
        self.closure.accepted(domain)
    }

    fn receipts(&self) -> Receipts<'_> {
        self.closure.receipts()
    }

    fn receipts_of(&self, bucket: u8) -> Receipts<'_> {
        self.closure.receipts_of(bucket)
    }

    fn distrusts(&self) -> Distrusts<'_> {
        self.closure.distrusts()
    }

    fn holds(&self, receipt: &Receipt) -> bool {
        self.closure.holds(receipt)
    }

    fn is_distrusted(&self, domain: &TrustDomain, key: KeyId) -> bool {
        self.closure.is_distrusted(domain, key)
    }

    fn receipt_count(&self) -> usize {
        self.closure.receipt_count()
    }

    fn pending_count(&self) -> usize {
        self.closure.pending_count()
    }

    fn try_reserve(&mut self, receipts: usize, offers: usize) -> Result<(), NoMemory> {
        self.try_reserve(receipts, offers)
    }

    fn room(&self) -> (usize, usize) {
        self.closure.room()
    }
}
