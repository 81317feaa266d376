//! The closure that operators run.
ghost use Rattle.std.specs.Prelude.{◌≡◌, [], IsOk, OnOk, IfOk, IfSome};
ghost use Rattle.closure_core.specs.Changes.{empty_of, Takes, TakesDistrust, Merges};
ghost use Rattle.closure_core.specs.Refusals.{IsRoomier};
ghost use Rattle.trust_closure.specs.Work.{Works, MergesOnce};

use crate::changes::{FreeRoom, reserve, take_into};
use crate::grow::{retract, retract_all};
use crate::seeds::add_seeds;
use bundle_doc::Document;
use closure_core::{
    Accepted, Closure, Distrusted, Distrusts, NoMemory, Receipts, Refused, TakeError, Taken,
};
use closure_parts::{Held, Mergeable, Pairs, merge_into};
use fed_config::Config;
use jwk_set::KeyId;
use label_index::LabelIndex;
use receipt_core::Receipt;
use sorted_order::Order;
use spiffe_name::TrustDomain;
use std::alloc::Global;
use std::marker::Model;
use wait_index::Reach;

/// A closure over an index of its receipts: a take within room looks at the receipt's own edges and
/// at what is accepted from now on, and never at all receipts.
#[derive(Drop)]
pub struct IndexedClosure {
    held: Held,
    pairs: Pairs,
    label_index: LabelIndex,
    spare: FreeRoom,

    /// How many edges the last close looked at.
    work: usize,
}

impl Model for IndexedClosure {
    ghost use Rattle.trust_closure.specs.Inside.Indexed.{Indexed, IsIndexedClosure, indexed_of};

    ghost Value = { Indexed };

    ghost view = { λ c. indexed_of c.held c.label_index c.spare c.work };

    ghost invariant = { λ c. IsIndexedClosure c.held c.pairs c.label_index c.spare };
}

impl IndexedClosure {
    ghost use Rattle.trust_closure.specs.Inside.Indexed.{IsIndexOf, GrowsAtItsEnd};

    /// A closure of the configuration that holds no receipt and no record of distrust. It makes
    /// room for all records.
    ///
    /// # Errors
    /// Memory ran out.
    pub fn new(alloc: Global, config: &Config) -> Result<Self, NoMemory>
        ensures empty { IfOk result (λ c. c.state.meaning ≡ empty_of config.now) }
        ensures work { IfOk result (λ c. c.work ≡ 0) }
    {
        IndexedClosure::begin(alloc, config, None)
    }

    /// The same, which also keeps the ids of its receipts and their order by bucket, so that
    /// [`crate::Closure::receipts_of`] looks only at the receipts of the bucket.
    pub(crate) fn for_exchange(alloc: Global, config: &Config) -> Result<Self, NoMemory>
        ensures empty { IfOk result (λ c. c.state.meaning ≡ empty_of config.now) }
        ensures work { IfOk result (λ c. c.work ≡ 0) }
    {
        IndexedClosure::begin(alloc, config, Some(Order::new(alloc)))
    }

    /// Holds only the configured documents. The order of buckets is this, if it is to be kept.
    fn begin(alloc: Global, config: &Config, buckets: Option<Order>) -> Result<Self, NoMemory>
        requires { IfSome buckets (λ order. order.items ≡ []) }
        ensures empty { IfOk result (λ c. c.state.meaning ≡ empty_of config.now) }
        ensures work { IfOk result (λ c. c.work ≡ 0) }
    {
        let held = Held::new(alloc, config, buckets)?;
        let mut pairs = Pairs::new(alloc);
        let mut label_index = LabelIndex::new(alloc);
        let _domains = held.config().domains();
        add_seeds(
            alloc,
            &held,
            &mut pairs,
            &mut label_index,
            held.config().seeds(),
        )?;
        pairs.raise(label_index.reach().marked());
        Ok(IndexedClosure {
            held,
            pairs,
            label_index,
            spare: FreeRoom {
                receipts: 0,
                offers: 0,
            },
            work: 0,
        })
    }

    /// Takes a receipt: it is held from now on, whether or not an accepted document vouches for it.
    /// A receipt that was not held comes last, and what was marked remains marked, in its place:
    /// the index is not rebuilt.
    pub fn take(&mut self, receipt: Receipt) -> Result<Taken, Refused>
        ensures takes { Takes self.old.state receipt self.new.state result }
        ensures grows { GrowsAtItsEnd self.old receipt self.new result }
        ensures same_work { self.new.work ≡ self.old.work }
    {
        take_into(
            &mut self.held,
            &mut self.pairs,
            &mut self.label_index,
            &mut self.spare,
            receipt,
        )
    }

    /// Takes all receipts and all records of distrust of another closure, or none, and returns how
    /// many receipts were not held.
    ///
    /// # Errors
    /// What is held is as before. The causes and their order are those of
    /// [`crate::Closure::merge`].
    pub fn merge(&mut self, other: &Self) -> Result<usize, TakeError>
        ensures merges { Merges self.old.state other.now.state.meaning self.new.state result }

        // However many the records are, their labels are closed together.
        ensures work { MergesOnce self.old other.now.state.meaning self.new result }
    {
        merge_into(self, other)
    }

    /// Distrusts a key in a domain: it vouches for nothing there any more. It takes no memory. All
    /// labels of the key are closed together, and [`work`](IndexedClosure::work) says how many
    /// edges were looked at.
    pub fn distrust(&mut self, domain: &TrustDomain, key: KeyId) -> Result<Distrusted, TakeError>
        ensures meaning { TakesDistrust self.old.state.meaning
            (record { domain = domain.now; key = key }) self.new.state.meaning result }
        ensures work { Works self.old (record { domain = domain.now; key = key }) self.new result }
        ensures room { self.new.state.room ≡ self.old.state.room }
    {
        retract(
            &mut self.held,
            &mut self.pairs,
            &mut self.label_index,
            &mut self.work,
            domain,
            key,
        )
    }

    /// Makes room for this many more receipts, with this many offers together.
    pub fn try_reserve(&mut self, receipts: usize, offers: usize) -> Result<(), NoMemory>
        ensures meaning { self.new.state.meaning ≡ self.old.state.meaning }
        ensures room { IsRoomier self.old.state.room self.new.state.room }
        ensures ok { OnOk result
            (IsRoomier (record { receipts = receipts; offers = offers }) self.new.state.room) }
        ensures within { IsRoomier (record { receipts = receipts; offers = offers })
            self.old.state.room → IsOk result }
        ensures arrived { self.new.arrived ≡ self.old.arrived }
        ensures net { self.new.wired.net ≡ self.old.wired.net }
        ensures marked { self.new.wired.marked ≡ self.old.wired.marked }
        ensures same_work { self.new.work ≡ self.old.work }
    {
        reserve(
            &mut self.held,
            &mut self.pairs,
            &mut self.label_index,
            &mut self.spare,
            receipts,
            offers,
        )
    }

    /// How many edges the last `distrust` or `merge` that held a new record of distrust looked at.
    /// It is 0 if there was none yet, or no label of the distrusted keys was open. An edge that was
    /// looked at twice counts twice.
    pub fn work(&self) -> usize
        ensures { result ≡ self.now.work }
    {
        self.work
    }

    /// The index.
    pub fn index(&self) -> &Reach
        ensures net { result.now.net ≡ self.now.wired.net }
        ensures marked { result.now.marked ≡ self.now.wired.marked }
        ensures is { IsIndexOf self.now }
    {
        let _config = self.held.config();
        self.label_index.reach()
    }
}

impl Closure for IndexedClosure {
    ghost state = { λ c. c.state };

    fn new(alloc: Global, config: &Config) -> Result<Self, NoMemory> {
        IndexedClosure::new(alloc, config)
    }

    fn config(&self) -> &Config {
        self.held.config()
    }

    fn take(&mut self, receipt: Receipt) -> Result<Taken, Refused> {
        self.take(receipt)
    }

    fn merge(&mut self, other: &Self) -> Result<usize, TakeError> {
        self.merge(other)
    }

    fn distrust(&mut self, domain: &TrustDomain, key: KeyId) -> Result<Distrusted, TakeError> {
        self.distrust(domain, key)
    }

    fn is_accepted(&self, domain: &TrustDomain, document: &Document) -> bool {
        let seeds = self.held.config().seeds();
        self.pairs
            .is_raised(seeds, self.held.arrived(), domain, document)
    }

    fn accepted(&self, domain: &TrustDomain) -> Accepted<'_> {
        let seeds = self.held.config().seeds();
        self.pairs.accepted(seeds, self.held.arrived(), domain)
    }

    fn receipts(&self) -> Receipts<'_> {
        self.held.receipts()
    }

    fn receipts_of(&self, bucket: u8) -> Receipts<'_> {
        self.held.receipts_of(bucket)
    }

    fn distrusts(&self) -> Distrusts<'_> {
        self.held.distrusts()
    }

    fn holds(&self, receipt: &Receipt) -> bool {
        self.held.holds(receipt)
    }

    fn is_distrusted(&self, domain: &TrustDomain, key: KeyId) -> bool {
        self.held.is_distrusted(domain, key)
    }

    fn receipt_count(&self) -> usize {
        let _config = self.held.config();
        self.held.arrived().len()
    }

    fn pending_count(&self) -> usize {
        let config = self.held.config();
        let _domains = config.domains();
        let nodes = config.seeds().len() + self.held.arrived().len();
        nodes - self.label_index.reach().marked().len()
    }

    fn try_reserve(&mut self, receipts: usize, offers: usize) -> Result<(), NoMemory> {
        self.try_reserve(receipts, offers)
    }

    fn room(&self) -> (usize, usize) {
        (self.spare.receipts, self.spare.offers)
    }
}

impl Mergeable for IndexedClosure {
    ghost use Rattle.trust_closure.specs.Work.{IsWorkOf};

    ghost state = { λ c. c.state };

    ghost work_done = { λ c. c.work };

    ghost IsWork = { IsWorkOf };

    fn held(&self) -> &Held {
        &self.held
    }

    fn take_one(&mut self, receipt: Receipt) -> Result<Taken, Refused> {
        self.take(receipt)
    }

    fn distrust_all(&mut self, records: Distrusts<'_>) {
        retract_all(
            &mut self.held,
            &mut self.pairs,
            &mut self.label_index,
            &mut self.work,
            records,
        );
    }

    fn make_room(&mut self, receipts: usize, offers: usize) -> Result<(), NoMemory> {
        self.try_reserve(receipts, offers)
    }
}
