//! What a closure holds: its configuration; its receipts, in an arena by line, and their order by
//! bucket if that is kept; and its records of distrust.
ghost use Rattle.std.specs.Prelude.{◌≡◌, ℕ, ◌+◌, ◌<◌, ◌≤◌, ◌↔◌, [], ◌∷◌, ◌++◌, length, Contains};
ghost use Rattle.std.specs.Prelude.{IsTrue, IsOk, OnOk, IfOk, IfSome, MatchResult};
ghost use Rattle.fed_config.specs.Configuration.{IsConfiguration};
ghost use Rattle.receipt_core.specs.Receipt.{IsReceipt, with_receipt};
ghost use Rattle.receipt_core.specs.Acceptance.{IsFitting, IsMeaning};
ghost use Rattle.closure_core.specs.Refusals.{RefusesFit};
ghost use Rattle.closure_parts.specs.Held.{HeldReceipts, meaning_of, IsAbsent, IsPlaced};
ghost use Rattle.closure_parts.specs.Held.{IsDistrustedIn};
ghost use Rattle.closure_parts.specs.Held.{RefusesNew};
ghost use Rattle.closure_parts.specs.Held.{AddsOrRefuses, addition_result};
ghost use Rattle.closure_core.specs.AcceptedList.{receipts_in};
ghost use Rattle.receipt_core.specs.Limits.{receipt_limit, record_limit};

use crate::probes::{InBucket, OfReceipt, PlaceInBuckets};
use crate::receipt_hint::receipt_hint;
use crate::records::{Insertion, Records};
use closure_core::{Distrusts, NoMemory, Receipts, Record, TakeError, check_fit, record_of};
use fed_config::Config;
use jwk_set::KeyId;
use receipt_core::{Receipt, receipt_limit, record_limit};
use sorted_order::{Arena, Lent, Order};
use spiffe_name::TrustDomain;
use std::alloc::Global;
use std::marker::Model;

/// The place of a receipt that fits among those that are held.
pub enum Lookup {
    /// It is held.
    Present,
    /// It is not held, and its place among the held ones is this.
    Absent(usize),
}

/// The configuration, the receipts in order of arrival with their order by lines, and the records
/// of distrust in their order. If receipts are exchanged, also the order of the receipts by the
/// first byte of their ids, which they keep then.
#[derive(Drop)]
pub struct Held {
    config: Config,
    receipts: Arena<Receipt>,
    buckets: Option<Order>,
    records: Records,
}

impl Model for Held {
    ghost use Rattle.sorted_order.specs.ArenaView.{in_order};
    ghost use Rattle.closure_core.specs.Inside.Records.{distrusts_of};
    ghost use Rattle.closure_parts.specs.Held.{HeldReceipts, IsWellHeld, domains_of};
    ghost use Rattle.closure_parts.specs.Held.{capacity_with};

    ghost Value = { HeldReceipts };

    ghost view = { λ h. record {
      config = h.config;
      arrived = h.receipts.items;
      held = in_order h.receipts;
      records = distrusts_of (domains_of h.config) h.records.records;
      capacity = capacity_with h.receipts.capacity h.buckets;
    } };

    ghost invariant = { λ h. IsWellHeld h.config h.receipts h.buckets h.records };
}

impl Held {
    /// Holds nothing, with room for all records. The order of buckets is this, if it is to be kept.
    ///
    /// # Errors
    /// Memory ran out.
    pub fn new(alloc: Global, config: &Config, buckets: Option<Order>) -> Result<Held, NoMemory>
        requires { IfSome buckets (λ order. order.items ≡ []) }
        ensures { IfOk result (λ h.
            (meaning_of h ≡ record { config = config.now; held = []; records = [] })
            × (h.arrived ≡ [])) }
    {
        // The proof needs this call: it says that the configuration is well formed.
        let _ = config.domains();
        Ok(Held {
            config: config.try_clone(alloc)?,
            receipts: Arena::new(alloc),
            buckets,
            records: Records::new(alloc, record_limit(config))?,
        })
    }

    /// The configuration.
    pub fn config(&self) -> &Config
        ensures config { result.now ≡ self.now.config }
        ensures valid { IsMeaning (meaning_of self.now) }
        ensures form { IsConfiguration self.now.config }
        ensures size { length self.now.arrived ≡ length self.now.held }
    {
        &self.config
    }

    /// Whether the receipt is held, or else its place.
    ///
    /// # Errors
    /// The receipt does not fit, and why [`check_fit`] says. Or it is not held, and there may be no
    /// more: `Full`.
    pub fn standing(&self, receipt: &Receipt) -> Result<Lookup, TakeError>
        ensures { MatchResult result (IsPlaced (meaning_of self.now) receipt.now)
            (RefusesNew (meaning_of self.now) receipt.now) }
    {
        if let Err(why) = check_fit(&self.config, receipt) {
            return Err(why);
        }
        let sought = OfReceipt::new(self.receipts.items(), receipt);
        match self.receipts.find_by_guess(&sought) {
            Ok(_) => Ok(Lookup::Present),
            Err(_) if self.receipts.len() >= receipt_limit(&self.config) => Err(TakeError::Full),
            Err(place) => Ok(Lookup::Absent(place)),
        }
    }

    /// The number of the receipt's domain, for guesses. It is 0 if the configuration does not have
    /// the domain.
    pub fn domain_hint_of(&self, receipt: &Receipt) -> u32 {
        self.domain_hint(receipt.domain())
    }

    /// The same for the domain.
    pub fn domain_hint(&self, domain: &TrustDomain) -> u32 {
        let _domains = self.config.domains();
        match self.config.domain_no(domain) {
            Some(number) => number as u32,
            None => 0,
        }
    }

    /// Makes room for this many more receipts.
    ///
    /// # Errors
    /// Memory ran out. Only the room may have grown. Within room it never does.
    pub fn try_reserve(&mut self, receipts: usize) -> Result<(), NoMemory>
        ensures same { self.new ≡ record self.old { capacity = self.new.capacity } }
        ensures capacity { self.old.capacity ≤ self.new.capacity }
        ensures ok { OnOk result (length self.new.arrived + receipts ≤ self.new.capacity) }
        ensures within { length self.old.arrived + receipts ≤ self.old.capacity → IsOk result }
    {
        self.receipts.try_reserve(receipts)?;
        match &mut self.buckets {
            Some(buckets) => buckets.try_reserve(receipts),
            None => Ok(()),
        }
    }

    /// For how many receipts more there is room.
    pub fn room(&self) -> usize
        ensures { length self.now.arrived + result ≡ self.now.capacity }
    {
        match &self.buckets {
            Some(buckets) => self.receipts.room().min(buckets.room()),
            None => self.receipts.room(),
        }
    }

    /// Holds a receipt that is absent, at its place. There is room for it.
    pub fn insert(&mut self, place: usize, receipt: Receipt)
        requires absent { IsAbsent (meaning_of self.old) receipt place }
        requires room { length self.old.arrived < self.old.capacity }
        ensures { self.new ≡ record self.old {
          arrived = self.old.arrived ++ receipt ∷ [];
          held = with_receipt receipt self.old.held;
        } }
    {
        let hint = receipt_hint(self.receipts.items(), &receipt);
        match &mut self.buckets {
            Some(buckets) => {
                let receipt = receipt.keep_id();
                let spot = buckets.before(&PlaceInBuckets::new(self.receipts.items(), &receipt));
                let number = self.receipts.insert_with_hint(place, receipt, hint);
                buckets.insert(spot, number);
            }
            None => {
                self.receipts.insert_with_hint(place, receipt, hint);
            }
        }
    }

    /// Holds a record of distrust. It takes no memory.
    ///
    /// # Errors
    /// The domain is not one of the configuration (`UnknownDomain`), or the record is new, and
    /// there may be no more (`Full`). Nothing has changed then.
    pub fn add_record(&mut self, domain: &TrustDomain, key: KeyId) -> Result<Insertion, TakeError>
        ensures meaning { AddsOrRefuses (meaning_of self.old)
            (record { domain = domain.now; key = key }) (meaning_of self.new) result }
        ensures arrived { self.new.arrived ≡ self.old.arrived }
        ensures capacity { self.new.capacity ≡ self.old.capacity }
    {
        let Some(number) = self.config.domain_no(domain) else {
            return Err(TakeError::UnknownDomain);
        };
        answer_of(self.records.add(record_of(&key.0, number)))
    }

    /// Whether the receipt is held.
    pub fn holds(&self, receipt: &Receipt) -> bool
        ensures { IsTrue result ↔ Contains self.now.held receipt.now }
    {
        let _form = receipt.domain();
        let sought = OfReceipt::new(self.receipts.items(), receipt);
        self.receipts.find_by_guess(&sought).is_ok()
    }

    /// The receipts in order of arrival.
    pub fn arrived(&self) -> &[Receipt]
        ensures { result.now ≡ self.now.arrived }
    {
        self.receipts.items()
    }

    /// The receipts in the order of their lines.
    pub fn receipts(&self) -> Receipts<'_>
        ensures { result ≡ self.now.held }
    {
        Receipts::new(self.receipts.from(0))
    }

    /// The receipts of a bucket. If the order of buckets is not kept, all are looked through.
    pub fn receipts_of(&self, bucket: u8) -> Receipts<'_>
        ensures { result ≡ receipts_in bucket self.now.held }
    {
        let items = self.receipts.items();
        match &self.buckets {
            Some(buckets) => {
                let numbers = buckets.matching(&InBucket::new(items, bucket));
                Receipts::new(Lent::new(numbers, items))
            }
            None => Receipts::of_bucket(self.receipts.from(0), bucket),
        }
    }

    /// The records of distrust in order.
    pub fn distrusts(&self) -> Distrusts<'_>
        ensures { result ≡ self.now.records }
    {
        Distrusts::new(self.config.domains(), self.records.as_slice())
    }

    /// How many more receipts there may be.
    pub(crate) fn receipts_left(&self) -> usize
        ensures { length self.now.held + result ≡ receipt_limit self.now.config }
    {
        let _valid = self.config();
        receipt_limit(&self.config) - self.receipts.len()
    }

    /// How many more records of distrust there may be.
    pub(crate) fn records_left(&self) -> usize
        ensures { length self.now.records + result ≡ record_limit self.now.config }
    {
        self.records.left()
    }

    pub(crate) fn alloc(&self) -> Global {
        self.records.alloc()
    }

    /// Whether the key is distrusted in the domain. In a domain that the configuration does not
    /// have, no key is distrusted.
    pub fn is_distrusted(&self, domain: &TrustDomain, key: KeyId) -> bool
        ensures { IsTrue result
            ↔ Contains self.now.records (record { domain = domain.now; key = key }) }
    {
        match self.config.domain_no(domain) {
            Some(number) => self.records.holds(&record_of(&key.0, number)),
            None => false,
        }
    }

    /// The same for the domain with this number, in the order of the configuration's domains.
    pub fn is_distrusted_in(&self, domain: u32, key: KeyId) -> bool
        ensures { IsTrue result ↔ IsDistrustedIn self.now domain key }
    {
        self.records.holds(&Record { key, domain })
    }
}

fn answer_of(addition: Insertion) -> Result<Insertion, TakeError>
    ensures { result ≡ addition_result addition }
{
    match addition {
        Insertion::Full => Err(TakeError::Full),
        Insertion::Added => Ok(Insertion::Added),
        Insertion::There => Ok(Insertion::There),
    }
}
