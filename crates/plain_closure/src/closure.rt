//! The closure that anybody can read.
use crate::rounds::{count_accepted, count_raised};
use crate::settling::{reserve, retract, retract_all, take_into};
use crate::sowing::sow_all;
use bundle_doc::Document;
use closure_core::{
    Accepted, Closure, Distrusted, Distrusts, NoMemory, Receipts, Refused, TakeError, Taken,
};
use closure_parts::{Held, Mergeable, Pairs, merge_into};
use fed_config::Config;
use jwk_set::KeyId;
use receipt_core::{Receipt, Triple};
use spiffe_name::TrustDomain;
use std::alloc::Global;
use std::marker::Model;

/// A closure that finds what is accepted by rounds: whatever an accepted document vouches for is
/// accepted, until a round over all receipts finds nothing more.
#[derive(Drop)]
pub struct PlainClosure {
    held: Held,
    pairs: Pairs,
    seed_offers: Vec<Triple>,
    released: Vec<bool>,
    spare: usize,
}

impl Model for PlainClosure {
    ghost use Rattle.std.specs.Prelude.{vec_capacity};
    ghost use Rattle.closure_core.specs.Changes.{HeldAndRoom};
    ghost use Rattle.plain_closure.specs.Plain.{IsPlainClosure, plain_state};

    ghost Value = { HeldAndRoom };

    ghost view = { λ c. plain_state c.held c.spare };

    ghost invariant = { λ c. IsPlainClosure c.held c.pairs c.seed_offers.items c.released.items
        (vec_capacity c.released) c.spare };
}

impl Closure for PlainClosure {
    ghost state = { λ c. c };

    fn new(alloc: Global, config: &Config) -> Result<Self, NoMemory> {
        let held = Held::new(alloc, config, None)?;
        let mut pairs = Pairs::new(alloc);
        let mut seed_offers = Vec::new(alloc);
        let released = Vec::new(alloc);
        let _domains = held.config().domains();
        let seeds = held.config().seeds();
        sow_all(alloc, &held, &mut pairs, &mut seed_offers, seeds)?;
        count_accepted(&mut pairs, seeds.len(), &released);
        Ok(PlainClosure {
            held,
            pairs,
            seed_offers,
            released,
            spare: 0,
        })
    }

    fn config(&self) -> &Config {
        self.held.config()
    }

    fn take(&mut self, receipt: Receipt) -> Result<Taken, Refused> {
        take_into(
            &mut self.held,
            &mut self.pairs,
            &self.seed_offers,
            &mut self.released,
            &mut self.spare,
            receipt,
        )
    }

    fn merge(&mut self, other: &Self) -> Result<usize, TakeError> {
        merge_into(self, other)
    }

    fn distrust(&mut self, domain: &TrustDomain, key: KeyId) -> Result<Distrusted, TakeError> {
        retract(
            &mut self.held,
            &mut self.pairs,
            &self.seed_offers,
            &mut self.released,
            domain,
            key,
        )
    }

    fn is_accepted(&self, domain: &TrustDomain, document: &Document) -> bool {
        let seeds = self.held.config().seeds();
        self.pairs
            .is_raised(seeds, self.held.arrived(), domain, document)
    }

    fn accepted(&self, domain: &TrustDomain) -> Accepted<'_> {
        let seeds = self.held.config().seeds();
        self.pairs.accepted(seeds, self.held.arrived(), domain)
    }

    fn receipts(&self) -> Receipts<'_> {
        self.held.receipts()
    }

    fn receipts_of(&self, bucket: u8) -> Receipts<'_> {
        self.held.receipts_of(bucket)
    }

    fn distrusts(&self) -> Distrusts<'_> {
        self.held.distrusts()
    }

    fn holds(&self, receipt: &Receipt) -> bool {
        self.held.holds(receipt)
    }

    fn is_distrusted(&self, domain: &TrustDomain, key: KeyId) -> bool {
        self.held.is_distrusted(domain, key)
    }

    fn receipt_count(&self) -> usize {
        let _config = self.held.config();
        self.held.arrived().len()
    }

    fn pending_count(&self) -> usize {
        self.released.len() - count_raised(&self.released)
    }

    fn try_reserve(&mut self, receipts: usize, _offers: usize) -> Result<(), NoMemory> {
        reserve(
            &mut self.held,
            &mut self.pairs,
            &self.seed_offers,
            &mut self.released,
            &mut self.spare,
            receipts,
        )
    }

    // Offers take no room.
    fn room(&self) -> (usize, usize) {
        (self.spare, usize::MAX)
    }
}

impl Mergeable for PlainClosure {
    ghost use Rattle.std.specs.Prelude.{◌≡◌};

    ghost state = { λ c. c };

    // It has no edges, so no close looks at one.
    ghost work_done = { λ c. 0 };

    ghost IsWork = { λ c records count. count ≡ 0 };

    fn held(&self) -> &Held {
        &self.held
    }

    fn take_one(&mut self, receipt: Receipt) -> Result<Taken, Refused> {
        self.take(receipt)
    }

    fn distrust_all(&mut self, records: Distrusts<'_>) {
        retract_all(
            &mut self.held,
            &mut self.pairs,
            &self.seed_offers,
            &mut self.released,
            records,
        );
    }

    fn make_room(&mut self, receipts: usize, offers: usize) -> Result<(), NoMemory> {
        self.try_reserve(receipts, offers)
    }
}
