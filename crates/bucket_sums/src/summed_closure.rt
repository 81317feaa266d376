//! A closure together with the sums of what it holds.
ghost use Rattle.std.specs.Prelude.{◌≡◌, IfOk};
ghost use Rattle.replica_core.specs.Session.{state_of};
ghost use Rattle.bucket_sums.specs.Sums.{sums_of};

use crate::kept_sums::KeptSums;
use crate::part_sums::Sums;
use bundle_doc::Document;
use closure_core::{
    Accepted, Closure, Distrusted, Distrusts, NoMemory, Receipts, Refused, TakeError, Taken,
};
use fed_config::Config;
use jwk_set::KeyId;
use receipt_core::Receipt;
use spiffe_name::TrustDomain;
use std::alloc::{AllocError, Global};
use std::marker::Model;

/// A closure, and the sums of what it holds, kept from one session to the next. In contracts it is
/// the closure: its sums are always those of this one, since neither can be put in the place of
/// another.
#[derive(Drop)]
pub struct SummedClosure<C: Closure> {
    closure: C,
    kept: KeptSums,
}

impl<C: Closure> Model for SummedClosure<C> {
    ghost use Rattle.replica_core.specs.Session.{state_of};
    ghost use Rattle.bucket_sums.specs.Inside.KeptSteps.{AreKeptSums};

    ghost Value = { C };

    ghost view = { λ s. s.closure };

    ghost invariant = { λ s. AreKeptSums s.kept (state_of (C.state s.closure).meaning) };
}

impl<C: Closure> SummedClosure<C> {
    /// The closure, of which no sum is computed yet.
    pub fn of(alloc: Global, closure: C) -> SummedClosure<C>
        ensures { result ≡ closure }
    {
        SummedClosure {
            closure,
            kept: KeptSums::new(alloc),
        }
    }

    /// The closure without its sums.
    pub fn closure(&self) -> &C
        ensures { result.now ≡ self.now }
    {
        &self.closure
    }

    /// The sums of what is held now, one for each part. The first is a SHA-256 over the lines of
    /// the records of distrust; that of a bucket is over the ids of its receipts, in order. If
    /// nothing changed since the last call, this takes no time that grows with what is held. For an
    /// [`ExchangeClosure`](trust_closure::ExchangeClosure) no receipt's id is computed.
    ///
    /// # Errors
    /// Memory ran out.
    pub fn sums(&mut self, alloc: Global) -> Result<Sums, AllocError>
        ensures sums { IfOk result
            (λ sums. sums ≡ sums_of (state_of (C.state self.old).meaning)) }
        ensures same { self.new ≡ self.old }
    {
        self.kept.sums_of(alloc, &self.closure)
    }
}

/// What is held only grows, so the sums are still those of something that was held.
impl<C: Closure> Closure for SummedClosure<C> {
    ghost state = { λ c. C.state c };

    fn new(alloc: Global, config: &Config) -> Result<Self, NoMemory> {
        let closure = C::new(alloc, config)?;
        Ok(SummedClosure::of(alloc, closure))
    }

    fn config(&self) -> &Config {
        self.closure.config()
    }

    fn take(&mut self, receipt: Receipt) -> Result<Taken, Refused> {
        self.closure.take(receipt)
    }

    fn merge(&mut self, other: &Self) -> Result<usize, TakeError> {
        self.closure.merge(&other.closure)
    }

    fn distrust(&mut self, domain: &TrustDomain, key: KeyId) -> Result<Distrusted, TakeError> {
        self.closure.distrust(domain, key)
    }

    fn is_accepted(&self, domain: &TrustDomain, document: &Document) -> bool {
        self.closure.is_accepted(domain, document)
    }

    fn accepted(&self, domain: &TrustDomain) -> Accepted<'_> {
        self.closure.accepted(domain)
    }

    fn receipts(&self) -> Receipts<'_> {
        self.closure.receipts()
    }

    fn receipts_of(&self, bucket: u8) -> Receipts<'_> {
        self.closure.receipts_of(bucket)
    }

    fn distrusts(&self) -> Distrusts<'_> {
        self.closure.distrusts()
    }

    fn holds(&self, receipt: &Receipt) -> bool {
        self.closure.holds(receipt)
    }

    fn is_distrusted(&self, domain: &TrustDomain, key: KeyId) -> bool {
        self.closure.is_distrusted(domain, key)
    }

    fn receipt_count(&self) -> usize {
        self.closure.receipt_count()
    }

    fn pending_count(&self) -> usize {
        self.closure.pending_count()
    }

    fn try_reserve(&mut self, receipts: usize, offers: usize) -> Result<(), NoMemory> {
        self.closure.try_reserve(receipts, offers)
    }

    fn room(&self) -> (usize, usize) {
        self.closure.room()
    }
}
