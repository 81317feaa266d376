//! Chains of receipts, checked without a store.
ghost use Rattle.std.specs.Prelude.{◌≡◌, ◌↔◌, ◌∷◌, IsTrue, Any};
ghost use Rattle.bundle_doc.specs.Bundle.{HasKeyId, doc_id_of};
ghost use Rattle.receipt_core.specs.Receipt.{need_of, offers_of, pair_of};
ghost use Rattle.receipt_core.specs.Acceptance.{IsFitting, Vouches};
ghost use Rattle.receipt_core.specs.Chain.{HasVoucher, IsChain, IsFirst, LeadsOn};

use crate::distrust::Distrust;
use crate::floor_check::reaches_floor;
use crate::given_records::{GivenRecords, is_same_domain};
use crate::line_reader::is_same;
use crate::receipt::Receipt;
use crate::triple::Triple;
use fed_config::{Config, Seed};
use spiffe_name::SpiffeId;
use std::cmp::Ordering;

/// Whether the receipts are a chain under the configuration and the records of distrust: there is
/// at least one, each fits a relationship and reaches the floor of its domain, a seed vouches for
/// the first, and the document of each vouches for the next (SPIFFE Federation, section 5.2,
/// profile `https_spiffe`). A yes means that the last document is accepted by every replica of this
/// configuration that holds these receipts and no other records.
///
/// It takes no memory. A relationship and a floor are found by binary search, and so is a record of
/// distrust if the records are in their order, as a replica lends them; in another order all are
/// looked at for each receipt.
pub fn check_chain(config: &Config, records: &[Distrust], receipts: &[Receipt]) -> bool
    ensures { IsTrue result ↔ IsChain config.now records.now receipts.now }
{
    match receipts {
        [] => false,
        [first, others @ ..] => { starts_chain(config, &GivenRecords::new(records), first, others) }
    }
}

fn starts_chain(
    config: &Config,
    records: &GivenRecords,
    first: &Receipt,
    others: &[Receipt],
) -> bool
    ensures { IsTrue result ↔ IsChain config.now records.now (first.now ∷ others.now) }
{
    if is_first(config, records, first) {
        leads_on(config, records, first, others)
    } else {
        false
    }
}

// Whether each receipt fits and is vouched for by the one before it.
fn leads_on(config: &Config, records: &GivenRecords, first: &Receipt, others: &[Receipt]) -> bool
    ensures { IsTrue result ↔ LeadsOn config.now records.now (pair_of first.now) others.now }
{
    let mut previous = first;
    let mut rest = others;
    'receipts: while let [next, tail @ ..] = rest {
        if !is_next(config, records, previous, next) {
            return false;
        }
        previous = next;
        rest = tail;
    }
    true
}

fn is_first(config: &Config, records: &GivenRecords, receipt: &Receipt) -> bool
    ensures { IsTrue result ↔ IsFirst config.now records.now receipt.now }
{
    if fits(config, receipt) {
        is_seeded(config, records, receipt)
    } else {
        false
    }
}

fn is_next(config: &Config, records: &GivenRecords, previous: &Receipt, receipt: &Receipt) -> bool
    ensures { IsTrue result
        ↔ (IsFitting config.now receipt.now
        × Vouches records.now (pair_of previous.now) receipt.now) }
{
    if fits(config, receipt) {
        is_vouched_for(records, previous, receipt)
    } else {
        false
    }
}

// Whether a configured document vouches for the receipt.
fn is_seeded(config: &Config, records: &GivenRecords, receipt: &Receipt) -> bool
    ensures { IsTrue result ↔ HasVoucher config.now records.now receipt.now }
{
    if records.has_key_of(receipt) {
        false
    } else {
        has_voucher(config.seeds(), receipt)
    }
}

// Whether the document of the previous receipt vouches for the receipt.
fn is_vouched_for(records: &GivenRecords, previous: &Receipt, receipt: &Receipt) -> bool
    ensures { IsTrue result ↔ Vouches records.now (pair_of previous.now) receipt.now }
{
    if records.has_key_of(receipt) {
        false
    } else {
        offers_need(previous, receipt)
    }
}

// Whether the relationship with the receipt's domain has its endpoint, and the document reaches the
// domain's floor.
fn fits(config: &Config, receipt: &Receipt) -> bool
    ensures { IsTrue result ↔ IsFitting config.now receipt.now }
{
    // This call says that a domain has one relationship.
    let _ = config.domains();
    match config.relationship(receipt.domain()) {
        Some(relationship) => {
            if is_same_id(&relationship.endpoint, receipt.endpoint()) {
                reaches_floor(config, receipt.domain(), receipt.document())
            } else {
                false
            }
        }
        None => false,
    }
}

// Whether a seed has the key that the receipt names, and is the document that it names.
fn has_voucher(seeds: &[Seed], receipt: &Receipt) -> bool
    ensures { IsTrue result
        ↔ Any (λ s. (s.domain ≡ receipt.now.endpoint.domain)
        × HasKeyId s.document.authorities receipt.now.key
        × (doc_id_of s.domain s.document ≡ receipt.now.voucher.0)) seeds.now }
{
    seeds.iter().any(|seed| is_voucher(seed, receipt))
}

fn is_voucher(seed: &Seed, receipt: &Receipt) -> bool
    ensures { IsTrue result
        ↔ ((seed.now.domain ≡ receipt.now.endpoint.domain)
        × HasKeyId seed.now.document.authorities receipt.now.key
        × (doc_id_of seed.now.domain seed.now.document ≡ receipt.now.voucher.0)) }
{
    is_same_domain(&seed.domain, receipt.endpoint().domain())
        && seed.document.has_key(&receipt.key())
        && seed.document.id(&seed.domain) == receipt.voucher()
}

fn offers_need(previous: &Receipt, receipt: &Receipt) -> bool
    ensures { IsTrue result
        ↔ Any (λ t. t ≡ need_of receipt.now) (offers_of (pair_of previous.now)) }
{
    has_offer(previous.offers(), receipt.need())
}

fn has_offer(offers: &[Triple], need: &Triple) -> bool
    ensures { IsTrue result ↔ Any (λ t. t ≡ need.now) offers.now }
{
    offers.iter().any(|offer| is_same_triple(offer, need))
}

fn is_same_triple(one: &Triple, other: &Triple) -> bool
    ensures { IsTrue result ↔ (one.now ≡ other.now) }
{
    one.cmp(other) == Ordering::Equal
}

fn is_same_id(one: &SpiffeId, other: &SpiffeId) -> bool
    ensures { IsTrue result ↔ (one.now ≡ other.now) }
{
    is_same(one.as_str().as_bytes(), other.as_str().as_bytes())
}
