//! What the accepted documents offer: by this a receipt is vouched for or not, without a look at
//! each document.
ghost use Rattle.std.specs.Prelude.{IfOk, OnOk};
ghost use Rattle.std.specs.BTreeSet.{IsFromIterResult};
ghost use Rattle.receipt_core.specs.Receipt.{triple_cmp};
ghost use Rattle.replica_view.specs.Inside.Offered.{AddsOffersOf, AreAllOffers, IsOfferSet};

use closure_core::Closure;
use receipt_core::{Triple, offers_of};
use spiffe_name::TrustDomain;
use std::alloc::{AllocError, Global};
use std::collections::BTreeSet;

/// All that the accepted documents offer.
pub(crate) fn offer_set<C: Closure>(
    alloc: Global,
    closure: &C,
) -> Result<BTreeSet<Triple>, AllocError>
    ensures { IfOk result (IsOfferSet (C.state closure.now).meaning) }
{
    let offers = list_offers(alloc, closure)?;
    set_of(alloc, offers)
}

fn set_of(alloc: Global, offers: Vec<Triple>) -> Result<BTreeSet<Triple>, AllocError>
    ensures { IfOk result (IsFromIterResult triple_cmp offers.items) }
{
    offers.into_iter().collect(alloc)
}

fn list_offers<C: Closure>(alloc: Global, closure: &C) -> Result<Vec<Triple>, AllocError>
    ensures { IfOk result (λ offers. AreAllOffers (C.state closure.now).meaning offers.items) }
{
    let mut offers = Vec::new(alloc);
    for domain in closure.config().domains() {
        push_offers(alloc, closure, domain, &mut offers)?;
    }
    Ok(offers)
}

// Adds what the accepted documents of the domain offer.
fn push_offers<C: Closure>(
    alloc: Global,
    closure: &C,
    domain: &TrustDomain,
    offers: &mut Vec<Triple>,
) -> Result<(), AllocError>
    ensures { OnOk result (AddsOffersOf (C.state closure.now).meaning domain.now offers.old.items
        offers.new.items) }
{
    for document in closure.accepted(domain) {
        let mut more = offers_of(alloc, domain, document)?;
        offers.append(&mut more)?;
    }
    Ok(())
}
