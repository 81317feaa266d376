//! The floors of the new configuration.
ghost use Rattle.std.specs.Prelude.{IfOk, OnOk};
ghost use Rattle.reseeding.specs.Reseeding.{AreRaisedFloors, IsRaised};
ghost use Rattle.reseeding.specs.Inside.Domains.{AddsFloor};

use bundle_view::current;
use closure_core::Closure;
use fed_config::Floor;
use spiffe_name::TrustDomain;
use std::alloc::{AllocError, Global};

/// Which floors the new configuration has.
#[derive(Clone, Copy, Debug, PartialEq, Eq)]
pub enum FloorChoice {
    /// Those of the configuration under which the receipts are held.
    Kept,
    /// Each is the sequence number of the domain's current document. A current document without a
    /// number gives no floor, and a domain without a current document keeps the floor that it has.
    Raised,
}

/// The floor of each domain that gets one, sorted by domain.
pub(crate) fn raised_floors<C: Closure>(
    alloc: Global,
    closure: &C,
) -> Result<Vec<Floor>, AllocError>
    ensures { IfOk result (λ floors. AreRaisedFloors (C.state closure.now).meaning floors.items) }
{
    let mut floors = Vec::new(alloc);
    for domain in closure.config().domains() {
        add_floor(alloc, closure, domain, &mut floors)?;
    }
    Ok(floors)
}

fn add_floor<C: Closure>(
    alloc: Global,
    closure: &C,
    domain: &TrustDomain,
    floors: &mut Vec<Floor>,
) -> Result<(), AllocError>
    ensures { OnOk result (AddsFloor (C.state closure.now).meaning domain.now floors.old.items
        floors.new.items) }
{
    let Some(sequence) = raised_floor(closure, domain) else {
        return Ok(());
    };
    floors.push(Floor {
        domain: domain.try_clone(alloc)?,
        sequence,
    })?;
    Ok(())
}

/// The floor that the domain gets.
pub(crate) fn raised_floor<C: Closure>(closure: &C, domain: &TrustDomain) -> Option<u64>
    ensures { IsRaised (C.state closure.now).meaning
        (record { domain = domain.now; floor = result }) }
{
    match current(closure, domain) {
        Some(document) => document.rank(),
        None => closure.config().floor(domain),
    }
}
