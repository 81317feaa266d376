//! The current documents, as seeds.
ghost use Rattle.std.specs.Prelude.{IfOk, OnOk};
ghost use Rattle.reseeding.specs.Reseeding.{AreCurrentSeeds};
ghost use Rattle.reseeding.specs.Inside.Domains.{AddsSeed};

use bundle_view::current;
use closure_core::Closure;
use fed_config::Seed;
use spiffe_name::TrustDomain;
use std::alloc::{AllocError, Global};

/// The current document of each domain that has one, sorted by domain.
pub(crate) fn current_seeds<C: Closure>(alloc: Global, closure: &C) -> Result<Vec<Seed>, AllocError>
    ensures { IfOk result (λ seeds. AreCurrentSeeds (C.state closure.now).meaning seeds.items) }
{
    let mut seeds = Vec::new(alloc);
    for domain in closure.config().domains() {
        add_seed(alloc, closure, domain, &mut seeds)?;
    }
    Ok(seeds)
}

fn add_seed<C: Closure>(
    alloc: Global,
    closure: &C,
    domain: &TrustDomain,
    seeds: &mut Vec<Seed>,
) -> Result<(), AllocError>
    ensures { OnOk result (AddsSeed (C.state closure.now).meaning domain.now seeds.old.items
        seeds.new.items) }
{
    let Some(document) = current(closure, domain) else {
        return Ok(());
    };
    seeds.push(Seed {
        domain: domain.try_clone(alloc)?,
        document: document.try_clone(alloc)?,
    })?;
    Ok(())
}
