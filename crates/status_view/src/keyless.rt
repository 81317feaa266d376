//! Configured documents without an X.509 authority.
ghost use Rattle.std.specs.Prelude.{◌≡◌, IfOk, filter, map};
ghost use Rattle.status_view.specs.Status.{is_keyless, keyless_by};

use crate::status::KeylessSeed;
use fed_config::Seed;
use receipt_core::offers_of;
use std::alloc::{AllocError, Global};

/// Those of the seeds whose documents have no X.509 authority.
pub(crate) fn keyless_seeds(alloc: Global, seeds: &[Seed]) -> Result<Vec<KeylessSeed>, AllocError>
    ensures { IfOk result (λ v. v.items ≡ map keyless_by (filter is_keyless seeds.now)) }
{
    let mut keyless = Vec::new(alloc);
    for seed in seeds {
        if is_keyless(alloc, seed)? {
            keyless.push(keyless_by(alloc, seed)?)?;
        }
    }
    Ok(keyless)
}

fn is_keyless(alloc: Global, seed: &Seed) -> Result<bool, AllocError>
    ensures { IfOk result (λ keyless. keyless ≡ is_keyless seed.now) }
{
    let offers = offers_of(alloc, &seed.domain, &seed.document)?;
    Ok(offers.is_empty())
}

fn keyless_by(alloc: Global, seed: &Seed) -> Result<KeylessSeed, AllocError>
    ensures { IfOk result (λ k. k ≡ keyless_by seed.now) }
{
    Ok(KeylessSeed {
        domain: seed.domain.try_clone(alloc)?,
        id: seed.document.id(&seed.domain),
    })
}
