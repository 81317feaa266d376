//! The trust domains that a configuration speaks of.
ghost use Rattle.std.specs.Prelude.{◌≡◌, IfOk};
ghost use Rattle.fed_config.specs.Configuration.{domain_cmp};
ghost use Rattle.fed_config.specs.Domains.{gathered};
ghost use Rattle.fed_config.specs.Reading.{IsSetOf};

use crate::names::Names;
use spiffe_name::TrustDomain;
use std::alloc::{AllocError, Global};

/// All domains of relationships, of their endpoints and of seeds, sorted, each once.
pub(crate) fn domains_of(
    alloc: Global,
    names: &[Names],
    seeds: &[TrustDomain],
) -> Result<Vec<TrustDomain>, AllocError>
    ensures { IfOk result (λ v. IsSetOf domain_cmp (gathered names.now seeds.now) v.items) }
{
    let mut domains = gather(alloc, names, seeds)?;
    domains.sort_unstable();
    domains.dedup();
    Ok(domains)
}

/// All domains, in the order in which they are written.
fn gather(
    alloc: Global,
    names: &[Names],
    seeds: &[TrustDomain],
) -> Result<Vec<TrustDomain>, AllocError>
    ensures { IfOk result (λ v. v.items ≡ gathered names.now seeds.now) }
{
    let mut domains = Vec::new(alloc);
    for named in names {
        domains.push(named.domain.try_clone(alloc)?)?;
        domains.push(named.endpoint.domain().try_clone(alloc)?)?;
    }
    for seed in seeds {
        domains.push(seed.try_clone(alloc)?)?;
    }
    Ok(domains)
}
