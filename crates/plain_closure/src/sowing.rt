//! The documents of a configuration in a plain closure.
ghost use Rattle.std.specs.Prelude.{◌≡◌, ◌<◌, ◌≤◌, ◌∷◌, ◌++◌, [], length, OnOk};
ghost use Rattle.plain_closure.specs.Plain.{IsSown};
ghost use Rattle.fed_config.specs.Limits.{seed_limit};

use closure_parts::{Held, Pairs};
use fed_config::Seed;
use receipt_core::{Triple, offers_of};
use std::alloc::{AllocError, Global};

/// Adds the configured documents, and what they offer.
pub(crate) fn sow_all(
    alloc: Global,
    held: &Held,
    pairs: &mut Pairs,
    seed_offers: &mut Vec<Triple>,
    seeds: &[Seed],
) -> Result<(), AllocError>
    requires few { length seeds.now ≤ seed_limit }
    requires arrived { held.now.arrived ≡ [] }
    requires sown { IsSown held.now [] pairs.old seed_offers.old.items }
    ensures { OnOk result (IsSown held.now seeds.now pairs.new seed_offers.new.items) }
{
    for (place, seed) in seeds.iter().enumerate() {
        sow(alloc, held, pairs, seed_offers, &seeds[..place], seed)?;
    }
    Ok(())
}

fn sow(
    alloc: Global,
    held: &Held,
    pairs: &mut Pairs,
    seed_offers: &mut Vec<Triple>,
    earlier: &[Seed],
    seed: &Seed,
) -> Result<(), AllocError>
    requires sown { IsSown held.now earlier.now pairs.old seed_offers.old.items }
    requires few { length earlier.now < seed_limit }
    requires arrived { held.now.arrived ≡ [] }
    ensures { OnOk result (IsSown held.now (earlier.now ++ seed.now ∷ []) pairs.new
        seed_offers.new.items) }
{
    let mut offers = offers_of(alloc, &seed.domain, &seed.document)?;
    pairs.try_reserve(1)?;
    seed_offers.append(&mut offers)?;
    let domain_hint = held.domain_hint(&seed.domain);
    pairs.add(
        earlier,
        held.arrived(),
        domain_hint,
        &seed.domain,
        &seed.document,
    );
    Ok(())
}
