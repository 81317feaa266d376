//! The index of a configuration.
ghost use Rattle.std.specs.Prelude.{◌≡◌, ◌<◌, ◌≤◌, ◌∷◌, ◌++◌, [], length, OnOk};
ghost use Rattle.std.specs.List.{All};
ghost use Rattle.fed_config.specs.Configuration.{HasDomain};
ghost use Rattle.trust_closure.specs.Inside.Indexed.{IsSeeded};
ghost use Rattle.fed_config.specs.Limits.{seed_limit};

use crate::wire::offer_triples;
use closure_parts::{Held, Pairs};
use fed_config::Seed;
use label_index::LabelIndex;
use receipt_core::offers_of;
use std::alloc::{AllocError, Global};

/// Adds the nodes of the configured documents.
pub(crate) fn add_seeds(
    alloc: Global,
    held: &Held,
    pairs: &mut Pairs,
    label_index: &mut LabelIndex,
    seeds: &[Seed],
) -> Result<(), AllocError>
    requires domains { All (λ s. HasDomain held.now.config s.domain) seeds.now }
    requires few { length seeds.now ≤ seed_limit }
    requires arrived { held.now.arrived ≡ [] }
    requires seeded { IsSeeded held.now [] pairs.old label_index.old }
    ensures { OnOk result (IsSeeded held.now seeds.now pairs.new label_index.new) }
{
    for (place, seed) in seeds.iter().enumerate() {
        add_seed(alloc, held, pairs, label_index, &seeds[..place], seed)?;
    }
    Ok(())
}

/// Adds the node of a configured document, which is a root and offers what the document offers.
fn add_seed(
    alloc: Global,
    held: &Held,
    pairs: &mut Pairs,
    label_index: &mut LabelIndex,
    earlier: &[Seed],
    seed: &Seed,
) -> Result<(), AllocError>
    requires seeded { IsSeeded held.now earlier.now pairs.old label_index.old }
    requires few { length earlier.now < seed_limit }
    requires arrived { held.now.arrived ≡ [] }
    requires domain { HasDomain held.now.config seed.now.domain }
    ensures { OnOk result (IsSeeded held.now (earlier.now
        ++ seed.now ∷ []) pairs.new label_index.new) }
{
    let offers = offers_of(alloc, &seed.domain, &seed.document)?;
    pairs.try_reserve(1)?;
    label_index.try_reserve(1, offers.len())?;
    let domain_hint = held.domain_hint(&seed.domain);
    pairs.add(
        earlier,
        held.arrived(),
        domain_hint,
        &seed.domain,
        &seed.document,
    );
    let node = label_index.add_node();
    label_index.mark(node);
    offer_triples(label_index, held, node, offers.as_slice());
    Ok(())
}
