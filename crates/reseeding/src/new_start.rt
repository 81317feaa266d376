//! A new start from what is current.
ghost use Rattle.std.specs.Prelude.{IfOk, option_copied};
ghost use Rattle.reseeding.specs.Reseeding.{MakesConfig, Reseeds};
ghost use Rattle.reseeding.specs.Inside.Domains.{IsWrittenWith};
ghost use Rattle.reseeding.specs.declared.new_floors.FloorChoice.TheVariants.{Kept, Raised};

use crate::new_floors::{FloorChoice, raised_floors};
use crate::refusals::refusal_text;
use crate::seed_choice::current_seeds;
use crate::staying::count_staying;
use closure_core::Closure;
use fed_config::{Floor, canonical_config};
use spiffe_name::TrustDomain;
use std::alloc::{AllocError, Global};

/// The configuration of a new start.
#[derive(Debug, Drop)]
pub struct NewConfig {
    /// Its canonical text.
    pub text: Vec<u8>,
    /// How many of the receipts that are held fit it.
    pub staying: usize,
}

/// What comes of a new start.
#[derive(Debug, Drop)]
pub enum Reseeded {
    /// No domain is refused, and this is the new configuration.
    Seeded(NewConfig),
    /// These are the lines of the domains that are refused.
    Refusals(Vec<u8>),
}

/// The text of a configuration with the same relationships, whose seeds are the current documents:
/// one for each domain that has one. Its floors are the same, or with [`FloorChoice::Raised`] the
/// sequence numbers of the current documents. It is the canonical text, so whoever holds the same
/// gets the same bytes.
///
/// With it comes how many of the receipts that are held fit it. A migration to it takes them.
///
/// A domain is refused if its current document lists a key that is distrusted in the domain, or if
/// another accepted document has its sequence number, or has none as it; but not if it is the
/// allowed one. Each that is refused has a line, and there is then no configuration:
///
/// | Line | Cause |
/// |---|---|
/// | `refused <domain>: the current bundle lists a distrusted key` | an X.509 authority of it has
/// the key |
/// | `refused <domain>: another bundle has the current one's sequence` | both are accepted, and
/// one of them was chosen only by its text |
/// | `refused <domain>: another bundle has no sequence either` | the same for two without a
/// sequence number |
///
/// # Errors
/// Memory ran out.
pub fn reseed<C: Closure>(
    alloc: Global,
    closure: &C,
    allowed: Option<&TrustDomain>,
    floors: FloorChoice,
) -> Result<Reseeded, AllocError>
    ensures { IfOk result
        (Reseeds (C.state closure.now).meaning (option_copied allowed.entry) floors) }
{
    let refusals = refusal_text(alloc, closure, allowed)?;
    if refusals.is_empty() {
        Ok(Reseeded::Seeded(new_config(alloc, closure, floors)?))
    } else {
        Ok(Reseeded::Refusals(refusals))
    }
}

fn new_config<C: Closure>(
    alloc: Global,
    closure: &C,
    floors: FloorChoice,
) -> Result<NewConfig, AllocError>
    ensures { IfOk result
        (λ new. MakesConfig floors (C.state closure.now).meaning new.text.items new.staying) }
{
    match floors {
        FloorChoice::Kept => kept_config(alloc, closure),
        FloorChoice::Raised => raised_config(alloc, closure),
    }
}

// All receipts that are held fit the floors of their own configuration.
fn kept_config<C: Closure>(alloc: Global, closure: &C) -> Result<NewConfig, AllocError>
    ensures { IfOk result
        (λ new. MakesConfig Kept (C.state closure.now).meaning new.text.items new.staying) }
{
    Ok(NewConfig {
        text: seeded_text(alloc, closure, closure.config().floors())?,
        staying: closure.receipt_count(),
    })
}

fn raised_config<C: Closure>(alloc: Global, closure: &C) -> Result<NewConfig, AllocError>
    ensures { IfOk result
        (λ new. MakesConfig Raised (C.state closure.now).meaning new.text.items new.staying) }
{
    let floors = raised_floors(alloc, closure)?;
    Ok(NewConfig {
        text: seeded_text(alloc, closure, floors.as_slice())?,
        staying: count_staying(closure),
    })
}

// The text with the current documents as seeds and these floors.
fn seeded_text<C: Closure>(
    alloc: Global,
    closure: &C,
    floors: &[Floor],
) -> Result<Vec<u8>, AllocError>
    ensures { IfOk result
        (λ text. IsWrittenWith (C.state closure.now).meaning floors.now text.items) }
{
    let seeds = current_seeds(alloc, closure)?;
    canonical_config(
        alloc,
        closure.config().relationships(),
        seeds.as_slice(),
        floors,
    )
}
