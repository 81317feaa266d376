//! Floors of domains that a configuration does not have, and seeds that are below a floor.
ghost use Rattle.std.specs.Prelude.{◌≡◌, ◌≢◌, ℕ, IfSome, IsSome, IsTrue, Some, codes, option_map};
ghost use Rattle.serde_json.specs.Data.{number, unsigned};
ghost use Rattle.serde_json.specs.Find.{get};
ghost use Rattle.serde_json.specs.View.{view};
ghost use Rattle.jwk_set.specs.Element.{HasText};
ghost use Rattle.bundle_doc.specs.Bundle.{HasNumberMember};
ghost use Rattle.spiffe_name.specs.TrustDomain.{RefusesDomain};
ghost use Rattle.fed_config.specs.Reading.{NamesDomain};
ghost use Rattle.fed_config.specs.Written.{Written, SaysWritten};
ghost use Rattle.fault_view.specs.Flaws.{HasFlaw, HasFloorOf, HasSequence, cause_of_flaw};

use crate::flaws::Flaw;
use crate::place::FlawPlace;
use crate::shape_flaws::text_of;
use bundle_doc::Document;
use fed_config::{ConfigError, unknown_floor};
use serde_json::{Map, Value};
use spiffe_name::{NameError, TrustDomain};
use std::alloc::Global;

/// A floor whose name is not that of a trust domain, or else of one of the configuration.
pub(crate) fn floor_name_flaw<'a>(
    alloc: Global,
    config: &'a Value,
    part: &'a Value,
) -> Option<Flaw<'a>>
    ensures flaw { IfSome result (HasFlaw (view config.now) FlawPlace.Floors (view part.now)) }
    ensures cause { IfSome result (λ f. cause_of_flaw f ≡ ConfigError.BadName) }
{
    if let Some(flaw) = bad_name(alloc, config, part) {
        return Some(flaw);
    }
    unknown_domain(alloc, config, part)
}

fn bad_name<'a>(alloc: Global, _config: &Value, part: &'a Value) -> Option<Flaw<'a>>
    ensures flaw { IfSome result (HasFlaw (view _config.now) FlawPlace.Floors (view part.now)) }
    ensures cause { IfSome result (λ f. cause_of_flaw f ≡ ConfigError.BadName) }
{
    let members = part.as_object()?;
    'names: for name in members.keys() {
        if let Some(why) = refusal_of(alloc, part, name.as_str()) {
            return Some(Flaw::BadFloorName(name.as_str(), why));
        }
    }
    None
}

fn refusal_of(alloc: Global, part: &Value, name: &str) -> Option<NameError>
    ensures { IfSome result (λ why. IsSome (get name.now (view part.now))
        × RefusesDomain name.now why × (why ≢ NameError.NoMemory)) }
{
    part.get(name)?;
    match TrustDomain::read(alloc, name) {
        Ok(_) | Err(NameError::NoMemory) => None,
        Err(why) => Some(why),
    }
}

fn unknown_domain<'a>(alloc: Global, config: &'a Value, part: &'a Value) -> Option<Flaw<'a>>
    ensures flaw { IfSome result (HasFlaw (view config.now) FlawPlace.Floors (view part.now)) }
    ensures cause { IfSome result (λ f. cause_of_flaw f ≡ ConfigError.BadName) }
{
    let Ok(Some(name)) = unknown_floor(alloc, config) else {
        return None;
    };
    part.get(name)?;
    Some(Flaw::UnknownDomain(name))
}

/// A seed whose document is below the floor of its domain, or has no sequence number.
pub(crate) fn low_seed<'a>(alloc: Global, config: &'a Value, part: &'a Value) -> Option<Flaw<'a>>
    ensures flaw { (place : FlawPlace)
        → IfSome result (HasFlaw (view config.now) place (view part.now)) }
    ensures cause { IfSome result (λ f. cause_of_flaw f ≡ ConfigError.BadSeed) }
{
    let floor = floor_of(config, part)?;
    match sequence_of(alloc, part)? {
        Some(rank) if rank < floor => Some(Flaw::BelowFloor(rank, floor)),
        Some(_) => None,
        None => Some(Flaw::NoSequence(floor)),
    }
}

/// The floor of the domain that a part names.
fn floor_of(config: &Value, part: &Value) -> Option<u64>
    ensures { IfSome result (HasFloorOf (view config.now) (view part.now)) }
{
    let domain = text_of(part, "domain")?;
    FlawPlace::Floors.part_in(config)?.get(domain)?.as_u64()
}

/// The sequence number of a seed's document, or `None` inside if it has none.
fn sequence_of(alloc: Global, part: &Value) -> Option<Option<u64>>
    ensures { IfSome result (HasSequence (view part.now)) }
{
    let document = Document::from_value(alloc, part.get("bundle")?).ok()?;
    Some(document.rank())
}
