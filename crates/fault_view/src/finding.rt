//! The first part of a configuration that has a flaw.
ghost use Rattle.std.specs.Prelude.{◌≡◌, IfSome};
ghost use Rattle.serde_json.specs.View.{view};
ghost use Rattle.fault_view.specs.Flaws.{HasFlaw, IsFoundFlaw, cause_of_flaw};

use crate::flaws::{Flaw, FoundFlaw};
use crate::floor_flaws::{floor_name_flaw, low_seed};
use crate::part_flaws::{bad_url, bundle_flaw, double_flaw, name_flaw, profile_flaw};
use crate::place::FlawPlace;
use crate::shape_flaws::shape_flaw;
use fed_config::ConfigError;
use serde_json::Value;
use std::alloc::Global;

/// A part of the configuration that has a flaw of this cause, which `Config::read` returned for it.
/// The whole is looked at first, then the relationships, the seeds and the floors; a part is passed
/// over if memory runs out for it. `None` if none is found, and for the causes that are of no one
/// part: no JSON, and too many parts.
///
/// The work grows with the length of the configuration. For relationships with one domain it grows
/// with the square of their number up to 1,024; those after that are compared with the first 1,024.
pub fn find_flaw<'a>(alloc: Global, config: &'a Value, cause: ConfigError) -> Option<FoundFlaw<'a>>
    ensures { IfSome result (IsFoundFlaw (view config.now) cause) }
{
    if let Some(found) = look_at(alloc, config, FlawPlace::Whole, cause) {
        return Some(found);
    }
    if let Some(found) = find_in_relationships(alloc, config, cause) {
        return Some(found);
    }
    if let Some(found) = find_in_seeds(alloc, config, cause) {
        return Some(found);
    }
    look_at(alloc, config, FlawPlace::Floors, cause)
}

fn find_in_relationships<'a>(
    alloc: Global,
    config: &'a Value,
    cause: ConfigError,
) -> Option<FoundFlaw<'a>>
    ensures { IfSome result (IsFoundFlaw (view config.now) cause) }
{
    'relationships: for number in 0..count_of(config, "relationships") {
        if let Some(found) = look_at(alloc, config, FlawPlace::Relationship(number), cause) {
            return Some(found);
        }
    }
    None
}

fn find_in_seeds<'a>(alloc: Global, config: &'a Value, cause: ConfigError) -> Option<FoundFlaw<'a>>
    ensures { IfSome result (IsFoundFlaw (view config.now) cause) }
{
    'seeds: for number in 0..count_of(config, "seeds") {
        if let Some(found) = look_at(alloc, config, FlawPlace::Seed(number), cause) {
            return Some(found);
        }
    }
    None
}

// How many elements the array has.
fn count_of(config: &Value, name: &str) -> usize {
    match config.get(name) {
        Some(Value::Array(elements)) => elements.len(),
        _ => 0,
    }
}

fn look_at<'a>(
    alloc: Global,
    config: &'a Value,
    place: FlawPlace,
    cause: ConfigError,
) -> Option<FoundFlaw<'a>>
    ensures { IfSome result (IsFoundFlaw (view config.now) cause) }
{
    let part = place.part_in(config)?;
    let flaw = flaw_of(alloc, config, part, place, cause)?;
    Some(FoundFlaw { place, flaw })
}

fn flaw_of<'a>(
    alloc: Global,
    config: &'a Value,
    part: &'a Value,
    place: FlawPlace,
    cause: ConfigError,
) -> Option<Flaw<'a>>
    ensures flaw { IfSome result (HasFlaw (view config.now) place (view part.now)) }
    ensures cause { IfSome result (λ f. cause_of_flaw f ≡ cause) }
{
    match cause {
        ConfigError::Shape => shape_flaw(part, place),
        ConfigError::BadName => match place {
            FlawPlace::Floors => floor_name_flaw(alloc, config, part),
            _ => name_flaw(alloc, part, place),
        },
        ConfigError::BadUrl => bad_url(alloc, part, place),
        ConfigError::BadProfile => profile_flaw(part, place),
        ConfigError::BadSeed => seed_flaw(alloc, config, part, place),
        ConfigError::DoubleRelationship => match place {
            FlawPlace::Relationship(number) => double_flaw(config, part, number),
            _ => None,
        },
        _ => None,
    }
}

// A bundle that is not one, or else one that is below its floor.
fn seed_flaw<'a>(
    alloc: Global,
    config: &'a Value,
    part: &'a Value,
    place: FlawPlace,
) -> Option<Flaw<'a>>
    ensures flaw { IfSome result (HasFlaw (view config.now) place (view part.now)) }
    ensures cause { IfSome result (λ f. cause_of_flaw f ≡ ConfigError.BadSeed) }
{
    if let Some(flaw) = bundle_flaw(alloc, part, place) {
        return Some(flaw);
    }
    low_seed(alloc, config, part)
}
