//! Objects with a member too much or too little, or one that is not what it has to be.
ghost use Rattle.std.specs.Prelude.{◌≡◌, ℕ, false, IsTrue, IfSome, IsSome, Some, option_map};
ghost use Rattle.serde_json.specs.Data.{number, unsigned};
ghost use Rattle.serde_json.specs.View.{view};
ghost use Rattle.serde_json.specs.Find.{get};
ghost use Rattle.jwk_set.specs.Element.{HasText};
ghost use Rattle.jwk_set.specs.Forms.{FindsMember};
ghost use Rattle.fault_view.specs.Flaws.{IsFlawOf, is_member_at};

use crate::flaws::Flaw;
use crate::place::FlawPlace;
use fed_config::ConfigError;
use serde_json::{Map, Value};

/// What is wrong with the shape of what is at a place.
pub(crate) fn shape_flaw<'a>(part: &'a Value, place: FlawPlace) -> Option<Flaw<'a>>
    ensures { IfSome result (IsFlawOf ConfigError.Shape place (view part.now)) }
{
    let Some(members) = part.as_object() else {
        return Some(Flaw::NotObject);
    };
    if let Some(flaw) = unknown_member(part, members, place) {
        return Some(flaw);
    }
    'names: for &name in place.member_names() {
        if let Some(flaw) = member_flaw(part, place, name) {
            return Some(flaw);
        }
    }
    match place {
        FlawPlace::Floors => number_flaw(part, members),
        _ => None,
    }
}

/// The first floor that is not a number.
fn number_flaw<'a>(part: &'a Value, members: &'a Map<String, Value>) -> Option<Flaw<'a>>
    ensures { IfSome result (IsFlawOf ConfigError.Shape FlawPlace.Floors (view part.now)) }
{
    'names: for name in members.keys() {
        if is_not_number(part, name.as_str()) {
            return Some(Flaw::NotNumber(name.as_str()));
        }
    }
    None
}

fn is_not_number(part: &Value, name: &str) -> bool
    ensures { IsTrue result → IsSome (get name.now (view part.now))
        × ((n : ℕ) → get name.now (view part.now) ≡ Some (number (unsigned n)) → ⊥) }
{
    match part.get(name) {
        Some(member) => member.as_u64().is_none(),
        None => false,
    }
}

fn unknown_member<'a>(
    part: &'a Value,
    members: &'a Map<String, Value>,
    place: FlawPlace,
) -> Option<Flaw<'a>>
    ensures { IfSome result (IsFlawOf ConfigError.Shape place (view part.now)) }
{
    'names: for name in members.keys() {
        if is_unknown(part, place, name.as_str()) {
            return Some(Flaw::UnknownMember(name.as_str()));
        }
    }
    None
}

fn is_unknown(part: &Value, place: FlawPlace, name: &str) -> bool
    ensures { IsTrue result → IsSome (get name.now (view part.now))
        × (is_member_at place name.now ≡ false) }
{
    part.get(name).is_some() && !place.has_member(name)
}

// What is wrong with a member that has to be there.
fn member_flaw<'a>(part: &Value, place: FlawPlace, name: &'a str) -> Option<Flaw<'a>>
    ensures { IfSome result (IsFlawOf ConfigError.Shape place (view part.now)) }
{
    if !place.needs_member(name) {
        return None;
    }
    let Some(member) = part.get(name) else {
        return Some(Flaw::MissingMember(name));
    };
    if place.has_array(name) && member.as_array().is_none() {
        return Some(Flaw::NotArray(name));
    }
    if place.has_text(name) && member.as_str().is_none() {
        return Some(Flaw::NotText(name));
    }
    None
}

/// The text of a member.
pub(crate) fn text_of<'a>(part: &'a Value, name: &str) -> Option<&'a str>
    ensures { FindsMember (option_map (λ s. s.now) result) (HasText (view part.now) name.now) }
{
    part.get(name)?.as_str()
}
