//! What is written in a JSON value of a configuration's shape, before it is judged.
ghost use Rattle.std.specs.Prelude.{◌≡◌, ◌↔◌, ◌^◌, ◌<◌, List, IsTrue, MatchResult, IfOk, IfSome};
ghost use Rattle.std.specs.Prelude.{Some, map, option_map, length, codes};
ghost use Rattle.std.specs.List.{AllByRecursion, AllZip};
ghost use Rattle.std.specs.List.Sorted.{IsStrictlySortedBy};
ghost use Rattle.serde_json.specs.Data.{Data, number, unsigned, object};
ghost use Rattle.serde_json.specs.Find.{get};
ghost use Rattle.serde_json.specs.View.{view, items_view, members_view};
ghost use Rattle.jwk_set.specs.Element.{HasText};
ghost use Rattle.jwk_set.specs.Forms.{FindsMember};
ghost use Rattle.fed_config.specs.Written.{HasCount, HasArray, RelationshipText, SeedText, Written};
ghost use Rattle.fed_config.specs.Written.{SaysFloors, SaysRelationshipText, SaysSeedText};
ghost use Rattle.fed_config.specs.Written.{SaysWritten};
ghost use Rattle.fed_config.specs.Configuration.{floor_cmp, floor_members};
ghost use Rattle.fed_config.specs.Inside.Entries.{AreFloors};
ghost use Rattle.fed_config.specs.declared.floor.Floor.{Floor};
ghost use Rattle.fed_config.specs.Inside.Entries.{seed_text, written_of};
ghost use Rattle.fed_config.specs.Reading.{Fails};

use crate::error::ConfigError;
use serde_json::{Map, Value};
use std::alloc::Global;
use std::marker::Model;

/// The texts of a relationship.
#[derive(Drop)]
pub(crate) struct RelationshipEntry<'a> {
    pub(crate) domain: &'a str,
    pub(crate) endpoint: &'a str,
    pub(crate) profile: &'a str,
    pub(crate) url: &'a str,
}

impl<'a> Model for RelationshipEntry<'a> {
    ghost use Rattle.fed_config.specs.Written.{RelationshipText};

    ghost Value = { RelationshipText };

    ghost view = { λ t. record {
      domain = t.domain.now;
      endpoint = t.endpoint.now;
      profile = t.profile.now;
      url = t.url.now;
    } };
}

/// A seed's document as a value, and the text of its domain.
#[derive(Drop)]
pub(crate) struct SeedEntry<'a> {
    pub(crate) bundle: &'a Value,
    pub(crate) domain: &'a str,
}

/// The text of a floor's domain, and its number.
#[derive(Drop)]
pub(crate) struct FloorEntry<'a> {
    pub(crate) domain: &'a str,
    pub(crate) sequence: u64,
}

impl<'a> Model for FloorEntry<'a> {
    ghost use Rattle.fed_config.specs.declared.floor.Floor.{Floor};

    ghost Value = { Floor };

    ghost view = { λ f. record { domain = f.domain.now; sequence = f.sequence } };
}

/// All relationships and seeds, in the order in which they are written, and the floors, sorted by
/// their domains.
#[derive(Drop)]
pub(crate) struct Entries<'a> {
    pub(crate) relationships: Vec<RelationshipEntry<'a>>,
    pub(crate) seeds: Vec<SeedEntry<'a>>,
    pub(crate) floors: Vec<FloorEntry<'a>>,
}

/// What is written in a value.
pub(crate) fn read_entries<'a>(alloc: Global, value: &'a Value) -> Result<Entries<'a>, ConfigError>
    ensures said { MatchResult result (λ w. SaysWritten (view value.now) (written_of w))
        (Fails ConfigError.Shape ((w : Written) × SaysWritten (view value.now) w)) }
    ensures floors { IfOk result (λ w. AreFloors w.floors.items) }
{
    let floors = read_floors(alloc, value)?;
    let Some(relationships) = array_of(value, "relationships") else {
        return Err(ConfigError::Shape);
    };
    let Some(seeds) = array_of(value, "seeds") else {
        return Err(ConfigError::Shape);
    };
    Ok(Entries {
        relationships: read_relationships(alloc, relationships)?,
        seeds: read_seeds(alloc, seeds)?,
        floors,
    })
}

/// The floors: none if the object has two members, and those of `floors` if it has three.
fn read_floors<'a>(alloc: Global, value: &'a Value) -> Result<Vec<FloorEntry<'a>>, ConfigError>
    ensures said { MatchResult result (λ v. SaysFloors (view value.now) v.items)
        (Fails ConfigError.Shape ((fs : List Floor) × SaysFloors (view value.now) fs)) }
    ensures form { IfOk result (λ v. AreFloors v.items) }
{
    if has_count(value, 2) {
        return Ok(Vec::new(alloc));
    }
    if !has_count(value, 3) {
        return Err(ConfigError::Shape);
    }
    match floors_of(value) {
        Some(members) => read_members(alloc, members),
        None => Err(ConfigError::Shape),
    }
}

/// The object of the floors.
fn floors_of(value: &Value) -> Option<&Map<String, Value>>
    ensures { FindsMember (option_map (λ m. members_view m.now.entries) result)
        (λ ms. get (codes "floors") (view value.now) ≡ Some (object ms)) }
{
    value.get("floors")?.as_object()
}

/// The floors that the members of an object are.
fn read_members<'a>(
    alloc: Global,
    members: &'a Map<String, Value>,
) -> Result<Vec<FloorEntry<'a>>, ConfigError>
    ensures said { MatchResult result
        (λ v. members_view members.now.entries ≡ floor_members v.items)
        (Fails ConfigError.Shape
        ((fs : List Floor) × (members_view members.now.entries ≡ floor_members fs))) }
    ensures form { IfOk result (λ v. AreFloors v.items) }
{
    let mut floors = Vec::with_capacity(alloc, members.len())?;
    for (name, value) in members {
        let Some(sequence) = number_of(value) else {
            return Err(ConfigError::Shape);
        };
        floors.push(FloorEntry {
            domain: name.as_str(),
            sequence,
        })?;
    }
    Ok(floors)
}

/// A number that a document's sequence number could be.
fn number_of(value: &Value) -> Option<u64>
    ensures number { FindsMember result (λ n. view value.now ≡ number (unsigned n)) }
    ensures fits { IfSome result (λ n. n < 2 ^ 64) }
{
    value.as_u64()
}

/// The elements of a member that is an array.
fn array_of<'a>(value: &'a Value, name: &str) -> Option<&'a Vec<Value>>
    ensures { FindsMember (option_map (λ v. map view v.now.items) result)
        (HasArray (view value.now) name.now) }
{
    value.get(name)?.as_array()
}

fn read_relationships<'a>(
    alloc: Global,
    elements: &'a [Value],
) -> Result<Vec<RelationshipEntry<'a>>, ConfigError>
    ensures { MatchResult result
        (λ v. AllZip (λ value t. SaysRelationshipText (view value) t) elements.now v.items)
        (Fails ConfigError.Shape
        ((ts : List RelationshipText)
        × AllZip (λ value t. SaysRelationshipText (view value) t) elements.now ts)) }
{
    let mut entries = Vec::with_capacity(alloc, elements.len())?;
    for element in elements {
        let Some(entry) = relationship_entry(element) else {
            return Err(ConfigError::Shape);
        };
        entries.push(entry)?;
    }
    Ok(entries)
}

fn read_seeds<'a>(alloc: Global, elements: &'a [Value]) -> Result<Vec<SeedEntry<'a>>, ConfigError>
    ensures { MatchResult result
        (λ v. AllZip (λ value e. SaysSeedText (view value) (seed_text e)) elements.now v.items)
        (Fails ConfigError.Shape
        ((ts : List SeedText) × AllZip (λ value t. SaysSeedText (view value) t) elements.now ts)) }
{
    let mut entries = Vec::with_capacity(alloc, elements.len())?;
    for element in elements {
        let Some(entry) = seed_entry(element) else {
            return Err(ConfigError::Shape);
        };
        entries.push(entry)?;
    }
    Ok(entries)
}

/// The texts of a relationship, if the value has its shape.
fn relationship_entry(value: &Value) -> Option<RelationshipEntry<'_>>
    ensures { FindsMember result (SaysRelationshipText (view value.now)) }
{
    if !has_count(value, 4) {
        return None;
    }
    Some(RelationshipEntry {
        domain: text_of(value, "domain")?,
        endpoint: text_of(value, "endpoint")?,
        profile: text_of(value, "profile")?,
        url: text_of(value, "url")?,
    })
}

/// The parts of a seed, if the value has its shape.
fn seed_entry(value: &Value) -> Option<SeedEntry<'_>>
    ensures { FindsMember (option_map seed_text result) (SaysSeedText (view value.now)) }
{
    if !has_count(value, 2) {
        return None;
    }
    Some(SeedEntry {
        bundle: value.get("bundle")?,
        domain: text_of(value, "domain")?,
    })
}

/// Whether the value is an object with this many members.
fn has_count(value: &Value, count: usize) -> bool
    ensures { IsTrue result ↔ HasCount (view value.now) count }
{
    match value.as_object() {
        Some(members) => members.len() == count,
        None => false,
    }
}

/// The text of a member.
fn text_of<'a>(value: &'a Value, name: &str) -> Option<&'a str>
    ensures { FindsMember (option_map (λ s. s.now) result) (HasText (view value.now) name.now) }
{
    value.get(name)?.as_str()
}
