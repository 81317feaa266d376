//! The lowest sequence numbers that a configuration takes.
ghost use Rattle.std.specs.Prelude.{◌≡◌, ◌↔◌, IsTrue, IfOk, MatchResult, option_copied, option_map};
ghost use Rattle.serde_json.specs.View.{view};
ghost use Rattle.jwk_set.specs.Forms.{FindsMember};
ghost use Rattle.std.specs.List.{AllByRecursion, Contains};
ghost use Rattle.std.specs.List.Sorted.{IsStrictlySortedBy};
ghost use Rattle.fed_config.specs.Configuration.{IsSequenceOf, Reaches, ReachesEach, domain_cmp};
ghost use Rattle.fed_config.specs.Configuration.{floor_cmp};
ghost use Rattle.fed_config.specs.Reading.{Fails};
ghost use Rattle.fed_config.specs.UnknownFloors.{FindsFailing, FindsUnknown, RefusesDomains};

use crate::domains::domains_of;
use crate::error::ConfigError;
use crate::names::{read_domains, read_names};
use crate::seed::Seed;
use crate::written::{FloorEntry, read_entries};
use bundle_doc::Document;
use serde_json::Value;
use spiffe_name::TrustDomain;
use std::alloc::{AllocError, Global};

/// The floor of a trust domain: of its documents only those count whose sequence number (SPIFFE
/// Trust Domain and Bundle, section 4.1.1) is not lower. A document without a sequence number does
/// not count.
#[derive(Debug, Drop)]
pub struct Floor {
    /// The trust domain, which is one of the configuration's.
    pub domain: TrustDomain,
    /// The lowest sequence number.
    pub sequence: u64,
}

impl Floor {
    /// An equal floor.
    ///
    /// # Errors
    /// Memory ran out.
    pub fn try_clone(&self, alloc: Global) -> Result<Floor, AllocError>
        ensures { IfOk result (λ f. f ≡ self.now) }
    {
        Ok(Floor {
            domain: self.domain.try_clone(alloc)?,
            sequence: self.sequence,
        })
    }
}

/// The floors of these entries, each of one of these domains.
pub(crate) fn read_floors(
    alloc: Global,
    entries: &[FloorEntry],
    domains: &[TrustDomain],
) -> Result<Vec<Floor>, ConfigError>
    requires { IsStrictlySortedBy domain_cmp domains.now }
    ensures { MatchResult result
        (λ v. (v.items ≡ entries.now)
        × AllByRecursion (λ f. Contains domains.now f.domain) entries.now)
        (Fails ConfigError.BadName
        (AllByRecursion (λ f. Contains domains.now f.domain) entries.now)) }
{
    let mut floors = Vec::with_capacity(alloc, entries.len())?;
    for entry in entries {
        floors.push(floor_of(alloc, entry, domains)?)?;
    }
    Ok(floors)
}

fn floor_of(
    alloc: Global,
    entry: &FloorEntry,
    domains: &[TrustDomain],
) -> Result<Floor, ConfigError>
    requires { IsStrictlySortedBy domain_cmp domains.now }
    ensures { MatchResult result (λ f. (f ≡ entry.now) × Contains domains.now entry.now.domain)
        (Fails ConfigError.BadName (Contains domains.now entry.now.domain)) }
{
    match find(domains, entry.domain) {
        Some(domain) => Ok(Floor {
            domain: domain.try_clone(alloc)?,
            sequence: entry.sequence,
        }),
        None => Err(ConfigError::BadName),
    }
}

/// The domain of this name, found by binary search.
fn find<'a>(domains: &'a [TrustDomain], name: &str) -> Option<&'a TrustDomain>
    requires { IsStrictlySortedBy domain_cmp domains.now }
    ensures { FindsMember (option_copied result)
        (λ d. (d ≡ name.now) × Contains domains.now name.now) }
{
    match domains.binary_search_by(|domain| domain.as_str().cmp(name)) {
        Ok(place) => Some(&domains[place]),
        Err(_) => None,
    }
}

/// The first name among the `floors` of a JSON value in the shape of a configuration, in the order
/// of the names, which is not the name of one of its trust domains.
///
/// # Errors
/// The value has another shape, a relationship or a seed has a text that is not a name, so the
/// domains are not known, or memory ran out.
pub fn unknown_floor<'a>(alloc: Global, value: &'a Value) -> Result<Option<&'a str>, ConfigError>
    ensures { MatchResult result
        (λ o. FindsUnknown (view value.now) (option_map (λ name. name.now) o))
        (RefusesDomains (view value.now)) }
{
    spiffe_name::laws::one_reading();
    let entries = read_entries(alloc, value)?;
    let names = read_names(alloc, entries.relationships.as_slice())?;
    let seeds = read_domains(alloc, entries.seeds.as_slice())?;
    let domains = domains_of(alloc, names.as_slice(), seeds.as_slice())?;
    Ok(first_unknown(entries.floors.as_slice(), domains.as_slice()))
}

fn first_unknown<'a>(floors: &[FloorEntry<'a>], domains: &[TrustDomain]) -> Option<&'a str>
    requires { IsStrictlySortedBy domain_cmp domains.now }
    ensures { FindsFailing (Contains domains.now) floors.now
        (option_map (λ name. name.now) result) }
{
    for entry in floors {
        if find(domains, entry.domain).is_none() {
            return Some(entry.domain);
        }
    }
    None
}

/// The lowest sequence number of a domain that has a floor among these, found by binary search.
pub(crate) fn sequence_of(floors: &[Floor], domain: &TrustDomain) -> Option<u64>
    requires { IsStrictlySortedBy floor_cmp floors.now }
    ensures { IsSequenceOf floors.now domain.now result }
{
    match floors.binary_search_by(|floor| floor.domain.cmp(domain)) {
        Ok(place) => Some(floors[place].sequence),
        Err(_) => None,
    }
}

/// Whether each seed reaches the floor of its domain.
pub(crate) fn reach_floors(floors: &[Floor], seeds: &[Seed]) -> bool
    requires { IsStrictlySortedBy floor_cmp floors.now }
    ensures { IsTrue result
        ↔ AllByRecursion (λ s. ReachesEach floors.now s.domain s.document) seeds.now }
{
    for seed in seeds {
        if !reaches_floor(floors, &seed.domain, &seed.document) {
            return false;
        }
    }
    true
}

/// Whether the document reaches the floor of its domain, if it has one among these.
pub(crate) fn reaches_floor(floors: &[Floor], domain: &TrustDomain, document: &Document) -> bool
    requires { IsStrictlySortedBy floor_cmp floors.now }
    ensures { IsTrue result ↔ ReachesEach floors.now domain.now document.now }
{
    match sequence_of(floors, domain) {
        Some(sequence) => reaches(sequence, document),
        None => true,
    }
}

/// Whether the document has a sequence number, and it is not lower than this one.
fn reaches(sequence: u64, document: &Document) -> bool
    ensures { IsTrue result ↔ Reaches sequence document.now }
{
    match document.rank() {
        Some(rank) => sequence <= rank,
        None => false,
    }
}
