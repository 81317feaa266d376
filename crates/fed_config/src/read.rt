//! Reading a configuration: what is written in its shape, then its parts, then these as sets, and
//! its canonical text.
ghost use Rattle.std.specs.Prelude.{◌≡◌, ◌↔◌, ◌≤◌, IsTrue, MatchResult, length};
ghost use Rattle.fed_config.specs.Configuration.{AreDomains, IsConfiguration};
ghost use Rattle.fed_config.specs.Inside.Entries.{AreFloors, written_of};
ghost use Rattle.fed_config.specs.Reading.{HasRisingLists, Fails, HasFewDomains, IsConfig, IsRead};
ghost use Rattle.fed_config.specs.Reading.{RefusesConfigBytes, RefusesRead};
ghost use Rattle.fed_config.specs.Limits.{relationship_limit, seed_limit, usual_limits};

use crate::canonical::id_of;
use crate::config::Config;
use crate::domains::domains_of;
use crate::error::ConfigError;
use crate::floor::{Floor, reach_floors, read_floors};
use crate::limits::{Limits, USUAL_RECEIPTS, USUAL_RECORDS};
use crate::names::{
    have_profile, join_relationships, join_seeds, read_documents, read_domains, read_names,
    read_urls,
};
use crate::relationship::Relationship;
use crate::seed::Seed;
use crate::sets::{are_single, sort_relationships, sort_seeds};
use crate::written::{Entries, read_entries};
use serde_json::Value;
use spiffe_name::TrustDomain;
use std::alloc::Global;
use std::str;

/// The most relationships, as they are written, and the most trust domains.
const MAX_DOMAINS: usize = 1_024;

/// The most seeds, as they are written.
const MAX_SEEDS: usize = 4_096;

impl Config {
    /// The configuration that a JSON text (RFC 8259) says: of members with one name the last
    /// counts, and arrays and objects may nest 127 levels deep.
    ///
    /// Objects have the members named here and no other: the whole has the arrays `relationships`
    /// and `seeds`, and may have the object `floors`, in which each name is a trust domain of this
    /// configuration and has a whole number from 0 to 2^64 - 1. No seed of such a domain may be
    /// below this number, or be without a sequence number. An empty object says the same as no
    /// object.
    ///
    /// In each relationship there are four texts: in `domain` a trust domain name, in `endpoint` a
    /// SPIFFE ID, in `profile` `https_spiffe`, and in `url` a URL of at most 2,048 bytes with the
    /// scheme `https`, which has neither a user name nor a password. In each seed there are
    /// `bundle`, a document, and `domain`, a trust domain name.
    ///
    /// # Errors
    /// The first of [`ConfigError`]'s causes that holds anywhere. If memory ran out it is
    /// [`ConfigError::NoMemory`], whatever else holds: memory is first wanted for the JSON value of
    /// bytes that are UTF-8 and not empty.
    pub fn read(alloc: Global, bytes: &[u8]) -> Result<Config, ConfigError>
        ensures { MatchResult result (IsConfig bytes.now) (RefusesConfigBytes bytes.now) }
    {
        let Ok(text) = str::from_utf8(bytes) else {
            return Err(ConfigError::NotJson);
        };
        match Value::from_str(alloc, text) {
            Ok(value) => Config::from_entries(alloc, &read_entries(alloc, &value)?),
            Err(error) if error.is_memory() => Err(ConfigError::NoMemory),
            Err(_) => Err(ConfigError::NotJson),
        }
    }

    /// The configuration of what is written.
    fn from_entries(alloc: Global, entries: &Entries) -> Result<Config, ConfigError>
        requires { AreFloors entries.now.floors.items }
        ensures { MatchResult result (IsRead (written_of entries.now))
            (RefusesRead (written_of entries.now)) }
    {
        spiffe_name::laws::one_reading();
        bundle_doc::laws::values();
        let names = read_names(alloc, entries.relationships.as_slice())?;
        let seed_domains = read_domains(alloc, entries.seeds.as_slice())?;
        let domains = domains_of(alloc, names.as_slice(), seed_domains.as_slice())?;
        let floors = read_floors(alloc, entries.floors.as_slice(), domains.as_slice())?;
        let urls = read_urls(alloc, entries.relationships.as_slice())?;
        if !have_profile(entries.relationships.as_slice()) {
            return Err(ConfigError::BadProfile);
        }
        let mut relationships = join_relationships(alloc, names, urls)?;
        sort_relationships(&mut relationships);
        if !are_single(relationships.as_slice()) {
            return Err(ConfigError::DoubleRelationship);
        }
        let documents = read_documents(alloc, entries.seeds.as_slice())?;
        let mut seeds = join_seeds(alloc, seed_domains, documents)?;
        if !reach_floors(floors.as_slice(), seeds.as_slice()) {
            return Err(ConfigError::BadSeed);
        }
        if !are_few(entries) {
            return Err(ConfigError::TooMany);
        }
        sort_seeds(&mut seeds);
        Config::of_sets(alloc, relationships, seeds, floors, domains)
    }

    /// The configuration of these sets, if these are few enough domains.
    fn of_sets(
        alloc: Global,
        relationships: Vec<Relationship>,
        seeds: Vec<Seed>,
        floors: Vec<Floor>,
        domains: Vec<TrustDomain>,
    ) -> Result<Config, ConfigError>
        requires lists { HasRisingLists (record {
          relationships = relationships.items;
          seeds = seeds.items;
          floors = floors.items;
          limits = usual_limits;
        }) }
        requires domains { AreDomains (record {
          relationships = relationships.items;
          seeds = seeds.items;
          floors = floors.items;
          limits = usual_limits;
        }) domains.items }
        ensures { MatchResult result
            (λ c. (c ≡ record {
              relationships = relationships.items;
              seeds = seeds.items;
              floors = floors.items;
              limits = usual_limits;
            }) × IsConfiguration c)
            (Fails ConfigError.TooMany (HasFewDomains (record {
              relationships = relationships.items;
              seeds = seeds.items;
              floors = floors.items;
              limits = usual_limits;
            }))) }
    {
        if domains.len() > MAX_DOMAINS {
            return Err(ConfigError::TooMany);
        }
        let id = id_of(
            alloc,
            relationships.as_slice(),
            seeds.as_slice(),
            floors.as_slice(),
        )?;
        Ok(Config {
            relationships,
            seeds,
            floors,
            limits: Limits {
                receipts: USUAL_RECEIPTS,
                records: USUAL_RECORDS,
            },
            domains,
            id,
        })
    }
}

/// Whether there are few enough relationships and seeds, as they are written.
fn are_few(entries: &Entries) -> bool
    ensures { IsTrue result
        ↔ ((length entries.now.relationships.items ≤ relationship_limit)
        × (length entries.now.seeds.items ≤ seed_limit)) }
{
    if entries.relationships.len() > MAX_DOMAINS {
        return false;
    }
    entries.seeds.len() <= MAX_SEEDS
}
