//! Configurations, and what they are asked.
ghost use Rattle.std.specs.Prelude.{◌≡◌, IfOk, option_copied};
ghost use Rattle.fed_config.specs.Configuration.{AreDomains, IsConfiguration, IsRelationshipOf};
ghost use Rattle.fed_config.specs.Configuration.{IsFloorOf, IsPlace, config_id_of};

use crate::config_id::ConfigId;
use crate::floor::{Floor, sequence_of};
use crate::limits::Limits;
use crate::relationship::Relationship;
use crate::seed::Seed;
use spiffe_name::TrustDomain;
use std::alloc::{AllocError, Global};
use std::marker::Model;

/// What an operator says to a replica out of band (SPIFFE Federation, section 5): at most one
/// relationship with each foreign trust domain, seeds, which are bundles of trust domains, and
/// floors, which are the lowest sequence numbers that count.
///
/// A configuration is its meaning: two of them are equal exactly if they have the same
/// relationships, seeds, floors and limits, in whatever order these were written and however often
/// a seed was. Each has one canonical text, which does not say the limits; the digest of that text
/// is its id.
#[derive(Debug, Drop)]
pub struct Config {
    pub(crate) relationships: Vec<Relationship>,
    pub(crate) seeds: Vec<Seed>,
    pub(crate) floors: Vec<Floor>,
    pub(crate) limits: Limits,
    pub(crate) domains: Vec<TrustDomain>,
    pub(crate) id: ConfigId,
}

impl Model for Config {
    ghost use Rattle.fed_config.specs.Configuration.{Configuration, IsStoredConfiguration};

    ghost Value = { Configuration };

    ghost view = { λ a. record {
      relationships = a.relationships.items;
      seeds = a.seeds.items;
      floors = a.floors.items;
      limits = a.limits;
    } };

    ghost invariant = { λ a. IsStoredConfiguration (record {
      relationships = a.relationships.items;
      seeds = a.seeds.items;
      floors = a.floors.items;
      limits = a.limits;
    }) a.domains.items a.id.0 };
}

impl Config {
    /// The trust domains that the configuration speaks of, sorted: those of its relationships, of
    /// their endpoints and of its seeds. There are at most 1,024.
    pub fn domains(&self) -> &[TrustDomain]
        ensures all { AreDomains self.now result.now }
        ensures form { IsConfiguration self.now }
    {
        self.domains.as_slice()
    }

    /// The place of the trust domain in [`Config::domains`], found by binary search.
    pub fn domain_no(&self, domain: &TrustDomain) -> Option<usize>
        ensures { IsPlace self.now domain.now result }
    {
        self.domains.binary_search(domain).ok()
    }

    /// The relationship with a trust domain, found by binary search.
    pub fn relationship(&self, domain: &TrustDomain) -> Option<&Relationship>
        ensures { IsRelationshipOf self.now domain.now (option_copied result) }
    {
        match self
            .relationships
            .binary_search_by(|relationship| relationship.domain.cmp(domain))
        {
            Ok(place) => Some(&self.relationships[place]),
            Err(_) => None,
        }
    }

    /// The relationships, sorted by their trust domains. There are at most 1,024.
    pub fn relationships(&self) -> &[Relationship]
        ensures { result.now ≡ self.now.relationships }
    {
        self.relationships.as_slice()
    }

    /// The seeds, each once, sorted by their trust domains and then by their documents' canonical
    /// texts. There are at most 4,096.
    pub fn seeds(&self) -> &[Seed]
        ensures { result.now ≡ self.now.seeds }
    {
        self.seeds.as_slice()
    }

    /// The floors, sorted by their trust domains. There is at most one for each of
    /// [`Config::domains`].
    pub fn floors(&self) -> &[Floor]
        ensures { result.now ≡ self.now.floors }
    {
        self.floors.as_slice()
    }

    /// The floor of a trust domain, found by binary search: the lowest sequence number that counts.
    pub fn floor(&self, domain: &TrustDomain) -> Option<u64>
        ensures { IsFloorOf self.now domain.now result }
    {
        sequence_of(self.floors.as_slice(), domain)
    }

    /// How much may be held under the configuration.
    pub fn limits(&self) -> Limits
        ensures { result ≡ self.now.limits }
    {
        self.limits
    }

    /// Sets how much may be held under the configuration. The id is the same afterwards.
    pub fn set_limits(&mut self, limits: Limits)
        ensures { self.new ≡ record self.old { limits = limits } }
    {
        self.limits = limits;
    }

    /// The configuration's id, which equal configurations share.
    pub fn digest(&self) -> ConfigId
        ensures { result.0 ≡ config_id_of self.now }
    {
        self.id
    }

    /// An equal configuration.
    ///
    /// # Errors
    /// Memory ran out.
    pub fn try_clone(&self, alloc: Global) -> Result<Config, AllocError>
        ensures { IfOk result (λ c. c ≡ self.now) }
    {
        Ok(Config {
            relationships: copies_of_relationships(alloc, self.relationships.as_slice())?,
            seeds: copies_of_seeds(alloc, self.seeds.as_slice())?,
            floors: copies_of_floors(alloc, self.floors.as_slice())?,
            limits: self.limits,
            domains: copies_of_domains(alloc, self.domains.as_slice())?,
            id: self.id,
        })
    }
}

fn copies_of_relationships(
    alloc: Global,
    relationships: &[Relationship],
) -> Result<Vec<Relationship>, AllocError>
    ensures { IfOk result (λ v. v.items ≡ relationships.now) }
{
    let mut copies = Vec::with_capacity(alloc, relationships.len())?;
    for relationship in relationships {
        copies.push(relationship.try_clone(alloc)?)?;
    }
    Ok(copies)
}

fn copies_of_seeds(alloc: Global, seeds: &[Seed]) -> Result<Vec<Seed>, AllocError>
    ensures { IfOk result (λ v. v.items ≡ seeds.now) }
{
    let mut copies = Vec::with_capacity(alloc, seeds.len())?;
    for seed in seeds {
        copies.push(seed.try_clone(alloc)?)?;
    }
    Ok(copies)
}

fn copies_of_floors(alloc: Global, floors: &[Floor]) -> Result<Vec<Floor>, AllocError>
    ensures { IfOk result (λ v. v.items ≡ floors.now) }
{
    let mut copies = Vec::with_capacity(alloc, floors.len())?;
    for floor in floors {
        copies.push(floor.try_clone(alloc)?)?;
    }
    Ok(copies)
}

fn copies_of_domains(alloc: Global, domains: &[TrustDomain]) -> Result<Vec<TrustDomain>, AllocError>
    ensures { IfOk result (λ v. v.items ≡ domains.now) }
{
    let mut copies = Vec::with_capacity(alloc, domains.len())?;
    for domain in domains {
        copies.push(domain.try_clone(alloc)?)?;
    }
    Ok(copies)
}
