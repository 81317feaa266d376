//! The parts of a configuration, read one kind after another: names, URLs, profiles, documents. So
//! the first cause is reported, wherever it is.
ghost use Rattle.std.specs.Prelude.{◌≡◌, ◌↔◌, List, ℕ, IsTrue, MatchResult, IfOk, map};
ghost use Rattle.std.specs.List.{AllByRecursion, AllZip, zip};
ghost use Rattle.bundle_doc.specs.Bundle.{Bundle, Means, Fits};
ghost use Rattle.url.specs.Parts.{Parts};
ghost use Rattle.spiffe_name.specs.TrustDomain.{IsDomainText};
ghost use Rattle.fed_config.specs.EndpointUrl.{IsParsed};
ghost use Rattle.fed_config.specs.Inside.Entries.{seed_text};
ghost use Rattle.fed_config.specs.Reading.{Fails, HasName, IsProfile, SaysNames, SaysDomain};
ghost use Rattle.fed_config.specs.Reading.{SaysUrl, SaysSeedDocument, cause_of};
ghost use Rattle.fed_config.specs.Reading.{joined_relationship, joined_seed};

use crate::error::ConfigError;
use crate::relationship::{EndpointUrl, Relationship};
use crate::seed::Seed;
use crate::written::{RelationshipEntry, SeedEntry};
use bundle_doc::{DocError, Document};
use spiffe_name::{NameError, SpiffeId, TrustDomain};
use std::alloc::{AllocError, Global};

/// The one profile that is read (SPIFFE Federation, section 5.2.2).
const PROFILE: &str = "https_spiffe";

/// The names of a relationship.
#[derive(Drop)]
pub(crate) struct Names {
    pub(crate) domain: TrustDomain,
    pub(crate) endpoint: SpiffeId,
}

/// The names of each relationship.
pub(crate) fn read_names(
    alloc: Global,
    entries: &[RelationshipEntry],
) -> Result<Vec<Names>, ConfigError>
    ensures { MatchResult result (λ v. AllZip SaysNames entries.now v.items)
        (Fails ConfigError.BadName (AllByRecursion HasName entries.now)) }
{
    let mut names = Vec::with_capacity(alloc, entries.len())?;
    for entry in entries {
        names.push(names_of(alloc, entry)?)?;
    }
    Ok(names)
}

/// The domain of each seed.
pub(crate) fn read_domains(
    alloc: Global,
    entries: &[SeedEntry],
) -> Result<Vec<TrustDomain>, ConfigError>
    ensures { MatchResult result
        (λ v. AllZip (λ e domain. SaysDomain (seed_text e) domain) entries.now v.items)
        (Fails ConfigError.BadName
        (AllByRecursion (λ e. IsDomainText (seed_text e).domain) entries.now)) }
{
    let mut domains = Vec::with_capacity(alloc, entries.len())?;
    for entry in entries {
        domains.push(domain_of(alloc, entry.domain)?)?;
    }
    Ok(domains)
}

/// The URL of each relationship.
pub(crate) fn read_urls(
    alloc: Global,
    entries: &[RelationshipEntry],
) -> Result<Vec<EndpointUrl>, ConfigError>
    ensures { MatchResult result (λ v. AllZip SaysUrl entries.now v.items)
        (Fails ConfigError.BadUrl
        (AllByRecursion (λ t. (parts : Parts) × IsParsed t.url parts) entries.now)) }
{
    let mut urls = Vec::with_capacity(alloc, entries.len())?;
    for entry in entries {
        urls.push(url_of(alloc, entry)?)?;
    }
    Ok(urls)
}

/// Whether each relationship has the profile that is read.
pub(crate) fn have_profile(entries: &[RelationshipEntry]) -> bool
    ensures { IsTrue result ↔ AllByRecursion (λ t. IsProfile t.profile) entries.now }
{
    for entry in entries {
        if entry.profile != PROFILE {
            return false;
        }
    }
    true
}

/// The document of each seed.
pub(crate) fn read_documents(
    alloc: Global,
    entries: &[SeedEntry],
) -> Result<Vec<Document>, ConfigError>
    ensures { MatchResult result
        (λ v. AllZip (λ e document. SaysSeedDocument (seed_text e) document) entries.now v.items)
        (Fails ConfigError.BadSeed
        (AllByRecursion (λ e. (b : Bundle) × Means (seed_text e).bundle b × Fits b) entries.now)) }
{
    let mut documents = Vec::with_capacity(alloc, entries.len())?;
    for entry in entries {
        documents.push(document_of(alloc, entry)?)?;
    }
    Ok(documents)
}

/// Relationships of these names and URLs.
pub(crate) fn join_relationships(
    alloc: Global,
    names: Vec<Names>,
    urls: Vec<EndpointUrl>,
) -> Result<Vec<Relationship>, AllocError>
    ensures { IfOk result (λ v. v.items ≡ map joined_relationship (zip names.items urls.items)) }
{
    names
        .into_iter()
        .zip(urls)
        .map(|(names, url)| Relationship {
            domain: names.domain,
            endpoint: names.endpoint,
            url,
        })
        .collect(alloc)
}

/// Seeds of these domains and documents.
pub(crate) fn join_seeds(
    alloc: Global,
    domains: Vec<TrustDomain>,
    documents: Vec<Document>,
) -> Result<Vec<Seed>, AllocError>
    ensures { IfOk result (λ v. v.items ≡ map joined_seed (zip domains.items documents.items)) }
{
    domains
        .into_iter()
        .zip(documents)
        .map(|(domain, document)| Seed { domain, document })
        .collect(alloc)
}

fn names_of(alloc: Global, entry: &RelationshipEntry) -> Result<Names, ConfigError>
    ensures { MatchResult result (SaysNames entry.now)
        (Fails ConfigError.BadName (HasName entry.now)) }
{
    let domain = domain_of(alloc, entry.domain)?;
    match SpiffeId::read(alloc, entry.endpoint) {
        Ok(endpoint) => Ok(Names { domain, endpoint }),
        Err(NameError::NoMemory) => Err(ConfigError::NoMemory),
        Err(_) => Err(ConfigError::BadName),
    }
}

fn domain_of(alloc: Global, text: &str) -> Result<TrustDomain, ConfigError>
    ensures { MatchResult result (λ d. (d ≡ text.now) × IsDomainText text.now)
        (Fails ConfigError.BadName (IsDomainText text.now)) }
{
    match TrustDomain::read(alloc, text) {
        Ok(domain) => Ok(domain),
        Err(NameError::NoMemory) => Err(ConfigError::NoMemory),
        Err(_) => Err(ConfigError::BadName),
    }
}

fn url_of(alloc: Global, entry: &RelationshipEntry) -> Result<EndpointUrl, ConfigError>
    ensures { MatchResult result (SaysUrl entry.now)
        (Fails ConfigError.BadUrl ((parts : Parts) × IsParsed entry.now.url parts)) }
{
    EndpointUrl::read(alloc, entry.url)
}

fn document_of(alloc: Global, entry: &SeedEntry) -> Result<Document, ConfigError>
    ensures { MatchResult result (SaysSeedDocument (seed_text entry.now))
        (Fails ConfigError.BadSeed ((b : Bundle) × Means (seed_text entry.now).bundle b × Fits b)) }
{
    bundle_doc::laws::values();
    match Document::from_value(alloc, entry.bundle) {
        Ok(document) => Ok(document),
        Err(error) => Err(cause_of(error)),
    }
}

/// The cause for which a seed is refused whose bundle is.
fn cause_of(error: DocError) -> ConfigError
    ensures { result ≡ cause_of error }
{
    match error {
        DocError::NoMemory => ConfigError::NoMemory,
        _ => ConfigError::BadSeed,
    }
}
