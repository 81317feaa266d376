//! The keys of each domain of a configuration.
ghost use Rattle.std.specs.Prelude.{◌≡◌, IfOk};
ghost use Rattle.std.specs.List.{AllZip};
ghost use Rattle.closure_core.specs.AcceptedList.{IsAcceptedList};
ghost use Rattle.key_view.specs.KeyEntries.{AreAllKeys, IsDomainKeys};
ghost use Rattle.key_view.specs.Inside.Listed.{IsListedEntry};

use crate::known_entry::{KeyEntry, key_entry};
use crate::listings::{Listing, accepted_listings};
use crate::met_keys::{KnownKey, known_keys};
use bundle_doc::Document;
use closure_core::Closure;
use jwk_set::KeyId;
use spiffe_name::TrustDomain;
use std::alloc::{AllocError, Global};
use std::collections::BTreeMap;
use std::marker::Model;

/// A document that a closure lends.
#[derive(Drop)]
pub(crate) struct AcceptedBundle<'a> {
    pub(crate) document: &'a Document,
}

impl<'a> Model for AcceptedBundle<'a> {
    ghost use Rattle.bundle_doc.specs.Bundle.{Bundle};

    ghost Value = { Bundle };

    ghost view = { λ a. a.document.now };
}

/// A domain, and the keys that are known in it.
#[derive(Debug, Drop)]
pub struct DomainKeys {
    /// The domain.
    pub domain: TrustDomain,
    /// Its keys, each once: those that its accepted documents list, and then those that only other
    /// documents of held receipts list.
    pub keys: Vec<KeyEntry>,
}

/// The keys of X.509 authorities of each domain of the configuration, sorted by domain: those that
/// its accepted documents list and then those of the documents of held receipts, each once, in the
/// order of the documents, of the receipts' lines and of the authorities.
///
/// Keys are looked up in maps, so the work for n authorities of a domain grows as n log n does.
///
/// # Errors
/// Memory ran out.
pub fn domain_keys<C: Closure>(alloc: Global, closure: &C) -> Result<Vec<DomainKeys>, AllocError>
    ensures { IfOk result (λ all. AreAllKeys (C.state closure.now).meaning all.items) }
{
    let mut all = Vec::new(alloc);
    for domain in closure.config().domains() {
        all.push(keys_of_domain(alloc, closure, domain)?)?;
    }
    Ok(all)
}

/// The keys of a domain.
pub(crate) fn keys_of_domain<C: Closure>(
    alloc: Global,
    closure: &C,
    domain: &TrustDomain,
) -> Result<DomainKeys, AllocError>
    ensures of { IfOk result (λ keys. keys.domain ≡ domain.now) }
    ensures is { IfOk result (IsDomainKeys (C.state closure.now).meaning) }
{
    let accepted = accepted_bundles(alloc, closure, domain)?;
    let known = known_keys(alloc, closure, domain, accepted.as_slice())?;
    let listings = accepted_listings(alloc, domain, accepted.as_slice())?;
    Ok(DomainKeys {
        domain: domain.try_clone(alloc)?,
        keys: key_entries(alloc, closure, domain, &listings, known.as_slice())?,
    })
}

/// The accepted documents of the domain, in their order.
pub(crate) fn accepted_bundles<'a, C: Closure>(
    alloc: Global,
    closure: &'a C,
    domain: &TrustDomain,
) -> Result<Vec<AcceptedBundle<'a>>, AllocError>
    ensures { IfOk result (λ bundles. IsAcceptedList (C.state closure.now).meaning domain.now
        bundles.items) }
{
    let mut bundles = Vec::new(alloc);
    for document in closure.accepted(domain) {
        bundles.push(AcceptedBundle { document })?;
    }
    Ok(bundles)
}

fn key_entries<C: Closure>(
    alloc: Global,
    closure: &C,
    domain: &TrustDomain,
    listings: &BTreeMap<KeyId, Listing>,
    known: &[KnownKey],
) -> Result<Vec<KeyEntry>, AllocError>
    ensures { IfOk result (λ keys. AllZip (IsListedEntry domain.now
        (C.state closure.now).meaning.records listings.now) known.now keys.items) }
{
    let mut keys = Vec::new(alloc);
    for one in known {
        keys.push(key_entry(alloc, closure, domain, listings, one)?)?;
    }
    Ok(keys)
}
