//! Which keys of a domain have one public key.
ghost use Rattle.std.specs.Prelude.{◌≡◌, IfOk};
ghost use Rattle.key_view.specs.KeyEntries.{is_one_public_key};
ghost use Rattle.key_view.specs.SameKeys.{AreKeysWith, AreSameKeys, AreSameKeysOf, has_record};
ghost use Rattle.key_view.specs.SameKeys.{ids_with};
ghost use Rattle.key_view.specs.Inside.Distrusted.{AreTrustedWith, SaysIfHasKey, SaysIfTrusted};

use crate::distrusted_keys::{distrusted_keys, public_key_of};
use crate::key_listing::{accepted_bundles, keys_of_domain};
use crate::known_entry::{KeyEntry, KeyParts};
use crate::met_keys::{KnownKey, keys_of_documents};
use closure_core::Closure;
use jwk_set::{Certificate, KeyId};
use spiffe_name::TrustDomain;
use std::alloc::{AllocError, Global};
use std::collections::BTreeSet;

/// The keys of the domain that an accepted document lists and that are not distrusted, though a
/// distrusted key of the domain has the same public key, in the order of [`crate::domain_keys`]. A
/// domain without a record of distrust has none, and its documents are not looked at.
///
/// Each key of the domain's accepted and held documents is looked up among the records of distrust,
/// and the certificates of the distrusted ones are read. Only if these give a public key are the
/// other certificates of accepted documents read, each once. So after one record of distrust the
/// work is far less than that of a listing.
///
/// # Errors
/// Memory ran out.
pub fn same_keys<C: Closure>(
    alloc: Global,
    closure: &C,
    domain: &TrustDomain,
) -> Result<Vec<KeyId>, AllocError>
    ensures { IfOk result (λ keys. AreSameKeys (C.state closure.now).meaning domain.now
        keys.items) }
{
    if has_record(closure, domain) {
        same_keys_of(alloc, closure, domain)
    } else {
        Ok(Vec::new(alloc))
    }
}

/// The keys of the domain that accepted or held documents list and whose certificates have the
/// public key with this SHA-256, in the order of [`crate::domain_keys`].
///
/// # Errors
/// Memory ran out.
pub fn keys_with<C: Closure>(
    alloc: Global,
    closure: &C,
    domain: &TrustDomain,
    public_key: &[u8; 32],
) -> Result<Vec<KeyId>, AllocError>
    ensures { IfOk result (λ keys. AreKeysWith (C.state closure.now).meaning domain.now
        public_key.now keys.items) }
{
    let keys = keys_of_domain(alloc, closure, domain)?;
    ids_with(alloc, public_key, keys.keys.as_slice())
}

// Whether a key is distrusted in the domain.
fn has_record<C: Closure>(closure: &C, domain: &TrustDomain) -> bool
    ensures { result ≡ has_record domain.now (C.state closure.now).meaning.records }
{
    for (of, _) in closure.distrusts() {
        if of.as_str() == domain.as_str() {
            return true;
        }
    }
    false
}

// If no distrusted certificate gave a public key, no other certificate is read.
fn same_keys_of<C: Closure>(
    alloc: Global,
    closure: &C,
    domain: &TrustDomain,
) -> Result<Vec<KeyId>, AllocError>
    ensures { IfOk result (λ keys. AreSameKeysOf (C.state closure.now).meaning domain.now
        keys.items) }
{
    let accepted = accepted_bundles(alloc, closure, domain)?;
    let distrusted = distrusted_keys(alloc, closure, domain, accepted.as_slice())?;
    if distrusted.public_keys.is_empty() {
        return Ok(Vec::new(alloc));
    }
    let met = keys_of_documents(alloc, accepted.as_slice())?;
    trusted_with(
        alloc,
        closure,
        domain,
        &distrusted.public_keys,
        met.keys.as_slice(),
    )
}

fn trusted_with<C: Closure>(
    alloc: Global,
    closure: &C,
    domain: &TrustDomain,
    public_keys: &BTreeSet<[u8; 32]>,
    known: &[KnownKey],
) -> Result<Vec<KeyId>, AllocError>
    ensures { IfOk result (λ ids. AreTrustedWith domain.now (C.state closure.now).meaning.records
        public_keys.now known.now ids.items) }
{
    let mut ids = Vec::new(alloc);
    for one in known {
        if is_trusted_with(closure, domain, public_keys, one) {
            ids.push(one.key)?;
        }
    }
    Ok(ids)
}

fn is_trusted_with<C: Closure>(
    closure: &C,
    domain: &TrustDomain,
    public_keys: &BTreeSet<[u8; 32]>,
    known: &KnownKey,
) -> bool
    ensures { SaysIfTrusted domain.now (C.state closure.now).meaning.records public_keys.now
        known.now result }
{
    !closure.is_distrusted(domain, known.key) && has_key_of(public_keys, &known.der)
}

fn has_key_of(public_keys: &BTreeSet<[u8; 32]>, der: &Certificate) -> bool
    ensures { SaysIfHasKey public_keys.now der.now result }
{
    match public_key_of(der) {
        Some(digest) => public_keys.contains(&digest),
        None => false,
    }
}

fn ids_with(
    alloc: Global,
    public_key: &[u8; 32],
    entries: &[KeyEntry],
) -> Result<Vec<KeyId>, AllocError>
    ensures { IfOk result (λ ids. ids.items ≡ ids_with public_key.now entries.now) }
{
    let mut ids = Vec::new(alloc);
    for entry in entries {
        if is_one_public_key(&entry.parts, public_key) {
            ids.push(entry.key)?;
        }
    }
    Ok(ids)
}

fn is_one_public_key(parts: &Option<KeyParts>, wanted: &[u8; 32]) -> bool
    ensures { result ≡ is_one_public_key parts.now wanted.now }
{
    match parts {
        Some(parts) => parts.public_key.as_slice() == wanted.as_slice(),
        None => false,
    }
}
