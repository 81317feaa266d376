//! The public keys of a domain's distrusted keys. Most keys are not distrusted, so each is looked
//! up and only the certificates of those that are distrusted are read.
ghost use Rattle.std.specs.Prelude.{IfOk, OnOk};
ghost use Rattle.key_view.specs.KnownKeys.{keys_of_documents, known_keys, with_authorities};
ghost use Rattle.key_view.specs.KnownKeys.{with_der, with_keys_of_receipt, with_listed};
ghost use Rattle.key_view.specs.Inside.Distrusted.{Adds, AddsDigestOf, AddsDistrusted};
ghost use Rattle.key_view.specs.Inside.Distrusted.{FindsDistrusted, IsDigestOf};

use crate::key_listing::AcceptedBundle;
use cert_key::read_certificate;
use closure_core::Closure;
use jwk_set::{Authority, Certificate, KeyId};
use receipt_core::Receipt;
use sha2::{Digest, Sha256};
use spiffe_name::TrustDomain;
use std::alloc::{AllocError, Global};
use std::collections::BTreeSet;

/// The distrusted keys of a domain that were met.
#[derive(Debug, Drop)]
pub(crate) struct DistrustedKeys {
    /// Their ids, so that each certificate is read once.
    pub(crate) ids: BTreeSet<KeyId>,
    /// The SHA-256 of the public key of each whose certificate is read.
    pub(crate) public_keys: BTreeSet<[u8; 32]>,
}

/// The distrusted keys of these accepted documents and of the domain's documents that are held.
pub(crate) fn distrusted_keys<C: Closure>(
    alloc: Global,
    closure: &C,
    domain: &TrustDomain,
    accepted: &[AcceptedBundle<'_>],
) -> Result<DistrustedKeys, AllocError>
    ensures { IfOk result (FindsDistrusted domain.now (C.state closure.now).meaning.records
        (known_keys (C.state closure.now).meaning.held domain.now accepted.now)) }
{
    let mut found = keys_of_accepted(alloc, closure, domain, accepted)?;
    for receipt in closure.receipts() {
        add_receipt(&mut found, closure, domain, receipt)?;
    }
    Ok(found)
}

/// The SHA-256 of the certificate's public key, and `None` if the certificate is not read.
pub(crate) fn public_key_of(der: &Certificate) -> Option<[u8; 32]>
    ensures { IsDigestOf der.now result }
{
    match read_certificate(der.as_bytes()) {
        Some(parts) => Some(Sha256::digest(parts.public_key)),
        None => None,
    }
}

fn keys_of_accepted<C: Closure>(
    alloc: Global,
    closure: &C,
    domain: &TrustDomain,
    accepted: &[AcceptedBundle<'_>],
) -> Result<DistrustedKeys, AllocError>
    ensures { IfOk result (FindsDistrusted domain.now (C.state closure.now).meaning.records
        (keys_of_documents accepted.now)) }
{
    let mut found = DistrustedKeys {
        ids: BTreeSet::new(alloc),
        public_keys: BTreeSet::new(alloc),
    };
    for bundle in accepted {
        add_authorities(&mut found, closure, domain, bundle.document.authorities())?;
    }
    Ok(found)
}

fn add_receipt<C: Closure>(
    found: &mut DistrustedKeys,
    closure: &C,
    domain: &TrustDomain,
    receipt: &Receipt,
) -> Result<(), AllocError>
    ensures { OnOk result (Adds domain.now (C.state closure.now).meaning.records
        (λ known. with_keys_of_receipt domain.now known receipt.now) found.old found.new) }
{
    if receipt.domain().as_str() == domain.as_str() {
        add_authorities(found, closure, domain, receipt.document().authorities())?;
    }
    Ok(())
}

fn add_authorities<C: Closure>(
    found: &mut DistrustedKeys,
    closure: &C,
    domain: &TrustDomain,
    authorities: &[Authority],
) -> Result<(), AllocError>
    ensures { OnOk result (Adds domain.now (C.state closure.now).meaning.records
        (λ known. with_authorities known authorities.now) found.old found.new) }
{
    for authority in authorities {
        add_listed(found, closure, domain, authority)?;
    }
    Ok(())
}

fn add_listed<C: Closure>(
    found: &mut DistrustedKeys,
    closure: &C,
    domain: &TrustDomain,
    authority: &Authority,
) -> Result<(), AllocError>
    ensures { OnOk result (Adds domain.now (C.state closure.now).meaning.records
        (λ known. with_listed known authority.now) found.old found.new) }
{
    match authority {
        Authority::X509 { der, .. } => add_certificate(found, closure, domain, der),
        Authority::Jwt { .. } => Ok(()),
    }
}

fn add_certificate<C: Closure>(
    found: &mut DistrustedKeys,
    closure: &C,
    domain: &TrustDomain,
    der: &Certificate,
) -> Result<(), AllocError>
    ensures { OnOk result (Adds domain.now (C.state closure.now).meaning.records
        (λ known. with_der known der.now) found.old found.new) }
{
    let key = der.key_id();
    if closure.is_distrusted(domain, key) {
        add_distrusted(found, key, der)?;
    }
    Ok(())
}

fn add_distrusted(
    found: &mut DistrustedKeys,
    key: KeyId,
    der: &Certificate,
) -> Result<(), AllocError>
    ensures { OnOk result (AddsDistrusted key der.now found.old found.new) }
{
    if found.ids.insert(key)? {
        add_public_key(&mut found.public_keys, der)?;
    }
    Ok(())
}

fn add_public_key(public_keys: &mut BTreeSet<[u8; 32]>, der: &Certificate) -> Result<(), AllocError>
    ensures { OnOk result (AddsDigestOf der.now public_keys.old public_keys.new) }
{
    if let Some(digest) = public_key_of(der) {
        public_keys.insert(digest)?;
    }
    Ok(())
}
