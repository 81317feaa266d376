//! The different keys of a domain's documents, in the order in which they are met.
ghost use Rattle.std.specs.Prelude.{◌≡◌, IfOk, OnOk};
ghost use Rattle.key_view.specs.KnownKeys.{keys_of_documents, known_keys, with_authorities};
ghost use Rattle.key_view.specs.KnownKeys.{with_der, with_keys_of_receipt, with_listed};
ghost use Rattle.key_view.specs.Inside.MetIds.{HasIds};

use crate::key_listing::AcceptedBundle;
use closure_core::Closure;
use jwk_set::{Authority, Certificate, KeyId};
use receipt_core::Receipt;
use spiffe_name::TrustDomain;
use std::alloc::{AllocError, Global};
use std::collections::BTreeSet;

/// A key, and the certificate whose id it is.
#[derive(Debug, Drop)]
pub(crate) struct KnownKey {
    pub(crate) key: KeyId,
    pub(crate) der: Certificate,
}

/// The keys that were met, and their ids for look-ups.
#[derive(Debug, Drop)]
pub(crate) struct MetKeys {
    pub(crate) keys: Vec<KnownKey>,
    pub(crate) ids: BTreeSet<KeyId>,
}

/// The keys of these accepted documents, and then those of the domain's documents that are held.
pub(crate) fn known_keys<C: Closure>(
    alloc: Global,
    closure: &C,
    domain: &TrustDomain,
    accepted: &[AcceptedBundle<'_>],
) -> Result<Vec<KnownKey>, AllocError>
    ensures { IfOk result (λ keys. keys.items
        ≡ known_keys (C.state closure.now).meaning.held domain.now accepted.now) }
{
    let mut met = keys_of_documents(alloc, accepted)?;
    for receipt in closure.receipts() {
        push_receipt_keys(&mut met, domain, receipt)?;
    }
    Ok(met.keys)
}

/// The keys of these documents.
pub(crate) fn keys_of_documents(
    alloc: Global,
    accepted: &[AcceptedBundle<'_>],
) -> Result<MetKeys, AllocError>
    ensures keys { IfOk result (λ met. met.keys.items ≡ keys_of_documents accepted.now) }
    ensures ids { IfOk result HasIds }
{
    let mut met = MetKeys {
        keys: Vec::new(alloc),
        ids: BTreeSet::new(alloc),
    };
    for bundle in accepted {
        push_authorities(&mut met, bundle.document.authorities())?;
    }
    Ok(met)
}

fn push_receipt_keys(
    met: &mut MetKeys,
    domain: &TrustDomain,
    receipt: &Receipt,
) -> Result<(), AllocError>
    requires { HasIds met.old }
    ensures keys { OnOk result (met.new.keys.items ≡ with_keys_of_receipt domain.now
        met.old.keys.items receipt.now) }
    ensures ids { OnOk result (HasIds met.new) }
{
    if receipt.domain().as_str() == domain.as_str() {
        push_authorities(met, receipt.document().authorities())?;
    }
    Ok(())
}

fn push_authorities(met: &mut MetKeys, authorities: &[Authority]) -> Result<(), AllocError>
    requires { HasIds met.old }
    ensures keys { OnOk result (met.new.keys.items
        ≡ with_authorities met.old.keys.items authorities.now) }
    ensures ids { OnOk result (HasIds met.new) }
{
    for authority in authorities {
        push_listed(met, authority)?;
    }
    Ok(())
}

fn push_listed(met: &mut MetKeys, authority: &Authority) -> Result<(), AllocError>
    requires { HasIds met.old }
    ensures keys { OnOk result (met.new.keys.items
        ≡ with_listed met.old.keys.items authority.now) }
    ensures ids { OnOk result (HasIds met.new) }
{
    match authority {
        Authority::X509 { der, .. } => push_certificate(met, der),
        Authority::Jwt { .. } => Ok(()),
    }
}

fn push_certificate(met: &mut MetKeys, der: &Certificate) -> Result<(), AllocError>
    requires { HasIds met.old }
    ensures keys { OnOk result (met.new.keys.items ≡ with_der met.old.keys.items der.now) }
    ensures ids { OnOk result (HasIds met.new) }
{
    let key = der.key_id();
    if met.ids.insert(key)? {
        met.keys.push(KnownKey {
            key,
            der: der.try_clone()?,
        })?;
    }
    Ok(())
}
