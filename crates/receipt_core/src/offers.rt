//! What a document of a domain can vouch by.
ghost use Rattle.std.specs.Prelude.{◌≡◌, IfOk, OnOk};
ghost use Rattle.jwk_set.specs.Element.{key_id_of};
ghost use Rattle.receipt_core.specs.Receipt.{key_ids, offers_of, with_key_id};

use crate::triple::{Origin, Triple};
use bundle_doc::{Document, KnownDocuments};
use jwk_set::{Authority, KeyId};
use spiffe_name::TrustDomain;
use std::alloc::{AllocError, Global};
use std::collections::BTreeSet;

/// What a document of a domain can vouch by: one triple for each different key id of its X.509
/// authorities, sorted.
///
/// # Errors
/// Memory ran out.
pub fn offers_of(
    alloc: Global,
    domain: &TrustDomain,
    document: &Document,
) -> Result<Vec<Triple>, AllocError>
    ensures { IfOk result (λ offers. offers.items
        ≡ offers_of (record { domain = domain.now; document = document.now })) }
{
    offers_with(alloc, domain, document, &mut KnownDocuments::none(alloc))
}

// The same, if documents are known.
pub(crate) fn offers_with(
    alloc: Global,
    domain: &TrustDomain,
    document: &Document,
    known: &mut KnownDocuments,
) -> Result<Vec<Triple>, AllocError>
    ensures { IfOk result (λ offers. offers.items
        ≡ offers_of (record { domain = domain.now; document = document.now })) }
{
    let keys = key_ids(alloc, document.authorities())?;
    let mut offers = Vec::with_capacity(alloc, keys.len())?;
    if keys.is_empty() {
        return Ok(offers);
    }
    let id = document.id_with(alloc, domain, known)?;
    let origin = Origin::shared(alloc, domain, id)?;
    for key in keys {
        offers.push(Triple::of_key(&origin, key)?)?;
    }
    Ok(offers)
}

// The same offers once more.
pub(crate) fn copies_of(alloc: Global, offers: &[Triple]) -> Result<Vec<Triple>, AllocError>
    ensures { IfOk result (λ v. v.items ≡ offers.now) }
{
    let mut copies = Vec::with_capacity(alloc, offers.len())?;
    for offer in offers {
        copies.push(offer.try_clone()?)?;
    }
    Ok(copies)
}

// The different key ids of the X.509 authorities.
fn key_ids(alloc: Global, authorities: &[Authority]) -> Result<BTreeSet<KeyId>, AllocError>
    ensures { IfOk result (λ keys. keys.keys ≡ key_ids authorities.now) }
{
    let mut keys = BTreeSet::new(alloc);
    for authority in authorities {
        add_key_id(&mut keys, authority)?;
    }
    Ok(keys)
}

fn add_key_id(keys: &mut BTreeSet<KeyId>, authority: &Authority) -> Result<(), AllocError>
    ensures { OnOk result (keys.new.keys ≡ with_key_id (key_id_of authority.now) keys.old.keys) }
{
    if let Some(key) = authority.key_id() {
        keys.insert(key)?;
    }
    Ok(())
}
