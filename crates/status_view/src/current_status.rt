//! The current document of a trust domain, and its keys.
ghost use Rattle.std.specs.Prelude.{◌≡◌, IfOk, map, option_copied};
ghost use Rattle.std.specs.List.{list_any};
ghost use Rattle.receipt_core.specs.Receipt.{key_ids};
ghost use Rattle.status_view.specs.Status.{SaysCurrent, SaysCurrentBundle, is_against, key_status};

use crate::status::{CurrentStatus, KeyStatus};
use bundle_doc::Document;
use closure_core::Closure;
use jwk_set::KeyId;
use receipt_core::offers_of;
use spiffe_name::TrustDomain;
use std::alloc::{AllocError, Global};

/// What a status says of the document, which is the domain's current one.
pub(crate) fn current_status<C: Closure>(
    alloc: Global,
    closure: &C,
    domain: &TrustDomain,
    document: Option<&Document>,
) -> Result<Option<CurrentStatus>, AllocError>
    ensures { IfOk result (SaysCurrent (C.state closure.now).meaning domain.now
        (option_copied document.entry)) }
{
    match document {
        Some(document) => Ok(Some(document_status(alloc, closure, domain, document)?)),
        None => Ok(None),
    }
}

fn document_status<C: Closure>(
    alloc: Global,
    closure: &C,
    domain: &TrustDomain,
    document: &Document,
) -> Result<CurrentStatus, AllocError>
    ensures { IfOk result
        (SaysCurrentBundle (C.state closure.now).meaning domain.now document.now) }
{
    Ok(CurrentStatus {
        id: document.id(domain),
        sequence: document.rank(),
        refresh_hint: document.hint(),
        keys: key_statuses(alloc, closure, domain, document)?,
    })
}

fn key_statuses<C: Closure>(
    alloc: Global,
    closure: &C,
    domain: &TrustDomain,
    document: &Document,
) -> Result<Vec<KeyStatus>, AllocError>
    ensures { IfOk result (λ keys. keys.items
        ≡ map (key_status (C.state closure.now).meaning.records domain.now)
        (key_ids document.now.authorities)) }
{
    let mut keys = Vec::new(alloc);
    for offer in &offers_of(alloc, domain, document)? {
        keys.push(key_status(closure, domain, offer.key()))?;
    }
    Ok(keys)
}

fn key_status<C: Closure>(closure: &C, domain: &TrustDomain, key: KeyId) -> KeyStatus
    ensures { result ≡ key_status (C.state closure.now).meaning.records domain.now key }
{
    KeyStatus {
        key,
        is_distrusted: is_distrusted(closure, domain, key),
    }
}

// It is looked up, and not searched for.
fn is_distrusted<C: Closure>(closure: &C, domain: &TrustDomain, key: KeyId) -> bool
    ensures { result
        ≡ list_any (is_against domain.now key) (C.state closure.now).meaning.records }
{
    closure.is_distrusted(domain, key)
}
