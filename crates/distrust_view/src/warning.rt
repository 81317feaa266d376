//! The warning of keys that no document has.
ghost use Rattle.std.specs.Prelude.{◌≡◌, ◌++◌, OnOk, flat_map};
ghost use Rattle.std.specs.List.{list_any};
ghost use Rattle.jwk_set.specs.Element.{key_id_of};
ghost use Rattle.receipt_core.specs.Acceptance.{pair_of_seed};
ghost use Rattle.receipt_core.specs.Receipt.{pair_of};
ghost use Rattle.distrust_view.specs.DistrustEffect.{is_about, is_key_of, is_listed, key_warning};
ghost use Rattle.distrust_view.specs.DistrustEffect.{lists_key, unknown_key_line, warning_text};

use crate::given_keys::GivenKeys;
use crate::keys::is_same;
use bundle_doc::Document;
use byte_lines::push_digits;
use closure_core::Closure;
use jwk_set::{Authority, KeyId};
use spiffe_name::TrustDomain;
use std::alloc::AllocError;

/// Adds the warning for each of the keys that no document of their domain has.
pub(crate) fn push_warnings<C: Closure>(
    out: &mut Vec<u8>,
    closure: &C,
    given: &GivenKeys,
) -> Result<(), AllocError>
    ensures { OnOk result (out.new.items
        ≡ out.old.items ++ warning_text (C.state closure.now).meaning given.now) }
{
    push_key_warnings(out, closure, &given.domain, given.keys.as_slice())
}

fn push_key_warnings<C: Closure>(
    out: &mut Vec<u8>,
    closure: &C,
    domain: &TrustDomain,
    keys: &[KeyId],
) -> Result<(), AllocError>
    ensures { OnOk result (out.new.items ≡ out.old.items
        ++ flat_map (key_warning (C.state closure.now).meaning domain.now) keys.now) }
{
    for key in keys {
        push_warning(out, closure, domain, key)?;
    }
    Ok(())
}

fn push_warning<C: Closure>(
    out: &mut Vec<u8>,
    closure: &C,
    domain: &TrustDomain,
    key: &KeyId,
) -> Result<(), AllocError>
    ensures { OnOk result (out.new.items
        ≡ out.old.items ++ key_warning (C.state closure.now).meaning domain.now key.now) }
{
    if !is_key_listed(closure, domain, key) {
        push_unknown_key(out, domain, key)?;
    }
    Ok(())
}

fn push_unknown_key(out: &mut Vec<u8>, domain: &TrustDomain, key: &KeyId) -> Result<(), AllocError>
    ensures { OnOk result (out.new.items
        ≡ out.old.items ++ unknown_key_line domain.now key.now) }
{
    out.extend_from_slice(b"warning: no bundle of ")?;
    out.extend_from_slice(domain.as_str().as_bytes())?;
    out.extend_from_slice(b" that is held lists the key ")?;
    push_digits(out, &key.0)?;
    out.extend_from_slice(b"\n")?;
    Ok(())
}

/// Whether a document of the domain that is held, configured or received, has an X.509 authority
/// with the key.
pub fn is_key_listed<C: Closure>(closure: &C, domain: &TrustDomain, key: &KeyId) -> bool
    ensures { result ≡ is_listed (C.state closure.now).meaning domain.now key.now }
{
    is_in_seed(closure, domain, key) || is_in_receipt(closure, domain, key)
}

fn is_in_seed<C: Closure>(closure: &C, domain: &TrustDomain, key: &KeyId) -> bool
    ensures { result ≡ list_any (λ s. is_about domain.now key.now (pair_of_seed s))
        (C.state closure.now).meaning.config.seeds }
{
    closure
        .config()
        .seeds()
        .iter()
        .any(|seed| is_about(domain, key, &seed.domain, &seed.document))
}

fn is_in_receipt<C: Closure>(closure: &C, domain: &TrustDomain, key: &KeyId) -> bool
    ensures { result ≡ list_any (λ r. is_about domain.now key.now (pair_of r))
        (C.state closure.now).meaning.held }
{
    for receipt in closure.receipts() {
        if is_about(domain, key, receipt.domain(), receipt.document()) {
            return true;
        }
    }
    false
}

// Whether the document, of the domain `of`, is one of this domain that lists the key.
fn is_about(domain: &TrustDomain, key: &KeyId, of: &TrustDomain, document: &Document) -> bool
    ensures { result ≡ is_about domain.now key.now
        (record { domain = of.now; document = document.now }) }
{
    of.as_str() == domain.as_str() && lists_key(document.authorities(), key)
}

fn lists_key(authorities: &[Authority], key: &KeyId) -> bool
    ensures { result ≡ lists_key authorities.now key.now }
{
    authorities
        .iter()
        .any(|authority| is_key_of(authority, key))
}

fn is_key_of(authority: &Authority, key: &KeyId) -> bool
    ensures { result ≡ is_key_of (key_id_of authority.now) key.now }
{
    match authority.key_id() {
        Some(own) => is_same(&own, key),
        None => false,
    }
}
