//! The keys of a domain's current document, before and after.
ghost use Rattle.std.specs.Prelude.{◌≡◌, ◌++◌, IfOk, OnOk, codes, option_copied};
ghost use Rattle.std.specs.List.{list_all};
ghost use Rattle.receipt_core.specs.Receipt.{key_ids};
ghost use Rattle.distrust_view.specs.DistrustEffect.{current_keys, distrusted_keys, has_key};
ghost use Rattle.distrust_view.specs.DistrustEffect.{key_line_of, change_of_keys, lacking_lines};
ghost use Rattle.distrust_view.specs.DistrustEffect.{listed_lines, locked_out_line, same_key};

use bundle_doc::Document;
use byte_lines::push_digits;
use closure_core::Closure;
use jwk_set::KeyId;
use receipt_core::offers_of;
use spiffe_name::TrustDomain;
use std::alloc::{AllocError, Global};

/// Adds the lines of the keys of a domain's current document before and after.
pub(crate) fn push_keys<C: Closure>(
    alloc: Global,
    out: &mut Vec<u8>,
    after: &C,
    domain: &TrustDomain,
    earlier: Option<&Document>,
    later: Option<&Document>,
) -> Result<(), AllocError>
    ensures { OnOk result (out.new.items ≡ out.old.items
        ++ change_of_keys domain.now (current_keys (option_copied earlier.entry))
        (current_keys (option_copied later.entry))
        (distrusted_keys domain.now (C.state after.now).meaning.records)) }
{
    let had = keys_of(alloc, domain, earlier)?;
    let has = keys_of(alloc, domain, later)?;
    let distrusted = distrusted_in(alloc, after, domain)?;
    push_change_of_keys(
        out,
        domain,
        had.as_slice(),
        has.as_slice(),
        distrusted.as_slice(),
    )
}

fn push_change_of_keys(
    out: &mut Vec<u8>,
    domain: &TrustDomain,
    had: &[KeyId],
    has: &[KeyId],
    distrusted: &[KeyId],
) -> Result<(), AllocError>
    ensures { OnOk result (out.new.items
        ≡ out.old.items ++ change_of_keys domain.now had.now has.now distrusted.now) }
{
    push_lacking(out, b"gains ", domain, has, had)?;
    push_lacking(out, b"loses ", domain, had, has)?;
    push_listed(out, domain, has, distrusted)?;
    push_locked_out(out, domain, has, distrusted)
}

// The different keys of the document's X.509 authorities, sorted.
fn keys_of(
    alloc: Global,
    domain: &TrustDomain,
    document: Option<&Document>,
) -> Result<Vec<KeyId>, AllocError>
    ensures { IfOk result (λ keys. keys.items ≡ current_keys (option_copied document.entry)) }
{
    match document {
        Some(document) => keys_of_document(alloc, domain, document),
        None => Ok(Vec::new(alloc)),
    }
}

fn keys_of_document(
    alloc: Global,
    domain: &TrustDomain,
    document: &Document,
) -> Result<Vec<KeyId>, AllocError>
    ensures { IfOk result (λ keys. keys.items ≡ key_ids document.now.authorities) }
{
    let mut keys = Vec::new(alloc);
    for offer in &offers_of(alloc, domain, document)? {
        keys.push(offer.key())?;
    }
    Ok(keys)
}

// The keys that are distrusted in the domain.
fn distrusted_in<C: Closure>(
    alloc: Global,
    closure: &C,
    domain: &TrustDomain,
) -> Result<Vec<KeyId>, AllocError>
    ensures { IfOk result (λ keys. keys.items
        ≡ distrusted_keys domain.now (C.state closure.now).meaning.records) }
{
    let mut keys = Vec::new(alloc);
    for (of, key) in closure.distrusts() {
        if of.as_str() == domain.as_str() {
            keys.push(*key)?;
        }
    }
    Ok(keys)
}

// Adds a line for each key that the others lack.
fn push_lacking(
    out: &mut Vec<u8>,
    word: &[u8],
    domain: &TrustDomain,
    keys: &[KeyId],
    others: &[KeyId],
) -> Result<(), AllocError>
    ensures { OnOk result (out.new.items
        ≡ out.old.items ++ lacking_lines word.now domain.now keys.now others.now) }
{
    for key in keys {
        if !has_key(others, key) {
            push_key(out, word, domain, key)?;
        }
    }
    Ok(())
}

// Adds a line for each key that is distrusted.
fn push_listed(
    out: &mut Vec<u8>,
    domain: &TrustDomain,
    keys: &[KeyId],
    distrusted: &[KeyId],
) -> Result<(), AllocError>
    ensures { OnOk result (out.new.items
        ≡ out.old.items ++ listed_lines domain.now keys.now distrusted.now) }
{
    for key in keys {
        if has_key(distrusted, key) {
            push_key(out, b"lists ", domain, key)?;
        }
    }
    Ok(())
}

fn push_locked_out(
    out: &mut Vec<u8>,
    domain: &TrustDomain,
    keys: &[KeyId],
    distrusted: &[KeyId],
) -> Result<(), AllocError>
    ensures { OnOk result (out.new.items
        ≡ out.old.items ++ locked_out_line domain.now keys.now distrusted.now) }
{
    if are_all_in(keys, distrusted) {
        push_locked_out_line(out, domain)?;
    }
    Ok(())
}

fn push_locked_out_line(out: &mut Vec<u8>, domain: &TrustDomain) -> Result<(), AllocError>
    ensures { OnOk result (out.new.items
        ≡ out.old.items ++ (codes "locked-out " ++ (domain.now ++ codes "\n"))) }
{
    out.extend_from_slice(b"locked-out ")?;
    out.extend_from_slice(domain.as_str().as_bytes())?;
    out.extend_from_slice(b"\n")?;
    Ok(())
}

fn push_key(
    out: &mut Vec<u8>,
    word: &[u8],
    domain: &TrustDomain,
    key: &KeyId,
) -> Result<(), AllocError>
    ensures { OnOk result (out.new.items
        ≡ out.old.items ++ key_line_of word.now domain.now key.now) }
{
    out.extend_from_slice(word)?;
    out.extend_from_slice(domain.as_str().as_bytes())?;
    out.extend_from_slice(b" key ")?;
    push_digits(out, &key.0)?;
    out.extend_from_slice(b"\n")
}

fn are_all_in(keys: &[KeyId], others: &[KeyId]) -> bool
    ensures { result ≡ list_all (has_key others.now) keys.now }
{
    keys.iter().all(|key| has_key(others, key))
}

fn has_key(keys: &[KeyId], wanted: &KeyId) -> bool
    ensures { result ≡ has_key keys.now wanted.now }
{
    keys.iter().any(|own| is_same(own, wanted))
}

/// Whether these are one key.
pub(crate) fn is_same(one: &KeyId, other: &KeyId) -> bool
    ensures { result ≡ same_key one.now other.now }
{
    one.0.as_slice() == other.0.as_slice()
}
