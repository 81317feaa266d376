//! The doubt about a domain's current document as a seed.
ghost use Rattle.std.specs.Prelude.{◌≡◌, ◌≢◌, ◌↔◌, IsTrue};
ghost use Rattle.bundle_doc.specs.Bundle.{HasKeyId, canonical_text};
ghost use Rattle.reseeding.specs.Reseeding.{HasRival, IsDoubt, ListsDistrusted};

use bundle_doc::Document;
use closure_core::Closure;
use jwk_set::KeyId;
use spiffe_name::TrustDomain;

/// The doubt about a domain's current document as a seed.
#[derive(Clone, Copy, Debug, PartialEq, Eq)]
pub enum SeedDoubt {
    /// It lists a key that is distrusted in the domain.
    DistrustedKey,
    /// Another accepted document of the domain has its sequence number.
    Rival,
    /// It has no sequence number, and another accepted document of the domain has none either.
    Unnumbered,
}

/// The doubt about the document, which is a domain's current one.
pub(crate) fn doubt_of<C: Closure>(
    closure: &C,
    domain: &TrustDomain,
    document: &Document,
) -> Option<SeedDoubt>
    ensures { IsDoubt (C.state closure.now).meaning domain.now document.now result }
{
    if lists_distrusted(closure, domain, document) {
        return Some(SeedDoubt::DistrustedKey);
    }
    if !has_rival(closure, domain, document) {
        return None;
    }
    match document.rank() {
        Some(_) => Some(SeedDoubt::Rival),
        None => Some(SeedDoubt::Unnumbered),
    }
}

fn lists_distrusted<C: Closure>(closure: &C, domain: &TrustDomain, document: &Document) -> bool
    ensures { IsTrue result
        ↔ ListsDistrusted (C.state closure.now).meaning domain.now document.now }
{
    for (of, key) in closure.distrusts() {
        if is_listed(of, key, domain, document) {
            return true;
        }
    }
    false
}

fn is_listed(of: &TrustDomain, key: &KeyId, domain: &TrustDomain, document: &Document) -> bool
    ensures { IsTrue result
        ↔ ((of.now ≡ domain.now) × HasKeyId document.now.authorities key.now) }
{
    of.as_str() == domain.as_str() && document.has_key(key)
}

fn has_rival<C: Closure>(closure: &C, domain: &TrustDomain, document: &Document) -> bool
    ensures { IsTrue result ↔ HasRival (C.state closure.now).meaning domain.now document.now }
{
    for other in closure.accepted(domain) {
        if is_rival(other, document) {
            return true;
        }
    }
    false
}

fn is_rival(other: &Document, document: &Document) -> bool
    ensures { IsTrue result ↔ ((other.now.rank ≡ document.now.rank)
        × (canonical_text other.now ≢ canonical_text document.now)) }
{
    other.rank() == document.rank() && other.canonical() != document.canonical()
}
