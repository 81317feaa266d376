//! Reading an element of `keys`: the authority that it says, if it says one.
ghost use Rattle.std.specs.Prelude.{◌≡◌, ◌↔◌, IsTrue, IfOk, MatchResult, Some, [], ◌∷◌, codes};
ghost use Rattle.std.specs.Prelude.{option_map};
ghost use Rattle.serde_json.specs.Data.{array, item, string, no_items};
ghost use Rattle.serde_json.specs.Find.{get};
ghost use Rattle.serde_json.specs.View.{view};
ghost use Rattle.jwk_set.specs.Forms.{FindsMember, IsUrlText, IsNonEmptyText, IsCertificate};
ghost use Rattle.jwk_set.specs.Element.{HasText, HasCertificate, HasKey, HasKeyType, HasKind};
ghost use Rattle.jwk_set.specs.Element.{IsKey, IsElement};

use crate::authority::{Authority, PublicKey};
use crate::forms::{Certificate, NonEmptyText, UrlText};
use serde_json::Value;
use std::alloc::{AllocError, Global};

/// The authority that an element of `keys` says (SPIFFE Trust Domain and Bundle, section 4.2).
///
/// The member `use` decides the role. With `x509-svid` the element says an X.509 authority, whose
/// certificate is the one text in the array `x5c`, in padded base64. With `jwt-svid` it says a JWT
/// authority, named by `kid`. In both roles `kty` decides which members are the public key: `n` and
/// `e` with `RSA`, or `crv`, `x` and `y` with `EC`. Each of these is a text in its form:
/// [`UrlText`], [`NonEmptyText`] or [`Certificate`]. The other members of the element are not
/// looked at, so a `kid` in the first role, or an `x5c` in the second, changes nothing.
///
/// If one of these is missing or malformed, or the value is not an object at all, the element says
/// no authority. That is not an error: the answer is `None`, and the caller continues with the next
/// element.
///
/// # Errors
/// Memory ran out, which comes only for an element whose `use` and `kty` are among those named
/// above.
pub fn read_element(alloc: Global, element: &Value) -> Result<Option<Authority>, AllocError>
    ensures { MatchResult result (λ o. FindsMember o (IsElement (view element.now)))
        (λ _. HasKind (view element.now)) }
{
    if has_text(element, "use", "x509-svid") {
        read_x509(alloc, element)
    } else if has_text(element, "use", "jwt-svid") {
        read_jwt(alloc, element)
    } else {
        Ok(None)
    }
}

fn read_x509(alloc: Global, element: &Value) -> Result<Option<Authority>, AllocError>
    requires { HasText (view element.now) (codes "use") (codes "x509-svid") }
    ensures { MatchResult result (λ o. FindsMember o (IsElement (view element.now)))
        (λ _. HasKeyType (view element.now)) }
{
    let Some(key) = read_key(alloc, element)? else {
        return Ok(None);
    };
    let Some(der) = read_certificate(alloc, element)? else {
        return Ok(None);
    };
    Ok(Some(Authority::X509 { key, der }))
}

fn read_jwt(alloc: Global, element: &Value) -> Result<Option<Authority>, AllocError>
    requires { HasText (view element.now) (codes "use") (codes "jwt-svid") }
    ensures { MatchResult result (λ o. FindsMember o (IsElement (view element.now)))
        (λ _. HasKeyType (view element.now)) }
{
    let Some(key) = read_key(alloc, element)? else {
        return Ok(None);
    };
    let Some(kid) = read_non_empty_text(alloc, element, "kid")? else {
        return Ok(None);
    };
    Ok(Some(Authority::Jwt { kid, key }))
}

fn read_key(alloc: Global, element: &Value) -> Result<Option<PublicKey>, AllocError>
    ensures { MatchResult result
        (λ o. FindsMember o (λ key. HasKey (view element.now) key × IsKey key))
        (λ _. HasKeyType (view element.now)) }
{
    if has_text(element, "kty", "RSA") {
        read_rsa(alloc, element)
    } else if has_text(element, "kty", "EC") {
        read_ec(alloc, element)
    } else {
        Ok(None)
    }
}

fn read_rsa(alloc: Global, element: &Value) -> Result<Option<PublicKey>, AllocError>
    requires { HasText (view element.now) (codes "kty") (codes "RSA") }
    ensures { IfOk result (λ o. FindsMember o (λ key. HasKey (view element.now) key × IsKey key)) }
{
    let Some(n) = read_url_text(alloc, element, "n")? else {
        return Ok(None);
    };
    let Some(e) = read_url_text(alloc, element, "e")? else {
        return Ok(None);
    };
    Ok(Some(PublicKey::Rsa { n, e }))
}

fn read_ec(alloc: Global, element: &Value) -> Result<Option<PublicKey>, AllocError>
    requires { HasText (view element.now) (codes "kty") (codes "EC") }
    ensures { IfOk result (λ o. FindsMember o (λ key. HasKey (view element.now) key × IsKey key)) }
{
    let Some(crv) = read_non_empty_text(alloc, element, "crv")? else {
        return Ok(None);
    };
    let Some(x) = read_url_text(alloc, element, "x")? else {
        return Ok(None);
    };
    let Some(y) = read_url_text(alloc, element, "y")? else {
        return Ok(None);
    };
    Ok(Some(PublicKey::Ec { crv, x, y }))
}

fn read_certificate(alloc: Global, element: &Value) -> Result<Option<Certificate>, AllocError>
    ensures { IfOk result (λ o. FindsMember o (λ der. HasCertificate (view element.now) der
        × IsCertificate der)) }
{
    match only_text(element, "x5c") {
        Some(text) => Certificate::decode(alloc, text),
        None => Ok(None),
    }
}

fn read_url_text(alloc: Global, element: &Value, name: &str) -> Result<Option<UrlText>, AllocError>
    ensures { IfOk result (λ o. FindsMember o (λ text. HasText (view element.now) name.now text
        × IsUrlText text)) }
{
    match text_of(element, name) {
        Some(text) => UrlText::read(alloc, text),
        None => Ok(None),
    }
}

fn read_non_empty_text(
    alloc: Global,
    element: &Value,
    name: &str,
) -> Result<Option<NonEmptyText>, AllocError>
    ensures { IfOk result (λ o. FindsMember o (λ text. HasText (view element.now) name.now text
        × IsNonEmptyText text)) }
{
    match text_of(element, name) {
        Some(text) => NonEmptyText::read(alloc, text),
        None => Ok(None),
    }
}

fn has_text(element: &Value, name: &str, text: &str) -> bool
    ensures { IsTrue result ↔ HasText (view element.now) name.now text.now }
{
    match text_of(element, name) {
        Some(found) => found == text,
        None => false,
    }
}

fn text_of<'a>(element: &'a Value, name: &str) -> Option<&'a str>
    ensures { FindsMember (option_map (λ text. text.now) result)
        (HasText (view element.now) name.now) }
{
    element.get(name)?.as_str()
}

fn only_text<'a>(element: &'a Value, name: &str) -> Option<&'a str>
    ensures { FindsMember (option_map (λ text. text.now) result)
        (λ text. get name.now (view element.now) ≡ Some (array (item (string text) no_items))) }
{
    only(element.get(name)?.as_array()?)?.as_str()
}

fn only(items: &[Value]) -> Option<&Value>
    ensures { FindsMember (option_map (λ item. item.now) result) (λ item. items.now ≡ item ∷ []) }
{
    match items {
        [only] => Some(only),
        _ => None,
    }
}
