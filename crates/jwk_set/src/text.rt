//! The text of an authority's element, member by member in the order of their names: the texts of
//! its members, and between them what all elements of its kind have.
ghost use Rattle.std.specs.Prelude.{◌≡◌, ◌++◌, IfOk, OnOk, string_bytes};
ghost use Rattle.json.specs.Print.{quoted};
ghost use Rattle.jwk_set.specs.Element.{element_text};
ghost use Rattle.jwk_set.specs.declared.authority.Authority.TheVariants.{Jwt, X509};
ghost use Rattle.jwk_set.specs.declared.authority.PublicKey.TheVariants.{Ec, Rsa};

use crate::authority::{Authority, PublicKey};
use crate::forms::{Certificate, NonEmptyText, UrlText};
use crate::plain_text::is_plain;
use serde_json::Value;
use std::alloc::{AllocError, Global};

/// How many bytes an element has without the texts of its members, or a few more.
const FIXED_BYTES: usize = 80;

pub(crate) fn write_text(alloc: Global, authority: &Authority) -> Result<String, AllocError>
    ensures { IfOk result (λ t. string_bytes t ≡ element_text authority.now) }
{
    let mut out = String::with_capacity(alloc, length_of(authority))?;
    push_authority(alloc, &mut out, authority)?;
    Ok(out)
}

/// About how long the text is, to make room once: the text is longer only by its escapes.
fn length_of(authority: &Authority) -> usize {
    let role = match authority {
        Authority::X509 { der, .. } => der.as_bytes().len() / 3 * 4,
        Authority::Jwt { kid, .. } => kid.as_str().len(),
    };
    let key = match key_of(authority) {
        PublicKey::Rsa { n, e } => n.as_str().len().saturating_add(e.as_str().len()),
        PublicKey::Ec { crv, x, y } => crv
            .as_str()
            .len()
            .saturating_add(x.as_str().len())
            .saturating_add(y.as_str().len()),
    };
    role.saturating_add(key).saturating_add(FIXED_BYTES)
}

fn key_of(authority: &Authority) -> &PublicKey {
    match authority {
        Authority::X509 { key, .. } | Authority::Jwt { key, .. } => key,
    }
}

fn push_authority(alloc: Global, out: &mut String, authority: &Authority) -> Result<(), AllocError>
    ensures { OnOk result (string_bytes out.new ≡ string_bytes out.old
        ++ element_text authority.now) }
{
    match authority {
        Authority::X509 { key, der } => push_x509(alloc, out, key, der),
        Authority::Jwt { kid, key } => push_jwt(alloc, out, kid, key),
    }
}

fn push_x509(
    alloc: Global,
    out: &mut String,
    key: &PublicKey,
    der: &Certificate,
) -> Result<(), AllocError>
    ensures { OnOk result (string_bytes out.new ≡ string_bytes out.old
        ++ element_text (X509 key.now der.now)) }
{
    match key {
        PublicKey::Rsa { n, e } => push_x509_rsa(out, n, e, der),
        PublicKey::Ec { crv, x, y } => push_x509_ec(alloc, out, crv, x, y, der),
    }
}

fn push_jwt(
    alloc: Global,
    out: &mut String,
    kid: &NonEmptyText,
    key: &PublicKey,
) -> Result<(), AllocError>
    ensures { OnOk result (string_bytes out.new ≡ string_bytes out.old
        ++ element_text (Jwt kid.now key.now)) }
{
    match key {
        PublicKey::Rsa { n, e } => push_jwt_rsa(alloc, out, kid, n, e),
        PublicKey::Ec { crv, x, y } => push_jwt_ec(alloc, out, kid, crv, x, y),
    }
}

fn push_x509_rsa(
    out: &mut String,
    n: &UrlText,
    e: &UrlText,
    der: &Certificate,
) -> Result<(), AllocError>
    ensures { OnOk result (string_bytes out.new ≡ string_bytes out.old
        ++ element_text (X509 (Rsa n.now e.now) der.now)) }
{
    out.push_str("{\"e\":\"")?;
    out.push_str(e.as_str())?;
    out.push_str("\",\"kty\":\"RSA\",\"n\":\"")?;
    out.push_str(n.as_str())?;
    out.push_str("\",\"use\":\"x509-svid\",\"x5c\":[\"")?;
    der.push_base64(out)?;
    out.push_str("\"]}")?;
    Ok(())
}

fn push_x509_ec(
    alloc: Global,
    out: &mut String,
    crv: &NonEmptyText,
    x: &UrlText,
    y: &UrlText,
    der: &Certificate,
) -> Result<(), AllocError>
    ensures { OnOk result (string_bytes out.new ≡ string_bytes out.old
        ++ element_text (X509 (Ec crv.now x.now y.now) der.now)) }
{
    push_string(alloc, out, "{\"crv\":", crv.as_str())?;
    out.push_str(",\"kty\":\"EC\",\"use\":\"x509-svid\",\"x\":\"")?;
    out.push_str(x.as_str())?;
    out.push_str("\",\"x5c\":[\"")?;
    der.push_base64(out)?;
    out.push_str("\"],\"y\":\"")?;
    out.push_str(y.as_str())?;
    out.push_str("\"}")?;
    Ok(())
}

fn push_jwt_rsa(
    alloc: Global,
    out: &mut String,
    kid: &NonEmptyText,
    n: &UrlText,
    e: &UrlText,
) -> Result<(), AllocError>
    ensures { OnOk result (string_bytes out.new ≡ string_bytes out.old
        ++ element_text (Jwt kid.now (Rsa n.now e.now))) }
{
    out.push_str("{\"e\":\"")?;
    out.push_str(e.as_str())?;
    push_string(alloc, out, "\",\"kid\":", kid.as_str())?;
    out.push_str(",\"kty\":\"RSA\",\"n\":\"")?;
    out.push_str(n.as_str())?;
    out.push_str("\",\"use\":\"jwt-svid\"}")?;
    Ok(())
}

fn push_jwt_ec(
    alloc: Global,
    out: &mut String,
    kid: &NonEmptyText,
    crv: &NonEmptyText,
    x: &UrlText,
    y: &UrlText,
) -> Result<(), AllocError>
    ensures { OnOk result (string_bytes out.new ≡ string_bytes out.old
        ++ element_text (Jwt kid.now (Ec crv.now x.now y.now))) }
{
    push_string(alloc, out, "{\"crv\":", crv.as_str())?;
    push_string(alloc, out, ",\"kid\":", kid.as_str())?;
    out.push_str(",\"kty\":\"EC\",\"use\":\"jwt-svid\",\"x\":\"")?;
    out.push_str(x.as_str())?;
    out.push_str("\",\"y\":\"")?;
    out.push_str(y.as_str())?;
    out.push_str("\"}")?;
    Ok(())
}

/// Adds the text as a JSON string, after its label.
fn push_string(alloc: Global, out: &mut String, label: &str, text: &str) -> Result<(), AllocError>
    ensures { OnOk result (string_bytes out.new ≡ string_bytes out.old
        ++ (label.now ++ quoted text.now)) }
{
    out.push_str(label)?;
    if !is_plain(text.as_bytes()) {
        let string = Value::String(String::from_str(alloc, text)?).to_string(alloc)?;
        return out.push_str(string.as_str());
    }
    out.push_str("\"")?;
    out.push_str(text)?;
    out.push_str("\"")?;
    Ok(())
}
