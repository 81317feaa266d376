//! Authorities read from their canonical texts, with no JSON tree between. Each function says which
//! part of the text it read and what is left, only on `Ok`.
ghost use Rattle.std.specs.Prelude.{◌≡◌, ◌++◌, IfOk, MatchOption, Ok};
ghost use Rattle.std.specs.List.{AllPass};
ghost use Rattle.base64.specs.Engines.{standard};
ghost use Rattle.base64.specs.GeneralPurpose.{encode_of};
ghost use Rattle.spiffe_name.specs.Bytes.{FirstFails};
ghost use Rattle.jwk_set.specs.Forms.{IsCertificate, IsNonEmptyText, IsUrlText};
ghost use Rattle.jwk_set.specs.Json.{is_unescaped};
ghost use Rattle.bundle_doc.specs.CanonicalReader.{ReadsAuthority, ReadsText, SplitsPlain};

use jwk_set::{Authority, Certificate, NonEmptyText, PublicKey, UrlText, is_plain, is_plain_byte};
use memchr::memchr;
use std::alloc::{AllocError, AllocFailed, Global};

/// Why a text is not read here.
#[derive(Drop)]
pub(crate) enum GivesUp {
    /// It is not a canonical text, or one that this reader leaves to the reader of JSON.
    Form,
    /// Memory ran out.
    NoMemory,
}

impl From<AllocError> for GivesUp {
    fn from(_error: AllocError) -> GivesUp {
        GivesUp::NoMemory
    }
}

impl<T: Drop> From<AllocFailed<T>> for GivesUp {
    fn from(_error: AllocFailed<T>) -> GivesUp {
        GivesUp::NoMemory
    }
}

/// The four kinds of elements.
enum Kind {
    X509Rsa,
    X509Ec,
    JwtRsa,
    JwtEc,
}

/// The authority whose text comes first, and what follows it.
pub(crate) fn read_authority<'a>(
    alloc: Global,
    text: &'a str,
) -> Result<(Authority, &'a str), GivesUp>
    ensures { IfOk result (λ r. ReadsAuthority text.now r.0 r.1.now) }
{
    match kind_of(text)? {
        Kind::X509Rsa => read_x509_rsa(alloc, text),
        Kind::X509Ec => read_x509_ec(alloc, text),
        Kind::JwtRsa => read_jwt_rsa(alloc, text),
        Kind::JwtEc => read_jwt_ec(alloc, text),
    }
}

/// The kind that the first two names of an element give.
fn kind_of(text: &str) -> Result<Kind, GivesUp> {
    if let Some(rest) = text.strip_prefix("{\"e\":\"") {
        let (_, rest) = text_before(rest, "\",\"k")?;
        let jwt = rest.starts_with('i');
        return Ok(if jwt { Kind::JwtRsa } else { Kind::X509Rsa });
    }
    let (_, rest) = text_before(after(text, "{\"crv\":\"")?, "\",\"k")?;
    let jwt = rest.starts_with('i');
    Ok(if jwt { Kind::JwtEc } else { Kind::X509Ec })
}

fn read_x509_rsa<'a>(alloc: Global, text: &'a str) -> Result<(Authority, &'a str), GivesUp>
    ensures { IfOk result (λ r. ReadsAuthority text.now r.0 r.1.now) }
{
    let rest = after(text, "{\"e\":\"")?;
    let (e, rest) = text_before(rest, "\",\"kty\":\"RSA\",\"n\":\"")?;
    let (n, rest) = text_before(rest, "\",\"use\":\"x509-svid\",\"x5c\":[\"")?;
    let (der, rest) = text_before(rest, "\"]}")?;
    let key = PublicKey::Rsa {
        n: url_text(alloc, n)?,
        e: url_text(alloc, e)?,
    };
    let der = certificate(alloc, der)?;
    Ok((Authority::X509 { key, der }, rest))
}

fn read_x509_ec<'a>(alloc: Global, text: &'a str) -> Result<(Authority, &'a str), GivesUp>
    ensures { IfOk result (λ r. ReadsAuthority text.now r.0 r.1.now) }
{
    let rest = after(text, "{\"crv\":\"")?;
    let (crv, rest) = text_before(rest, "\",\"kty\":\"EC\",\"use\":\"x509-svid\",\"x\":\"")?;
    let (x, rest) = text_before(rest, "\",\"x5c\":[\"")?;
    let (der, rest) = text_before(rest, "\"],\"y\":\"")?;
    let (y, rest) = text_before(rest, "\"}")?;
    let key = PublicKey::Ec {
        crv: non_empty_text(alloc, crv)?,
        x: url_text(alloc, x)?,
        y: url_text(alloc, y)?,
    };
    let der = certificate(alloc, der)?;
    Ok((Authority::X509 { key, der }, rest))
}

fn read_jwt_rsa<'a>(alloc: Global, text: &'a str) -> Result<(Authority, &'a str), GivesUp>
    ensures { IfOk result (λ r. ReadsAuthority text.now r.0 r.1.now) }
{
    let rest = after(text, "{\"e\":\"")?;
    let (e, rest) = text_before(rest, "\",\"kid\":\"")?;
    let (kid, rest) = text_before(rest, "\",\"kty\":\"RSA\",\"n\":\"")?;
    let (n, rest) = text_before(rest, "\",\"use\":\"jwt-svid\"}")?;
    let key = PublicKey::Rsa {
        n: url_text(alloc, n)?,
        e: url_text(alloc, e)?,
    };
    let kid = non_empty_text(alloc, kid)?;
    Ok((Authority::Jwt { kid, key }, rest))
}

fn read_jwt_ec<'a>(alloc: Global, text: &'a str) -> Result<(Authority, &'a str), GivesUp>
    ensures { IfOk result (λ r. ReadsAuthority text.now r.0 r.1.now) }
{
    let rest = after(text, "{\"crv\":\"")?;
    let (crv, rest) = text_before(rest, "\",\"kid\":\"")?;
    let (kid, rest) = text_before(rest, "\",\"kty\":\"EC\",\"use\":\"jwt-svid\",\"x\":\"")?;
    let (x, rest) = text_before(rest, "\",\"y\":\"")?;
    let (y, rest) = text_before(rest, "\"}")?;
    let key = PublicKey::Ec {
        crv: non_empty_text(alloc, crv)?,
        x: url_text(alloc, x)?,
        y: url_text(alloc, y)?,
    };
    let kid = non_empty_text(alloc, kid)?;
    Ok((Authority::Jwt { kid, key }, rest))
}

fn url_text(alloc: Global, text: &str) -> Result<UrlText, GivesUp>
    ensures { IfOk result (λ t. (t ≡ text.now) × IsUrlText t) }
{
    match UrlText::read(alloc, text)? {
        Some(text) => Ok(text),
        None => Err(GivesUp::Form),
    }
}

fn non_empty_text(alloc: Global, text: &str) -> Result<NonEmptyText, GivesUp>
    ensures { IfOk result (λ t. (t ≡ text.now) × IsNonEmptyText t) }
{
    match NonEmptyText::read(alloc, text)? {
        Some(text) => Ok(text),
        None => Err(GivesUp::Form),
    }
}

fn certificate(alloc: Global, text: &str) -> Result<Certificate, GivesUp>
    ensures { IfOk result (λ der. (text.now ≡ encode_of standard der) × IsCertificate der) }
{
    match Certificate::decode(alloc, text)? {
        Some(der) => Ok(der),
        None => Err(GivesUp::Form),
    }
}

/// What follows the label, which the text begins with.
pub(crate) fn after<'a>(text: &'a str, label: &str) -> Result<&'a str, GivesUp>
    ensures { IfOk result (λ rest. text.now ≡ label.now ++ rest.now) }
{
    match text.strip_prefix(label) {
        Some(rest) => Ok(rest),
        None => Err(GivesUp::Form),
    }
}

/// The text of a JSON string up to the label, which begins with the string's quotation mark, and
/// what follows the label. It gives up at an escape.
fn text_before<'a>(text: &'a str, label: &str) -> Result<(&'a str, &'a str), GivesUp>
    ensures { IfOk result (λ r. ReadsText text.now r.0.now label.now r.1.now) }
{
    let (front, rest) = split_plain(text);
    Ok((front, after(rest, label)?))
}

/// The text up to the first byte that no JSON string has as itself, and the rest.
fn split_plain(text: &str) -> (&str, &str)
    ensures { SplitsPlain text.now result.0.now result.1.now }
{
    jwk_set::laws::plain_texts();
    match first_stop(text.as_bytes()) {
        Some(place) => text.split_at(place),
        None => (text, ""),
    }
}

/// The place of the first byte that no JSON string has as itself. It is a quotation mark unless an
/// escape comes before, and many bytes are tested for one together.
fn first_stop(text: &[u8]) -> Option<usize>
    ensures { MatchOption result (AllPass is_unescaped text.now)
        (FirstFails is_unescaped text.now) }
{
    if let Some(place) = memchr(b'"', text) {
        if is_plain(&text[..place]) {
            return Some(place);
        }
    }
    first_escaped(text)
}

/// The same place, by one byte after the other.
fn first_escaped(text: &[u8]) -> Option<usize>
    ensures { MatchOption result (AllPass is_unescaped text.now)
        (FirstFails is_unescaped text.now) }
{
    text.iter().position(|byte| !is_plain_byte(*byte))
}
