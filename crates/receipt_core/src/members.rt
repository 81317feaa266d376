//! The parts of lines, from their texts and from the members of JSON values.
ghost use Rattle.std.specs.Prelude.{◌≡◌, ◌↔◌, ℕ, List, IsTrue, IfOk, OnOk, Some, option_map};
ghost use Rattle.bundle_doc.specs.Bundle.{Means, Fits};
ghost use Rattle.hex.specs.Hex.{encode_lower};
ghost use Rattle.serde_json.specs.View.{view};
ghost use Rattle.spiffe_name.specs.TrustDomain.{IsDomainText};
ghost use Rattle.spiffe_name.specs.SpiffeId.{IsId};
ghost use Rattle.jwk_set.specs.Forms.{FindsMember};
ghost use Rattle.jwk_set.specs.Element.{HasText};
ghost use Rattle.receipt_core.specs.Receipt.{IsDigest};
ghost use Rattle.receipt_core.specs.Line.{SaysDocument};

use crate::line::digits;
use bundle_doc::{DocError, Document};
use serde_json::Value;
use spiffe_name::{NameError, SpiffeId, TrustDomain};
use std::alloc::{AllocError, Global};

// The trust domain of this name.
pub(crate) fn domain_of(alloc: Global, text: &str) -> Result<Option<TrustDomain>, AllocError>
    ensures { IfOk result (λ o. FindsMember o (λ d. (d ≡ text.now) × IsDomainText d)) }
{
    match TrustDomain::read(alloc, text) {
        Ok(domain) => Ok(Some(domain)),
        Err(NameError::NoMemory) => Err(AllocError),
        Err(_) => Ok(None),
    }
}

// The ID of this text.
pub(crate) fn endpoint_of(alloc: Global, text: &str) -> Result<Option<SpiffeId>, AllocError>
    ensures { IfOk result (λ o. FindsMember o (λ id. (id.text ≡ text.now) × IsId id)) }
{
    match SpiffeId::read(alloc, text) {
        Ok(id) => Ok(Some(id)),
        Err(NameError::NoMemory) => Err(AllocError),
        Err(_) => Ok(None),
    }
}

// The digest of these lower-case digits.
pub(crate) fn digest_of(text: &str) -> Option<[u8; 32]>
    ensures { FindsMember result (λ d. (encode_lower d ≡ text.now) × IsDigest d) }
{
    let digest = decoded(text.as_bytes())?;
    if is_digits(&digest, text.as_bytes()) {
        Some(digest)
    } else {
        None
    }
}

// The digest of these digits, of whatever case.
fn decoded(text: &[u8]) -> Option<[u8; 32]>
    ensures { (d : List ℕ) → encode_lower d ≡ text.now → IsDigest d → result ≡ Some d }
{
    let mut digest = [0; 32];
    match hex::decode_to_slice(text, &mut digest) {
        Ok(()) => Some(digest),
        Err(_) => None,
    }
}

fn is_digits(digest: &[u8; 32], text: &[u8]) -> bool
    ensures same { IsTrue result ↔ (encode_lower digest.now ≡ text.now) }
    ensures form { IsDigest digest.now }
{
    let digits = digits(digest);
    digits.as_slice() == text
}

// The text of a member.
fn text_of<'a>(value: &'a Value, name: &str) -> Option<&'a str>
    ensures { FindsMember (option_map (λ text. text.now) result)
        (HasText (view value.now) name.now) }
{
    value.get(name)?.as_str()
}

// The trust domain that a member names.
pub(crate) fn read_domain(
    alloc: Global,
    value: &Value,
    name: &str,
) -> Result<Option<TrustDomain>, AllocError>
    ensures { IfOk result (λ o. FindsMember o
        (λ d. HasText (view value.now) name.now d × IsDomainText d)) }
{
    match text_of(value, name) {
        Some(text) => domain_of(alloc, text),
        None => Ok(None),
    }
}

// The ID that a member names.
pub(crate) fn read_endpoint(
    alloc: Global,
    value: &Value,
    name: &str,
) -> Result<Option<SpiffeId>, AllocError>
    ensures { IfOk result (λ o. FindsMember o
        (λ id. HasText (view value.now) name.now id.text × IsId id)) }
{
    match text_of(value, name) {
        Some(text) => endpoint_of(alloc, text),
        None => Ok(None),
    }
}

// The digest that a member spells.
pub(crate) fn read_digest(value: &Value, name: &str) -> Option<[u8; 32]>
    ensures { FindsMember result
        (λ d. HasText (view value.now) name.now (encode_lower d) × IsDigest d) }
{
    match text_of(value, name) {
        Some(text) => digest_of(text),
        None => None,
    }
}

// The document that the member `doc` means.
pub(crate) fn read_document(alloc: Global, value: &Value) -> Result<Option<Document>, AllocError>
    ensures { IfOk result (λ o. FindsMember o (SaysDocument (view value.now))) }
{
    match value.get("doc") {
        Some(document) => document_of(alloc, document),
        None => Ok(None),
    }
}

fn document_of(alloc: Global, value: &Value) -> Result<Option<Document>, AllocError>
    ensures { IfOk result (λ o. FindsMember o (λ b. Means (view value.now) b × Fits b)) }
{
    match Document::from_value(alloc, value) {
        Ok(document) => Ok(Some(document)),
        Err(error) => {
            memory_only(error)?;
            Ok(None)
        }
    }
}

// Lack of memory, apart from what the value itself is refused for.
fn memory_only(error: DocError) -> Result<(), AllocError>
    ensures { OnOk result (error ≡ DocError.NoMemory → ⊥) }
{
    match error {
        DocError::NoMemory => Err(AllocError),
        _ => Ok(()),
    }
}
