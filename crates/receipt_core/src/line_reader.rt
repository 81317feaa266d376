//! Receipts read from their lines: by their parts first, over `Document::read_canonical`, and if
//! that gives up by a JSON tree, which is written again and compared.
ghost use Rattle.std.specs.Prelude.{◌≡◌, ◌++◌, ◌↔◌, IsTrue, IfOk, IfSome, MatchResult};
ghost use Rattle.serde_json.specs.View.{view};
ghost use Rattle.jwk_set.specs.Json.{IsJson};
ghost use Rattle.jwk_set.specs.Forms.{FindsMember};
ghost use Rattle.receipt_core.specs.Line.{IsLine, IsNoJson, IsNoLine, RefusesReceiptLine};
ghost use Rattle.receipt_core.specs.Line.{SaysReceipt, Unless};
ghost use Rattle.receipt_core.specs.Parts.{pieces};

use crate::line_error::LineError;
use crate::members::{
    digest_of, domain_of, endpoint_of, read_digest, read_document, read_domain, read_endpoint,
};
use crate::receipt::Receipt;
use bundle_doc::{DocId, Document, KnownDocuments};
use jwk_set::KeyId;
use serde_json::Value;
use std::alloc::{AllocError, Global};
use std::str;

/// The most bytes of any line, without its line feed.
pub const MAX_LINE_BYTES: usize = 8_388_608;

// The most bytes of a receipt's line: a document, 255 bytes of a domain, 2,048 of an endpoint, two
// digests of 64 digits, and 56 between them.
const MAX_RECEIPT_LINE_BYTES: usize = 1_051_063;

// The receipt of a line, if parts are known.
pub(crate) fn read_receipt(
    alloc: Global,
    bytes: &[u8],
    known: &mut KnownDocuments,
) -> Result<Receipt, LineError>
    ensures { MatchResult result (IsLine bytes.now) (RefusesReceiptLine bytes.now) }
{
    if bytes.len() > MAX_LINE_BYTES {
        return Err(LineError::TooLong);
    }
    if bytes.len() > MAX_RECEIPT_LINE_BYTES {
        return Err(LineError::NotCanonical);
    }
    match read_directly(alloc, bytes, known)? {
        Some(receipt) => Ok(receipt),
        None => read_tree(alloc, bytes),
    }
}

// ---- by pieces, with no JSON tree between

#[derive(Drop)]
struct Pieces<'a> {
    document: &'a str,
    domain: &'a str,
    endpoint: &'a str,
    key: &'a str,
    voucher: &'a str,
}

pub(crate) fn read_directly(
    alloc: Global,
    bytes: &[u8],
    known: &mut KnownDocuments,
) -> Result<Option<Receipt>, AllocError>
    ensures { IfOk result (λ o. IfSome o (IsLine bytes.now)) }
{
    let Ok(text) = str::from_utf8(bytes) else {
        return Ok(None);
    };
    match split_line(text) {
        Some(parts) => read_pieces(alloc, &parts, known),
        None => Ok(None),
    }
}

fn split_line(text: &str) -> Option<Pieces<'_>>
    ensures { IfSome result
        (λ p. text.now ≡ pieces p.document.now p.domain.now p.endpoint.now p.key.now
        p.voucher.now) }
{
    let rest = before_end(text, "\"}")?;
    let (rest, voucher) = split_last(rest, "\",\"voucher\":\"")?;
    let (rest, key) = split_last(rest, "\",\"key\":\"")?;
    let (rest, endpoint) = split_last(rest, "\",\"endpoint\":\"")?;
    let (rest, domain) = split_last(rest, ",\"domain\":\"")?;
    let document = after(rest, "{\"doc\":")?;
    Some(Pieces {
        document,
        domain,
        endpoint,
        key,
        voucher,
    })
}

fn before_end<'a>(text: &'a str, label: &str) -> Option<&'a str>
    ensures { IfSome result (λ rest. text.now ≡ rest.now ++ label.now) }
{
    text.strip_suffix(label)
}

fn after<'a>(text: &'a str, label: &str) -> Option<&'a str>
    ensures { IfSome result (λ rest. text.now ≡ label.now ++ rest.now) }
{
    text.strip_prefix(label)
}

fn split_last<'a>(text: &'a str, label: &str) -> Option<(&'a str, &'a str)>
    ensures { IfSome result (λ r. text.now ≡ r.0.now ++ (label.now ++ r.1.now)) }
{
    text.rsplit_once(label)
}

fn read_pieces(
    alloc: Global,
    parts: &Pieces<'_>,
    known: &mut KnownDocuments,
) -> Result<Option<Receipt>, AllocError>
    ensures { IfOk result (λ o. IfSome o
        (IsLine (pieces parts.now.document.now parts.now.domain.now parts.now.endpoint.now
        parts.now.key.now parts.now.voucher.now))) }
{
    let (Some(key), Some(voucher)) = (digest_of(parts.key), digest_of(parts.voucher)) else {
        return Ok(None);
    };
    let Some(domain) = domain_of(alloc, parts.domain)? else {
        return Ok(None);
    };
    let Some(endpoint) = endpoint_of(alloc, parts.endpoint)? else {
        return Ok(None);
    };
    let Some(document) = Document::read_canonical_with(alloc, parts.document, known)? else {
        return Ok(None);
    };
    let receipt = Receipt::new_with(
        alloc,
        domain,
        endpoint,
        document,
        DocId(voucher),
        KeyId(key),
        known,
    )?;
    Ok(Some(receipt))
}

// ---- by way of a JSON tree

fn read_tree(alloc: Global, bytes: &[u8]) -> Result<Receipt, LineError>
    ensures { MatchResult result (IsLine bytes.now) (λ e. Unless e (IsNoLine bytes.now)) }
{
    match parse(alloc, bytes) {
        Ok(value) => read_value(alloc, &value, bytes),
        Err(error) => Err(error),
    }
}

// The JSON value of the bytes.
pub(crate) fn parse(alloc: Global, bytes: &[u8]) -> Result<Value, LineError>
    ensures { MatchResult result (λ v. IsJson bytes.now (view v))
        (λ e. Unless e (IsNoJson bytes.now)) }
{
    match Value::from_slice(alloc, bytes) {
        Ok(value) => Ok(value),
        Err(error) if error.is_memory() => Err(LineError::NoMemory),
        Err(_) => Err(LineError::NotCanonical),
    }
}

fn read_value(alloc: Global, value: &Value, bytes: &[u8]) -> Result<Receipt, LineError>
    requires { IsJson bytes.now (view value.now) }
    ensures { MatchResult result (IsLine bytes.now) (λ e. Unless e (IsNoLine bytes.now)) }
{
    let Some(receipt) = receipt_of(alloc, value)? else {
        return Err(LineError::NotCanonical);
    };
    if is_same(receipt.write_line(alloc)?.as_slice(), bytes) {
        Ok(receipt)
    } else {
        Err(LineError::NotCanonical)
    }
}

pub(crate) fn is_same(text: &[u8], bytes: &[u8]) -> bool
    ensures { IsTrue result ↔ (text.now ≡ bytes.now) }
{
    text == bytes
}

fn receipt_of(alloc: Global, value: &Value) -> Result<Option<Receipt>, AllocError>
    ensures { IfOk result (λ o. FindsMember o (SaysReceipt (view value.now))) }
{
    let Some(key) = read_digest(value, "key") else {
        return Ok(None);
    };
    let Some(voucher) = read_digest(value, "voucher") else {
        return Ok(None);
    };
    let Some(domain) = read_domain(alloc, value, "domain")? else {
        return Ok(None);
    };
    let Some(endpoint) = read_endpoint(alloc, value, "endpoint")? else {
        return Ok(None);
    };
    let Some(document) = read_document(alloc, value)? else {
        return Ok(None);
    };
    let receipt = Receipt::new(
        alloc,
        domain,
        endpoint,
        document,
        DocId(voucher),
        KeyId(key),
    )?;
    Ok(Some(receipt))
}
