//! The one spelling of a record of distrust.
ghost use Rattle.std.specs.Prelude.{◌≡◌, IfOk, MatchResult};
ghost use Rattle.serde_json.specs.View.{view};
ghost use Rattle.jwk_set.specs.Json.{IsJson};
ghost use Rattle.jwk_set.specs.Forms.{FindsMember};
ghost use Rattle.receipt_core.specs.Receipt.{distrust_line};
ghost use Rattle.receipt_core.specs.Line.{IsNoRecord, IsRecord, RefusesRecord, SaysDistrust};
ghost use Rattle.receipt_core.specs.Line.{Unless};

use crate::distrust::Distrust;
use crate::line::digits;
use crate::line_error::LineError;
use crate::line_reader::{MAX_LINE_BYTES, is_same, parse};
use crate::members::{read_digest, read_domain};
use jwk_set::KeyId;
use serde_json::Value;
use std::alloc::{AllocError, Global};

// The most bytes of a record's line: 64 digits, 255 bytes of a domain, and 27 around them.
const MAX_RECORD_LINE_BYTES: usize = 346;

// The record of a line.
pub(crate) fn read_distrust(alloc: Global, bytes: &[u8]) -> Result<Distrust, LineError>
    ensures { MatchResult result (IsRecord bytes.now) (RefusesRecord bytes.now) }
{
    if bytes.len() > MAX_LINE_BYTES {
        return Err(LineError::TooLong);
    }
    if bytes.len() > MAX_RECORD_LINE_BYTES {
        return Err(LineError::NotCanonical);
    }
    match parse(alloc, bytes) {
        Ok(value) => read_value(alloc, &value, bytes),
        Err(error) => Err(error),
    }
}

fn read_value(alloc: Global, value: &Value, bytes: &[u8]) -> Result<Distrust, LineError>
    requires { IsJson bytes.now (view value.now) }
    ensures { MatchResult result (IsRecord bytes.now) (λ e. Unless e (IsNoRecord bytes.now)) }
{
    let Some(distrust) = distrust_of(alloc, value)? else {
        return Err(LineError::NotCanonical);
    };
    if is_same(write_distrust(alloc, &distrust)?.as_slice(), bytes) {
        Ok(distrust)
    } else {
        Err(LineError::NotCanonical)
    }
}

fn distrust_of(alloc: Global, value: &Value) -> Result<Option<Distrust>, AllocError>
    ensures { IfOk result (λ o. FindsMember o (SaysDistrust (view value.now))) }
{
    let Some(key) = read_digest(value, "distrust") else {
        return Ok(None);
    };
    let Some(domain) = read_domain(alloc, value, "domain")? else {
        return Ok(None);
    };
    let key = KeyId(key);
    Ok(Some(Distrust { domain, key }))
}

// The line of a record.
pub(crate) fn write_distrust(alloc: Global, distrust: &Distrust) -> Result<Vec<u8>, AllocError>
    ensures { IfOk result (λ text. text.items ≡ distrust_line distrust.now) }
{
    let mut text = Vec::new(alloc);
    text.extend_from_slice(b"{\"distrust\":\"")?;
    text.extend_from_slice(&digits(&distrust.key.0))?;
    text.extend_from_slice(b"\",\"domain\":\"")?;
    text.extend_from_slice(distrust.domain.as_str().as_bytes())?;
    text.extend_from_slice(b"\"}")?;
    Ok(text)
}
