//! The two numbers of a document: its rank and its refresh hint.
ghost use Rattle.std.specs.Prelude.{◌≡◌, ◌++◌, IfOk, MatchResult, OnOk, string_bytes};
ghost use Rattle.serde_json.specs.View.{view, members_view};
ghost use Rattle.bundle_doc.specs.Bundle.{HasNumberMember};
ghost use Rattle.bundle_doc.specs.Entries.{FitsWord, number_part, numbers_text, put_some};
ghost use Rattle.bundle_doc.specs.Refusal.{HasSomeNumber};

use crate::error::DocError;
use serde_json::{Map, Value};
use std::alloc::{AllocError, Global};
use std::fmt::Write;

/// The number of a member, which may be absent.
///
/// # Errors
/// `bad`, if the member is neither a whole number nor absent.
pub(crate) fn read_number(value: &Value, name: &str, bad: DocError) -> Result<Option<u64>, DocError>
    ensures number { MatchResult result (HasNumberMember (view value.now) name.now)
        (λ e. (e ≡ bad) × (HasSomeNumber (view value.now) name.now → ⊥)) }
    ensures fits { IfOk result FitsWord }
{
    let Some(found) = value.get(name) else {
        return Ok(None);
    };
    if found.is_null() {
        return Ok(None);
    }
    match found.as_u64() {
        Some(number) => Ok(Some(number)),
        None => Err(bad),
    }
}

/// Puts the member in if there is a number.
pub(crate) fn put_number(
    alloc: Global,
    members: &mut Map<String, Value>,
    name: &str,
    number: Option<u64>,
) -> Result<(), AllocError>
    ensures { OnOk result (members_view members.new.entries
        ≡ put_some name.now number (members_view members.old.entries)) }
{
    match number {
        Some(number) => serde_json::put(members, alloc, name, Value::from(number)),
        None => Ok(()),
    }
}

/// Writes the canonical text after `keys`.
pub(crate) fn write_numbers(
    out: &mut String,
    rank: Option<u64>,
    hint: Option<u64>,
) -> Result<(), AllocError>
    ensures { OnOk result (string_bytes out.new ≡ string_bytes out.old ++ numbers_text hint rank) }
{
    write_number(out, ",\"spiffe_refresh_hint\":", hint)?;
    write_number(out, ",\"spiffe_sequence\":", rank)?;
    out.push('}')
}

fn write_number(out: &mut String, label: &str, number: Option<u64>) -> Result<(), AllocError>
    ensures { OnOk result (string_bytes out.new ≡ string_bytes out.old
        ++ number_part label.now number) }
{
    match number {
        Some(number) => write!(out, "{label}{number}"),
        None => Ok(()),
    }
}
