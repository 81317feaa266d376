//! Values that are neither arrays nor objects.
ghost use Rattle.std.specs.Prelude.{◌≡◌, ◌++◌, OnOk};
ghost use Rattle.json.specs.Print.{quoted};
ghost use Rattle.json_text.specs.JsonText.{digest_member, number_member, number_or_null};
ghost use Rattle.json_text.specs.JsonText.{quoted_digest, string_member, true_or_false};
ghost use Rattle.json_text.specs.JsonText.{truth_member};

use byte_lines::{push_digits, push_number};
use serde_json::Value;
use std::alloc::{AllocError, Global};

/// Adds a string, with the escapes that JSON wants, after its label.
///
/// # Errors
/// Memory ran out. Nothing is said then of what is there.
#[tactic(auto, unfolding(crate::specs::JsonText::string_member))]
pub fn push_string(
    alloc: Global,
    out: &mut Vec<u8>,
    label: &[u8],
    text: &str,
) -> Result<(), AllocError>
    ensures { OnOk result (out.new.items ≡ out.old.items ++ string_member label.now text.now) }
{
    out.extend_from_slice(label)?;
    push_quoted(alloc, out, text)
}

fn push_quoted(alloc: Global, out: &mut Vec<u8>, text: &str) -> Result<(), AllocError>
    ensures { OnOk result (out.new.items ≡ out.old.items ++ quoted text.now) }
{
    let string = Value::String(String::from_str(alloc, text)?).to_vec(alloc)?;
    out.extend_from_slice(string.as_slice())
}

/// Adds a digest as a string of lower-case hexadecimal, after its label.
///
/// # Errors
/// Memory ran out. Nothing is said then of what is there.
#[tactic(auto, unfolding(crate::specs::JsonText::digest_member))]
pub fn push_digest(out: &mut Vec<u8>, label: &[u8], digest: &[u8; 32]) -> Result<(), AllocError>
    ensures { OnOk result (out.new.items ≡ out.old.items ++ digest_member label.now digest.now) }
{
    out.extend_from_slice(label)?;
    push_quoted_digest(out, digest)
}

fn push_quoted_digest(out: &mut Vec<u8>, digest: &[u8; 32]) -> Result<(), AllocError>
    ensures { OnOk result (out.new.items ≡ out.old.items ++ quoted_digest digest.now) }
{
    out.extend_from_slice(b"\"")?;
    push_digits(out, digest)?;
    out.extend_from_slice(b"\"")
}

/// Adds a number, or `null` if there is no number, after its label.
///
/// # Errors
/// Memory ran out. Nothing is said then of what is there.
#[tactic(auto, unfolding(crate::specs::JsonText::number_member))]
pub fn push_optional(out: &mut Vec<u8>, label: &[u8], number: Option<u64>) -> Result<(), AllocError>
    ensures { OnOk result (out.new.items ≡ out.old.items ++ number_member label.now number) }
{
    out.extend_from_slice(label)?;
    push_number_or_null(out, number)
}

/// Adds a number, or `null` if there is no number.
///
/// # Errors
/// Memory ran out. Nothing is said then of what is there.
pub fn push_number_or_null(out: &mut Vec<u8>, number: Option<u64>) -> Result<(), AllocError>
    ensures { OnOk result (out.new.items ≡ out.old.items ++ number_or_null number) }
{
    match number {
        Some(number) => push_number(out, number),
        None => out.extend_from_slice(b"null"),
    }
}

/// Adds `true` or `false` after its label.
///
/// # Errors
/// Memory ran out. Nothing is said then of what is there.
#[tactic(auto, unfolding(crate::specs::JsonText::truth_member))]
pub fn push_truth(out: &mut Vec<u8>, label: &[u8], value: bool) -> Result<(), AllocError>
    ensures { OnOk result (out.new.items ≡ out.old.items ++ truth_member label.now value) }
{
    out.extend_from_slice(label)?;
    push_bool(out, value)
}

/// Adds `true` or `false`.
///
/// # Errors
/// Memory ran out. Nothing is said then of what is there.
pub fn push_bool(out: &mut Vec<u8>, value: bool) -> Result<(), AllocError>
    ensures { OnOk result (out.new.items ≡ out.old.items ++ true_or_false value) }
{
    if value {
        out.extend_from_slice(b"true")
    } else {
        out.extend_from_slice(b"false")
    }
}
