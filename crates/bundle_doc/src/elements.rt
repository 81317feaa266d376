//! The elements of `keys`, and the authorities that they say, gathered under their texts: so these
//! are in order, and each is there once.
ghost use Rattle.std.specs.Prelude.{◌≡◌, ◌++◌, IfOk, OnOk, not, option_map, string_bytes};
ghost use Rattle.std.specs.List.Sorted.{IsStrictlySortedBy};
ghost use Rattle.serde_json.specs.Find.{as_array, get};
ghost use Rattle.serde_json.specs.View.{view, items_view};
ghost use Rattle.serde_json.specs.Written.{comma_if};
ghost use Rattle.jwk_set.specs.Forms.{FindsMember};
ghost use Rattle.bundle_doc.specs.Bundle.{HasKeys, text_cmp};
ghost use Rattle.bundle_doc.specs.Entries.{AddsElement, AreEntries, IsGathered, authorities_of};
ghost use Rattle.bundle_doc.specs.Entries.{keys_text};

use jwk_set::{Authority, read_element};
use serde_json::Value;
use std::alloc::{AllocError, Global};
use std::collections::BTreeMap;

/// The most bytes that a canonical text has without its elements and their commas.
const FIXED_BYTES: usize = 100;

/// The elements of `keys`, if it is an array.
pub(crate) fn elements_of(value: &Value) -> Option<&Vec<Value>>
    ensures { FindsMember (option_map (λ v. items_view v.now.items) result)
        (HasKeys (view value.now)) }
{
    value.get("keys")?.as_array()
}

/// The same elements, of a value that is consumed.
pub(crate) fn taken_elements(value: Value) -> Option<Vec<Value>>
    ensures { FindsMember (option_map (λ v. items_view v.items) result) (HasKeys (view value)) }
{
    taken_items(taken_member(value, "keys")?)
}

fn taken_member(value: Value, name: &str) -> Option<Value>
    ensures { option_map view result ≡ get name.now (view value) }
{
    match value {
        Value::Object(mut members) => members.remove(name),
        _ => None,
    }
}

fn taken_items(value: Value) -> Option<Vec<Value>>
    ensures { option_map (λ v. items_view v.items) result ≡ as_array (view value) }
{
    match value {
        Value::Array(items) => Some(items),
        _ => None,
    }
}

/// The authorities that the elements say, each under its text. An element is freed once it is read.
pub(crate) fn gather_taken(
    alloc: Global,
    elements: Vec<Value>,
) -> Result<BTreeMap<String, Authority>, AllocError>
    ensures { IfOk result (λ m. IsGathered (items_view elements.items) m.entries) }
{
    let mut found = BTreeMap::new(alloc);
    for element in elements {
        add_element(alloc, &mut found, &element)?;
    }
    Ok(found)
}

/// The authorities that the elements say, each under its text.
pub(crate) fn gather(
    alloc: Global,
    elements: &[Value],
) -> Result<BTreeMap<String, Authority>, AllocError>
    ensures { IfOk result (λ m. IsGathered (items_view elements.now) m.entries) }
{
    let mut found = BTreeMap::new(alloc);
    for element in elements {
        add_element(alloc, &mut found, element)?;
    }
    Ok(found)
}

fn add_element(
    alloc: Global,
    found: &mut BTreeMap<String, Authority>,
    element: &Value,
) -> Result<(), AllocError>
    ensures { OnOk result (AddsElement found.old.entries found.new.entries (view element.now)) }
{
    let Some(authority) = read_element(alloc, element)? else {
        return Ok(());
    };
    let text = authority.to_text(alloc)?;
    found.insert(text, authority)?;
    Ok(())
}

/// The authorities in order, and the canonical text up to the end of `keys`.
pub(crate) fn write_elements(
    alloc: Global,
    found: BTreeMap<String, Authority>,
) -> Result<(Vec<Authority>, String), AllocError>
    requires { AreEntries found.entries }
    ensures authorities { IfOk result (λ r. r.0.items ≡ authorities_of found.entries) }
    ensures text { IfOk result (λ r. string_bytes r.1 ≡ keys_text (authorities_of found.entries)) }
    ensures rising { IfOk result (λ r. IsStrictlySortedBy text_cmp r.0.items) }
{
    let mut authorities = Vec::with_capacity(alloc, found.len())?;
    let mut out = String::with_capacity(alloc, length_of(&found))?;
    out.push_str("{\"keys\":[")?;
    for (text, authority) in found {
        write_element(&mut out, !authorities.is_empty(), text.as_str())?;
        authorities.push(authority)?;
    }
    out.push(']')?;
    Ok((authorities, out))
}

/// How long the canonical text is with the longest numbers, so that it doesn't grow while it is
/// written.
fn length_of(found: &BTreeMap<String, Authority>) -> usize {
    let mut length = FIXED_BYTES;
    for text in found.keys() {
        length = length.saturating_add(text.len()).saturating_add(1);
    }
    length
}

fn write_element(out: &mut String, later: bool, text: &str) -> Result<(), AllocError>
    ensures { OnOk result (string_bytes out.new ≡ string_bytes out.old
        ++ (comma_if later ++ text.now)) }
{
    if later {
        out.push(',')?;
    }
    out.push_str(text)
}
