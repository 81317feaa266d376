//! The text of an attribute of a name: its type and its value (RFC 4514, sections 2.3 and 2.4).
ghost use Rattle.std.specs.Prelude.{◌≡◌, ◌++◌, ◌∷◌, ◌<◌, [], codes, IfOk, OnOk, slice_index};
ghost use Rattle.std.specs.Prelude.{string_bytes, true};
ghost use Rattle.hex.specs.Hex.{encode_lower, lower_digits};
ghost use Rattle.cert_key.specs.Inside.Reading.{IsReadAs, view};
ghost use Rattle.cert_key.specs.Name.{dotted, escaped_byte, escaped_from, hexadecimal, is_special};
ghost use Rattle.cert_key.specs.Name.{is_special_at, is_text_tag, long_text, short_name};
ghost use Rattle.cert_key.specs.Name.{type_value_text, value_text};

use crate::der::Element;
use crate::object_identifier::dotted;
use std::alloc::{AllocError, Global};

/// The tag of a UTF8String.
const UTF8_STRING: u8 = 12;

/// The tag of a PrintableString.
const PRINTABLE_STRING: u8 = 19;

/// The tag of an IA5String.
const IA5_STRING: u8 = 22;

/// The text of an attribute of this type and value, and `None` if the tag has more than one byte,
/// or the type is not read.
pub(crate) fn type_value_text(
    alloc: Global,
    of: &[u8],
    value: &Element<'_>,
) -> Result<Option<String>, AllocError>
    ensures { IfOk result (λ text. IsReadAs string_bytes text (type_value_text of.now
        value.now.tag value.now.content.now value.now.whole.now)) }
{
    if value.tag % 32 == 31 {
        return Ok(None);
    }
    match short_name(of) {
        Some(name) => Ok(Some(named_text(alloc, name, value)?)),
        None => long_text(alloc, of, value),
    }
}

#[tactic(auto, unfolding(crate::specs::Name::short_name))]
fn short_name(of: &[u8]) -> Option<&'static str>
    ensures { IsReadAs (λ name. name.now) result (short_name of.now) }
{
    if of == b"\x55\x04\x03".as_slice() {
        return Some("CN");
    }
    if of == b"\x55\x04\x07".as_slice() {
        return Some("L");
    }
    if of == b"\x55\x04\x08".as_slice() {
        return Some("ST");
    }
    if of == b"\x55\x04\x0a".as_slice() {
        return Some("O");
    }
    if of == b"\x55\x04\x0b".as_slice() {
        return Some("OU");
    }
    if of == b"\x55\x04\x06".as_slice() {
        return Some("C");
    }
    if of == b"\x55\x04\x09".as_slice() {
        return Some("STREET");
    }
    if of == b"\x09\x92\x26\x89\x93\xf2\x2c\x64\x01\x19".as_slice() {
        return Some("DC");
    }
    if of == b"\x09\x92\x26\x89\x93\xf2\x2c\x64\x01\x01".as_slice() {
        return Some("UID");
    }
    None
}

// A type that has no name here.
fn long_text(alloc: Global, of: &[u8], value: &Element<'_>) -> Result<Option<String>, AllocError>
    ensures { IfOk result (λ text. IsReadAs string_bytes text
        (long_text value.now.whole.now (dotted of.now))) }
{
    match dotted(alloc, of)? {
        Some(numbers) => Ok(Some(numbered_text(alloc, numbers, value)?)),
        None => Ok(None),
    }
}

fn numbered_text(alloc: Global, numbers: String, value: &Element<'_>) -> Result<String, AllocError>
    ensures { IfOk result (λ text. string_bytes text ≡ string_bytes numbers
        ++ (codes "=" ++ hexadecimal value.now.whole.now)) }
{
    let mut text = numbers;
    text.push_str("=")?;
    push_hexadecimal(alloc, &mut text, value.whole)?;
    Ok(text)
}

fn named_text(alloc: Global, name: &str, value: &Element<'_>) -> Result<String, AllocError>
    ensures { IfOk result (λ text. string_bytes text ≡ name.now ++ (codes "="
        ++ value_text value.now.tag value.now.content.now value.now.whole.now)) }
{
    let mut text = String::from_str(alloc, name)?;
    text.push_str("=")?;
    push_value(alloc, &mut text, value)?;
    Ok(text)
}

fn push_value(alloc: Global, text: &mut String, value: &Element<'_>) -> Result<(), AllocError>
    ensures { OnOk result (string_bytes text.new ≡ string_bytes text.old
        ++ value_text value.now.tag value.now.content.now value.now.whole.now) }
{
    if is_text_tag(value.tag) {
        push_escaped(text, value.content)
    } else {
        push_hexadecimal(alloc, text, value.whole)
    }
}

fn is_text_tag(tag: u8) -> bool
    ensures { result ≡ is_text_tag tag }
{
    tag == UTF8_STRING || tag == PRINTABLE_STRING || tag == IA5_STRING
}

#[tactic(auto, unfolding(crate::specs::Name::hexadecimal))]
fn push_hexadecimal(alloc: Global, text: &mut String, bytes: &[u8]) -> Result<(), AllocError>
    ensures { OnOk result (string_bytes text.new ≡ string_bytes text.old
        ++ hexadecimal bytes.now) }
{
    let digits = hex::encode(alloc, bytes)?;
    text.push_str("#")?;
    text.push_str(digits.as_str())
}

fn push_escaped(text: &mut String, bytes: &[u8]) -> Result<(), AllocError>
    ensures { OnOk result (string_bytes text.new ≡ string_bytes text.old
        ++ escaped_from true bytes.now) }
{
    let mut is_first = true;
    let mut rest = bytes;
    'bytes: while let [byte, others @ ..] = rest {
        push_byte(text, is_first, others.is_empty(), *byte)?;
        is_first = false;
        rest = others;
    }
    Ok(())
}

fn push_byte(text: &mut String, is_first: bool, is_last: bool, byte: u8) -> Result<(), AllocError>
    ensures { OnOk result (string_bytes text.new ≡ string_bytes text.old
        ++ escaped_byte is_first is_last byte) }
{
    if byte < 32 || byte > 126 {
        return push_digits(text, byte);
    }
    if is_special(byte) || is_special_at(is_first, is_last, byte) {
        push_ascii(text, b'\\')?;
    }
    push_ascii(text, byte)
}

fn is_special(byte: u8) -> bool
    ensures { result ≡ is_special byte }
{
    byte == b'"'
        || byte == b'+'
        || byte == b','
        || byte == b';'
        || byte == b'<'
        || byte == b'>'
        || byte == b'\\'
}

fn is_special_at(is_first: bool, is_last: bool, byte: u8) -> bool
    ensures { result ≡ is_special_at is_first is_last byte }
{
    (is_first && (byte == b' ' || byte == b'#')) || (is_last && byte == b' ')
}

// A \ and two digits.
fn push_digits(text: &mut String, byte: u8) -> Result<(), AllocError>
    ensures { OnOk result (string_bytes text.new ≡ string_bytes text.old
        ++ 92 ∷ encode_lower (byte ∷ [])) }
{
    push_ascii(text, b'\\')?;
    push_ascii(text, digit(byte / 16))?;
    push_ascii(text, digit(byte % 16))
}

fn digit(value: u8) -> u8
    requires { value < 16 }
    ensures digit { result ≡ slice_index lower_digits value }
    ensures ascii { result < 128 }
{
    b"0123456789abcdef"[usize::from(value)]
}

fn push_ascii(text: &mut String, byte: u8) -> Result<(), AllocError>
    requires { byte < 128 }
    ensures { OnOk result (string_bytes text.new ≡ string_bytes text.old ++ byte ∷ []) }
{
    text.push(char::from(byte))
}
