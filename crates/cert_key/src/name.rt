//! Names (RFC 5280, section 4.1.2.4), and their texts (RFC 4514).
ghost use Rattle.std.specs.Prelude.{◌≡◌, ◌<◌, [], IfOk, OnOk, option_map, string_bytes};
ghost use Rattle.cert_key.specs.Inside.Names.{attribute_at, attributes_text, contents_at, name_at};
ghost use Rattle.cert_key.specs.Inside.Names.{rdn_at, rdns_at, rdns_text};
ghost use Rattle.cert_key.specs.Inside.Reading.{IsReadAs, view};
ghost use Rattle.cert_key.specs.Name.{IsNameText, joined_texts, with_next};

use crate::attribute_text::type_value_text;
use crate::der::{Element, field_at, first_element};
use std::alloc::{AllocError, Global};
use std::marker::Model;

/// The tag of an OBJECT IDENTIFIER.
const OBJECT_IDENTIFIER: u8 = 6;

/// The tag of a SEQUENCE.
const SEQUENCE: u8 = 48;

/// The tag of a SET.
const SET: u8 = 49;

/// What an element contains.
#[derive(Drop)]
struct Content<'a> {
    bytes: &'a [u8],
}

impl<'a> Model for Content<'a> {
    ghost use Rattle.std.specs.Prelude.{ℕ, List};

    ghost Value = { List ℕ };

    ghost view = { λ c. c.bytes.now };
}

/// The text of a `Name` in DER, as a certificate has for its subject ([`crate::CertParts`]), and
/// `None` if the bytes are not of this form (RFC 5280, section 4.1.2.4; X.690).
///
/// The text is that of RFC 4514: from the last RDN to the first with a `,` between two, the
/// attributes of one in the order of the bytes with a `+` between two, and each a type, a `=` and a
/// value. The types CN, L, ST, O, OU, C, STREET, DC and UID have these names; others are numbers
/// with dots between them. The value of a type with a name is itself if it is a UTF8String, a
/// PrintableString or an IA5String, with a `\` before `"`, `+`, `,`, `;`, `<`, `>` and `\`, before
/// a space or a `#` that begins it and before a space that ends it; each byte that is not a
/// printable character of ASCII is a `\` and two hexadecimal digits. Each other value is a `#` and
/// its whole element in hexadecimal. So the text is one line of printable ASCII. A name without an
/// RDN has the empty text.
///
/// The bytes are one SEQUENCE of SETs of at least one SEQUENCE of an OBJECT IDENTIFIER and one
/// element, each with a tag of one byte and a length as in [`crate::read_certificate`]. The numbers
/// of a type that has no name here are below 2^63. Whether a string has only the characters of its
/// kind, and whether a SET is sorted, is not looked at.
///
/// # Errors
/// Memory ran out.
pub fn name_text(alloc: Global, name: &[u8]) -> Result<Option<String>, AllocError>
    ensures { IfOk result (λ text. IsNameText name.now (option_map string_bytes text)) }
{
    name_at(alloc, name)
}

#[tactic(auto, unfolding(crate::specs::Inside::Names::name_at))]
fn name_at(alloc: Global, bytes: &[u8]) -> Result<Option<String>, AllocError>
    ensures { IfOk result (λ text. IsReadAs string_bytes text (name_at bytes.now)) }
{
    match field_at(SEQUENCE, bytes) {
        Some(name) => rdns_at(alloc, &name),
        None => Ok(None),
    }
}

fn rdns_at(alloc: Global, name: &Element<'_>) -> Result<Option<String>, AllocError>
    ensures { IfOk result (λ text. IsReadAs string_bytes text (rdns_at (view name.now))) }
{
    if !name.after.is_empty() {
        return Ok(None);
    }
    match contents_at(alloc, SET, name.content)? {
        Some(contents) => rdns_text(alloc, contents),
        None => Ok(None),
    }
}

// The text begins with the last one.
fn rdns_text(alloc: Global, contents: Vec<Content<'_>>) -> Result<Option<String>, AllocError>
    ensures { IfOk result (λ text. IsReadAs string_bytes text (rdns_text contents.entry.items)) }
{
    let mut contents = contents;
    contents.reverse();
    joined_rdns(alloc, contents.as_slice())
}

fn joined_rdns(alloc: Global, contents: &[Content<'_>]) -> Result<Option<String>, AllocError>
    ensures { IfOk result (λ text. IsReadAs string_bytes text
        (joined_texts 44 rdn_at [] contents.now)) }
{
    let mut text = String::new(alloc);
    let mut rest = contents;
    'rdns: while let [content, others @ ..] = rest {
        match rdn_at(alloc, content.bytes)? {
            Some(own) => push_next(&mut text, ',', own.as_str())?,
            None => return Ok(None),
        }
        rest = others;
    }
    Ok(Some(text))
}

#[tactic(auto, unfolding(crate::specs::Inside::Names::rdn_at))]
fn rdn_at(alloc: Global, bytes: &[u8]) -> Result<Option<String>, AllocError>
    ensures { IfOk result (λ text. IsReadAs string_bytes text (rdn_at bytes.now)) }
{
    match contents_at(alloc, SEQUENCE, bytes)? {
        Some(contents) => attributes_text(alloc, contents.as_slice()),
        None => Ok(None),
    }
}

fn attributes_text(alloc: Global, contents: &[Content<'_>]) -> Result<Option<String>, AllocError>
    ensures { IfOk result (λ text. IsReadAs string_bytes text (attributes_text contents.now)) }
{
    if contents.is_empty() {
        return Ok(None);
    }
    joined_attributes(alloc, contents)
}

fn joined_attributes(alloc: Global, contents: &[Content<'_>]) -> Result<Option<String>, AllocError>
    ensures { IfOk result (λ text. IsReadAs string_bytes text
        (joined_texts 43 attribute_at [] contents.now)) }
{
    let mut text = String::new(alloc);
    let mut rest = contents;
    'attributes: while let [content, others @ ..] = rest {
        match attribute_at(alloc, content.bytes)? {
            Some(own) => push_next(&mut text, '+', own.as_str())?,
            None => return Ok(None),
        }
        rest = others;
    }
    Ok(Some(text))
}

// Adds what is next, after a sign if something is there.
fn push_next(text: &mut String, sign: char, next: &str) -> Result<(), AllocError>
    requires { sign < 128 }
    ensures { OnOk result (string_bytes text.new
        ≡ with_next sign (string_bytes text.old) next.now) }
{
    if !text.is_empty() {
        text.push(sign)?;
    }
    text.push_str(next)
}

#[tactic(auto, unfolding(crate::specs::Inside::Names::attribute_at))]
fn attribute_at(alloc: Global, bytes: &[u8]) -> Result<Option<String>, AllocError>
    ensures { IfOk result (λ text. IsReadAs string_bytes text (attribute_at bytes.now)) }
{
    let Some(of) = field_at(OBJECT_IDENTIFIER, bytes) else {
        return Ok(None);
    };
    let Some(value) = first_element(of.after) else {
        return Ok(None);
    };
    if !value.after.is_empty() {
        return Ok(None);
    }
    type_value_text(alloc, of.content, &value)
}

// What the elements with this tag contain, one after another and with nothing else.
#[tactic(auto, unfolding(crate::specs::Inside::Names::contents_at))]
fn contents_at(alloc: Global, tag: u8, bytes: &[u8]) -> Result<Option<Vec<Content<'_>>>, AllocError>
    ensures { IfOk result (λ contents. IsReadAs (λ c. c.items) contents
        (contents_at tag bytes.now)) }
{
    let mut contents = Vec::new(alloc);
    let mut rest = bytes;
    'elements: while !rest.is_empty() {
        let Some(element) = field_at(tag, rest) else {
            return Ok(None);
        };
        contents.push(Content {
            bytes: element.content,
        })?;
        rest = element.after;
    }
    Ok(Some(contents))
}
