//! Canonical texts of documents read directly, with no JSON tree between. A text of another kind is
//! left to the reader of JSON, and so is one with an escape in a string: nothing is claimed of
//! those.
//!
//! Each function says which part of the text it read and what is left, only on `Ok`. The numbers
//! are read without a promise, written by the writer of canonical texts, and compared.
ghost use Rattle.std.specs.Prelude.{◌≡◌, ◌++◌, IfOk, IfSome, ◌==◌, not, vec_len};
ghost use Rattle.serde_json.specs.Written.{comma_if};
ghost use Rattle.bundle_doc.specs.CanonicalReader.{ReadsBundle, ReadsKeys, ReadsNext, ReadsNumbers};
ghost use Rattle.bundle_doc.specs.Entries.{FitsWord};

use crate::canonical_authority::{GivesUp, after};
use crate::document_numbers::write_numbers;
use crate::known_authorities::{KnownAuthority, read_known};
use crate::text_places::Places;
use jwk_set::Authority;
use std::alloc::{AllocError, Global};
use std::cmp::Ordering;

/// What a canonical text says.
#[derive(Drop)]
pub(crate) struct DocumentFields {
    pub(crate) authorities: Vec<Authority>,
    pub(crate) hint: Option<u64>,
    pub(crate) rank: Option<u64>,
}

/// The parts of a canonical text, if it is one that this reader takes.
pub(crate) fn read_parts(
    alloc: Global,
    text: &str,
    known: &mut Places<KnownAuthority>,
) -> Result<Option<DocumentFields>, AllocError>
    ensures { IfOk result (λ o. IfSome o
        (λ p. ReadsBundle text.now p.authorities.items p.hint p.rank)) }
{
    match read_bundle(alloc, text, known) {
        Ok(parts) => Ok(Some(parts)),
        Err(GivesUp::Form) => Ok(None),
        Err(GivesUp::NoMemory) => Err(AllocError),
    }
}

fn read_bundle(
    alloc: Global,
    text: &str,
    known: &mut Places<KnownAuthority>,
) -> Result<DocumentFields, GivesUp>
    ensures { IfOk result (λ p. ReadsBundle text.now p.authorities.items p.hint p.rank) }
{
    let keys = after(text, "{\"keys\":[")?;
    let (authorities, rest) = read_keys(alloc, keys, known)?;
    let (hint, rank) = read_numbers(alloc, rest)?;
    Ok(DocumentFields {
        authorities,
        hint,
        rank,
    })
}

/// The authorities up to the closing bracket, each above the one before it, and what follows.
fn read_keys<'a>(
    alloc: Global,
    text: &'a str,
    known: &mut Places<KnownAuthority>,
) -> Result<(Vec<Authority>, &'a str), GivesUp>
    ensures { IfOk result (λ r. ReadsKeys text.now r.0.items r.1.now) }
{
    let mut authorities = Vec::new(alloc);
    let mut rest = text;
    let mut last = &text.as_bytes()[..0];
    while !rest.starts_with(']') {
        let (authority, own, behind) = read_next(
            alloc,
            rest,
            !authorities.is_empty(),
            last,
            known,
        )?;
        authorities.push(authority)?;
        last = own;
        rest = behind;
    }
    Ok((authorities, after(rest, "]")?))
}

/// The next authority, its own text, and what follows it.
fn read_next<'a>(
    alloc: Global,
    text: &'a str,
    later: bool,
    last: &[u8],
    known: &mut Places<KnownAuthority>,
) -> Result<(Authority, &'a [u8], &'a str), GivesUp>
    ensures { IfOk result (λ r. ReadsNext text.now later last.now r.0 r.1.now r.2.now) }
{
    let text = past_comma(text, later)?;
    let (authority, rest) = read_known(alloc, text, known)?;
    let own = &text.as_bytes()[..text.len() - rest.len()];
    match last.cmp(own) {
        Ordering::Less => Ok((authority, own, rest)),
        _ => Err(GivesUp::Form),
    }
}

fn past_comma(text: &str, later: bool) -> Result<&str, GivesUp>
    ensures { IfOk result (λ rest. text.now ≡ comma_if later ++ rest.now) }
{
    if later { after(text, ",") } else { Ok(text) }
}

/// The two numbers, which are all that follows `keys`.
fn read_numbers(alloc: Global, text: &str) -> Result<(Option<u64>, Option<u64>), GivesUp>
    ensures { IfOk result (λ r. ReadsNumbers text.now r.0 r.1) }
{
    let (hint, rest) = number_behind(text, ",\"spiffe_refresh_hint\":");
    let (rank, _) = number_behind(rest, ",\"spiffe_sequence\":");
    let mut written = String::new(alloc);
    write_numbers(&mut written, rank, hint)?;
    if written.as_str() != text {
        return Err(GivesUp::Form);
    }
    Ok((hint, rank))
}

/// The number after the label, if the text begins with one, and what follows. What is read is
/// written and compared by the caller.
fn number_behind<'a>(text: &'a str, label: &str) -> (Option<u64>, &'a str)
    ensures { FitsWord result.0 }
{
    let Some(number) = text.strip_prefix(label) else {
        return (None, text);
    };
    let end = number
        .find(|c: char| !c.is_ascii_digit())
        .unwrap_or(number.len());
    let (digits, rest) = number.split_at(end);
    match digits.parse::<u64>() {
        Ok(number) => (Some(number), rest),
        Err(_) => (None, text),
    }
}
