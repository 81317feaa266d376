//! The keys as lines and as compact JSON.
ghost use Rattle.std.specs.Prelude.{◌≡◌, ◌++◌, codes, flat_map, map, option_copied, IfOk, OnOk};
ghost use Rattle.std.specs.Prelude.{option_map, Some, string_bytes};
ghost use Rattle.json_text.specs.JsonText.{array_member};
ghost use Rattle.hex.specs.Hex.{encode_lower};
ghost use Rattle.key_view.specs.KeysText.{IsKeysText, IsSameKeysText, bundle_words, bundles_text};
ghost use Rattle.key_view.specs.KeysText.{domain_jsons, domain_lines, is_of_other, known_key_json};
ghost use Rattle.key_view.specs.KeysText.{closing, known_key_line, key_number, keys_in, keys_json};
ghost use Rattle.key_view.specs.KeysText.{labelled};
ghost use Rattle.key_view.specs.KeysText.{no_parts_json, no_parts_text, no_subject_json};
ghost use Rattle.key_view.specs.KeysText.{read_parts_json, subject_end, subject_ending};
ghost use Rattle.key_view.specs.KeysText.{subject_json, subject_of, texts_json};
ghost use Rattle.key_view.specs.KeysText.{read_parts_text};
ghost use Rattle.key_view.specs.KeysText.{parts_json, parts_text, quoted_id, same_key_line};
ghost use Rattle.key_view.specs.KeysText.{same_key_lines, same_keys, yes_or_no};

use crate::domain_entries::DomainEntries;
use crate::key_listing::{DomainKeys, domain_keys, keys_of_domain};
use crate::known_entry::{KeyEntry, KeyParts};
use bundle_doc::DocId;
use byte_lines::push_digits;
use closure_core::Closure;
use itoa::Buffer;
use json_text::{push_array, push_digest, push_string, push_truth};
use spiffe_name::TrustDomain;
use std::alloc::{AllocError, Global};
use text_lines::TextLine;

/// How the keys are written.
#[derive(Clone, Copy, Debug, PartialEq, Eq)]
pub enum KeysForm {
    /// A line for each: `key <key id> domain <domain> public-key <digest> from <time> to <time>
    /// distrusted <yes or no> same-public-key <yes or no> bundles <document id>.. subject
    /// <subject>`. The digest is the SHA-256 of the certificate's public key, a time is a date and
    /// a time in UTC, `YYYY-MM-DDTHH:MM:SSZ`, and the subject is a text of RFC 4514
    /// ([`cert_key::name_text`]); if the certificate is not read, they are `none`. The subject is
    /// also `none` if only it is not read, and `empty` if it is empty. A key has the same public
    /// key if an accepted document lists it and it is not distrusted, though a distrusted key of
    /// the domain has its public key. The bundles are `none` if no accepted document lists the key.
    Lines,
    /// A compact JSON object of one member, `keys`, and a line feed. It has an object for each, of
    /// `key`, `domain`, `public_key`, `not_before` and `not_after` in seconds since the Unix epoch,
    /// `valid_from` and `valid_until` as in a line, `subject`, which all are `null` if the
    /// certificate is not read, `distrusted`, `same_public_key` and `bundles`. The subject is also
    /// `null` if only it is not read.
    Json,
}

/// The text of [`domain_keys`] in this form, or of the keys of one domain of the configuration.
///
/// # Errors
/// Memory ran out.
pub fn keys_text<C: Closure>(
    alloc: Global,
    closure: &C,
    form: KeysForm,
    chosen: Option<&TrustDomain>,
) -> Result<Vec<u8>, AllocError>
    ensures { IfOk result (λ text. IsKeysText form (C.state closure.now).meaning
        (option_copied chosen.entry) text.items) }
{
    let all = domain_keys(alloc, closure)?;
    keys_in(alloc, form, chosen, all.as_slice())
}

/// A line for each accepted document of the domain and each key that it lists and that is not
/// distrusted in the domain, though a key with its public key is: `same public key: <key id> of
/// <domain> in <document id>`.
///
/// # Errors
/// Memory ran out.
pub fn same_keys_text<C: Closure>(
    alloc: Global,
    closure: &C,
    domain: &TrustDomain,
) -> Result<Vec<u8>, AllocError>
    ensures { IfOk result (λ text. IsSameKeysText (C.state closure.now).meaning domain.now
        text.items) }
{
    let keys = keys_of_domain(alloc, closure, domain)?;
    let mut text = Vec::new(alloc);
    push_same_keys(alloc, &mut text, &keys)?;
    Ok(text)
}

fn push_same_keys(alloc: Global, out: &mut Vec<u8>, keys: &DomainKeys) -> Result<(), AllocError>
    ensures { OnOk result (out.new.items ≡ out.old.items ++ same_keys keys.now) }
{
    let entries = DomainEntries::new(alloc, keys.keys.as_slice())?;
    push_same_among(out, &keys.domain, &entries, keys.keys.as_slice())
}

fn push_same_among(
    out: &mut Vec<u8>,
    domain: &TrustDomain,
    keys: &DomainEntries<'_>,
    entries: &[KeyEntry],
) -> Result<(), AllocError>
    ensures { OnOk result (out.new.items
        ≡ out.old.items ++ flat_map (same_key_lines domain.now keys.now) entries.now) }
{
    for entry in entries {
        push_same_key(out, domain, keys, entry)?;
    }
    Ok(())
}

fn push_same_key(
    out: &mut Vec<u8>,
    domain: &TrustDomain,
    keys: &DomainEntries<'_>,
    entry: &KeyEntry,
) -> Result<(), AllocError>
    ensures { OnOk result (out.new.items
        ≡ out.old.items ++ same_key_lines domain.now keys.now entry.now) }
{
    if keys.has_distrusted_key(entry) {
        push_same_key_in(out, domain, entry, entry.bundles.as_slice())?;
    }
    Ok(())
}

fn push_same_key_in(
    out: &mut Vec<u8>,
    domain: &TrustDomain,
    entry: &KeyEntry,
    bundles: &[DocId],
) -> Result<(), AllocError>
    ensures { OnOk result (out.new.items ≡ out.old.items
        ++ flat_map (same_key_line domain.now entry.now.key) bundles.now) }
{
    for bundle in bundles {
        push_same_key_line(out, domain, entry, bundle)?;
    }
    Ok(())
}

fn push_same_key_line(
    out: &mut Vec<u8>,
    domain: &TrustDomain,
    entry: &KeyEntry,
    bundle: &DocId,
) -> Result<(), AllocError>
    ensures { OnOk result (out.new.items
        ≡ out.old.items ++ same_key_line domain.now entry.now.key bundle.now) }
{
    push_id(out, b"same public key: ", &entry.key.0)?;
    push_labelled(out, b" of ", domain.as_str().as_bytes())?;
    push_id(out, b" in ", &bundle.0)?;
    push_closing(out, b"\n")?;
    Ok(())
}

fn keys_in(
    alloc: Global,
    form: KeysForm,
    chosen: Option<&TrustDomain>,
    all: &[DomainKeys],
) -> Result<Vec<u8>, AllocError>
    ensures { IfOk result (λ text. text.items ≡ keys_in form (option_copied chosen.entry) all.now) }
{
    match form {
        KeysForm::Lines => keys_lines(alloc, chosen, all),
        KeysForm::Json => keys_json(alloc, chosen, all),
    }
}

fn is_of_other(chosen: Option<&TrustDomain>, domain: &TrustDomain) -> bool
    ensures { result ≡ is_of_other (option_copied chosen.entry) domain.now }
{
    match chosen {
        Some(chosen) => domain.as_str() != chosen.as_str(),
        None => false,
    }
}

fn keys_lines(
    alloc: Global,
    chosen: Option<&TrustDomain>,
    all: &[DomainKeys],
) -> Result<Vec<u8>, AllocError>
    ensures { IfOk result (λ text. text.items
        ≡ flat_map (domain_lines (option_copied chosen.entry)) all.now) }
{
    let mut text = Vec::new(alloc);
    for keys in all {
        push_domain_lines(alloc, &mut text, chosen, keys)?;
    }
    Ok(text)
}

fn push_domain_lines(
    alloc: Global,
    out: &mut Vec<u8>,
    chosen: Option<&TrustDomain>,
    keys: &DomainKeys,
) -> Result<(), AllocError>
    ensures { OnOk result (out.new.items
        ≡ out.old.items ++ domain_lines (option_copied chosen.entry) keys.now) }
{
    if !is_of_other(chosen, &keys.domain) {
        let entries = DomainEntries::new(alloc, keys.keys.as_slice())?;
        push_key_lines(out, &keys.domain, &entries, keys.keys.as_slice())?;
    }
    Ok(())
}

fn push_key_lines(
    out: &mut Vec<u8>,
    domain: &TrustDomain,
    keys: &DomainEntries<'_>,
    entries: &[KeyEntry],
) -> Result<(), AllocError>
    ensures { OnOk result (out.new.items
        ≡ out.old.items ++ flat_map (known_key_line domain.now keys.now) entries.now) }
{
    for entry in entries {
        push_key_line(out, domain, keys, entry)?;
    }
    Ok(())
}

fn push_key_line(
    out: &mut Vec<u8>,
    domain: &TrustDomain,
    keys: &DomainEntries<'_>,
    entry: &KeyEntry,
) -> Result<(), AllocError>
    ensures { OnOk result (out.new.items
        ≡ out.old.items ++ known_key_line domain.now keys.now entry.now) }
{
    push_id(out, b"key ", &entry.key.0)?;
    push_labelled(out, b" domain ", domain.as_str().as_bytes())?;
    push_parts(out, &entry.parts)?;
    push_yes_or_no(out, b" distrusted ", entry.is_distrusted)?;
    push_yes_or_no(out, b" same-public-key ", keys.has_distrusted_key(entry))?;
    push_bundles(out, entry.bundles.as_slice())?;
    push_subject_end(out, &entry.parts)?;
    Ok(())
}

fn push_parts(out: &mut Vec<u8>, parts: &Option<KeyParts>) -> Result<(), AllocError>
    ensures { OnOk result (out.new.items ≡ out.old.items ++ parts_text parts.now) }
{
    match parts {
        Some(parts) => push_read_parts(out, parts),
        None => push_no_parts(out),
    }
}

fn push_read_parts(out: &mut Vec<u8>, parts: &KeyParts) -> Result<(), AllocError>
    ensures { OnOk result (out.new.items ≡ out.old.items ++ read_parts_text parts.now) }
{
    push_id(out, b" public-key ", &parts.public_key)?;
    push_labelled(out, b" from ", parts.valid_from.as_bytes())?;
    push_labelled(out, b" to ", parts.valid_until.as_bytes())?;
    Ok(())
}

#[tactic(auto, unfolding(crate::specs::KeysText::no_parts_text))]
fn push_no_parts(out: &mut Vec<u8>) -> Result<(), AllocError>
    ensures { OnOk result (out.new.items ≡ out.old.items ++ no_parts_text) }
{
    out.extend_from_slice(b" public-key none from none to none")
}

fn push_subject_end(out: &mut Vec<u8>, parts: &Option<KeyParts>) -> Result<(), AllocError>
    ensures { OnOk result (out.new.items ≡ out.old.items ++ subject_end (subject_of parts.now)) }
{
    match parts {
        Some(parts) => push_subject(out, &parts.subject),
        None => push_ending(out, b"none"),
    }
}

fn push_subject(out: &mut Vec<u8>, subject: &Option<String>) -> Result<(), AllocError>
    ensures { OnOk result (out.new.items
        ≡ out.old.items ++ subject_end (option_map string_bytes subject.now)) }
{
    match subject {
        Some(text) => push_subject_text(out, text.as_bytes()),
        None => push_ending(out, b"none"),
    }
}

fn push_subject_text(out: &mut Vec<u8>, text: &[u8]) -> Result<(), AllocError>
    ensures { OnOk result (out.new.items ≡ out.old.items ++ subject_end (Some text.now)) }
{
    if text.is_empty() {
        push_ending(out, b"empty")
    } else {
        push_ending(out, text)
    }
}

#[tactic(auto, unfolding(crate::specs::KeysText::subject_ending))]
fn push_ending(out: &mut Vec<u8>, words: &[u8]) -> Result<(), AllocError>
    ensures { OnOk result (out.new.items ≡ out.old.items ++ subject_ending words.now) }
{
    out.extend_from_slice(b" subject ")?;
    out.extend_from_slice(words)?;
    out.extend_from_slice(b"\n")
}

fn push_bundles(out: &mut Vec<u8>, bundles: &[DocId]) -> Result<(), AllocError>
    ensures { OnOk result (out.new.items ≡ out.old.items ++ bundles_text bundles.now) }
{
    if bundles.is_empty() {
        return out.extend_from_slice(b" bundles none");
    }
    push_labelled(out, b" bundles", b"")?;
    push_bundle_words(out, bundles)
}

fn push_bundle_words(out: &mut Vec<u8>, bundles: &[DocId]) -> Result<(), AllocError>
    ensures { OnOk result (out.new.items ≡ out.old.items ++ bundle_words bundles.now) }
{
    for bundle in bundles {
        push_id(out, b" ", &bundle.0)?;
    }
    Ok(())
}

fn push_yes_or_no(out: &mut Vec<u8>, label: &[u8], is_so: bool) -> Result<(), AllocError>
    ensures { OnOk result (out.new.items ≡ out.old.items ++ labelled label.now (yes_or_no is_so)) }
{
    if is_so {
        push_labelled(out, label, b"yes")
    } else {
        push_labelled(out, label, b"no")
    }
}

#[tactic(auto, unfolding(crate::specs::KeysText::closing))]
fn push_closing(out: &mut Vec<u8>, text: &[u8]) -> Result<(), AllocError>
    ensures { OnOk result (out.new.items ≡ out.old.items ++ closing text.now) }
{
    out.extend_from_slice(text)
}

#[tactic(auto, unfolding(crate::specs::KeysText::labelled))]
fn push_labelled(out: &mut Vec<u8>, label: &[u8], text: &[u8]) -> Result<(), AllocError>
    ensures { OnOk result (out.new.items ≡ out.old.items ++ labelled label.now text.now) }
{
    out.extend_from_slice(label)?;
    out.extend_from_slice(text)
}

#[tactic(auto, unfolding(crate::specs::KeysText::labelled))]
fn push_id(out: &mut Vec<u8>, label: &[u8], digest: &[u8; 32]) -> Result<(), AllocError>
    ensures { OnOk result (out.new.items
        ≡ out.old.items ++ labelled label.now (encode_lower digest.now)) }
{
    out.extend_from_slice(label)?;
    push_digits(out, digest)
}

#[tactic(auto, unfolding(crate::specs::KeysText::key_number))]
fn push_number(out: &mut Vec<u8>, label: &[u8], number: i64) -> Result<(), AllocError>
    ensures { OnOk result (out.new.items ≡ out.old.items ++ key_number label.now number) }
{
    let mut buffer = Buffer::new();
    out.extend_from_slice(label)?;
    out.extend_from_slice(buffer.format(number).as_bytes())
}

fn keys_json(
    alloc: Global,
    chosen: Option<&TrustDomain>,
    all: &[DomainKeys],
) -> Result<Vec<u8>, AllocError>
    ensures { IfOk result (λ text. text.items ≡ keys_json (option_copied chosen.entry) all.now) }
{
    let items = key_jsons(alloc, chosen, all)?;
    let mut text = Vec::new(alloc);
    push_array(&mut text, b"{\"keys\":", items.as_slice())?;
    text.extend_from_slice(b"}\n")?;
    Ok(text)
}

fn key_jsons(
    alloc: Global,
    chosen: Option<&TrustDomain>,
    all: &[DomainKeys],
) -> Result<Vec<TextLine>, AllocError>
    ensures { IfOk result (λ texts. texts.items
        ≡ flat_map (domain_jsons (option_copied chosen.entry)) all.now) }
{
    let mut texts = Vec::new(alloc);
    for keys in all {
        push_domain_jsons(alloc, &mut texts, chosen, keys)?;
    }
    Ok(texts)
}

fn push_domain_jsons(
    alloc: Global,
    texts: &mut Vec<TextLine>,
    chosen: Option<&TrustDomain>,
    keys: &DomainKeys,
) -> Result<(), AllocError>
    ensures { OnOk result (texts.new.items
        ≡ texts.old.items ++ domain_jsons (option_copied chosen.entry) keys.now) }
{
    if !is_of_other(chosen, &keys.domain) {
        let entries = DomainEntries::new(alloc, keys.keys.as_slice())?;
        push_key_jsons(alloc, texts, &keys.domain, &entries, keys.keys.as_slice())?;
    }
    Ok(())
}

fn push_key_jsons(
    alloc: Global,
    texts: &mut Vec<TextLine>,
    domain: &TrustDomain,
    keys: &DomainEntries<'_>,
    entries: &[KeyEntry],
) -> Result<(), AllocError>
    ensures { OnOk result (texts.new.items
        ≡ texts.old.items ++ map (known_key_json domain.now keys.now) entries.now) }
{
    for entry in entries {
        texts.push(known_key_json(alloc, domain, keys, entry)?)?;
    }
    Ok(())
}

fn known_key_json(
    alloc: Global,
    domain: &TrustDomain,
    keys: &DomainEntries<'_>,
    entry: &KeyEntry,
) -> Result<TextLine, AllocError>
    ensures { IfOk result (λ text. text ≡ known_key_json domain.now keys.now entry.now) }
{
    let mut text = Vec::new(alloc);
    push_digest(&mut text, b"{\"key\":", &entry.key.0)?;
    push_string(alloc, &mut text, b",\"domain\":", domain.as_str())?;
    push_parts_json(alloc, &mut text, &entry.parts)?;
    push_truth(&mut text, b",\"distrusted\":", entry.is_distrusted)?;
    push_truth(
        &mut text,
        b",\"same_public_key\":",
        keys.has_distrusted_key(entry),
    )?;
    push_bundles_json(alloc, &mut text, entry.bundles.as_slice())?;
    push_closing(&mut text, b"}")?;
    Ok(TextLine::new(text))
}

fn push_parts_json(
    alloc: Global,
    out: &mut Vec<u8>,
    parts: &Option<KeyParts>,
) -> Result<(), AllocError>
    ensures { OnOk result (out.new.items ≡ out.old.items ++ parts_json parts.now) }
{
    match parts {
        Some(parts) => push_read_parts_json(alloc, out, parts),
        None => push_no_parts_json(out),
    }
}

fn push_read_parts_json(
    alloc: Global,
    out: &mut Vec<u8>,
    parts: &KeyParts,
) -> Result<(), AllocError>
    ensures { OnOk result (out.new.items ≡ out.old.items ++ read_parts_json parts.now) }
{
    push_digest(out, b",\"public_key\":", &parts.public_key)?;
    push_number(out, b",\"not_before\":", parts.not_before)?;
    push_number(out, b",\"not_after\":", parts.not_after)?;
    push_texts_json(alloc, out, parts)?;
    Ok(())
}

fn push_texts_json(alloc: Global, out: &mut Vec<u8>, parts: &KeyParts) -> Result<(), AllocError>
    ensures { OnOk result (out.new.items ≡ out.old.items ++ texts_json parts.now) }
{
    push_string(alloc, out, b",\"valid_from\":", parts.valid_from.as_str())?;
    push_string(alloc, out, b",\"valid_until\":", parts.valid_until.as_str())?;
    push_subject_json(alloc, out, &parts.subject)?;
    Ok(())
}

fn push_subject_json(
    alloc: Global,
    out: &mut Vec<u8>,
    subject: &Option<String>,
) -> Result<(), AllocError>
    ensures { OnOk result (out.new.items
        ≡ out.old.items ++ subject_json (option_map string_bytes subject.now)) }
{
    match subject {
        Some(text) => push_string(alloc, out, b",\"subject\":", text.as_str()),
        None => push_no_subject_json(out),
    }
}

#[tactic(auto, unfolding(crate::specs::KeysText::no_subject_json))]
fn push_no_subject_json(out: &mut Vec<u8>) -> Result<(), AllocError>
    ensures { OnOk result (out.new.items ≡ out.old.items ++ no_subject_json) }
{
    out.extend_from_slice(b",\"subject\":null")
}

#[tactic(auto, unfolding(crate::specs::KeysText::no_parts_json))]
fn push_no_parts_json(out: &mut Vec<u8>) -> Result<(), AllocError>
    ensures { OnOk result (out.new.items ≡ out.old.items ++ no_parts_json) }
{
    out.extend_from_slice(b",\"public_key\":null,\"not_before\":null,\"not_after\":null")?;
    out.extend_from_slice(b",\"valid_from\":null,\"valid_until\":null,\"subject\":null")
}

fn push_bundles_json(alloc: Global, out: &mut Vec<u8>, bundles: &[DocId]) -> Result<(), AllocError>
    ensures { OnOk result (out.new.items ≡ out.old.items
        ++ array_member (codes ",\"bundles\":") (map quoted_id bundles.now)) }
{
    let ids = quoted_ids(alloc, bundles)?;
    push_array(out, b",\"bundles\":", ids.as_slice())
}

fn quoted_ids(alloc: Global, bundles: &[DocId]) -> Result<Vec<TextLine>, AllocError>
    ensures { IfOk result (λ texts. texts.items ≡ map quoted_id bundles.now) }
{
    let mut texts = Vec::new(alloc);
    for bundle in bundles {
        texts.push(quoted_id(alloc, bundle)?)?;
    }
    Ok(texts)
}

fn quoted_id(alloc: Global, bundle: &DocId) -> Result<TextLine, AllocError>
    ensures { IfOk result (λ text. text ≡ quoted_id bundle.now) }
{
    let mut text = Vec::new(alloc);
    push_digest(&mut text, b"", &bundle.0)?;
    Ok(TextLine::new(text))
}
