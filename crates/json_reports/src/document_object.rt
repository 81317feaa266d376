//! A bundle document as compact JSON.
ghost use Rattle.std.specs.Prelude.{◌≡◌, ◌++◌, [], IfOk, OnOk};
ghost use Rattle.json_text.specs.JsonText.{digest_member};
ghost use Rattle.json_reports.specs.DocumentJson.{bundle_member, document_json, id_members};
ghost use Rattle.json_reports.specs.DocumentJson.{key_texts, key_texts_of};

use bundle_doc::Document;
use json_text::{push_array, push_digest, push_optional};
use jwk_set::{Authority, KeyId};
use spiffe_name::TrustDomain;
use std::alloc::{AllocError, Global};
use text_lines::TextLine;

/// The document, as one of this domain, as a compact JSON object, whose members are in this order,
/// and a line feed:
///
/// | Member | What it has |
/// |---|---|
/// | `document` | the document's id |
/// | `sequence`, `refresh_hint` | its numbers, each `null` if it is absent |
/// | `keys` | the key id of each X.509 authority, in the order of the canonical text |
/// | `bundle` | the canonical text, which is JSON itself |
///
/// # Errors
/// Memory ran out.
pub fn document_json(
    alloc: Global,
    domain: &TrustDomain,
    document: &Document,
) -> Result<Vec<u8>, AllocError>
    ensures { IfOk result (λ text. text.items ≡ document_json domain.now document.now) }
{
    let keys = key_texts(alloc, document.authorities())?;
    let mut out = Vec::new(alloc);
    push_id_members(&mut out, domain, document)?;
    push_array(&mut out, b",\"keys\":", keys.as_slice())?;
    push_bundle_member(&mut out, document)?;
    Ok(out)
}

#[tactic(auto, unfolding(crate::specs::DocumentJson::id_members))]
fn push_id_members(
    out: &mut Vec<u8>,
    domain: &TrustDomain,
    document: &Document,
) -> Result<(), AllocError>
    ensures { OnOk result (out.new.items ≡ out.old.items ++ id_members domain.now document.now) }
{
    push_digest(out, b"{\"document\":", &document.id(domain).0)?;
    push_optional(out, b",\"sequence\":", document.rank())?;
    push_optional(out, b",\"refresh_hint\":", document.hint())
}

#[tactic(auto, unfolding(crate::specs::DocumentJson::bundle_member))]
fn push_bundle_member(out: &mut Vec<u8>, document: &Document) -> Result<(), AllocError>
    ensures { OnOk result (out.new.items ≡ out.old.items ++ bundle_member document.now) }
{
    out.extend_from_slice(b",\"bundle\":")?;
    out.extend_from_slice(document.canonical())?;
    out.extend_from_slice(b"}\n")
}

fn key_texts(alloc: Global, authorities: &[Authority]) -> Result<Vec<TextLine>, AllocError>
    ensures { IfOk result (λ texts. texts.items ≡ key_texts authorities.now) }
{
    let mut texts = Vec::new(alloc);
    for authority in authorities {
        push_key_text(alloc, &mut texts, authority)?;
    }
    Ok(texts)
}

fn push_key_text(
    alloc: Global,
    texts: &mut Vec<TextLine>,
    authority: &Authority,
) -> Result<(), AllocError>
    ensures { OnOk result (texts.new.items ≡ texts.old.items ++ key_texts_of authority.now) }
{
    if let Some(key) = authority.key_id() {
        texts.push(key_text(alloc, &key)?)?;
    }
    Ok(())
}

fn key_text(alloc: Global, key: &KeyId) -> Result<TextLine, AllocError>
    ensures { IfOk result (λ text. text ≡ digest_member [] key.now.0) }
{
    let mut text = Vec::new(alloc);
    push_digest(&mut text, b"", &key.0)?;
    Ok(TextLine::new(text))
}
