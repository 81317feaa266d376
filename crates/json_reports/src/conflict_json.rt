//! Conflicts as compact JSON.
ghost use Rattle.std.specs.Prelude.{◌≡◌, ◌++◌, map, IfOk, OnOk};
ghost use Rattle.bundle_view.specs.Conflicts.{reported_by};
ghost use Rattle.json_reports.specs.ReportJson.{conflict_json, conflict_members, id_json};
ghost use Rattle.json_reports.specs.ReportJson.{kind_member};

use bundle_doc::DocId;
use bundle_view::{Conflict, ConflictKind};
use json_text::{push_array, push_digest, push_optional, push_string};
use std::alloc::{AllocError, Global};
use text_lines::TextLine;

/// The texts of the conflicts.
pub(crate) fn conflict_texts(
    alloc: Global,
    conflicts: &[Conflict],
) -> Result<Vec<TextLine>, AllocError>
    ensures { IfOk result (λ texts. texts.items
        ≡ map conflict_json (map reported_by conflicts.now)) }
{
    let mut texts = Vec::new(alloc);
    for conflict in conflicts {
        texts.push(conflict_text(alloc, conflict)?)?;
    }
    Ok(texts)
}

fn conflict_text(alloc: Global, conflict: &Conflict) -> Result<TextLine, AllocError>
    ensures { IfOk result (λ text. text ≡ conflict_json (reported_by conflict.now)) }
{
    let documents = id_texts(alloc, conflict.documents.as_slice())?;
    let mut text = Vec::new(alloc);
    push_conflict_members(alloc, &mut text, conflict)?;
    push_array(&mut text, b",\"documents\":", documents.as_slice())?;
    text.extend_from_slice(b"}")?;
    Ok(TextLine::new(text))
}

#[tactic(auto, unfolding(crate::specs::ReportJson::conflict_members))]
fn push_conflict_members(
    alloc: Global,
    out: &mut Vec<u8>,
    conflict: &Conflict,
) -> Result<(), AllocError>
    ensures { OnOk result (out.new.items
        ≡ out.old.items ++ conflict_members (reported_by conflict.now)) }
{
    push_string(alloc, out, b"{\"domain\":", conflict.domain.as_str())?;
    push_optional(out, b",\"sequence\":", Some(conflict.sequence))?;
    out.extend_from_slice(kind_member(conflict.kind).as_bytes())
}

fn kind_member(kind: ConflictKind) -> &'static str
    ensures { result.now ≡ kind_member kind }
{
    match kind {
        ConflictKind::Keys => ",\"kind\":\"keys\"",
        ConflictKind::HintOnly => ",\"kind\":\"hint\"",
    }
}

fn id_texts(alloc: Global, ids: &[DocId]) -> Result<Vec<TextLine>, AllocError>
    ensures { IfOk result (λ texts. texts.items ≡ map id_json ids.now) }
{
    let mut texts = Vec::new(alloc);
    for id in ids {
        texts.push(id_text(alloc, id)?)?;
    }
    Ok(texts)
}

fn id_text(alloc: Global, id: &DocId) -> Result<TextLine, AllocError>
    ensures { IfOk result (λ text. text ≡ id_json id.now) }
{
    let mut text = Vec::new(alloc);
    push_digest(&mut text, b"", &id.0)?;
    Ok(TextLine::new(text))
}
