//! The report as compact JSON, which is made whole before it is written.
ghost use Rattle.std.specs.Prelude.{◌≡◌, ◌++◌, ◌||◌, true, map, Err, IfOk, OnOk};
ghost use Rattle.byte_lines.specs.Device.{is_source_fault};
ghost use Rattle.byte_lines.specs.declared.error.DeviceError.TheVariants.{Io, NoMemory};
ghost use Rattle.text_lines.specs.TextLines.{BeginsSome, WritesSome};
ghost use Rattle.replica_view.specs.HeldJson.{held_record_json};
ghost use Rattle.json_reports.specs.ReportJson.{IsReportJson, report_lists};
ghost use Rattle.json_reports.specs.Inside.ReportParts.{HasReportCounts};

use crate::accepted_json::domain_texts;
use crate::conflict_json::conflict_texts;
use bundle_view::conflicts;
use byte_lines::{DeviceError, Sink, write_all};
use closure_core::Closure;
use json_text::{push_array, push_digest, push_optional};
use replica_view::record_json;
use std::alloc::{AllocError, Global};
use text_lines::TextLine;

/// Writes what a replica accepts as a compact JSON object, whose members are in this order, and a
/// line feed:
///
/// | Member | What it has |
/// |---|---|
/// | `config` | the configuration's digest |
/// | `receipts`, `pending` | how many receipts are held, and how many of these are pending |
/// | `domains` | `domain`, `current` and `accepted` of each trust domain of the configuration,
/// sorted |
/// | `conflicts` | `domain`, `sequence`, `kind` and `documents` of each conflict
/// ([`bundle_view::conflicts`]); `kind` is `keys` or `hint`, and `documents` has ids |
/// | `records` | `distrust` with the key's id, and `domain`, of each record of distrust |
///
/// `current` is `null` if no document of the domain is accepted; else it has `document` with the id
/// of the current document, and `sequence`, which is `null` if it is absent. `accepted` has the
/// same two members for each accepted document, in their order, and `authorities` with how many it
/// has.
///
/// The text depends only on the configuration, the set of receipts and the set of records of
/// distrust. All memory is taken before the first byte is written.
///
/// # Errors
/// - [`DeviceError::Io`]: the sink failed, and holds a beginning of the text.
/// - [`DeviceError::NoMemory`]: memory ran out. Nothing was written.
pub fn write_report_json<C: Closure, W: Sink>(
    alloc: Global,
    closure: &C,
    sink: &mut W,
) -> Result<(), DeviceError>
    ensures ok { OnOk result (WritesSome (IsReportJson (C.state closure.now).meaning)
        (W.contents sink.old) (W.contents sink.new)) }
    ensures io { result ≡ Err Io → (W.has_failed sink.new ≡ true)
        × BeginsSome (IsReportJson (C.state closure.now).meaning) (W.contents sink.old)
        (W.contents sink.new) }
    ensures memory { result ≡ Err NoMemory → sink.new ≡ sink.old }
    ensures fault { W.has_failed sink.new ≡ (is_source_fault result || W.has_failed sink.old) }
{
    let text = report_json(alloc, closure)?;
    write_all(sink, text.as_slice())?;
    Ok(())
}

fn report_json<C: Closure>(alloc: Global, closure: &C) -> Result<Vec<u8>, AllocError>
    ensures { IfOk result (λ text. IsReportJson (C.state closure.now).meaning text.items) }
{
    let accepted = domain_texts(alloc, closure, closure.config().domains())?;
    let found = conflicts(alloc, closure)?;
    let clashes = conflict_texts(alloc, found.as_slice())?;
    let records = record_texts(alloc, closure)?;
    let mut out = Vec::new(alloc);
    push_report_counts(&mut out, closure)?;
    push_report_lists(
        &mut out,
        accepted.as_slice(),
        clashes.as_slice(),
        records.as_slice(),
    )?;
    Ok(out)
}

fn push_report_counts<C: Closure>(out: &mut Vec<u8>, closure: &C) -> Result<(), AllocError>
    ensures { OnOk result (HasReportCounts (C.state closure.now).meaning out.old.items
        out.new.items) }
{
    push_digest(out, b"{\"config\":", &closure.config().digest().0)?;
    push_optional(out, b",\"receipts\":", Some(closure.receipt_count() as u64))?;
    push_optional(out, b",\"pending\":", Some(closure.pending_count() as u64))?;
    Ok(())
}

#[tactic(auto, unfolding(crate::specs::ReportJson::report_lists))]
fn push_report_lists(
    out: &mut Vec<u8>,
    domains: &[TextLine],
    conflicts: &[TextLine],
    records: &[TextLine],
) -> Result<(), AllocError>
    ensures { OnOk result (out.new.items
        ≡ out.old.items ++ report_lists domains.now conflicts.now records.now) }
{
    push_array(out, b",\"domains\":", domains)?;
    push_array(out, b",\"conflicts\":", conflicts)?;
    push_array(out, b",\"records\":", records)?;
    out.extend_from_slice(b"}\n")?;
    Ok(())
}

fn record_texts<C: Closure>(alloc: Global, closure: &C) -> Result<Vec<TextLine>, AllocError>
    ensures { IfOk result (λ texts. texts.items
        ≡ map held_record_json (C.state closure.now).meaning.records) }
{
    let mut texts = Vec::new(alloc);
    for (domain, key) in closure.distrusts() {
        texts.push(record_json(alloc, domain, key)?)?;
    }
    Ok(texts)
}
