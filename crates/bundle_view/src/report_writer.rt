//! The report: what a replica accepts, as a text, which is rendered whole before it is written.
ghost use Rattle.std.specs.Prelude.{◌≡◌, ◌++◌, ◌||◌, true, List, map, length, IfOk, OnOk, Err};
ghost use Rattle.std.specs.Prelude.{codes, flat_map, option_copied};
ghost use Rattle.bundle_view.specs.Conflicts.{reported_by};
ghost use Rattle.bundle_view.specs.Report.{IsReport, WritesReport, BeginsReport, accepted_line};
ghost use Rattle.bundle_view.specs.Report.{conflict_line, current_line, reported_distrust_line};
ghost use Rattle.bundle_view.specs.Report.{document_text, head_text, id_text, kind_text};
ghost use Rattle.bundle_view.specs.Report.{is_report_fault, records_of, sequence_text};
ghost use Rattle.bundle_view.specs.Inside.Sections.{AddsSection, HasReportHead};
ghost use Rattle.bundle_view.specs.declared.error.ReportError.TheVariants.{Io, NoMemory};

use crate::conflict::{Conflict, ConflictKind, add_conflicts};
use crate::error::ReportError;
use crate::listed::{Listed, list_accepted};
use bundle_doc::DocId;
use byte_lines::{Sink, push_digits, push_number, write_all};
use closure_core::Closure;
use spiffe_name::TrustDomain;
use std::alloc::{AllocError, Global};

/// Writes the report: a line `config` with the configuration's digest; a line with the numbers of
/// receipts and of pending ones; and for each domain of the configuration, in order, a line
/// `domain`, one for its current document, one for each accepted document, one for each conflict
/// and one for each distrusted key. So the text depends only on the configuration, the set of
/// receipts and the set of records of distrust.
///
/// All memory is taken before the first byte is written.
///
/// # Errors
/// - [`ReportError::Io`]: the sink failed, and holds a beginning of the report.
/// - [`ReportError::NoMemory`]: memory ran out. Nothing was written.
pub fn write_report<C: Closure, W: Sink>(
    alloc: Global,
    closure: &C,
    sink: &mut W,
) -> Result<(), ReportError>
    ensures ok { OnOk result
        (WritesReport (C.state closure.now).meaning (W.contents sink.old) (W.contents sink.new)) }
    ensures io { result ≡ Err Io
        → (W.has_failed sink.new ≡ true)
        × BeginsReport (C.state closure.now).meaning (W.contents sink.old) (W.contents sink.new) }
    ensures memory { result ≡ Err NoMemory → sink.new ≡ sink.old }
    ensures fault { W.has_failed sink.new ≡ (is_report_fault result || W.has_failed sink.old) }
{
    let text = render(alloc, closure)?;
    write_all(sink, text.as_slice())?;
    Ok(())
}

fn render<C: Closure>(alloc: Global, closure: &C) -> Result<Vec<u8>, AllocError>
    ensures { IfOk result (λ text. IsReport (C.state closure.now).meaning text.items) }
{
    let mut out = Vec::new(alloc);
    push_head(&mut out, closure)?;
    for domain in closure.config().domains() {
        push_section(alloc, &mut out, closure, domain)?;
    }
    Ok(out)
}

fn push_head<C: Closure>(out: &mut Vec<u8>, closure: &C) -> Result<(), AllocError>
    ensures { OnOk result (HasReportHead (C.state closure.now).meaning out.old.items
        out.new.items) }
{
    out.extend_from_slice(b"config ")?;
    push_digits(out, &closure.config().digest().0)?;
    out.extend_from_slice(b"\nreceipts ")?;
    push_number(out, closure.receipt_count() as u64)?;
    out.extend_from_slice(b" pending ")?;
    push_number(out, closure.pending_count() as u64)?;
    out.extend_from_slice(b"\n")?;
    Ok(())
}

fn push_section<C: Closure>(
    alloc: Global,
    out: &mut Vec<u8>,
    closure: &C,
    domain: &TrustDomain,
) -> Result<(), AllocError>
    ensures { OnOk result (AddsSection (C.state closure.now).meaning domain.now out.old.items
        out.new.items) }
{
    let documents = list_accepted(alloc, closure, domain)?;
    let mut conflicts = Vec::new(alloc);
    add_conflicts(alloc, domain, documents.as_slice(), &mut conflicts)?;
    push_domain(out, domain)?;
    push_current(out, domain, documents.as_slice().last())?;
    push_accepted(out, domain, documents.as_slice())?;
    push_conflicts(out, conflicts.as_slice())?;
    push_distrusts(out, closure, domain)?;
    Ok(())
}

fn push_domain(out: &mut Vec<u8>, domain: &TrustDomain) -> Result<(), AllocError>
    ensures { OnOk result (out.new.items
        ≡ out.old.items ++ (codes "domain " ++ (domain.now ++ codes "\n"))) }
{
    out.extend_from_slice(b"domain ")?;
    out.extend_from_slice(domain.as_str().as_bytes())?;
    out.extend_from_slice(b"\n")
}

fn push_current(
    out: &mut Vec<u8>,
    domain: &TrustDomain,
    listed: Option<&Listed>,
) -> Result<(), AllocError>
    ensures { OnOk result (out.new.items
        ≡ out.old.items ++ current_line domain.now (option_copied listed.entry)) }
{
    match listed {
        Some(listed) => {
            out.extend_from_slice(b"  current ")?;
            push_document(out, domain, listed)?;
            out.extend_from_slice(b"\n")
        }
        None => out.extend_from_slice(b"  current none\n"),
    }
}

fn push_accepted(
    out: &mut Vec<u8>,
    domain: &TrustDomain,
    documents: &[Listed],
) -> Result<(), AllocError>
    ensures { OnOk result (out.new.items
        ≡ out.old.items ++ flat_map (accepted_line domain.now) documents.now) }
{
    for listed in documents {
        push_accepted_line(out, domain, listed)?;
    }
    Ok(())
}

fn push_accepted_line(
    out: &mut Vec<u8>,
    domain: &TrustDomain,
    listed: &Listed,
) -> Result<(), AllocError>
    ensures { OnOk result (out.new.items ≡ out.old.items ++ accepted_line domain.now listed.now) }
{
    out.extend_from_slice(b"  accepted ")?;
    push_document(out, domain, listed)?;
    out.extend_from_slice(b" authorities ")?;
    push_number(out, listed.document().authorities().len() as u64)?;
    out.extend_from_slice(b"\n")?;
    Ok(())
}

fn push_document(out: &mut Vec<u8>, domain: &TrustDomain, listed: &Listed) -> Result<(), AllocError>
    ensures { OnOk result (out.new.items ≡ out.old.items ++ document_text domain.now listed.now) }
{
    push_digits(out, &listed.id(domain).0)?;
    out.extend_from_slice(b" sequence ")?;
    match listed.document().rank() {
        Some(sequence) => push_number(out, sequence)?,
        None => out.extend_from_slice(b"none")?,
    }
    Ok(())
}

fn push_conflicts(out: &mut Vec<u8>, conflicts: &[Conflict]) -> Result<(), AllocError>
    ensures { OnOk result (out.new.items
        ≡ out.old.items ++ flat_map conflict_line (map reported_by conflicts.now)) }
{
    for conflict in conflicts {
        push_conflict(out, conflict)?;
    }
    Ok(())
}

fn push_conflict(out: &mut Vec<u8>, conflict: &Conflict) -> Result<(), AllocError>
    ensures { OnOk result (out.new.items
        ≡ out.old.items ++ conflict_line (reported_by conflict.now)) }
{
    out.extend_from_slice(b"  conflict ")?;
    push_number(out, conflict.sequence)?;
    push_kind(out, conflict.kind)?;
    push_ids(out, conflict.documents.as_slice())?;
    out.extend_from_slice(b"\n")
}

fn push_kind(out: &mut Vec<u8>, kind: ConflictKind) -> Result<(), AllocError>
    ensures { OnOk result (out.new.items ≡ out.old.items ++ kind_text kind) }
{
    match kind {
        ConflictKind::Keys => out.extend_from_slice(b" keys"),
        ConflictKind::HintOnly => out.extend_from_slice(b" hint"),
    }
}

fn push_ids(out: &mut Vec<u8>, ids: &[DocId]) -> Result<(), AllocError>
    ensures { OnOk result (out.new.items ≡ out.old.items ++ flat_map id_text ids.now) }
{
    for id in ids {
        out.extend_from_slice(b" ")?;
        push_digits(out, &id.0)?;
    }
    Ok(())
}

fn push_distrusts<C: Closure>(
    out: &mut Vec<u8>,
    closure: &C,
    domain: &TrustDomain,
) -> Result<(), AllocError>
    ensures { OnOk result (out.new.items
        ≡ out.old.items ++ flat_map reported_distrust_line
        (records_of domain.now (C.state closure.now).meaning.records)) }
{
    for (of, key) in closure.distrusts() {
        if of.as_str() == domain.as_str() {
            out.extend_from_slice(b"  distrust ")?;
            push_digits(out, &key.0)?;
            out.extend_from_slice(b"\n")?;
        }
    }
    Ok(())
}
