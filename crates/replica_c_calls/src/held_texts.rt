//! What a replica holds and accepts, as texts.
ghost use Rattle.std.specs.Prelude.{◌≡◌, ◌++◌, flat_map, IfErr, IfOk, MatchOption, OnOk};
ghost use Rattle.std.specs.Prelude.{MatchResult};
ghost use Rattle.replica_texts.specs.WrittenSnapshot.{written_snapshot};
ghost use Rattle.bundle_view.specs.Report.{IsReport};
ghost use Rattle.receipt_core.specs.Acceptance.{IsMember};
ghost use Rattle.closure_core.specs.AcceptedList.{document_of};
ghost use Rattle.replica_texts.specs.Messages.{receipt_text};
ghost use Rattle.replica_c_calls.specs.Texts.{HasNoCurrentBundle, IsCurrentBundle, bundle_line};
ghost use Rattle.replica_c_calls.specs.Texts.{HasChainText, IsNotAccepted, RefusesDocumentBytes};
ghost use Rattle.replica_c_calls.specs.Texts.{ExplainsBy};
ghost use Rattle.replica_c_calls.specs.CallErrors.{IsWantOfMemory, RefusesDomainText};

use crate::call_error::CallError;
use crate::growing_sink::GrowingSink;
use crate::named_bytes::domain_of;
use bundle_doc::Document;
use bundle_view::{current, explain, write_report};
use closure_core::Closure;
use receipt_core::Receipt;
use replica_sync::write_snapshot;
use spiffe_name::TrustDomain;
use std::alloc::{AllocError, Global};

/// The report of what is accepted.
///
/// # Errors
/// Memory ran out.
pub fn report_bytes<C: Closure>(alloc: Global, closure: &C) -> Result<Vec<u8>, CallError>
    ensures ok { IfOk result (λ text. IsReport (C.state closure.now).meaning text.items) }
    ensures refused { IfErr result IsWantOfMemory }
{
    let mut sink = GrowingSink::new(alloc);
    match write_report(alloc, closure, &mut sink) {
        Ok(()) => Ok(sink.into_text()),
        Err(_) => Err(CallError::NoMemory),
    }
}

/// The snapshot of what is held.
///
/// # Errors
/// Memory ran out.
pub fn snapshot_bytes<C: Closure>(alloc: Global, closure: &C) -> Result<Vec<u8>, CallError>
    ensures ok { IfOk result
        (λ text. text.items ≡ written_snapshot (C.state closure.now).meaning) }
    ensures refused { IfErr result IsWantOfMemory }
{
    let mut sink = GrowingSink::new(alloc);
    match write_snapshot(alloc, closure, &mut sink) {
        Ok(()) => Ok(sink.into_text()),
        Err(_) => Err(CallError::NoMemory),
    }
}

/// The canonical text of the current document of the domain with this name, with a line feed.
/// `None` if none is accepted.
///
/// # Errors
/// - [`CallError::Usage`], [`CallError::Name`]: the bytes are not a domain's name,
/// - [`CallError::NoMemory`]: memory ran out.
pub fn current_bytes<C: Closure>(
    alloc: Global,
    closure: &C,
    domain: &[u8],
) -> Result<Option<Vec<u8>>, CallError>
    ensures { MatchResult result
        (λ found. MatchOption found
        (HasNoCurrentBundle (C.state closure.now).meaning domain.now)
        (λ text. IsCurrentBundle (C.state closure.now).meaning domain.now text.items))
        (RefusesDomainText domain.now) }
{
    let domain = domain_of(alloc, domain)?;
    match current(closure, &domain) {
        Some(document) => Ok(Some(canonical_line(alloc, document)?)),
        None => Ok(None),
    }
}

fn canonical_line(alloc: Global, document: &Document) -> Result<Vec<u8>, AllocError>
    ensures { IfOk result (λ text. text.items ≡ bundle_line document.now) }
{
    let mut text = Vec::from_slice(alloc, document.canonical())?;
    text.push(b'\n')?;
    Ok(text)
}

/// Why the document is accepted as one of the domain with this name: the lines of the receipts of a
/// shortest chain from a configured document to it, none for a configured one. `None` if it is not
/// accepted.
///
/// # Errors
/// The first of these that holds:
/// - [`CallError::Usage`], [`CallError::Name`]: the bytes are not a domain's name,
/// - [`CallError::Document`]: they are not a document,
/// - [`CallError::NoMemory`]: memory ran out.
pub fn explain_bytes<C: Closure>(
    alloc: Global,
    closure: &C,
    domain: &[u8],
    document: &[u8],
) -> Result<Option<Vec<u8>>, CallError>
    ensures { MatchResult result
        (λ found. MatchOption found
        (IsNotAccepted (C.state closure.now).meaning domain.now document.now)
        (λ text. HasChainText (C.state closure.now).meaning domain.now document.now text.items))
        (RefusesDocumentBytes domain.now document.now) }
{
    let domain = domain_of(alloc, domain)?;
    let document = Document::read(alloc, document)?;
    Ok(chain_text(alloc, closure, &domain, &document)?)
}

// The lines of a shortest chain to the document, if it is accepted.
fn chain_text<C: Closure>(
    alloc: Global,
    closure: &C,
    domain: &TrustDomain,
    document: &Document,
) -> Result<Option<Vec<u8>>, AllocError>
    ensures { IfOk result (λ found. MatchOption found
        (IsMember (C.state closure.now).meaning (document_of domain.now document.now) → ⊥)
        (λ text. ExplainsBy (C.state closure.now).meaning (document_of domain.now document.now)
        text.items)) }
{
    let Some(chain) = explain(alloc, closure, domain, document)? else {
        return Ok(None);
    };
    Ok(Some(chain_lines(alloc, chain.as_slice())?))
}

fn chain_lines(alloc: Global, chain: &[Receipt]) -> Result<Vec<u8>, AllocError>
    ensures { IfOk result (λ text. text.items ≡ flat_map receipt_text chain.now) }
{
    let mut text = Vec::new(alloc);
    'chain: for receipt in chain {
        push_line(alloc, &mut text, receipt)?;
    }
    Ok(text)
}

fn push_line(alloc: Global, text: &mut Vec<u8>, receipt: &Receipt) -> Result<(), AllocError>
    ensures { OnOk result (text.new.items ≡ text.old.items ++ receipt_text receipt.now) }
{
    let line = ended_line(alloc, receipt)?;
    text.extend_from_slice(line.as_slice())
}

/// A receipt's line, with its line feed.
pub(crate) fn ended_line(alloc: Global, receipt: &Receipt) -> Result<Vec<u8>, AllocError>
    ensures { IfOk result (λ text. text.items ≡ receipt_text receipt.now) }
{
    let mut text = receipt.write_line(alloc)?;
    text.push(b'\n')?;
    Ok(text)
}
