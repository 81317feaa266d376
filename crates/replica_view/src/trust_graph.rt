//! Which document vouches for which, as a graph.
ghost use Rattle.std.specs.Prelude.{◌≡◌, ◌||◌, true, Contains, Err, IfOk, OnOk, option_copied};
ghost use Rattle.byte_lines.specs.Device.{is_source_fault};
ghost use Rattle.byte_lines.specs.declared.error.DeviceError.TheVariants.{Io, NoMemory};
ghost use Rattle.text_lines.specs.TextLines.{BeginsSome, WritesSome};
ghost use Rattle.replica_view.specs.HeldTexts.{IsReceiptOfOther};
ghost use Rattle.replica_view.specs.TrustGraph.{AreGraphLines, IsGraphText};
ghost use Rattle.replica_view.specs.TrustGraph.{IsPassedReceipt, IsPassedSeed, ShowsBrought};
ghost use Rattle.replica_view.specs.TrustGraph.{ShowsConfigured, ShowsCurrent, ShowsEdge};
ghost use Rattle.replica_view.specs.TrustGraph.{graph_head};
ghost use Rattle.replica_view.specs.Inside.GraphParts.{AddsCurrents, IsWholeGraph, ShowsPart};
ghost use Rattle.replica_view.specs.Inside.MadeLines.{AddsLinesFor, PushesLine};
ghost use Rattle.replica_view.specs.Inside.Offered.{IsOfferSet};
ghost use Rattle.replica_view.specs.Inside.ShownVouchers.{IsVoucherSet};

use crate::graph_lines::{brought_line, configured_line, current_line, edge_line, voucher_line};
use crate::listing::is_left_aside;
use crate::offered::offer_set;
use crate::receipt_status::status_of;
use crate::shown_vouchers::{is_domain_passed, is_receipt_passed, is_seed_passed, voucher_set};
use bundle_doc::DocId;
use bundle_view::current;
use byte_lines::{DeviceError, Sink};
use closure_core::Closure;
use fed_config::Seed;
use receipt_core::{Receipt, Triple};
use spiffe_name::TrustDomain;
use std::alloc::{AllocError, Global};
use std::collections::BTreeSet;
use text_lines::{TextLine, write_lines};

/// What is shown of a receipt.
#[derive(Clone, Copy, Debug, PartialEq, Eq)]
pub(crate) enum GraphPart {
    /// The document that vouches for it.
    Voucher,
    /// From that one to the document that it brought.
    Edge,
}

/// Writes which document vouches for which, as a graph in Graphviz's language DOT. With a domain it
/// has the receipts that brought a document of it, the documents that vouch for these receipts, and
/// the configured documents and the current one of the domain. Each document that it has is shown
/// as what it is, also one of another domain.
///
/// | In the graph | What it is |
/// |---|---|
/// | a box | a document, with its domain, its sequence number and the first eight digits of its
/// id; without a sequence number if a receipt names it and nothing brought it |
/// | a box with two borders | a configured document |
/// | a bold box | the current document of its domain |
/// | an arrow | a receipt, from the document that vouches for it to the one that it brought, with
/// the first eight digits of its key's id |
/// | a dashed arrow | a pending receipt ([`crate::ReceiptStatus`]) |
/// | a red arrow | a receipt whose key is distrusted |
///
/// The nodes come before the arrows, and receipts in the order of their lines. So the text depends
/// only on the configuration, the receipts and the records of distrust. The work and the memory
/// grow as those of [`crate::write_held`]. All memory is taken before the first byte is written.
///
/// # Errors
/// - [`DeviceError::Io`]: the sink failed, and holds a beginning of the text.
/// - [`DeviceError::NoMemory`]: memory ran out. Nothing was written.
pub fn write_graph<C: Closure, W: Sink>(
    alloc: Global,
    closure: &C,
    chosen: Option<&TrustDomain>,
    sink: &mut W,
) -> Result<(), DeviceError>
    ensures ok { OnOk result
        (WritesSome (IsGraphText (C.state closure.now).meaning (option_copied chosen.entry))
        (W.contents sink.old) (W.contents sink.new)) }
    ensures io { result ≡ Err Io → (W.has_failed sink.new ≡ true)
        × BeginsSome (IsGraphText (C.state closure.now).meaning (option_copied chosen.entry))
        (W.contents sink.old) (W.contents sink.new) }
    ensures memory { result ≡ Err NoMemory → sink.new ≡ sink.old }
    ensures fault { W.has_failed sink.new ≡ (is_source_fault result || W.has_failed sink.old) }
{
    let lines = whole_graph(alloc, closure, chosen)?;
    write_lines(alloc, lines.as_slice(), sink)
}

fn whole_graph<C: Closure>(
    alloc: Global,
    closure: &C,
    chosen: Option<&TrustDomain>,
) -> Result<Vec<TextLine>, AllocError>
    ensures { IfOk result (λ lines. IsWholeGraph (C.state closure.now).meaning
        (option_copied chosen.entry) lines.items) }
{
    let mut inner = graph_lines_of(alloc, closure, chosen)?;
    let mut lines = graph_head(alloc)?;
    lines.append(&mut inner)?;
    lines.push(fixed_line(alloc, b"}")?)?;
    Ok(lines)
}

fn graph_head(alloc: Global) -> Result<Vec<TextLine>, AllocError>
    ensures { IfOk result (λ lines. lines.items ≡ graph_head) }
{
    let mut lines = Vec::new(alloc);
    lines.push(fixed_line(alloc, b"digraph trust {")?)?;
    lines.push(fixed_line(alloc, b"node [shape=box];")?)?;
    Ok(lines)
}

fn fixed_line(alloc: Global, text: &[u8]) -> Result<TextLine, AllocError>
    ensures { IfOk result (λ line. line ≡ text.now) }
{
    Ok(TextLine::new(Vec::from_slice(alloc, text)?))
}

fn graph_lines_of<C: Closure>(
    alloc: Global,
    closure: &C,
    chosen: Option<&TrustDomain>,
) -> Result<Vec<TextLine>, AllocError>
    ensures { IfOk result (λ lines. AreGraphLines (C.state closure.now).meaning
        (option_copied chosen.entry) lines.items) }
{
    let offered = offer_set(alloc, closure)?;
    let vouchers = voucher_set(alloc, closure, chosen)?;
    let mut lines = Vec::new(alloc);
    push_part(
        alloc,
        closure,
        &offered,
        chosen,
        GraphPart::Voucher,
        &mut lines,
    )?;
    push_brought(alloc, closure, chosen, &vouchers, &mut lines)?;
    push_configured(alloc, closure, chosen, &vouchers, &mut lines)?;
    push_currents(alloc, closure, chosen, &vouchers, &mut lines)?;
    push_part(
        alloc,
        closure,
        &offered,
        chosen,
        GraphPart::Edge,
        &mut lines,
    )?;
    Ok(lines)
}

fn push_part<C: Closure>(
    alloc: Global,
    closure: &C,
    offered: &BTreeSet<Triple>,
    chosen: Option<&TrustDomain>,
    part: GraphPart,
    lines: &mut Vec<TextLine>,
) -> Result<(), AllocError>
    requires { IsOfferSet (C.state closure.now).meaning offered.now }
    ensures { OnOk result (AddsLinesFor (IsReceiptOfOther (option_copied chosen.entry))
        (ShowsPart part (C.state closure.now).meaning) (C.state closure.now).meaning.held
        lines.old.items lines.new.items) }
{
    for receipt in closure.receipts() {
        if is_left_aside(chosen, receipt.domain()) {
            continue;
        }
        push_part_line(alloc, closure, offered, part, receipt, lines)?;
    }
    Ok(())
}

fn push_part_line<C: Closure>(
    alloc: Global,
    closure: &C,
    offered: &BTreeSet<Triple>,
    part: GraphPart,
    receipt: &Receipt,
    lines: &mut Vec<TextLine>,
) -> Result<(), AllocError>
    requires offered { IsOfferSet (C.state closure.now).meaning offered.now }
    requires held { Contains (C.state closure.now).meaning.held receipt.now }
    ensures { OnOk result (PushesLine (ShowsPart part (C.state closure.now).meaning receipt.now)
        lines.old.items lines.new.items) }
{
    lines.push(part_line(alloc, closure, offered, part, receipt)?)?;
    Ok(())
}

fn part_line<C: Closure>(
    alloc: Global,
    closure: &C,
    offered: &BTreeSet<Triple>,
    part: GraphPart,
    receipt: &Receipt,
) -> Result<TextLine, AllocError>
    requires offered { IsOfferSet (C.state closure.now).meaning offered.now }
    requires held { Contains (C.state closure.now).meaning.held receipt.now }
    ensures { IfOk result (ShowsPart part (C.state closure.now).meaning receipt.now) }
{
    match part {
        GraphPart::Voucher => voucher_line(alloc, receipt),
        GraphPart::Edge => edge_of(alloc, closure, offered, receipt),
    }
}

fn edge_of<C: Closure>(
    alloc: Global,
    closure: &C,
    offered: &BTreeSet<Triple>,
    receipt: &Receipt,
) -> Result<TextLine, AllocError>
    requires offered { IsOfferSet (C.state closure.now).meaning offered.now }
    requires held { Contains (C.state closure.now).meaning.held receipt.now }
    ensures { IfOk result (ShowsEdge (C.state closure.now).meaning receipt.now) }
{
    let status = status_of(closure, offered, receipt);
    Ok(edge_line(alloc, receipt, status)?)
}

fn push_brought<C: Closure>(
    alloc: Global,
    closure: &C,
    chosen: Option<&TrustDomain>,
    vouchers: &BTreeSet<DocId>,
    lines: &mut Vec<TextLine>,
) -> Result<(), AllocError>
    requires { IsVoucherSet (C.state closure.now).meaning (option_copied chosen)
        vouchers.now }
    ensures { OnOk result (AddsLinesFor
        (IsPassedReceipt (C.state closure.now).meaning (option_copied chosen.entry)) ShowsBrought
        (C.state closure.now).meaning.held lines.old.items lines.new.items) }
{
    for receipt in closure.receipts() {
        if is_receipt_passed(chosen, vouchers, receipt) {
            continue;
        }
        push_brought_line(alloc, receipt, lines)?;
    }
    Ok(())
}

fn push_brought_line(
    alloc: Global,
    receipt: &Receipt,
    lines: &mut Vec<TextLine>,
) -> Result<(), AllocError>
    ensures { OnOk result (PushesLine (ShowsBrought receipt.now) lines.old.items
        lines.new.items) }
{
    lines.push(brought_line(alloc, receipt)?)?;
    Ok(())
}

fn push_configured<C: Closure>(
    alloc: Global,
    closure: &C,
    chosen: Option<&TrustDomain>,
    vouchers: &BTreeSet<DocId>,
    lines: &mut Vec<TextLine>,
) -> Result<(), AllocError>
    requires { IsVoucherSet (C.state closure.now).meaning (option_copied chosen)
        vouchers.now }
    ensures { OnOk result (AddsLinesFor
        (IsPassedSeed (C.state closure.now).meaning (option_copied chosen.entry)) ShowsConfigured
        (C.state closure.now).meaning.config.seeds lines.old.items lines.new.items) }
{
    for seed in closure.config().seeds() {
        if is_seed_passed(chosen, vouchers, seed) {
            continue;
        }
        push_configured_line(alloc, seed, lines)?;
    }
    Ok(())
}

fn push_configured_line(
    alloc: Global,
    seed: &Seed,
    lines: &mut Vec<TextLine>,
) -> Result<(), AllocError>
    ensures { OnOk result (PushesLine (ShowsConfigured seed.now) lines.old.items
        lines.new.items) }
{
    lines.push(configured_line(alloc, seed)?)?;
    Ok(())
}

fn push_currents<C: Closure>(
    alloc: Global,
    closure: &C,
    chosen: Option<&TrustDomain>,
    vouchers: &BTreeSet<DocId>,
    lines: &mut Vec<TextLine>,
) -> Result<(), AllocError>
    requires { IsVoucherSet (C.state closure.now).meaning (option_copied chosen)
        vouchers.now }
    ensures { OnOk result (AddsCurrents (C.state closure.now).meaning
        (option_copied chosen.entry) lines.old.items lines.new.items) }
{
    for domain in closure.config().domains() {
        if is_domain_passed(closure, chosen, vouchers, domain) {
            continue;
        }
        push_current(alloc, closure, domain, lines)?;
    }
    Ok(())
}

fn push_current<C: Closure>(
    alloc: Global,
    closure: &C,
    domain: &TrustDomain,
    lines: &mut Vec<TextLine>,
) -> Result<(), AllocError>
    ensures { OnOk result (PushesLine (ShowsCurrent (C.state closure.now).meaning domain.now)
        lines.old.items lines.new.items) }
{
    lines.push(current_line(alloc, domain, current(closure, domain))?)?;
    Ok(())
}
