//! The lines of a graph: its nodes and its edges.
ghost use Rattle.std.specs.Prelude.{◌≡◌, ◌++◌, option_copied, IfOk, OnOk};
ghost use Rattle.replica_view.specs.TrustGraph.{brought_line, configured_line, edge_label};
ghost use Rattle.replica_view.specs.TrustGraph.{edge_line, graph_current_line, label_start};
ghost use Rattle.replica_view.specs.TrustGraph.{no_current_line, node_text, seen_label};
ghost use Rattle.replica_view.specs.TrustGraph.{sequence_label};
ghost use Rattle.replica_view.specs.TrustGraph.{short_text, status_style, unseen_label};
ghost use Rattle.replica_view.specs.TrustGraph.{voucher_line};

use crate::receipt_status::ReceiptStatus;
use bundle_doc::Document;
use byte_lines::push_digits;
use fed_config::Seed;
use receipt_core::Receipt;
use spiffe_name::TrustDomain;
use std::alloc::{AllocError, Global};
use text_lines::{TextLine, push_number_or_none};

/// The document that vouches for the receipt, of which only its id is known.
pub(crate) fn voucher_line(alloc: Global, receipt: &Receipt) -> Result<TextLine, AllocError>
    ensures { IfOk result (λ line. line ≡ voucher_line receipt.now) }
{
    let mut line = Vec::new(alloc);
    push_node(&mut line, &receipt.voucher().0)?;
    push_unseen_label(
        alloc,
        &mut line,
        receipt.need().domain(),
        &receipt.voucher().0,
    )?;
    line.extend_from_slice(b"\"];")?;
    Ok(TextLine::new(line))
}

/// The document that the receipt brought.
pub(crate) fn brought_line(alloc: Global, receipt: &Receipt) -> Result<TextLine, AllocError>
    ensures { IfOk result (λ line. line ≡ brought_line receipt.now) }
{
    let (domain, document) = (receipt.domain(), receipt.document());
    let mut line = Vec::new(alloc);
    push_node(&mut line, &document.id(domain).0)?;
    push_seen_label(alloc, &mut line, domain, document)?;
    line.extend_from_slice(b"\"];")?;
    Ok(TextLine::new(line))
}

/// A configured document, which has two borders.
pub(crate) fn configured_line(alloc: Global, seed: &Seed) -> Result<TextLine, AllocError>
    ensures { IfOk result (λ line. line ≡ configured_line seed.now) }
{
    let mut line = Vec::new(alloc);
    push_node(&mut line, &seed.document.id(&seed.domain).0)?;
    push_seen_label(alloc, &mut line, &seed.domain, &seed.document)?;
    line.extend_from_slice(b"\", peripheries=2];")?;
    Ok(TextLine::new(line))
}

/// The current document of the domain, whose border is bold, or a comment if it has none.
pub(crate) fn current_line(
    alloc: Global,
    domain: &TrustDomain,
    document: Option<&Document>,
) -> Result<TextLine, AllocError>
    ensures { IfOk result (λ line. line
        ≡ graph_current_line domain.now (option_copied document.entry)) }
{
    let mut line = Vec::new(alloc);
    push_current_line(&mut line, domain, document)?;
    Ok(TextLine::new(line))
}

fn push_current_line(
    line: &mut Vec<u8>,
    domain: &TrustDomain,
    document: Option<&Document>,
) -> Result<(), AllocError>
    ensures { OnOk result (line.new.items ≡ line.old.items
        ++ graph_current_line domain.now (option_copied document.entry)) }
{
    match document {
        Some(document) => {
            push_node(line, &document.id(domain).0)?;
            line.extend_from_slice(b" [style=bold];")
        }
        None => push_no_current(line, domain),
    }
}

fn push_no_current(line: &mut Vec<u8>, domain: &TrustDomain) -> Result<(), AllocError>
    ensures { OnOk result (line.new.items ≡ line.old.items ++ no_current_line domain.now) }
{
    line.extend_from_slice(b"// no current document of ")?;
    line.extend_from_slice(domain.as_str().as_bytes())?;
    Ok(())
}

/// The receipt, from the document that vouches for it to the one that it brought.
pub(crate) fn edge_line(
    alloc: Global,
    receipt: &Receipt,
    status: ReceiptStatus,
) -> Result<TextLine, AllocError>
    ensures { IfOk result (λ line. line ≡ edge_line receipt.now status) }
{
    let mut line = Vec::new(alloc);
    push_node(&mut line, &receipt.voucher().0)?;
    line.extend_from_slice(b" -> ")?;
    push_node(&mut line, &receipt.document_id().0)?;
    push_edge_label(alloc, &mut line, receipt, status)?;
    Ok(TextLine::new(line))
}

fn push_edge_label(
    alloc: Global,
    line: &mut Vec<u8>,
    receipt: &Receipt,
    status: ReceiptStatus,
) -> Result<(), AllocError>
    ensures { OnOk result (line.new.items ≡ line.old.items ++ edge_label receipt.now status) }
{
    line.extend_from_slice(b" [label=\"")?;
    push_short(alloc, line, &receipt.key().0)?;
    line.extend_from_slice(status_style(status).as_bytes())
}

fn status_style(status: ReceiptStatus) -> &'static str
    ensures { result.now ≡ status_style status }
{
    match status {
        ReceiptStatus::Accepted => "\"];",
        ReceiptStatus::Pending => "\", style=dashed];",
        ReceiptStatus::Distrusted => "\", color=red];",
    }
}

fn push_node(line: &mut Vec<u8>, id: &[u8; 32]) -> Result<(), AllocError>
    ensures { OnOk result (line.new.items ≡ line.old.items ++ node_text id.now) }
{
    line.extend_from_slice(b"\"")?;
    push_digits(line, id)?;
    line.extend_from_slice(b"\"")
}

fn push_unseen_label(
    alloc: Global,
    line: &mut Vec<u8>,
    domain: &TrustDomain,
    id: &[u8; 32],
) -> Result<(), AllocError>
    ensures { OnOk result (line.new.items ≡ line.old.items ++ unseen_label domain.now id.now) }
{
    line.extend_from_slice(b" [label=\"")?;
    line.extend_from_slice(domain.as_str().as_bytes())?;
    line.extend_from_slice(b"\\n")?;
    push_short(alloc, line, id)
}

fn push_seen_label(
    alloc: Global,
    line: &mut Vec<u8>,
    domain: &TrustDomain,
    document: &Document,
) -> Result<(), AllocError>
    ensures { OnOk result (line.new.items ≡ line.old.items
        ++ seen_label domain.now document.now) }
{
    push_label_start(line, domain)?;
    push_sequence_label(alloc, line, domain, document)
}

fn push_label_start(line: &mut Vec<u8>, domain: &TrustDomain) -> Result<(), AllocError>
    ensures { OnOk result (line.new.items ≡ line.old.items ++ label_start domain.now) }
{
    line.extend_from_slice(b" [label=\"")?;
    line.extend_from_slice(domain.as_str().as_bytes())
}

fn push_sequence_label(
    alloc: Global,
    line: &mut Vec<u8>,
    domain: &TrustDomain,
    document: &Document,
) -> Result<(), AllocError>
    ensures { OnOk result (line.new.items ≡ line.old.items
        ++ sequence_label domain.now document.now) }
{
    line.extend_from_slice(b"\\nsequence ")?;
    push_number_or_none(line, document.rank())?;
    line.extend_from_slice(b"\\n")?;
    push_short(alloc, line, &document.id(domain).0)
}

fn push_short(alloc: Global, line: &mut Vec<u8>, id: &[u8; 32]) -> Result<(), AllocError>
    ensures { OnOk result (line.new.items ≡ line.old.items ++ short_text id.now) }
{
    let text = hex::encode(alloc, &id[..4])?;
    line.extend_from_slice(text.as_bytes())
}
