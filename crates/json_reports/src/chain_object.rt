//! A chain of receipts as compact JSON.
ghost use Rattle.std.specs.Prelude.{◌≡◌, ◌++◌, map, IfOk, OnOk};
ghost use Rattle.json_reports.specs.ChainJson.{chain_json, chain_receipt_json, ends_members};
ghost use Rattle.json_reports.specs.ChainJson.{receipts_member, root_id};

use bundle_doc::{DocId, Document};
use json_text::{push_array, push_digest};
use receipt_core::Receipt;
use replica_view::push_receipt_members;
use spiffe_name::TrustDomain;
use std::alloc::{AllocError, Global};
use text_lines::TextLine;

/// The chain, which leads to the document, as a compact JSON object, whose members are in this
/// order, and a line feed:
///
/// | Member | What it has |
/// |---|---|
/// | `document` | the document's id |
/// | `configured` | the id of the configured document from which the chain leads |
/// | `receipts` | for each receipt, from the configured document on, the members of
/// [`replica_view::push_receipt_members`] |
///
/// # Errors
/// Memory ran out.
pub fn chain_json(
    alloc: Global,
    domain: &TrustDomain,
    document: &Document,
    chain: &[Receipt],
) -> Result<Vec<u8>, AllocError>
    ensures { IfOk result (λ text. text.items ≡ chain_json
        (record { domain = domain.now; document = document.now }) chain.now) }
{
    let receipts = receipt_texts(alloc, chain)?;
    let mut out = Vec::new(alloc);
    let root = root_id(domain, document, chain);
    push_ends(&mut out, document.id(domain), root)?;
    push_receipts_member(&mut out, receipts.as_slice())?;
    Ok(out)
}

/// The id of the configured document from which the chain leads to the document: the voucher of its
/// first receipt, and the document's own if the chain is empty.
pub fn root_id(domain: &TrustDomain, document: &Document, chain: &[Receipt]) -> DocId
    ensures { result.0
        ≡ root_id (record { domain = domain.now; document = document.now }) chain.now }
{
    match chain.first() {
        Some(receipt) => receipt.voucher(),
        None => document.id(domain),
    }
}

#[tactic(auto, unfolding(crate::specs::ChainJson::ends_members))]
fn push_ends(out: &mut Vec<u8>, document: DocId, root: DocId) -> Result<(), AllocError>
    ensures { OnOk result (out.new.items ≡ out.old.items ++ ends_members document.0 root.0) }
{
    push_digest(out, b"{\"document\":", &document.0)?;
    push_digest(out, b",\"configured\":", &root.0)
}

#[tactic(auto, unfolding(crate::specs::ChainJson::receipts_member))]
fn push_receipts_member(out: &mut Vec<u8>, receipts: &[TextLine]) -> Result<(), AllocError>
    ensures { OnOk result (out.new.items ≡ out.old.items ++ receipts_member receipts.now) }
{
    push_array(out, b",\"receipts\":", receipts)?;
    out.extend_from_slice(b"}\n")
}

fn receipt_texts(alloc: Global, chain: &[Receipt]) -> Result<Vec<TextLine>, AllocError>
    ensures { IfOk result (λ texts. texts.items ≡ map chain_receipt_json chain.now) }
{
    let mut texts = Vec::new(alloc);
    'chain: for receipt in chain {
        texts.push(receipt_text(alloc, receipt)?)?;
    }
    Ok(texts)
}

fn receipt_text(alloc: Global, receipt: &Receipt) -> Result<TextLine, AllocError>
    ensures { IfOk result (λ text. text ≡ chain_receipt_json receipt.now) }
{
    let mut text = Vec::new(alloc);
    push_receipt_members(alloc, &mut text, receipt)?;
    text.extend_from_slice(b"}")?;
    Ok(TextLine::new(text))
}
