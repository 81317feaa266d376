//! A chain of receipts, as text.
ghost use Rattle.std.specs.Prelude.{◌≡◌, ◌++◌, flat_map, reverse, IfOk, OnOk};
ghost use Rattle.fedbundle.specs.Explain.{brought_part, chain_text, explanation_text};
ghost use Rattle.fedbundle.specs.Explain.{receipt_line, root_line, step_line};
ghost use Rattle.fedbundle.specs.Explain.{vouched_part};

use bundle_doc::{DocId, Document};
use byte_lines::push_digits;
use command_line::ExplanationForm;
use json_reports::{chain_json, root_id};
use receipt_core::Receipt;
use spiffe_name::TrustDomain;
use std::alloc::{AllocError, Global};
use text_lines::push_number_or_none;

/// The text of the chain, which leads to the document.
pub(crate) fn explanation_text(
    alloc: Global,
    form: ExplanationForm,
    domain: &TrustDomain,
    document: &Document,
    chain: &[Receipt],
) -> Result<Vec<u8>, AllocError>
    ensures { IfOk result (λ text. text.items ≡ explanation_text form
        (record { domain = domain.now; document = document.now }) chain.now) }
{
    match form {
        ExplanationForm::Receipts => receipts_text(alloc, chain),
        ExplanationForm::Steps => steps_text(alloc, root_id(domain, document, chain), chain),
        ExplanationForm::Json => chain_json(alloc, domain, document, chain),
    }
}

fn receipts_text(alloc: Global, chain: &[Receipt]) -> Result<Vec<u8>, AllocError>
    ensures { IfOk result (λ text. text.items ≡ chain_text chain.now) }
{
    let mut text = Vec::new(alloc);
    'chain: for receipt in chain {
        push_receipt(alloc, &mut text, receipt)?;
    }
    Ok(text)
}

fn push_receipt(alloc: Global, text: &mut Vec<u8>, receipt: &Receipt) -> Result<(), AllocError>
    ensures { OnOk result (text.new.items ≡ text.old.items ++ receipt_line receipt.now) }
{
    let line = receipt.write_line(alloc)?;
    text.extend_from_slice(line.as_slice())?;
    text.extend_from_slice(b"\n")
}

fn steps_text(alloc: Global, root: DocId, chain: &[Receipt]) -> Result<Vec<u8>, AllocError>
    ensures { IfOk result (λ text. text.items
        ≡ flat_map step_line (reverse chain.now) ++ root_line root.0) }
{
    let mut text = Vec::new(alloc);
    push_steps(&mut text, chain)?;
    push_root(&mut text, root)?;
    Ok(text)
}

// The last step comes first.
fn push_steps(text: &mut Vec<u8>, chain: &[Receipt]) -> Result<(), AllocError>
    ensures { OnOk result (text.new.items
        ≡ text.old.items ++ flat_map step_line (reverse chain.now)) }
{
    let mut left = chain.len();
    'steps: while left > 0 {
        left -= 1;
        push_step(text, &chain[left])?;
    }
    Ok(())
}

fn push_step(text: &mut Vec<u8>, receipt: &Receipt) -> Result<(), AllocError>
    ensures { OnOk result (text.new.items ≡ text.old.items ++ step_line receipt.now) }
{
    push_brought(text, receipt)?;
    push_vouched(text, receipt)
}

fn push_brought(text: &mut Vec<u8>, receipt: &Receipt) -> Result<(), AllocError>
    ensures { OnOk result (text.new.items ≡ text.old.items ++ brought_part receipt.now) }
{
    push_digits(text, &receipt.document_id().0)?;
    text.extend_from_slice(b" sequence ")?;
    push_number_or_none(text, receipt.document().rank())?;
    Ok(())
}

fn push_vouched(text: &mut Vec<u8>, receipt: &Receipt) -> Result<(), AllocError>
    ensures { OnOk result (text.new.items ≡ text.old.items ++ vouched_part receipt.now) }
{
    text.extend_from_slice(b" <- key ")?;
    push_digits(text, &receipt.key().0)?;
    text.extend_from_slice(b" of ")?;
    push_digits(text, &receipt.voucher().0)?;
    text.extend_from_slice(b"\n")
}

fn push_root(text: &mut Vec<u8>, root: DocId) -> Result<(), AllocError>
    ensures { OnOk result (text.new.items ≡ text.old.items ++ root_line root.0) }
{
    push_digits(text, &root.0)?;
    text.extend_from_slice(b" configured")?;
    text.extend_from_slice(b"\n")?;
    Ok(())
}
