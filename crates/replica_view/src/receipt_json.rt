//! A receipt and a record of distrust as compact JSON.
ghost use Rattle.std.specs.Prelude.{◌≡◌, ◌++◌, Contains, IfOk, OnOk};
ghost use Rattle.replica_view.specs.HeldJson.{ShowsReceiptJson, ShowsRecordJson, brought_members};
ghost use Rattle.replica_view.specs.HeldJson.{fetched_members, held_receipt_json};
ghost use Rattle.replica_view.specs.HeldJson.{held_record_json, named_members, receipt_members};
ghost use Rattle.replica_view.specs.HeldJson.{status_member};
ghost use Rattle.replica_view.specs.Inside.MadeLines.{PushesLine};
ghost use Rattle.replica_view.specs.Inside.Offered.{IsOfferSet};

use crate::receipt_status::{ReceiptStatus, status_of};
use closure_core::Closure;
use json_text::{push_digest, push_optional, push_string};
use jwk_set::KeyId;
use receipt_core::{Receipt, Triple};
use spiffe_name::TrustDomain;
use std::alloc::{AllocError, Global};
use std::collections::BTreeSet;
use text_lines::TextLine;

/// Adds the text of a held receipt.
pub(crate) fn push_receipt_json<C: Closure>(
    alloc: Global,
    closure: &C,
    offered: &BTreeSet<Triple>,
    receipt: &Receipt,
    texts: &mut Vec<TextLine>,
) -> Result<(), AllocError>
    requires offered { IsOfferSet (C.state closure.now).meaning offered.now }
    requires held { Contains (C.state closure.now).meaning.held receipt.now }
    ensures { OnOk result (PushesLine (ShowsReceiptJson (C.state closure.now).meaning receipt.now)
        texts.old.items texts.new.items) }
{
    let status = status_of(closure, offered, receipt);
    texts.push(receipt_json(alloc, receipt, status)?)?;
    Ok(())
}

/// Adds the text of a record of distrust.
pub(crate) fn push_record_json(
    alloc: Global,
    domain: &TrustDomain,
    key: &KeyId,
    texts: &mut Vec<TextLine>,
) -> Result<(), AllocError>
    ensures { OnOk result (PushesLine
        (ShowsRecordJson (record { domain = domain.now; key = key.now })) texts.old.items
        texts.new.items) }
{
    texts.push(record_json(alloc, domain, key)?)?;
    Ok(())
}

fn receipt_json(
    alloc: Global,
    receipt: &Receipt,
    status: ReceiptStatus,
) -> Result<TextLine, AllocError>
    ensures { IfOk result (λ text. text ≡ held_receipt_json receipt.now status) }
{
    let mut text = Vec::new(alloc);
    push_receipt_members(alloc, &mut text, receipt)?;
    text.extend_from_slice(status_member(status).as_bytes())?;
    Ok(TextLine::new(text))
}

/// Adds the brace that opens an object, and the members that say the five parts of the receipt:
/// `receipt` with its id, `domain`, `sequence` (`null` if the document has none), `document` with
/// the document's id, `endpoint`, `key` and `voucher`.
///
/// # Errors
/// Memory ran out. Nothing is said then of what is there.
pub fn push_receipt_members(
    alloc: Global,
    out: &mut Vec<u8>,
    receipt: &Receipt,
) -> Result<(), AllocError>
    ensures { OnOk result (out.new.items ≡ out.old.items ++ receipt_members receipt.now) }
{
    push_named_members(alloc, out, receipt)?;
    push_brought_members(out, receipt)?;
    push_fetched_members(alloc, out, receipt)
}

#[tactic(auto, unfolding(crate::specs::HeldJson::named_members))]
fn push_named_members(alloc: Global, out: &mut Vec<u8>, receipt: &Receipt) -> Result<(), AllocError>
    ensures { OnOk result (out.new.items ≡ out.old.items ++ named_members receipt.now) }
{
    push_digest(out, b"{\"receipt\":", &receipt.id().0)?;
    push_string(alloc, out, b",\"domain\":", receipt.domain().as_str())
}

#[tactic(auto, unfolding(crate::specs::HeldJson::brought_members))]
fn push_brought_members(out: &mut Vec<u8>, receipt: &Receipt) -> Result<(), AllocError>
    ensures { OnOk result (out.new.items ≡ out.old.items ++ brought_members receipt.now) }
{
    push_optional(out, b",\"sequence\":", receipt.document().rank())?;
    push_digest(out, b",\"document\":", &receipt.document_id().0)
}

#[tactic(auto, unfolding(crate::specs::HeldJson::fetched_members))]
fn push_fetched_members(
    alloc: Global,
    out: &mut Vec<u8>,
    receipt: &Receipt,
) -> Result<(), AllocError>
    ensures { OnOk result (out.new.items ≡ out.old.items ++ fetched_members receipt.now) }
{
    push_string(alloc, out, b",\"endpoint\":", receipt.endpoint().as_str())?;
    push_digest(out, b",\"key\":", &receipt.key().0)?;
    push_digest(out, b",\"voucher\":", &receipt.voucher().0)
}

fn status_member(status: ReceiptStatus) -> &'static str
    ensures { result.now ≡ status_member status }
{
    match status {
        ReceiptStatus::Accepted => ",\"status\":\"accepted\"}",
        ReceiptStatus::Pending => ",\"status\":\"pending\"}",
        ReceiptStatus::Distrusted => ",\"status\":\"distrusted\"}",
    }
}

/// The text of a record of distrust: an object of `distrust` with the key's id, and `domain`.
///
/// # Errors
/// Memory ran out.
pub fn record_json(alloc: Global, domain: &TrustDomain, key: &KeyId) -> Result<TextLine, AllocError>
    ensures { IfOk result (λ text. text
        ≡ held_record_json (record { domain = domain.now; key = key.now })) }
{
    let mut text = Vec::new(alloc);
    push_record_members(alloc, &mut text, domain, key)?;
    Ok(TextLine::new(text))
}

fn push_record_members(
    alloc: Global,
    out: &mut Vec<u8>,
    domain: &TrustDomain,
    key: &KeyId,
) -> Result<(), AllocError>
    ensures { OnOk result (out.new.items ≡ out.old.items
        ++ held_record_json (record { domain = domain.now; key = key.now })) }
{
    push_digest(out, b"{\"distrust\":", &key.0)?;
    push_string(alloc, out, b",\"domain\":", domain.as_str())?;
    out.extend_from_slice(b"}")
}
