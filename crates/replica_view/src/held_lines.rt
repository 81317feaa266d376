//! The line of a receipt and that of a record of distrust.
ghost use Rattle.std.specs.Prelude.{◌≡◌, ◌++◌, Contains, IfOk, OnOk};
ghost use Rattle.replica_view.specs.HeldLines.{ShowsReceipt, ShowsRecord, brought_text};
ghost use Rattle.replica_view.specs.HeldLines.{fetched_text, held_receipt_line, held_record_line};
ghost use Rattle.replica_view.specs.HeldLines.{named_text};
ghost use Rattle.replica_view.specs.Inside.MadeLines.{PushesLine};
ghost use Rattle.replica_view.specs.Inside.Offered.{IsOfferSet};

use crate::receipt_status::{ReceiptStatus, status_of, text_of};
use byte_lines::push_digits;
use closure_core::Closure;
use jwk_set::KeyId;
use receipt_core::{Receipt, Triple};
use spiffe_name::TrustDomain;
use std::alloc::{AllocError, Global};
use std::collections::BTreeSet;
use text_lines::{TextLine, push_number_or_none};

/// Adds the line of a held receipt, after the mark.
pub(crate) fn push_receipt<C: Closure>(
    alloc: Global,
    closure: &C,
    offered: &BTreeSet<Triple>,
    mark: &[u8],
    receipt: &Receipt,
    lines: &mut Vec<TextLine>,
) -> Result<(), AllocError>
    requires offered { IsOfferSet (C.state closure.now).meaning offered.now }
    requires held { Contains (C.state closure.now).meaning.held receipt.now }
    ensures { OnOk result (PushesLine
        (ShowsReceipt (C.state closure.now).meaning mark.now receipt.now) lines.old.items
        lines.new.items) }
{
    let status = status_of(closure, offered, receipt);
    lines.push(receipt_line(alloc, mark, receipt, status)?)?;
    Ok(())
}

/// Adds the line of a record of distrust, after the mark.
pub(crate) fn push_record(
    alloc: Global,
    mark: &[u8],
    domain: &TrustDomain,
    key: &KeyId,
    lines: &mut Vec<TextLine>,
) -> Result<(), AllocError>
    ensures { OnOk result (PushesLine
        (ShowsRecord mark.now (record { domain = domain.now; key = key.now })) lines.old.items
        lines.new.items) }
{
    lines.push(record_line(alloc, mark, domain, key)?)?;
    Ok(())
}

fn receipt_line(
    alloc: Global,
    mark: &[u8],
    receipt: &Receipt,
    status: ReceiptStatus,
) -> Result<TextLine, AllocError>
    ensures { IfOk result (λ line. line ≡ mark.now ++ held_receipt_line receipt.now status) }
{
    let mut line = Vec::from_slice(alloc, mark)?;
    push_named(&mut line, receipt)?;
    push_brought(&mut line, receipt)?;
    push_fetched(&mut line, receipt)?;
    line.extend_from_slice(text_of(status).as_bytes())?;
    Ok(TextLine::new(line))
}

fn push_named(line: &mut Vec<u8>, receipt: &Receipt) -> Result<(), AllocError>
    ensures { OnOk result (line.new.items ≡ line.old.items ++ named_text receipt.now) }
{
    line.extend_from_slice(b"receipt ")?;
    push_digits(line, &receipt.id().0)?;
    line.extend_from_slice(b" domain ")?;
    line.extend_from_slice(receipt.domain().as_str().as_bytes())?;
    Ok(())
}

fn push_brought(line: &mut Vec<u8>, receipt: &Receipt) -> Result<(), AllocError>
    ensures { OnOk result (line.new.items ≡ line.old.items ++ brought_text receipt.now) }
{
    line.extend_from_slice(b" sequence ")?;
    push_number_or_none(line, receipt.document().rank())?;
    line.extend_from_slice(b" document ")?;
    push_digits(line, &receipt.document_id().0)
}

fn push_fetched(line: &mut Vec<u8>, receipt: &Receipt) -> Result<(), AllocError>
    ensures { OnOk result (line.new.items ≡ line.old.items ++ fetched_text receipt.now) }
{
    line.extend_from_slice(b" endpoint ")?;
    line.extend_from_slice(receipt.endpoint().as_str().as_bytes())?;
    line.extend_from_slice(b" key ")?;
    push_digits(line, &receipt.key().0)?;
    line.extend_from_slice(b" voucher ")?;
    push_digits(line, &receipt.voucher().0)
}

fn record_line(
    alloc: Global,
    mark: &[u8],
    domain: &TrustDomain,
    key: &KeyId,
) -> Result<TextLine, AllocError>
    ensures { IfOk result (λ line. line
        ≡ mark.now ++ held_record_line (record { domain = domain.now; key = key.now })) }
{
    let mut line = Vec::from_slice(alloc, mark)?;
    push_distrust(&mut line, domain, key)?;
    Ok(TextLine::new(line))
}

fn push_distrust(line: &mut Vec<u8>, domain: &TrustDomain, key: &KeyId) -> Result<(), AllocError>
    ensures { OnOk result (line.new.items ≡ line.old.items
        ++ held_record_line (record { domain = domain.now; key = key.now })) }
{
    line.extend_from_slice(b"distrust ")?;
    push_digits(line, &key.0)?;
    line.extend_from_slice(b" domain ")?;
    line.extend_from_slice(domain.as_str().as_bytes())?;
    Ok(())
}
