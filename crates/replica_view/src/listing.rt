//! All that is held, or only what is of one domain.
ghost use Rattle.std.specs.Prelude.{◌≡◌, ◌||◌, true, Contains, Err, IfOk, OnOk, option_copied};
ghost use Rattle.byte_lines.specs.Device.{is_source_fault};
ghost use Rattle.byte_lines.specs.declared.error.DeviceError.TheVariants.{Io, NoMemory};
ghost use Rattle.text_lines.specs.TextLines.{BeginsSome, WritesSome};
ghost use Rattle.replica_view.specs.HeldJson.{IsHeldJson, held_json};
ghost use Rattle.replica_view.specs.HeldTexts.{AreHeldLines, IsHeldText, IsReceiptOfOther};
ghost use Rattle.replica_view.specs.HeldTexts.{IsRecordOfOther, is_left_aside};
ghost use Rattle.replica_view.specs.Inside.MadeLines.{AddsLinesFor, PushesLine};
ghost use Rattle.replica_view.specs.Inside.Offered.{IsOfferSet};
ghost use Rattle.replica_view.specs.Inside.ShownForms.{ShowsReceiptIn, ShowsRecordIn};

use crate::held_lines::{push_receipt, push_record};
use crate::offered::offer_set;
use crate::receipt_json::{push_receipt_json, push_record_json};
use byte_lines::{DeviceError, Sink, write_all};
use closure_core::Closure;
use json_text::push_array;
use jwk_set::KeyId;
use receipt_core::{Receipt, Triple};
use spiffe_name::TrustDomain;
use std::alloc::{AllocError, Global};
use std::collections::BTreeSet;
use text_lines::{TextLine, write_lines};

/// How an item is shown.
#[derive(Clone, Copy, Debug, PartialEq, Eq)]
pub(crate) enum ShownForm {
    /// As a line.
    Line,
    /// As a JSON object.
    Json,
}

/// Writes what is held: a line for each receipt, in the order of the receipts' lines, and then one
/// for each record of distrust, sorted by key and then by domain. With a domain these are the
/// receipts that brought a document of it and the records of keys that are distrusted in it.
///
/// | Line | What it says |
/// |---|---|
/// | `receipt <receipt id> domain <domain> sequence <number or none> document <document id>
/// endpoint <SPIFFE ID> key <key id> voucher <document id> <status>` | the five parts of a receipt;
/// its status is `accepted`, `pending` or `distrusted` ([`crate::ReceiptStatus`]) |
/// | `distrust <key id> domain <domain>` | a record of distrust |
///
/// The work grows with the receipts and with what accepted documents offer, times the logarithm of
/// these. All memory is taken before the first byte is written.
///
/// # Errors
/// - [`DeviceError::Io`]: the sink failed, and holds a beginning of the text.
/// - [`DeviceError::NoMemory`]: memory ran out. Nothing was written.
pub fn write_held<C: Closure, W: Sink>(
    alloc: Global,
    closure: &C,
    chosen: Option<&TrustDomain>,
    sink: &mut W,
) -> Result<(), DeviceError>
    ensures ok { OnOk result
        (WritesSome (IsHeldText (C.state closure.now).meaning (option_copied chosen.entry))
        (W.contents sink.old) (W.contents sink.new)) }
    ensures io { result ≡ Err Io → (W.has_failed sink.new ≡ true)
        × BeginsSome (IsHeldText (C.state closure.now).meaning (option_copied chosen.entry))
        (W.contents sink.old) (W.contents sink.new) }
    ensures memory { result ≡ Err NoMemory → sink.new ≡ sink.old }
    ensures fault { W.has_failed sink.new ≡ (is_source_fault result || W.has_failed sink.old) }
{
    let lines = held_lines_of(alloc, closure, chosen)?;
    write_lines(alloc, lines.as_slice(), sink)
}

fn held_lines_of<C: Closure>(
    alloc: Global,
    closure: &C,
    chosen: Option<&TrustDomain>,
) -> Result<Vec<TextLine>, AllocError>
    ensures { IfOk result (λ lines. AreHeldLines (C.state closure.now).meaning
        (option_copied chosen.entry) lines.items) }
{
    let offered = offer_set(alloc, closure)?;
    let mut lines = Vec::new(alloc);
    push_receipts(
        alloc,
        closure,
        &offered,
        chosen,
        ShownForm::Line,
        &mut lines,
    )?;
    push_records(alloc, closure, chosen, ShownForm::Line, &mut lines)?;
    Ok(lines)
}

/// Writes what is held as a compact JSON object of two members and a line feed. `receipts` has an
/// object for each receipt, and `records` one for each record of distrust, in the order of
/// [`write_held`], and with a domain the same ones.
///
/// | Object | Its members |
/// |---|---|
/// | of a receipt | those of [`crate::push_receipt_members`], and `status`, which is `accepted`,
/// `pending` or `distrusted` ([`crate::ReceiptStatus`]) |
/// | of a record | `distrust` with the key's id, and `domain` |
///
/// The work and the memory grow as those of [`write_held`]. All memory is taken before the first
/// byte is written.
///
/// # Errors
/// - [`DeviceError::Io`]: the sink failed, and holds a beginning of the text.
/// - [`DeviceError::NoMemory`]: memory ran out. Nothing was written.
pub fn write_held_json<C: Closure, W: Sink>(
    alloc: Global,
    closure: &C,
    chosen: Option<&TrustDomain>,
    sink: &mut W,
) -> Result<(), DeviceError>
    ensures ok { OnOk result
        (WritesSome (IsHeldJson (C.state closure.now).meaning (option_copied chosen.entry))
        (W.contents sink.old) (W.contents sink.new)) }
    ensures io { result ≡ Err Io → (W.has_failed sink.new ≡ true)
        × BeginsSome (IsHeldJson (C.state closure.now).meaning (option_copied chosen.entry))
        (W.contents sink.old) (W.contents sink.new) }
    ensures memory { result ≡ Err NoMemory → sink.new ≡ sink.old }
    ensures fault { W.has_failed sink.new ≡ (is_source_fault result || W.has_failed sink.old) }
{
    let text = held_json(alloc, closure, chosen)?;
    write_all(sink, text.as_slice())?;
    Ok(())
}

fn held_json<C: Closure>(
    alloc: Global,
    closure: &C,
    chosen: Option<&TrustDomain>,
) -> Result<Vec<u8>, AllocError>
    ensures { IfOk result (λ text. IsHeldJson (C.state closure.now).meaning
        (option_copied chosen.entry) text.items) }
{
    let offered = offer_set(alloc, closure)?;
    let mut receipts = Vec::new(alloc);
    push_receipts(
        alloc,
        closure,
        &offered,
        chosen,
        ShownForm::Json,
        &mut receipts,
    )?;
    let mut records = Vec::new(alloc);
    push_records(alloc, closure, chosen, ShownForm::Json, &mut records)?;
    both_json(alloc, receipts.as_slice(), records.as_slice())
}

fn both_json(
    alloc: Global,
    receipts: &[TextLine],
    records: &[TextLine],
) -> Result<Vec<u8>, AllocError>
    ensures { IfOk result (λ text. text.items ≡ held_json receipts.now records.now) }
{
    let mut out = Vec::new(alloc);
    push_array(&mut out, b"{\"receipts\":", receipts)?;
    push_array(&mut out, b",\"records\":", records)?;
    out.extend_from_slice(b"}\n")?;
    Ok(out)
}

fn push_receipts<C: Closure>(
    alloc: Global,
    closure: &C,
    offered: &BTreeSet<Triple>,
    chosen: Option<&TrustDomain>,
    form: ShownForm,
    lines: &mut Vec<TextLine>,
) -> Result<(), AllocError>
    requires { IsOfferSet (C.state closure.now).meaning offered.now }
    ensures { OnOk result (AddsLinesFor (IsReceiptOfOther (option_copied chosen.entry))
        (ShowsReceiptIn form (C.state closure.now).meaning) (C.state closure.now).meaning.held
        lines.old.items lines.new.items) }
{
    for receipt in closure.receipts() {
        if is_left_aside(chosen, receipt.domain()) {
            continue;
        }
        push_shown_receipt(alloc, closure, offered, form, receipt, lines)?;
    }
    Ok(())
}

fn push_shown_receipt<C: Closure>(
    alloc: Global,
    closure: &C,
    offered: &BTreeSet<Triple>,
    form: ShownForm,
    receipt: &Receipt,
    lines: &mut Vec<TextLine>,
) -> Result<(), AllocError>
    requires offered { IsOfferSet (C.state closure.now).meaning offered.now }
    requires held { Contains (C.state closure.now).meaning.held receipt.now }
    ensures { OnOk result (PushesLine
        (ShowsReceiptIn form (C.state closure.now).meaning receipt.now) lines.old.items
        lines.new.items) }
{
    match form {
        ShownForm::Line => push_receipt(alloc, closure, offered, b"", receipt, lines),
        ShownForm::Json => push_receipt_json(alloc, closure, offered, receipt, lines),
    }
}

fn push_records<C: Closure>(
    alloc: Global,
    closure: &C,
    chosen: Option<&TrustDomain>,
    form: ShownForm,
    lines: &mut Vec<TextLine>,
) -> Result<(), AllocError>
    ensures { OnOk result (AddsLinesFor (IsRecordOfOther (option_copied chosen.entry))
        (ShowsRecordIn form) (C.state closure.now).meaning.records
        lines.old.items lines.new.items) }
{
    for (domain, key) in closure.distrusts() {
        if is_left_aside(chosen, domain) {
            continue;
        }
        push_shown_record(alloc, form, domain, key, lines)?;
    }
    Ok(())
}

fn push_shown_record(
    alloc: Global,
    form: ShownForm,
    domain: &TrustDomain,
    key: &KeyId,
    lines: &mut Vec<TextLine>,
) -> Result<(), AllocError>
    ensures { OnOk result (PushesLine
        (ShowsRecordIn form (record { domain = domain.now; key = key.now })) lines.old.items
        lines.new.items) }
{
    match form {
        ShownForm::Line => push_record(alloc, b"", domain, key, lines),
        ShownForm::Json => push_record_json(alloc, domain, key, lines),
    }
}

// Whether another domain is chosen.
pub(crate) fn is_left_aside(chosen: Option<&TrustDomain>, domain: &TrustDomain) -> bool
    ensures { result ≡ is_left_aside (option_copied chosen.entry) domain.now }
{
    match chosen {
        Some(chosen) => domain.as_str() != chosen.as_str(),
        None => false,
    }
}
