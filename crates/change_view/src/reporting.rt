//! What is reported of a receipt that was taken, and of the lines that a journal gets.
ghost use Rattle.std.specs.Prelude.{◌≡◌, false, IfOk};
ghost use Rattle.change_view.specs.Changes.{IsObservedBundle, SaysNow};

use crate::held_change::{NewEntries, ObservedBundle};
use bundle_view::current;
use closure_core::Closure;
use receipt_core::Receipt;
use std::alloc::{AllocError, Global};

/// How the line of a record of distrust begins, and no line of a receipt.
const RECORD_BEGINNING: &[u8] = b"{\"distrust\":";

/// What is reported of a bundle with this receipt. Whether it is current is not said before it is
/// held: [`is_now_current`] says that, and until then it is not.
///
/// # Errors
/// Memory ran out.
pub fn observed_bundle(alloc: Global, receipt: &Receipt) -> Result<ObservedBundle, AllocError>
    ensures parts { IfOk result (IsObservedBundle receipt.now) }
    ensures unsaid { IfOk result (λ observed. observed.is_current ≡ false) }
{
    Ok(ObservedBundle {
        domain: receipt.domain().try_clone(alloc)?,
        document: receipt.document_id(),
        sequence: receipt.document().rank(),
        key: receipt.key(),
        voucher: receipt.voucher(),
        is_current: false,
    })
}

/// Whether the bundle is the current document of its domain, by the document's id.
pub fn is_now_current<C: Closure>(closure: &C, observed: &ObservedBundle) -> bool
    ensures { SaysNow (C.state closure.now).meaning observed.now.domain observed.now.document
        result }
{
    match current(closure, &observed.domain) {
        Some(document) => document.id(&observed.domain) == observed.document,
        None => false,
    }
}

/// How many lines of the text are of receipts, and how many of records. It has the form of a
/// journal.
pub fn count_entries(text: &[u8]) -> NewEntries {
    let mut counts = NewEntries {
        receipts: 0,
        records: 0,
    };
    for line in text.split(|byte| *byte == b'\n') {
        if line.starts_with(RECORD_BEGINNING) {
            counts.records = counts.records.saturating_add(1);
        } else if !line.is_empty() {
            counts.receipts = counts.receipts.saturating_add(1);
        }
    }
    counts
}
