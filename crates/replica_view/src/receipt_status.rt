//! The status of a receipt.
ghost use Rattle.std.specs.Prelude.{◌≡◌, Contains};
ghost use Rattle.replica_view.specs.HeldLines.{IsStatusOf, status_text};
ghost use Rattle.replica_view.specs.Inside.Offered.{IsOfferSet};

use closure_core::Closure;
use receipt_core::{Receipt, Triple};
use std::collections::BTreeSet;

/// The status of a held receipt.
#[derive(Clone, Copy, Debug, PartialEq, Eq)]
pub enum ReceiptStatus {
    /// An accepted document vouches for it.
    Accepted,
    /// No accepted document vouches for it, and its key is not distrusted.
    Pending,
    /// Its key is distrusted in the endpoint's trust domain, so no document vouches for it.
    Distrusted,
}

/// The status of a held receipt, by all that the accepted documents offer.
pub(crate) fn status_of<C: Closure>(
    closure: &C,
    offered: &BTreeSet<Triple>,
    receipt: &Receipt,
) -> ReceiptStatus
    requires offered { IsOfferSet (C.state closure.now).meaning offered.now }
    requires held { Contains (C.state closure.now).meaning.held receipt.now }
    ensures { IsStatusOf (C.state closure.now).meaning receipt.now result }
{
    let _valid = closure.config();
    let need = receipt.need();
    if closure.is_distrusted(need.domain(), need.key()) {
        return ReceiptStatus::Distrusted;
    }
    if offered.contains(need) {
        ReceiptStatus::Accepted
    } else {
        ReceiptStatus::Pending
    }
}

/// The status as it is in the line, after a space.
pub(crate) fn text_of(status: ReceiptStatus) -> &'static str
    ensures { result.now ≡ status_text status }
{
    match status {
        ReceiptStatus::Accepted => " accepted",
        ReceiptStatus::Pending => " pending",
        ReceiptStatus::Distrusted => " distrusted",
    }
}
