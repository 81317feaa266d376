//! The receipts whose key is not distrusted, so that they may be vouched for, in the order of what
//! they need.
ghost use Rattle.std.specs.Prelude.{◌≡◌, ◌↔◌, IsTrue, IfOk};
ghost use Rattle.std.specs.Ordering.{is_lt};
ghost use Rattle.receipt_core.specs.Receipt.{need_of, triple_cmp};
ghost use Rattle.bundle_view.specs.Inside.Search.{AreTrusted, AreWaiting};

use closure_core::Closure;
use receipt_core::{Receipt, Triple};
use std::alloc::{AllocError, Global};
use std::cmp::Ordering;
use std::marker::Model;

/// A receipt that a closure lends.
#[derive(Drop)]
pub(crate) struct TrustedReceipt<'a> {
    receipt: &'a Receipt,
}

impl<'a> Model for TrustedReceipt<'a> {
    ghost use Rattle.receipt_core.specs.Receipt.{Receipt};

    ghost Value = { Receipt };

    ghost view = { λ w. w.receipt.now };
}

impl<'a> TrustedReceipt<'a> {
    pub(crate) fn receipt(&self) -> &'a Receipt
        ensures { result.now ≡ self.now }
    {
        self.receipt
    }

    /// Whether it needs something that comes before this.
    pub(crate) fn is_before(&self, offer: &Triple) -> bool
        ensures { result ≡ is_lt (triple_cmp (need_of self.now) offer.now) }
    {
        self.receipt.need().cmp(offer).is_lt()
    }

    /// Whether it needs this.
    pub(crate) fn needs(&self, offer: &Triple) -> bool
        ensures { IsTrue result ↔ (need_of self.now ≡ offer.now) }
    {
        *self.receipt.need() == *offer
    }

    fn compare(&self, other: &TrustedReceipt) -> Ordering
        ensures { result ≡ triple_cmp (need_of self.now) (need_of other.now) }
    {
        self.receipt.need().cmp(other.receipt.need())
    }
}

/// The held receipts whose key is not distrusted in the endpoint's trust domain, sorted by what
/// they need.
pub(crate) fn list_waiting<'a, C: Closure>(
    alloc: Global,
    closure: &'a C,
) -> Result<Vec<TrustedReceipt<'a>>, AllocError>
    ensures { IfOk result (λ waiting. AreWaiting (C.state closure.now).meaning waiting.items) }
{
    let mut waiting = list_trusted(alloc, closure)?;
    waiting.sort_unstable_by(|one, other| one.compare(other));
    Ok(waiting)
}

fn list_trusted<'a, C: Closure>(
    alloc: Global,
    closure: &'a C,
) -> Result<Vec<TrustedReceipt<'a>>, AllocError>
    ensures { IfOk result (λ waiting. AreTrusted (C.state closure.now).meaning waiting.items) }
{
    let _valid = closure.config();
    let mut waiting = Vec::new(alloc);
    for receipt in closure.receipts() {
        let need = receipt.need();
        if closure.is_distrusted(need.domain(), need.key()) {
            continue;
        }
        waiting.push(TrustedReceipt { receipt })?;
    }
    Ok(waiting)
}
