//! The place of the next piece among the receipts that are held now. To pass over a receipt is
//! cheap, since it is not looked at; to compare two takes time for their bytes. More receipts may
//! have come before the last one that was written, so its place is looked for from its old one on.
ghost use Rattle.std.specs.Prelude.{◌≡◌, drop, Some};
ghost use Rattle.std.specs.List.Sorted.{IsStrictlySortedBy};
ghost use Rattle.receipt_core.specs.Receipt.{receipt_cmp};
ghost use Rattle.snapshot_pieces.specs.Pieces.{receipts_after};
ghost use Rattle.snapshot_pieces.specs.Inside.Steps.{AreLent};

use closure_core::{Closure, Receipts};
use receipt_core::Receipt;

/// Receipts that are lent, the first of which is at hand.
#[derive(Drop)]
pub(crate) struct Behind<'a> {
    // Without it there is no receipt.
    pub first: Option<&'a Receipt>,
    pub rest: Receipts<'a>,
}

/// All receipts.
pub(crate) fn all_receipts<C: Closure>(closure: &C) -> Behind<'_>
    ensures { AreLent (C.state closure.now).meaning.held result }
{
    let mut rest = closure.receipts();
    let first = rest.next();
    Behind { first, rest }
}

/// The receipts behind the last one that was written. The number that was written, less one, is
/// passed over; if the next of them is behind the last one, it begins with the first of all.
pub(crate) fn receipts_behind<'a, C: Closure>(
    closure: &'a C,
    last: &Receipt,
    written: usize,
) -> Behind<'a>
    ensures { AreLent (receipts_after (Some last.now) (C.state closure.now).meaning.held) result }
{
    let _config = closure.config();
    let mut rest = passed_over(closure, written.saturating_sub(1));
    match rest.next() {
        Some(receipt) if !last.cmp(receipt).is_lt() => first_behind(rest, last),
        _ => first_behind(closure.receipts(), last),
    }
}

// The receipts without the first ones, which are not looked at.
fn passed_over<C: Closure>(closure: &C, count: usize) -> Receipts<'_>
    ensures { result ≡ drop count (C.state closure.now).meaning.held }
{
    let mut rest = closure.receipts();
    'passed: for _ in 0..count {
        let _ = rest.next();
    }
    rest
}

// Those of the receipts that are behind the last one.
fn first_behind<'a>(mut rest: Receipts<'a>, last: &Receipt) -> Behind<'a>
    requires { IsStrictlySortedBy receipt_cmp rest }
    ensures { AreLent (receipts_after (Some last.now) rest.entry) result }
{
    'receipts: while let Some(receipt) = rest.next() {
        if last.cmp(receipt).is_lt() {
            return Behind {
                first: Some(receipt),
                rest,
            };
        }
    }
    Behind { first: None, rest }
}
