//! Which of the receipts that are held fit a configuration with raised floors.
ghost use Rattle.std.specs.Prelude.{◌≡◌, ◌↔◌, ℕ, IsTrue, Option, Some};
ghost use Rattle.fed_config.specs.Configuration.{Configuration, Reaches};
ghost use Rattle.receipt_core.specs.Acceptance.{IsFitting};
ghost use Rattle.reseeding.specs.Reseeding.{IsNewConfig, IsStayCount};
ghost use Rattle.reseeding.specs.declared.new_floors.FloorChoice.TheVariants.{Raised};

use crate::new_floors::raised_floor;
use bundle_doc::Document;
use closure_core::Closure;
use receipt_core::Receipt;

/// How many of the receipts that are held fit a configuration with raised floors. For each receipt
/// the current document of its domain is looked up.
pub(crate) fn count_staying<C: Closure>(closure: &C) -> usize
    ensures { (c : Configuration) → IsNewConfig Raised (C.state closure.now).meaning c
        → IsStayCount (C.state closure.now).meaning c result }
{
    let _valid = closure.config();
    let mut count = 0usize;
    'receipts: for receipt in closure.receipts() {
        if is_staying(closure, receipt) {
            count += 1;
        }
    }
    count
}

fn is_staying<C: Closure>(closure: &C, receipt: &Receipt) -> bool
    ensures { (c : Configuration) → IsNewConfig Raised (C.state closure.now).meaning c
        → IsFitting (C.state closure.now).meaning.config receipt.now
        → (IsTrue result ↔ IsFitting c receipt.now) }
{
    reaches(receipt.document(), raised_floor(closure, receipt.domain()))
}

// Whether the document reaches the floor, if there is one.
fn reaches(document: &Document, floor: Option<u64>) -> bool
    ensures { IsTrue result ↔ ((n : ℕ) → floor ≡ Some n → Reaches n document.now) }
{
    match (floor, document.rank()) {
        (None, _) => true,
        (Some(floor), Some(sequence)) => floor <= sequence,
        (Some(_), None) => false,
    }
}
