//! The search for a shortest chain: steps from receipt to receipt, the shortest chains first.
//!
//! The search is breadth first, over one list of steps. A step is a receipt, the place of the step
//! before it, and how many receipts its chain has. Each step looks each offer up once, by a binary
//! search among the needs, and visits all receipts with that need together. The first step of the
//! document ends the search, and the places before it lead back.
ghost use Rattle.std.specs.Prelude.{◌≡◌, ◌↔◌, ◌+◌, ◌<◌, ◌≤◌, ◌∷◌, [], Some, IsTrue, IfOk, OnOk};
ghost use Rattle.std.specs.Prelude.{length, slice_get, slice_set, replicate, reverse, true, false};
ghost use Rattle.std.specs.List.Sorted.{IsSortedByKey};
ghost use Rattle.receipt_core.specs.Receipt.{need_of, pair_of, offers_of, triple_cmp};
ghost use Rattle.closure_core.specs.Inside.Nodes.{is_raised};
ghost use Rattle.closure_core.specs.Inside.Flags.{raised_count};
ghost use Rattle.closure_core.specs.AcceptedList.{document_of};
ghost use Rattle.bundle_view.specs.Inside.Search.{AreFollowed, AreLinkedSteps, AreStrides};
ghost use Rattle.bundle_view.specs.Inside.Search.{AreVisited};
ghost use Rattle.bundle_view.specs.Inside.Search.{FollowsOffers, HasSearched, IsBackFrom};
ghost use Rattle.bundle_view.specs.Inside.Search.{IsSearchBegun};
ghost use Rattle.bundle_view.specs.Inside.Search.{IsEdgeDue, Stride};
ghost use Rattle.receipt_core.specs.Limits.{most_receipts};

use crate::trusted_receipts::TrustedReceipt;
use bundle_doc::Document;
use fed_config::Seed;
use receipt_core::{Receipt, Triple, offers_of};
use spiffe_name::TrustDomain;
use std::alloc::{AllocError, Global};
use std::marker::Model;

/// A receipt that was visited: the place of the step that led to it, if it did not come from a
/// configured document, and how many receipts the chain to it has.
#[derive(Drop)]
pub(crate) struct Step<'a> {
    receipt: &'a Receipt,
    before: Option<usize>,
    length: usize,
}

impl<'a> Model for Step<'a> {
    ghost use Rattle.bundle_view.specs.Inside.Search.{Stride};

    ghost Value = { Stride };

    ghost view = { λ s. record { receipt = s.receipt.now; before = s.before; length = s.length } };
}

/// Goes from the configured documents on until a step is of the document, and returns the place of
/// that step, or none if there is no such step.
pub(crate) fn search<'a>(
    alloc: Global,
    seeds: &[Seed],
    waiting: &[TrustedReceipt<'a>],
    steps: &mut Vec<Step<'a>>,
    domain: &TrustDomain,
    document: &Document,
) -> Result<Option<usize>, AllocError>
    requires sorted { IsSortedByKey need_of triple_cmp waiting.now }
    requires few { length waiting.now ≤ most_receipts }
    requires empty { steps.old.items ≡ [] }
    ensures { IfOk result (HasSearched seeds.now waiting.now steps.new.items
        (document_of domain.now document.now)) }
{
    let mut visited = lowered(alloc, waiting.len())?;
    follow_all(
        alloc,
        seeds,
        waiting,
        visited.as_mut_slice(),
        steps,
        domain,
        document,
    )
}

/// `count` flags, of which none is raised.
fn lowered(alloc: Global, count: usize) -> Result<Vec<bool>, AllocError>
    ensures { IfOk result (λ flags. flags.items ≡ replicate count false) }
{
    vec![in alloc; false; count]
}

/// The receipts from the step at the place back to a configured document, in the order of their
/// chain.
pub(crate) fn chain_to(
    alloc: Global,
    steps: &[Step],
    last: usize,
) -> Result<Vec<Receipt>, AllocError>
    requires linked { AreLinkedSteps steps.now }
    requires within { last < length steps.now }
    ensures { IfOk result (λ chain. IsBackFrom steps.now (Some last) (reverse chain.items)) }
{
    let step = &steps[last];
    let mut chain = Vec::with_capacity(alloc, step.length)?;
    let mut at = Some(last);
    'steps: while let Some(place) = at {
        let step = &steps[place];
        chain.push(step.receipt.try_clone(alloc)?)?;
        at = step.before;
    }
    chain.reverse();
    Ok(chain)
}

/// Follows the seeds and then each step, until one is of the document. Returns its place among the
/// steps.
fn follow_all<'a>(
    alloc: Global,
    seeds: &[Seed],
    waiting: &[TrustedReceipt<'a>],
    visited: &mut [bool],
    steps: &mut Vec<Step<'a>>,
    domain: &TrustDomain,
    document: &Document,
) -> Result<Option<usize>, AllocError>
    requires sorted { IsSortedByKey need_of triple_cmp waiting.now }
    requires few { length waiting.now ≤ most_receipts }
    requires visits { AreVisited waiting.now visited.old steps.old.items 1 }
    requires empty { steps.old.items ≡ [] }
    ensures { IfOk result (HasSearched seeds.now waiting.now steps.new.items
        (document_of domain.now document.now)) }
{
    follow_seeds(alloc, seeds, waiting, visited, steps)?;
    let mut place = 0;
    'steps: while place < steps.len() {
        let step = &steps[place];
        if is_of(step.receipt, domain, document) {
            return Ok(Some(place));
        }
        follow_step(waiting, visited, steps, place)?;
        place += 1;
    }
    Ok(None)
}

/// Whether the receipt is of this document of the domain.
fn is_of(receipt: &Receipt, domain: &TrustDomain, document: &Document) -> bool
    ensures { IsTrue result ↔ (pair_of receipt.now ≡ document_of domain.now document.now) }
{
    *receipt.domain() == *domain && *receipt.document() == *document
}

/// Adds the first steps: those of the receipts that configured documents vouch for.
fn follow_seeds<'a>(
    alloc: Global,
    seeds: &[Seed],
    waiting: &[TrustedReceipt<'a>],
    visited: &mut [bool],
    steps: &mut Vec<Step<'a>>,
) -> Result<(), AllocError>
    requires sorted { IsSortedByKey need_of triple_cmp waiting.now }
    requires visits { AreVisited waiting.now visited.old steps.old.items 1 }
    requires empty { steps.old.items ≡ [] }
    ensures { OnOk result (IsSearchBegun seeds.now waiting.now visited.new steps.new.items) }
{
    for seed in seeds {
        let offers = offers_of(alloc, &seed.domain, &seed.document)?;
        follow(waiting, visited, steps, offers.as_slice(), None, 1)?;
    }
    Ok(())
}

/// Adds the steps that the step at the place leads to.
fn follow_step<'a>(
    waiting: &[TrustedReceipt<'a>],
    visited: &mut [bool],
    steps: &mut Vec<Step<'a>>,
    place: usize,
) -> Result<(), AllocError>
    requires sorted { IsSortedByKey need_of triple_cmp waiting.now }
    requires few { length waiting.now ≤ most_receipts }
    requires within { place < length steps.old.items }
    requires visits { (s : Stride) → slice_get steps.old.items place ≡ Some s
        → AreVisited waiting.now visited.old steps.old.items (s.length + 1) }
    ensures { (s : Stride) → slice_get steps.old.items place ≡ Some s
        → OnOk result (FollowsOffers waiting.now (offers_of (pair_of s.receipt)) (Some place)
        (s.length + 1) steps.old.items visited.new steps.new.items) }
{
    let step = &steps[place];
    let (receipt, chain_len) = (step.receipt, step.length + 1);
    follow(
        waiting,
        visited,
        steps,
        receipt.offers(),
        Some(place),
        chain_len,
    )
}

/// Adds a step for each receipt that needs one of these and was not visited before.
fn follow<'a>(
    waiting: &[TrustedReceipt<'a>],
    visited: &mut [bool],
    steps: &mut Vec<Step<'a>>,
    offers: &[Triple],
    before: Option<usize>,
    chain_len: usize,
) -> Result<(), AllocError>
    requires sorted { IsSortedByKey need_of triple_cmp waiting.now }
    requires early { chain_len ≤ length steps.old.items + 1 }
    requires visits { AreVisited waiting.now visited.old steps.old.items chain_len }
    ensures { OnOk result (FollowsOffers waiting.now offers.now before chain_len steps.old.items
        visited.new steps.new.items) }
{
    for offer in offers {
        follow_offer(waiting, visited, steps, offer, before, chain_len)?;
    }
    Ok(())
}

/// Adds a step for each receipt that needs this, unless they were visited before: all that need the
/// same are visited together.
fn follow_offer<'a>(
    waiting: &[TrustedReceipt<'a>],
    visited: &mut [bool],
    steps: &mut Vec<Step<'a>>,
    offer: &Triple,
    before: Option<usize>,
    chain_len: usize,
) -> Result<(), AllocError>
    requires sorted { IsSortedByKey need_of triple_cmp waiting.now }
    requires early { chain_len ≤ length steps.old.items + 1 }
    requires visits { AreVisited waiting.now visited.old steps.old.items chain_len }
    ensures { OnOk result (FollowsOffers waiting.now (offer.now ∷ []) before chain_len
        steps.old.items visited.new steps.new.items) }
{
    let mut place = waiting.partition_point(|receipt| receipt.is_before(offer));
    'receipts: while is_due(waiting, visited, offer, place) {
        visit(visited, place);
        steps.push(Step {
            receipt: waiting[place].receipt(),
            before,
            length: chain_len,
        })?;
        place += 1;
    }
    Ok(())
}

/// Whether a receipt is at the place that needs this and was not visited before.
fn is_due(waiting: &[TrustedReceipt], visited: &[bool], offer: &Triple, place: usize) -> bool
    requires { length visited.now ≡ length waiting.now }
    ensures { IsTrue result ↔ IsEdgeDue waiting.now visited.now offer.now place }
{
    place < waiting.len() && !visited[place] && waiting[place].needs(offer)
}

fn visit(visited: &mut [bool], place: usize)
    requires within { place < length visited.old }
    requires new { is_raised visited.old place ≡ false }
    ensures flags { visited.new ≡ slice_set visited.old place true }
    ensures count { raised_count visited.new ≡ raised_count visited.old + 1 }
{
    visited[place] = true;
}
