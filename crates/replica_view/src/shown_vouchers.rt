//! The documents that vouch for the receipts that a graph shows. What is known of them is shown,
//! whatever their domain is.
ghost use Rattle.std.specs.Prelude.{◌≡◌, ◌↔◌, ◌&&◌, not, true, IfOk, option_copied};
ghost use Rattle.std.specs.BTreeSet.{IsFromIterResult};
ghost use Rattle.replica_view.specs.TrustGraph.{IsPassedDomain};
ghost use Rattle.replica_view.specs.Inside.ShownVouchers.{AreShownVouchers, IsVoucherSet};
ghost use Rattle.replica_view.specs.Inside.ShownVouchers.{doc_id_cmp, is_current_voucher};
ghost use Rattle.replica_view.specs.Inside.ShownVouchers.{is_passed, is_voucher};

use crate::listing::is_left_aside;
use bundle_doc::{DocId, Document};
use bundle_view::current;
use closure_core::Closure;
use fed_config::Seed;
use receipt_core::Receipt;
use spiffe_name::TrustDomain;
use std::alloc::{AllocError, Global};
use std::collections::BTreeSet;

/// The ids of the documents that vouch for the shown receipts.
pub(crate) fn voucher_set<C: Closure>(
    alloc: Global,
    closure: &C,
    chosen: Option<&TrustDomain>,
) -> Result<BTreeSet<DocId>, AllocError>
    ensures { IfOk result
        (IsVoucherSet (C.state closure.now).meaning (option_copied chosen.entry)) }
{
    let ids = list_vouchers(alloc, closure, chosen)?;
    set_of(alloc, ids)
}

fn set_of(alloc: Global, ids: Vec<DocId>) -> Result<BTreeSet<DocId>, AllocError>
    ensures { IfOk result (IsFromIterResult doc_id_cmp ids.items) }
{
    ids.into_iter().collect(alloc)
}

fn list_vouchers<C: Closure>(
    alloc: Global,
    closure: &C,
    chosen: Option<&TrustDomain>,
) -> Result<Vec<DocId>, AllocError>
    ensures { IfOk result (λ ids. AreShownVouchers (C.state closure.now).meaning
        (option_copied chosen.entry) ids.items) }
{
    let mut ids = Vec::new(alloc);
    for receipt in closure.receipts() {
        if is_left_aside(chosen, receipt.domain()) {
            continue;
        }
        ids.push(receipt.voucher())?;
    }
    Ok(ids)
}

/// Whether the document that the receipt brought is not shown.
pub(crate) fn is_receipt_passed(
    chosen: Option<&TrustDomain>,
    vouchers: &BTreeSet<DocId>,
    receipt: &Receipt,
) -> bool
    ensures { result ≡ is_passed (option_copied chosen.entry) vouchers.now receipt.now.domain
        receipt.now.document }
{
    is_left_aside(chosen, receipt.domain()) && !vouchers.contains(&receipt.document_id())
}

/// Whether the configured document is not shown.
pub(crate) fn is_seed_passed(
    chosen: Option<&TrustDomain>,
    vouchers: &BTreeSet<DocId>,
    seed: &Seed,
) -> bool
    ensures { result ≡ is_passed (option_copied chosen.entry) vouchers.now seed.now.domain
        seed.now.document }
{
    is_left_aside(chosen, &seed.domain) && !is_voucher(vouchers, &seed.domain, &seed.document)
}

/// Whether it is not shown which document of the domain is current.
pub(crate) fn is_domain_passed<C: Closure>(
    closure: &C,
    chosen: Option<&TrustDomain>,
    vouchers: &BTreeSet<DocId>,
    domain: &TrustDomain,
) -> bool
    requires { IsVoucherSet (C.state closure.now).meaning (option_copied chosen)
        vouchers.now }
    ensures { (result ≡ true) ↔ IsPassedDomain (C.state closure.now).meaning
        (option_copied chosen.entry) domain.now }
{
    // What the law needs to say that there is one current document.
    bundle_view::laws::one_view();
    let _accepted = closure.accepted(domain);
    let is_voucher = is_current_voucher(vouchers, domain, current(closure, domain));
    let is_other = is_left_aside(chosen, domain);
    is_other_alone(is_other, is_voucher)
}

// It is another domain, and its current document vouches for nothing that is shown.
fn is_other_alone(is_other: bool, is_voucher: bool) -> bool
    ensures { result ≡ (is_other && not is_voucher) }
{
    is_other && !is_voucher
}

fn is_current_voucher(
    vouchers: &BTreeSet<DocId>,
    domain: &TrustDomain,
    document: Option<&Document>,
) -> bool
    ensures { result ≡ is_current_voucher vouchers.now domain.now (option_copied document.entry) }
{
    match document {
        Some(document) => is_voucher(vouchers, domain, document),
        None => false,
    }
}

fn is_voucher(vouchers: &BTreeSet<DocId>, domain: &TrustDomain, document: &Document) -> bool
    ensures { result ≡ is_voucher vouchers.now domain.now document.now }
{
    vouchers.contains(&document.id(domain))
}
