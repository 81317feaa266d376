//! Records of distrust as a caller gives them, in whatever order.
ghost use Rattle.std.specs.Prelude.{◌≡◌, ◌↔◌, IsTrue, Any, Contains};
ghost use Rattle.std.specs.List.Sorted.{IsSorted};
ghost use Rattle.receipt_core.specs.Receipt.{distrust_cmp};
ghost use Rattle.receipt_core.specs.Acceptance.{distrust_of};

use crate::distrust::Distrust;
use crate::line_reader::is_same;
use crate::receipt::Receipt;
use spiffe_name::TrustDomain;
use std::cmp::Ordering;
use std::marker::Model;

/// Records of distrust, and whether they are in their order: then they are searched, and else read
/// through. A replica lends them in their order.
#[derive(Drop)]
pub(crate) struct GivenRecords<'a> {
    items: &'a [Distrust],
    sorted: bool,
}

impl<'a> Model for GivenRecords<'a> {
    ghost use Rattle.std.specs.Prelude.{List, IsTrue};
    ghost use Rattle.std.specs.List.Sorted.{IsSorted};
    ghost use Rattle.receipt_core.specs.Receipt.{distrust_cmp};
    ghost use Rattle.receipt_core.specs.declared.distrust.Distrust.{Distrust};

    ghost Value = { List Distrust };

    ghost view = { λ r. r.items.now };

    ghost invariant = { λ r. IsTrue r.sorted → IsSorted distrust_cmp r.items.now };
}

impl<'a> GivenRecords<'a> {
    /// Looks once at each record.
    pub(crate) fn new(items: &'a [Distrust]) -> GivenRecords<'a>
        ensures { result ≡ items.now }
    {
        GivenRecords {
            items,
            sorted: items.is_sorted(),
        }
    }

    /// Whether a record names the receipt's key in its endpoint's trust domain.
    pub(crate) fn has_key_of(&self, receipt: &Receipt) -> bool
        ensures { IsTrue result
            ↔ Contains self.now (distrust_of receipt.now.endpoint.domain receipt.now) }
    {
        if self.sorted {
            is_found(self.items, receipt)
        } else {
            is_listed(self.items, receipt)
        }
    }
}

// Whether a binary search finds such a record.
fn is_found(distrusts: &[Distrust], receipt: &Receipt) -> bool
    requires { IsSorted distrust_cmp distrusts.now }
    ensures { IsTrue result
        ↔ Contains distrusts.now (distrust_of receipt.now.endpoint.domain receipt.now) }
{
    distrusts
        .binary_search_by(|distrust| compare(distrust, receipt))
        .is_ok()
}

fn compare(distrust: &Distrust, receipt: &Receipt) -> Ordering
    ensures { result
        ≡ distrust_cmp distrust.now (distrust_of receipt.now.endpoint.domain receipt.now) }
{
    let domains = distrust.domain.cmp(receipt.endpoint().domain());
    distrust.key.cmp(&receipt.key()).then(domains)
}

// Whether one of all records is such a one.
fn is_listed(distrusts: &[Distrust], receipt: &Receipt) -> bool
    ensures { IsTrue result
        ↔ Any (λ x. x ≡ distrust_of receipt.now.endpoint.domain receipt.now) distrusts.now }
{
    distrusts.iter().any(|distrust| is_about(distrust, receipt))
}

fn is_about(distrust: &Distrust, receipt: &Receipt) -> bool
    ensures { IsTrue result ↔ (distrust.now ≡ distrust_of receipt.now.endpoint.domain receipt.now) }
{
    is_same_domain(&distrust.domain, receipt.endpoint().domain()) && distrust.key == receipt.key()
}

pub(crate) fn is_same_domain(one: &TrustDomain, other: &TrustDomain) -> bool
    ensures { IsTrue result ↔ (one.now ≡ other.now) }
{
    is_same(one.as_str().as_bytes(), other.as_str().as_bytes())
}
