//! Documents of domains by number: those of the configuration, and then those of the receipts in
//! order of arrival.
ghost use Rattle.std.specs.Prelude.{◌≡◌, ◌<◌, length, slice_get, Some};
ghost use Rattle.std.specs.Option.{option_map};
ghost use Rattle.bundle_doc.specs.Bundle.{doc_id_of};
ghost use Rattle.closure_core.specs.Inside.Nodes.{pairs_of};

use bundle_doc::{DocId, Document};
use fed_config::Seed;
use receipt_core::Receipt;
use spiffe_name::TrustDomain;

/// The document with a number, for those who implement [`crate::Closure`].
pub fn document_at<'a>(seeds: &'a [Seed], receipts: &'a [Receipt], number: usize) -> &'a Document
    requires { number < length (pairs_of seeds.now receipts.now) }
    ensures { option_map (λ p. p.document) (slice_get (pairs_of seeds.now receipts.now) number)
        ≡ Some result.now }
{
    if number < seeds.len() {
        &seeds[number].document
    } else {
        receipts[number - seeds.len()].document()
    }
}

/// The domain of the document with a number, for those who implement [`crate::Closure`].
pub fn domain_at<'a>(seeds: &'a [Seed], receipts: &'a [Receipt], number: usize) -> &'a TrustDomain
    requires { number < length (pairs_of seeds.now receipts.now) }
    ensures { option_map (λ p. p.domain) (slice_get (pairs_of seeds.now receipts.now) number)
        ≡ Some result.now }
{
    if number < seeds.len() {
        &seeds[number].domain
    } else {
        receipts[number - seeds.len()].domain()
    }
}

/// The document with a number, and its id as one of this domain, which is at hand if it is the
/// document's own domain and the document is a receipt's that offers something.
pub(crate) fn document_with_id<'a>(
    seeds: &'a [Seed],
    receipts: &'a [Receipt],
    number: usize,
    domain: &TrustDomain,
) -> (&'a Document, DocId)
    requires { number < length (pairs_of seeds.now receipts.now) }
    ensures document { option_map (λ p. p.document)
        (slice_get (pairs_of seeds.now receipts.now) number)
        ≡ Some result.0.now }
    ensures id { result.1.0 ≡ doc_id_of domain.now result.0.now }
{
    if number < seeds.len() {
        let document = &seeds[number].document;
        (document, document.id(domain))
    } else {
        let receipt = &receipts[number - seeds.len()];
        (receipt.document(), id_in(receipt, domain))
    }
}

/// The id of the receipt's document as one of this domain.
fn id_in(receipt: &Receipt, domain: &TrustDomain) -> DocId
    ensures { result.0 ≡ doc_id_of domain.now receipt.now.document }
{
    if receipt.domain().as_str() == domain.as_str() {
        receipt.document_id()
    } else {
        receipt.document().id(domain)
    }
}
