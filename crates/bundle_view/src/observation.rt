//! What is made of the bytes that an endpoint served, and of TLS's verdict on the endpoint. In
//! order: the relationship and its endpoint, the current document of the endpoint's trust domain,
//! the key in it, the records of distrust, the bytes, the floor of the domain, and then the
//! receipt.
ghost use Rattle.std.specs.Prelude.{MatchResult};
ghost use Rattle.fed_config.specs.Configuration.{IsConfiguration};
ghost use Rattle.receipt_core.specs.Acceptance.{IsMeaning};
ghost use Rattle.receipt_core.specs.Receipt.{IsReceipt};
ghost use Rattle.bundle_view.specs.Observe.{FetchedBundle, HasNotObserved, HasObserved};
ghost use Rattle.bundle_view.specs.Observe.{IsEndpointOf, IsObservation, RefusesEndpoint};
ghost use Rattle.bundle_view.specs.Observe.{RefusesObservation, RefusesVerdict};
ghost use Rattle.bundle_view.specs.Inside.Observing.{HasKept, HasNotKept, IsVoucher};

use crate::current_document::current;
use crate::observe_error::ObserveError;
use bundle_doc::{DocId, Document};
use closure_core::{Closure, TakeError};
use fed_config::Config;
use jwk_set::KeyId;
use receipt_core::{Receipt, reaches_floor};
use spiffe_name::{SpiffeId, TrustDomain};
use std::alloc::Global;

/// What TLS found out of the endpoint that served a bundle, by validating its X.509-SVID (SPIFFE
/// X.509-SVID, section 5). It is believed.
#[derive(Debug, Drop)]
pub struct Verdict {
    /// The SPIFFE ID of the endpoint.
    pub endpoint: SpiffeId,
    /// The key of the authority under which the endpoint's certificate was validated.
    pub key: KeyId,
}

/// Takes the receipt of a bundle that was fetched: the bytes as a document of the domain, served by
/// the verdict's endpoint, with the current document of the endpoint's trust domain as voucher and
/// the verdict's key (SPIFFE Federation, section 5.2, profile `https_spiffe`). Returns that
/// receipt, which is held from now on, as it may have been before. Its document is accepted, and
/// may be the current one of its domain, even of the endpoint's: the voucher is the document that
/// was current before.
///
/// # Errors
/// What is held is as before. The first of these that holds:
/// - [`ObserveError::NoRelationship`]: the configuration has no relationship with the domain,
/// - [`ObserveError::WrongEndpoint`]: that relationship has another endpoint than the verdict,
/// - [`ObserveError::NoVoucherBundle`]: no document of the endpoint's trust domain is accepted,
/// - [`ObserveError::KeyNotInCurrent`]: no X.509 authority of its current document has the
///   verdict's key, or the key is distrusted there,
/// - [`ObserveError::Document`]: the bytes are not a document, for the cause of [`Document::read`]
///   that is in it,
/// - [`ObserveError::Take`] with `BelowFloor`: the document is below the floor of the domain,
/// - [`ObserveError::Take`] with `Full`: the receipt is not held, and no more may be.
///
/// If memory ran out it is [`ObserveError::Take`] with `NoMemory`, which never comes if the verdict
/// is refused or the bytes are too many.
pub fn observe<C: Closure>(
    alloc: Global,
    closure: &mut C,
    domain: &TrustDomain,
    bytes: &[u8],
    verdict: &Verdict,
) -> Result<Receipt, ObserveError>
    ensures { MatchResult result
        (HasObserved (C.state closure.old).meaning
        (record { domain = domain.now; bytes = bytes.now; verdict = verdict.now })
        (C.state closure.new).meaning)
        (HasNotObserved (C.state closure.old)
        (record { domain = domain.now; bytes = bytes.now; verdict = verdict.now })
        (C.state closure.new)) }
{
    let receipt = observed_receipt(alloc, closure, domain, bytes, verdict)?;
    let copy = receipt.try_clone(alloc)?;
    take_observed(closure, receipt)?;
    Ok(copy)
}

/// The receipt that [`observe`] takes of a bundle that was fetched. Nothing is taken here.
///
/// # Errors
/// Those of [`observe`] but `Full`.
pub fn observed_receipt<C: Closure>(
    alloc: Global,
    closure: &C,
    domain: &TrustDomain,
    bytes: &[u8],
    verdict: &Verdict,
) -> Result<Receipt, ObserveError>
    ensures { MatchResult result
        (IsObservation (C.state closure.now).meaning
        (record { domain = domain.now; bytes = bytes.now; verdict = verdict.now }))
        (RefusesObservation (C.state closure.now).meaning
        (record { domain = domain.now; bytes = bytes.now; verdict = verdict.now })) }
{
    let voucher = find_voucher(closure, domain, verdict)?;
    let document = Document::read(alloc, bytes)?;
    if !reaches_floor(closure.config(), domain, &document) {
        return Err(ObserveError::Take(TakeError::BelowFloor));
    }
    let receipt = Receipt::new(
        alloc,
        domain.try_clone(alloc)?,
        verdict.endpoint.try_clone(alloc)?,
        document,
        voucher,
        verdict.key,
    )?;
    Ok(receipt)
}

/// Takes a receipt that [`observed_receipt`] returned of what is held: its document is accepted
/// from now on.
///
/// # Errors
/// What is held is as before. [`ObserveError::Take`] with `Full`: the receipt is not held, and
/// no more may be held; or with `NoMemory`: memory ran out.
pub fn take_observed<C: Closure>(closure: &mut C, receipt: Receipt) -> Result<(), ObserveError>
    ensures { (fetched : FetchedBundle)
        → IsObservation (C.state closure.old).meaning fetched receipt → MatchResult result
        (λ _. HasObserved (C.state closure.old).meaning fetched (C.state closure.new).meaning
        receipt)
        (HasNotObserved (C.state closure.old) fetched (C.state closure.new)) }
{
    keep(closure, receipt)
}

/// The id of the current document of the endpoint's trust domain, if the verdict is one that the
/// configuration asks for, and the key is that of an X.509 authority of this document and trusted.
fn find_voucher<C: Closure>(
    closure: &C,
    domain: &TrustDomain,
    verdict: &Verdict,
) -> Result<DocId, ObserveError>
    ensures { MatchResult result (IsVoucher (C.state closure.now).meaning domain.now verdict.now)
        (RefusesVerdict (C.state closure.now).meaning domain.now verdict.now) }
{
    check_endpoint(closure.config(), domain, &verdict.endpoint)?;
    let home = verdict.endpoint.domain();
    let Some(voucher) = current(closure, home) else {
        return Err(ObserveError::NoVoucherBundle);
    };
    if !voucher.has_key(&verdict.key) {
        return Err(ObserveError::KeyNotInCurrent);
    }
    if closure.is_distrusted(home, verdict.key) {
        return Err(ObserveError::KeyNotInCurrent);
    }
    Ok(voucher.id(home))
}

/// Whether the configuration has a relationship with the domain, and this endpoint in it.
fn check_endpoint(
    config: &Config,
    domain: &TrustDomain,
    endpoint: &SpiffeId,
) -> Result<(), ObserveError>
    ensures { MatchResult result (λ _. IsEndpointOf config.now domain.now endpoint.now)
        (RefusesEndpoint config.now domain.now endpoint.now) }
{
    let Some(relationship) = config.relationship(domain) else {
        return Err(ObserveError::NoRelationship);
    };
    if relationship.endpoint.as_str() == endpoint.as_str() {
        Ok(())
    } else {
        Err(ObserveError::WrongEndpoint)
    }
}

fn keep<C: Closure>(closure: &mut C, receipt: Receipt) -> Result<(), ObserveError>
    ensures kept { MatchResult result
        (λ _. HasKept (C.state closure.old) receipt (C.state closure.new))
        (HasNotKept (C.state closure.old) receipt (C.state closure.new)) }
    ensures form { IsReceipt receipt }
    ensures valid { IsMeaning (C.state closure.old).meaning }
    ensures configuration { IsConfiguration (C.state closure.old).meaning.config }
{
    // What these lend shows the form of the receipt and of the configuration.
    let _domain = receipt.domain();
    let _domains = closure.config().domains();
    match closure.take(receipt) {
        Ok(_) => Ok(()),
        Err(refused) => Err(ObserveError::Take(refused.why)),
    }
}
