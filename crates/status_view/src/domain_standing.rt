//! The statuses of the trust domains of a configuration.
ghost use Rattle.std.specs.Prelude.{◌≡◌, IfOk, filter, length, map};
ghost use Rattle.std.specs.Str.{bytes_eq};
ghost use Rattle.closure_core.specs.AcceptedList.{IsAcceptedList};
ghost use Rattle.bundle_view.specs.Conflicts.{reported_by};
ghost use Rattle.status_view.specs.Status.{IsDomainStatus, is_clash_of};
ghost use Rattle.status_view.specs.Inside.DomainsSoFar.{AreAllStatuses};

use crate::current_status::current_status;
use crate::status::DomainStatus;
use bundle_doc::Document;
use bundle_view::{Conflict, current};
use closure_core::Closure;
use spiffe_name::TrustDomain;
use std::alloc::{AllocError, Global};
use std::marker::Model;

// A document that a closure lends.
#[derive(Drop)]
struct AcceptedDocument<'a> {
    document: &'a Document,
}

impl<'a> Model for AcceptedDocument<'a> {
    ghost use Rattle.bundle_doc.specs.Bundle.{Bundle};

    ghost Value = { Bundle };

    ghost view = { λ a. a.document.now };
}

/// The status of each domain of the configuration, sorted. The conflicts are those of all domains.
pub(crate) fn domain_statuses<C: Closure>(
    alloc: Global,
    closure: &C,
    clashes: &[Conflict],
) -> Result<Vec<DomainStatus>, AllocError>
    ensures { IfOk result (λ statuses. AreAllStatuses (C.state closure.now).meaning
        (map reported_by clashes.now) statuses.items) }
{
    let mut statuses = Vec::new(alloc);
    for domain in closure.config().domains() {
        statuses.push(domain_status(alloc, closure, clashes, domain)?)?;
    }
    Ok(statuses)
}

fn domain_status<C: Closure>(
    alloc: Global,
    closure: &C,
    clashes: &[Conflict],
    domain: &TrustDomain,
) -> Result<DomainStatus, AllocError>
    ensures of { IfOk result (λ s. s.domain ≡ domain.now) }
    ensures is { IfOk result
        (IsDomainStatus (C.state closure.now).meaning (map reported_by clashes.now)) }
{
    Ok(DomainStatus {
        domain: domain.try_clone(alloc)?,
        current: current_status(alloc, closure, domain, current(closure, domain))?,
        accepted: accepted_documents(alloc, closure, domain)?.len() as u64,
        conflicts: count_of(clashes, domain) as u64,
    })
}

// They are listed to be counted: the length of a list in memory is known to fit 64 bits.
fn accepted_documents<'a, C: Closure>(
    alloc: Global,
    closure: &'a C,
    domain: &TrustDomain,
) -> Result<Vec<AcceptedDocument<'a>>, AllocError>
    ensures { IfOk result (λ documents. IsAcceptedList (C.state closure.now).meaning domain.now
        documents.items) }
{
    let mut documents = Vec::new(alloc);
    for document in closure.accepted(domain) {
        documents.push(AcceptedDocument { document })?;
    }
    Ok(documents)
}

// How many of the conflicts are of the domain.
fn count_of(clashes: &[Conflict], domain: &TrustDomain) -> usize
    ensures { result ≡ length (filter (is_clash_of domain.now) (map reported_by clashes.now)) }
{
    count_own(clashes, domain)
}

fn count_own(clashes: &[Conflict], domain: &TrustDomain) -> usize
    ensures { result ≡ length (filter (λ c. bytes_eq c.domain domain.now) clashes.now) }
{
    clashes
        .iter()
        .filter(|clash| clash.domain.as_str() == domain.as_str())
        .count()
}
