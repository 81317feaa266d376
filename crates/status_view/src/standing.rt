//! The status of a replica, and whether it has a warning.
ghost use Rattle.std.specs.Prelude.{◌≡◌, IfOk, nat_lt, length};
ghost use Rattle.std.specs.List.{list_any};
ghost use Rattle.status_view.specs.Status.{IsStatus, has_warning, is_nearly_full};
ghost use Rattle.status_view.specs.Status.{lists_distrusted};

use crate::domain_standing::domain_statuses;
use crate::keyless::keyless_seeds;
use crate::status::{CurrentStatus, DomainStatus, KeyStatus, KeylessSeed, Status};
use bundle_view::conflicts;
use closure_core::{Closure, NoMemory};
use receipt_core::{receipt_limit, record_limit};
use std::alloc::Global;

/// The status of a replica: the digest of its configuration, what it holds, and for each trust
/// domain the current document, the accepted ones and the conflicts.
///
/// The work grows with the number of accepted documents, and with the product of the numbers of
/// domains and conflicts.
///
/// # Errors
/// Memory ran out.
pub fn read_status<C: Closure>(alloc: Global, closure: &C) -> Result<Status, NoMemory>
    ensures { IfOk result (IsStatus (C.state closure.now).meaning) }
{
    let clashes = conflicts(alloc, closure)?;
    Ok(Status {
        config: closure.config().digest(),
        receipts: closure.receipt_count() as u64,
        receipt_limit: receipt_limit(closure.config()) as u64,
        pending: closure.pending_count() as u64,
        records: closure.distrusts().count() as u64,
        record_limit: record_limit(closure.config()) as u64,
        domains: domain_statuses(alloc, closure, clashes.as_slice())?,
        keyless_seeds: keyless_seeds(alloc, closure.config().seeds())?,
    })
}

/// Whether an operator has to do something: a configured document has no X.509 authority, a current
/// one lists a key that is distrusted in its domain, or more than nine tenths of the receipts or of
/// the records of distrust that may be held are held.
pub fn has_warning(status: &Status) -> bool
    ensures { result ≡ has_warning status.now }
{
    has_any(status.keyless_seeds.as_slice())
        || some_list_distrusted(status.domains.as_slice())
        || is_nearly_full(status.receipts, status.receipt_limit)
        || is_nearly_full(status.records, status.record_limit)
}

fn has_any(seeds: &[KeylessSeed]) -> bool
    ensures { result ≡ nat_lt 0 (length seeds.now) }
{
    !seeds.is_empty()
}

fn some_list_distrusted(domains: &[DomainStatus]) -> bool
    ensures { result ≡ list_any (λ d. lists_distrusted d.current) domains.now }
{
    domains
        .iter()
        .any(|domain| lists_distrusted(&domain.current))
}

fn lists_distrusted(current: &Option<CurrentStatus>) -> bool
    ensures { result ≡ lists_distrusted current.now }
{
    match current {
        Some(current) => some_is_distrusted(current.keys.as_slice()),
        None => false,
    }
}

fn some_is_distrusted(keys: &[KeyStatus]) -> bool
    ensures { result ≡ list_any (λ k. k.is_distrusted) keys.now }
{
    keys.iter().any(|key| key.is_distrusted)
}

/// Whether more than nine tenths of the limit are held.
pub fn is_nearly_full(count: u64, limit: u64) -> bool
    ensures { result ≡ is_nearly_full count limit }
{
    u128::from(limit) * 9 < u128::from(count) * 10
}
