//! The warnings, found.
ghost use Rattle.std.specs.Prelude.{◌≡◌, ◌++◌, ◌∷◌, [], IfOk, OnOk, flat_map};
ghost use Rattle.std.specs.List.{list_any, list_all};
ghost use Rattle.status_warnings.specs.Warnings.{all_domain_faults, domain_warning};
ghost use Rattle.status_warnings.specs.Warnings.{ends_soon, expiry_warning, full_warnings};
ghost use Rattle.status_warnings.specs.Warnings.{has_fault, is_late, is_locked_out, is_quiet};
ghost use Rattle.status_warnings.specs.Warnings.{is_unordered, is_without, late_warning};
ghost use Rattle.status_warnings.specs.Warnings.{lists_no_trusted, peer_warning};
ghost use Rattle.status_warnings.specs.Warnings.{quiet_since, quiet_warning, sight_of};
ghost use Rattle.status_warnings.specs.Warnings.{same_key_warning};
ghost use Rattle.status_warnings.specs.Warnings.{stock_warning, warnings_of, warnings_of_fault};

use crate::peer_address::PeerAddress;
use crate::seen::{CertificateEnd, Fetch, SamePublicKey, Seen, WarnLimits};
use crate::warning_kinds::{DomainFault, Stock, Warning};
use status_view::{CurrentStatus, DomainStatus, KeyStatus, PeerStatus, Status, is_nearly_full};
use std::alloc::{AllocError, Global};

static FAULTS: [DomainFault; 4] = [
    DomainFault::NoCurrent,
    DomainFault::LockedOut,
    DomainFault::Conflict,
    DomainFault::NoSequence,
];

/// What is wrong, in this order:
///
/// | Kind | When it is found |
/// |---|---|
/// | `no-current` | a trust domain of the configuration has no current bundle |
/// | `locked-out` | its current bundle has no X.509 authority, or only distrusted ones |
/// | `conflict` | several of its accepted bundles have one sequence number |
/// | `no-sequence` | its current bundle has no sequence number, and another bundle is accepted |
/// | `same-key` | an accepted bundle has a key that is not distrusted, though a distrusted key of
/// the domain has its public key |
/// | `expires` | a certificate ends within the days of the limits, or has ended |
/// | `not-fetched` | no poll of it succeeded for three times its wait, or none ever did |
/// | `quiet-peer` | no session with a peer ended well for the seconds of the limits, nor since the
/// replica began |
/// | `nearly-full` | more than nine tenths of the receipts or of the records are held |
///
/// Within a kind, what is looked at is in its own order: domains are sorted.
///
/// # Errors
/// Memory ran out.
pub fn find_warnings(
    alloc: Global,
    limits: &WarnLimits,
    seen: &Seen<'_>,
) -> Result<Vec<Warning>, AllocError>
    ensures { IfOk result (λ warnings. warnings.items
        ≡ warnings_of limits.now (sight_of seen.now)) }
{
    let mut found = Vec::new(alloc);
    push_faults(alloc, &mut found, seen.status.domains.as_slice())?;
    push_same_keys(alloc, &mut found, seen.same_keys)?;
    push_expiries(alloc, &mut found, limits, seen.certificates)?;
    push_late(alloc, &mut found, limits, seen.fetches)?;
    push_quiet(alloc, &mut found, limits, seen.began, seen.peers)?;
    push_full(&mut found, seen.status)?;
    Ok(found)
}

fn push_faults(
    alloc: Global,
    found: &mut Vec<Warning>,
    domains: &[DomainStatus],
) -> Result<(), AllocError>
    ensures { OnOk result (found.new.items ≡ found.old.items
        ++ flat_map (warnings_of_fault domains.now) all_domain_faults) }
{
    for &fault in all_domain_faults() {
        push_fault(alloc, found, domains, fault)?;
    }
    Ok(())
}

fn all_domain_faults() -> &'static [DomainFault]
    ensures { result.now ≡ all_domain_faults }
{
    FAULTS.as_slice()
}

fn push_fault(
    alloc: Global,
    found: &mut Vec<Warning>,
    domains: &[DomainStatus],
    fault: DomainFault,
) -> Result<(), AllocError>
    ensures { OnOk result (found.new.items
        ≡ found.old.items ++ flat_map (domain_warning fault) domains.now) }
{
    for domain in domains {
        push_fault_of(alloc, found, domain, fault)?;
    }
    Ok(())
}

fn push_fault_of(
    alloc: Global,
    found: &mut Vec<Warning>,
    domain: &DomainStatus,
    fault: DomainFault,
) -> Result<(), AllocError>
    ensures { OnOk result (found.new.items ≡ found.old.items ++ domain_warning fault domain.now) }
{
    if has_fault(domain, fault) {
        found.push(Warning::Domain(fault, domain.domain.try_clone(alloc)?))?;
    }
    Ok(())
}

fn has_fault(domain: &DomainStatus, fault: DomainFault) -> bool
    ensures { result ≡ has_fault fault domain.now }
{
    match fault {
        DomainFault::NoCurrent => is_without(&domain.current),
        DomainFault::LockedOut => is_locked_out(&domain.current),
        DomainFault::Conflict => 0 < domain.conflicts,
        DomainFault::NoSequence => 1 < domain.accepted && is_unordered(&domain.current),
    }
}

fn is_without(current: &Option<CurrentStatus>) -> bool
    ensures { result ≡ is_without current.now }
{
    match current {
        Some(_) => false,
        None => true,
    }
}

fn is_locked_out(current: &Option<CurrentStatus>) -> bool
    ensures { result ≡ is_locked_out current.now }
{
    match current {
        Some(current) => lists_no_trusted(current.keys.as_slice()),
        None => false,
    }
}

fn lists_no_trusted(keys: &[KeyStatus]) -> bool
    ensures { result ≡ lists_no_trusted keys.now }
{
    keys.iter().all(|key| key.is_distrusted)
}

fn is_unordered(current: &Option<CurrentStatus>) -> bool
    ensures { result ≡ is_unordered current.now }
{
    match current {
        Some(current) => current.sequence.is_none(),
        None => false,
    }
}

fn push_same_keys(
    alloc: Global,
    found: &mut Vec<Warning>,
    same_keys: &[SamePublicKey],
) -> Result<(), AllocError>
    ensures { OnOk result (found.new.items
        ≡ found.old.items ++ flat_map same_key_warning same_keys.now) }
{
    for same in same_keys {
        found.push(Warning::SameKey(same.domain.try_clone(alloc)?, same.key))?;
    }
    Ok(())
}

fn push_expiries(
    alloc: Global,
    found: &mut Vec<Warning>,
    limits: &WarnLimits,
    certificates: &[CertificateEnd],
) -> Result<(), AllocError>
    ensures { OnOk result (found.new.items
        ≡ found.old.items ++ flat_map (expiry_warning limits.now) certificates.now) }
{
    for certificate in certificates {
        push_expiry(alloc, found, limits, certificate)?;
    }
    Ok(())
}

fn push_expiry(
    alloc: Global,
    found: &mut Vec<Warning>,
    limits: &WarnLimits,
    certificate: &CertificateEnd,
) -> Result<(), AllocError>
    ensures { OnOk result (found.new.items
        ≡ found.old.items ++ expiry_warning limits.now certificate.now) }
{
    if ends_soon(limits, certificate) {
        let domain = certificate.domain.try_clone(alloc)?;
        found.push(Warning::Expires(domain, certificate.key, certificate.not_after))?;
    }
    Ok(())
}

fn ends_soon(limits: &WarnLimits, certificate: &CertificateEnd) -> bool
    ensures { result ≡ ends_soon limits.now certificate.now }
{
    let within = i128::from(limits.expires_within) * 86_400;
    i128::from(certificate.not_after) <= i128::from(limits.moment) + within
}

fn push_late(
    alloc: Global,
    found: &mut Vec<Warning>,
    limits: &WarnLimits,
    fetches: &[Fetch],
) -> Result<(), AllocError>
    ensures { OnOk result (found.new.items
        ≡ found.old.items ++ flat_map (late_warning limits.now) fetches.now) }
{
    for fetch in fetches {
        push_late_fetch(alloc, found, limits, fetch)?;
    }
    Ok(())
}

fn push_late_fetch(
    alloc: Global,
    found: &mut Vec<Warning>,
    limits: &WarnLimits,
    fetch: &Fetch,
) -> Result<(), AllocError>
    ensures { OnOk result (found.new.items
        ≡ found.old.items ++ late_warning limits.now fetch.now) }
{
    if is_late(limits.moment, fetch.fetched, fetch.wait) {
        let domain = fetch.domain.try_clone(alloc)?;
        found.push(Warning::NotFetched(domain, fetch.fetched))?;
    }
    Ok(())
}

fn is_late(now: i64, fetched: Option<i64>, wait: u64) -> bool
    ensures { result ≡ is_late now fetched wait }
{
    match fetched {
        Some(fetched) => i128::from(fetched) + i128::from(wait) * 3 <= i128::from(now),
        None => true,
    }
}

fn push_quiet(
    alloc: Global,
    found: &mut Vec<Warning>,
    limits: &WarnLimits,
    began: u64,
    peers: &[PeerStatus],
) -> Result<(), AllocError>
    ensures { OnOk result (found.new.items
        ≡ found.old.items ++ flat_map (quiet_warning limits.now began) peers.now) }
{
    for peer in peers {
        push_quiet_of(alloc, found, limits, began, peer)?;
    }
    Ok(())
}

fn push_quiet_of(
    alloc: Global,
    found: &mut Vec<Warning>,
    limits: &WarnLimits,
    began: u64,
    peer: &PeerStatus,
) -> Result<(), AllocError>
    ensures { OnOk result (found.new.items
        ≡ found.old.items ++ quiet_warning limits.now began peer.now) }
{
    push_quiet_peer(
        alloc,
        found,
        limits,
        quiet_since(began, peer.ended_well),
        peer,
    )
}

fn quiet_since(began: u64, ended_well: Option<u64>) -> u64
    ensures { result ≡ quiet_since began ended_well }
{
    match ended_well {
        Some(second) => second,
        None => began,
    }
}

fn push_quiet_peer(
    alloc: Global,
    found: &mut Vec<Warning>,
    limits: &WarnLimits,
    since: u64,
    peer: &PeerStatus,
) -> Result<(), AllocError>
    ensures { OnOk result (found.new.items
        ≡ found.old.items ++ peer_warning limits.now since peer.now) }
{
    if is_quiet(limits, since) {
        let address = PeerAddress::new(alloc, peer.address.as_str())?;
        found.push(Warning::QuietPeer(address, since))?;
    }
    Ok(())
}

fn is_quiet(limits: &WarnLimits, since: u64) -> bool
    ensures { result ≡ is_quiet limits.now since }
{
    i128::from(since) + i128::from(limits.peer_quiet) <= i128::from(limits.moment)
}

fn push_full(found: &mut Vec<Warning>, status: &Status) -> Result<(), AllocError>
    ensures { OnOk result (found.new.items ≡ found.old.items ++ full_warnings status.now) }
{
    push_stock(
        found,
        Stock::Receipts,
        status.receipts,
        status.receipt_limit,
    )?;
    push_stock(found, Stock::Records, status.records, status.record_limit)?;
    Ok(())
}

fn push_stock(
    found: &mut Vec<Warning>,
    stock: Stock,
    held: u64,
    most: u64,
) -> Result<(), AllocError>
    ensures { OnOk result (found.new.items ≡ found.old.items ++ stock_warning stock held most) }
{
    if is_nearly_full(held, most) {
        found.push(Warning::NearlyFull(stock, held, most))?;
    }
    Ok(())
}
