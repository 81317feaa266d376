//! When each domain is polled next.
ghost use Rattle.std.specs.Prelude.{◌≡◌, Contains, IfOk};
ghost use Rattle.poll_log.specs.Polling.{polled, polled_domains, standing_in};
ghost use Rattle.poll_view.specs.NextPolls.{AreNextPolls, IsDomainPoll, IsHint, IsNextPoll};

use bundle_view::current;
use closure_core::Closure;
use jiff::Timestamp;
use poll_log::PollLog;
use spiffe_name::TrustDomain;
use std::alloc::{AllocError, Global};

/// When a domain is polled next.
#[derive(Clone, Copy, Debug)]
pub enum NextPoll {
    /// Now.
    Due,
    /// At this later time.
    At(Timestamp),
    /// Past the range of times.
    PastRange,
}

/// When this domain is polled next.
#[derive(Debug, Drop)]
pub struct DomainPoll {
    /// The domain, with which the configuration has a relationship.
    pub domain: TrustDomain,
    /// Its next poll.
    pub next: NextPoll,
}

/// For each relationship of the configuration, sorted by domain, when its domain is polled next
/// after the polls of the log. The refresh hint is that of the domain's current document (SPIFFE
/// Trust Domain and Bundle, section 4.1.2). No clock is read.
///
/// # Errors
/// Memory ran out.
pub fn next_polls<C: Closure>(
    alloc: Global,
    closure: &C,
    log: &PollLog,
    now: Timestamp,
) -> Result<Vec<DomainPoll>, AllocError>
    requires { polled_domains log.now ≡ polled (C.state closure.now).meaning.config }
    ensures { IfOk result (λ polls. AreNextPolls
        (record { meaning = (C.state closure.now).meaning; log = log.now; now = now.nanosecond })
        polls.items) }
{
    let mut polls = Vec::new(alloc);
    for relationship in closure.config().relationships() {
        polls.push(domain_poll(alloc, closure, log, &relationship.domain, now)?)?;
    }
    Ok(polls)
}

fn domain_poll<C: Closure>(
    alloc: Global,
    closure: &C,
    log: &PollLog,
    domain: &TrustDomain,
    now: Timestamp,
) -> Result<DomainPoll, AllocError>
    requires { Contains (polled_domains log.now) domain.now }
    ensures { IfOk result (IsDomainPoll
        (record { meaning = (C.state closure.now).meaning; log = log.now; now = now.nanosecond })
        domain.now) }
{
    Ok(DomainPoll {
        domain: domain.try_clone(alloc)?,
        next: next_of(log, domain, current_hint(closure, domain), now),
    })
}

/// The refresh hint of the domain's current document (SPIFFE Trust Domain and Bundle, section
/// 4.1.2). `None` if the document has none, and without a current document.
pub fn current_hint<C: Closure>(closure: &C, domain: &TrustDomain) -> Option<u64>
    ensures { IsHint (C.state closure.now).meaning domain.now result }
{
    match current(closure, domain) {
        Some(document) => document.hint(),
        None => None,
    }
}

fn next_of(log: &PollLog, domain: &TrustDomain, hint: Option<u64>, now: Timestamp) -> NextPoll
    requires { Contains (polled_domains log.now) domain.now }
    ensures { IsNextPoll hint (standing_in log.now domain.now) now.nanosecond result }
{
    if log.due(domain, hint, now) {
        return NextPoll::Due;
    }
    match log.next_poll(domain, hint) {
        Ok(Some(next)) => NextPoll::At(next),
        // It would be due above.
        Ok(None) => NextPoll::Due,
        // There is a relationship, so it is past the range.
        Err(_) => NextPoll::PastRange,
    }
}
