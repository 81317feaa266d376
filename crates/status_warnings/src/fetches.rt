//! How the domains are fetched, by a log of the polls that were made.
ghost use Rattle.std.specs.Prelude.{◌≡◌, IfOk};
ghost use Rattle.std.specs.Option.{option_map};
ghost use Rattle.poll_log.specs.Polling.{success_in};
ghost use Rattle.status_warnings.specs.Fetches.{AreFetches, IsFetch, second_of};

use crate::seen::Fetch;
use closure_core::Closure;
use poll_log::{PollLog, interval};
use poll_view::current_hint;
use spiffe_name::TrustDomain;
use std::alloc::{AllocError, Global};

/// How the domain of each relationship of the configuration is fetched, sorted by domain: the
/// second of its last poll that succeeded, rounded toward zero, and the seconds from one poll to
/// the next if none fails. These follow from the refresh hint of its current document (SPIFFE Trust
/// Domain and Bundle, section 4.1.2). No poll of a domain that the log lacks has succeeded.
///
/// # Errors
/// Memory ran out.
pub fn fetches_of<C: Closure>(
    alloc: Global,
    closure: &C,
    log: &PollLog,
) -> Result<Vec<Fetch>, AllocError>
    ensures { IfOk result
        (λ fetches. AreFetches (C.state closure.now).meaning log.now fetches.items) }
{
    let mut fetches = Vec::new(alloc);
    for relationship in closure.config().relationships() {
        fetches.push(fetch_of(alloc, closure, log, &relationship.domain)?)?;
    }
    Ok(fetches)
}

fn fetch_of<C: Closure>(
    alloc: Global,
    closure: &C,
    log: &PollLog,
    domain: &TrustDomain,
) -> Result<Fetch, AllocError>
    ensures { IfOk result (IsFetch (C.state closure.now).meaning log.now domain.now) }
{
    Ok(Fetch {
        domain: domain.try_clone(alloc)?,
        fetched: fetched(log, domain),
        wait: interval(current_hint(closure, domain)),
    })
}

fn fetched(log: &PollLog, domain: &TrustDomain) -> Option<i64>
    ensures { result ≡ option_map second_of (success_in log.now domain.now) }
{
    match log.succeeded(domain) {
        Some(moment) => Some(moment.as_second()),
        None => None,
    }
}
