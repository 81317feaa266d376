//! A bundle that was fetched, observed. The receipt's line is made first, so that nothing is taken
//! if there is no room for it, or no memory.
ghost use Rattle.std.specs.Prelude.{MatchResult};
ghost use Rattle.replica_c_calls.specs.Changes.{HasRefusedFetched, ObservesFetched, fetched_for};
ghost use Rattle.replica_c_calls.specs.Changes.{NamesVerdict, RefusesVerdictBytes};
ghost use Rattle.replica_c_calls.specs.Changes.{ObservesNamed, RefusesNamed};

use crate::call_error::CallError;
use crate::held_texts::ended_line;
use crate::named_bytes::{domain_of, endpoint_of, key_of};
use bundle_view::{Verdict, observed_receipt, take_observed};
use closure_core::Closure;
use spiffe_name::TrustDomain;
use std::alloc::Global;

/// A bundle that was fetched, and what TLS found of its endpoint, each as bytes.
#[derive(Clone, Copy)]
pub struct FetchedBytes<'a> {
    /// The name of the domain.
    pub domain: &'a [u8],
    /// The SPIFFE ID of the endpoint.
    pub endpoint: &'a [u8],
    /// The id of the key under which the endpoint's certificate was validated: 64 lower-case
    /// hexadecimal digits.
    pub key: &'a [u8],
    /// The document that was served.
    pub document: &'a [u8],
}

/// What came of a bundle that was fetched.
#[derive(Drop)]
pub enum ObservedBytes {
    /// Its receipt is held. This is the receipt's line, with its line feed.
    Held(Vec<u8>),
    /// The line would have this many bytes, more than there is room for. Nothing was taken.
    NeedsRoom(usize),
}

/// Takes the receipt of a bundle, as [`observe`](bundle_view::observe) does, if its line has no
/// more bytes than `room`.
///
/// # Errors
/// What is held is as before. The first of these that holds:
/// - [`CallError::Usage`], [`CallError::Name`]: the bytes are not a domain's name, or not a SPIFFE
///   ID,
/// - [`CallError::Usage`]: they are not a key's digits,
/// - [`CallError::Observe`]: nothing is observed, as `observe` reports it,
/// - [`CallError::NoMemory`]: memory ran out for the line.
pub fn observe_bytes<C: Closure>(
    alloc: Global,
    closure: &mut C,
    fetched: &FetchedBytes<'_>,
    room: usize,
) -> Result<ObservedBytes, CallError>
    ensures { MatchResult result
        (ObservesFetched (C.state closure.old) (fetched_for fetched.now room)
        (C.state closure.new))
        (HasRefusedFetched (C.state closure.old) fetched.now (C.state closure.new)) }
{
    let domain = domain_of(alloc, fetched.domain)?;
    let verdict = verdict_of(alloc, fetched)?;
    let document = fetched.document;
    observe_named(alloc, closure, &domain, document, &verdict, room)
}

/// What TLS found of the endpoint.
fn verdict_of(alloc: Global, fetched: &FetchedBytes<'_>) -> Result<Verdict, CallError>
    ensures { MatchResult result (NamesVerdict fetched.now) (RefusesVerdictBytes fetched.now) }
{
    let endpoint = endpoint_of(alloc, fetched.endpoint)?;
    let key = key_of(fetched.key)?;
    Ok(Verdict { endpoint, key })
}

fn observe_named<C: Closure>(
    alloc: Global,
    closure: &mut C,
    domain: &TrustDomain,
    bytes: &[u8],
    verdict: &Verdict,
    room: usize,
) -> Result<ObservedBytes, CallError>
    ensures { MatchResult result
        (ObservesNamed (C.state closure.old)
        (record { domain = domain.now; bytes = bytes.now; verdict = verdict.now }) room
        (C.state closure.new))
        (RefusesNamed (C.state closure.old)
        (record { domain = domain.now; bytes = bytes.now; verdict = verdict.now })
        (C.state closure.new)) }
{
    let receipt = observed_receipt(alloc, closure, domain, bytes, verdict)?;
    let text = ended_line(alloc, &receipt)?;
    if text.len() > room {
        return Ok(ObservedBytes::NeedsRoom(text.len()));
    }
    take_observed(closure, receipt)?;
    Ok(ObservedBytes::Held(text))
}
