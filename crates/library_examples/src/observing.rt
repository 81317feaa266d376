//! To take a bundle that was fetched.
use crate::example_error::ExampleError;
use bundle_view::{Verdict, current, observe};
use closure_core::Closure;
use jwk_set::{Authority, KeyId};
use spiffe_name::TrustDomain;
use std::alloc::Global;

/// A bundle with a higher sequence number, served by the first relationship's endpoint under a key
/// of the current bundle.
pub(crate) fn show<C: Closure>(
    alloc: Global,
    closure: &mut C,
    out: &mut String,
) -> Result<(), ExampleError> {
    let Some(relationship) = closure.config().relationships().first() else {
        return Err(ExampleError::NoRelationship);
    };
    let domain = relationship.domain.try_clone(alloc)?;
    let endpoint = relationship.endpoint.try_clone(alloc)?;
    let Some(key) = key_of(closure, &domain) else {
        return Err(ExampleError::NoKey);
    };
    let served = b"{\"keys\":[],\"spiffe_sequence\":9}";
    let receipt = observe(alloc, closure, &domain, served, &Verdict { endpoint, key })?;
    let sequence = receipt.document().rank().unwrap_or(0);
    writeln!(out, "observed sequence {sequence}")?;
    Ok(())
}

/// A key of the current bundle, under which a server's certificate may have been validated.
fn key_of<C: Closure>(closure: &C, domain: &TrustDomain) -> Option<KeyId> {
    let authorities = current(closure, domain)?.authorities();
    authorities.iter().find_map(Authority::key_id)
}
