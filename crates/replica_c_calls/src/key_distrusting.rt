//! A key, distrusted by its digits.
ghost use Rattle.std.specs.Prelude.{MatchResult};
ghost use Rattle.replica_c_calls.specs.Changes.{DistrustsBytes, HasRefusedKeyBytes, key_bytes};

use crate::call_error::CallError;
use crate::named_bytes::{domain_of, key_of};
use closure_core::{Closure, Distrusted};
use std::alloc::Global;

/// Distrusts the key of these 64 lower-case hexadecimal digits in the domain with this name.
///
/// # Errors
/// What is held is as before. The first of these that holds:
/// - [`CallError::Usage`], [`CallError::Name`]: the bytes are not a domain's name,
/// - [`CallError::Usage`]: they are not a key's digits,
/// - [`CallError::Take`]: the record is refused, as [`Closure::distrust`] reports it.
pub fn distrust_bytes<C: Closure>(
    alloc: Global,
    closure: &mut C,
    domain: &[u8],
    key: &[u8],
) -> Result<Distrusted, CallError>
    ensures { MatchResult result
        (DistrustsBytes (C.state closure.old).meaning (key_bytes domain.now key.now)
        (C.state closure.new).meaning)
        (HasRefusedKeyBytes (C.state closure.old).meaning (key_bytes domain.now key.now)
        (C.state closure.new).meaning) }
{
    let domain = domain_of(alloc, domain)?;
    let key = key_of(key)?;
    Ok(closure.distrust(&domain, key)?)
}
