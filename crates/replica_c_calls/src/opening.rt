//! A replica of a configuration, empty or of a snapshot.
ghost use Rattle.std.specs.Prelude.{MatchResult};
ghost use Rattle.replica_c_calls.specs.Opening.{OpensBytes, RefusesOpening};

use crate::call_error::CallError;
use crate::snapshot_merging::snapshot_of;
use closure_core::Closure;
use fed_config::Config;
use std::alloc::Global;

/// A replica of the configuration that the bytes say: with what the snapshot holds, or with nothing
/// if there are no bytes of a snapshot.
///
/// # Errors
/// There is no replica then. The first of these that holds:
/// - [`CallError::Config`]: the bytes are not a configuration,
/// - [`CallError::Sync`]: the snapshot is not one of this configuration,
/// - [`CallError::NoMemory`]: memory ran out, if neither of the two above is reported.
pub fn open_bytes<C: Closure>(alloc: Global, config: &[u8], snapshot: &[u8]) -> Result<C, CallError>
    ensures { MatchResult result
        (λ c. OpensBytes config.now snapshot.now (C.state c).meaning)
        (RefusesOpening config.now snapshot.now) }
{
    let config = Config::read(alloc, config)?;
    if snapshot.is_empty() {
        return Ok(C::new(alloc, &config)?);
    }
    snapshot_of(alloc, &config, snapshot)
}
