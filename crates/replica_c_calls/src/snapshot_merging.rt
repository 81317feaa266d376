//! Another replica's snapshot, taken whole or not at all.
ghost use Rattle.std.specs.Prelude.{MatchResult, Some};
ghost use Rattle.replica_c_calls.specs.Changes.{HasRefusedSnapshotBytes, MergesBytes};
ghost use Rattle.replica_c_calls.specs.Opening.{RefusesSnapshotText};
ghost use Rattle.replica_texts.specs.Snapshots.{IsSnapshot};

use crate::call_error::CallError;
use crate::growing_sink::source_of;
use closure_core::Closure;
use fed_config::Config;
use replica_sync::read_snapshot;
use std::alloc::Global;

/// Takes all receipts and all records of distrust of a snapshot, and returns how many receipts were
/// not held.
///
/// # Errors
/// What is held is as before. The first of these that holds:
/// - [`CallError::Sync`]: the bytes are not a snapshot of this configuration,
/// - [`CallError::Take`]: what it holds is refused, as [`Closure::merge`] reports it,
/// - [`CallError::NoMemory`]: memory ran out before the snapshot was read.
pub fn merge_bytes<C: Closure>(
    alloc: Global,
    closure: &mut C,
    snapshot: &[u8],
) -> Result<usize, CallError>
    ensures { MatchResult result
        (MergesBytes (C.state closure.old) snapshot.now (C.state closure.new))
        (HasRefusedSnapshotBytes (C.state closure.old) snapshot.now (C.state closure.new)) }
{
    let other: C = snapshot_of(alloc, closure.config(), snapshot)?;
    Ok(closure.merge(&other)?)
}

/// What a snapshot holds.
///
/// # Errors
/// - [`CallError::Sync`]: the bytes are not a snapshot of this configuration,
/// - [`CallError::NoMemory`]: memory ran out before the snapshot was read.
pub(crate) fn snapshot_of<C: Closure>(
    alloc: Global,
    config: &Config,
    snapshot: &[u8],
) -> Result<C, CallError>
    ensures { MatchResult result
        (λ c. IsSnapshot config.now (Some snapshot.now) (C.state c).meaning)
        (RefusesSnapshotText config.now snapshot.now) }
{
    let mut source = source_of(alloc, snapshot)?;
    match read_snapshot(alloc, config, &mut source) {
        Ok(closure) => Ok(closure),
        Err(why) => Err(CallError::Sync(why)),
    }
}
