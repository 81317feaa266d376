//! `merge`: what a snapshot holds, taken into what is held; read and taken in one call, or in two.
ghost use Rattle.std.specs.Prelude.{◌≡◌, IsErrOf};
ghost use Rattle.fedbundle.specs.CommandRun.{run_of, state_run};
ghost use Rattle.command_exits.specs.DeviceRuns.{device_run};
ghost use Rattle.fedbundle.specs.Merge.{RunsMerge, TakesOther};
ghost use Rattle.command_exits.specs.declared.error.CommandError.TheVariants.{Io, Sync};
ghost use Rattle.replica_core.specs.declared.error.SyncError.TheVariants.{Io as DeviceFailed};

use crate::counts::write_counted;
use byte_lines::{Sink, Source};
use closure_core::Closure;
use command_exits::CommandError;
use replica_sync::read_snapshot;
use std::alloc::Global;

/// Reads a snapshot, takes all of its receipts and records of distrust, and writes a line `new`
/// with how many of the receipts were not held.
///
/// # Errors
/// `Sync` if the stream is not a snapshot of this configuration, the source failed or memory ran
/// out while it was read; `Take` if what it holds is not taken: then what is held is as it was, and
/// nothing was written. `Io` if the sink failed: then it is taken, and a beginning of the line was
/// written.
pub fn run_merge<C: Closure, R: Source, W: Sink>(
    alloc: Global,
    closure: &mut C,
    source: &mut R,
    sink: &mut W,
) -> Result<(), CommandError>
    ensures runs { RunsMerge
        (run_of (device_run R.remaining R.has_failed source.old source.new)
        (device_run W.contents W.has_failed sink.old sink.new))
        (state_run (C.state closure.old) (C.state closure.new)) result }

    // If no error of a device is reported, none was passed over.
    ensures source_sound { (IsErrOf result (Sync DeviceFailed) → ⊥)
        → R.has_failed source.new ≡ R.has_failed source.old }
    ensures sink_sound { (IsErrOf result Io → ⊥) → W.has_failed sink.new ≡ W.has_failed sink.old }
{
    let other: C = read_snapshot(alloc, closure.config(), source)?;
    take_other(closure, &other, sink)
}

/// Takes all receipts and records of distrust of another closure, and writes a line `new` with how
/// many of the receipts were not held.
///
/// # Errors
/// `Take` if what the other holds is not taken: then what is held is as it was, and nothing was
/// written. `Io` if the sink failed: then it is taken, and a beginning of the line was written.
pub fn take_other<C: Closure, W: Sink>(
    closure: &mut C,
    other: &C,
    sink: &mut W,
) -> Result<(), CommandError>
    ensures takes { TakesOther (C.state other.now).meaning
        (device_run W.contents W.has_failed sink.old sink.new)
        (state_run (C.state closure.old) (C.state closure.new)) result }

    // If no error of the sink is reported, none was passed over.
    ensures sink_sound { (IsErrOf result Io → ⊥) → W.has_failed sink.new ≡ W.has_failed sink.old }
{
    let count = closure.merge(other)?;
    write_counted(b"new ", count as u64, sink)?;
    Ok(())
}
