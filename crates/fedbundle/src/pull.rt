//! `pull`: what another replica holds, asked for and taken, over any devices.
ghost use Rattle.fedbundle.specs.CommandRun.{run_of, state_run};
ghost use Rattle.command_exits.specs.DeviceRuns.{device_run};
ghost use Rattle.fedbundle.specs.Pull.{RunsPull};

use crate::counts::write_counted;
use byte_lines::{Sink, Source};
use closure_core::Closure;
use command_exits::CommandError;
use replica_sync::pull;
use std::alloc::Global;

/// Asks another replica about each bucket, takes what its answers have, and writes a line `new`
/// with how many of the receipts were not held. The haves go to `peer`, and the answers come
/// from the source.
///
/// # Errors
/// `Pull`, as [`pull`] reports it: what the answers before the error have is held, and nothing was
/// written to the sink. `Io` if the sink failed: then all is held, and a beginning of the line was
/// written.
pub fn run_pull<C: Closure, R: Source, P: Sink, W: Sink>(
    alloc: Global,
    closure: &mut C,
    source: &mut R,
    peer: &mut P,
    sink: &mut W,
) -> Result<(), CommandError>
    ensures { RunsPull
        (run_of (device_run R.remaining R.has_failed source.old source.new)
        (device_run W.contents W.has_failed sink.old sink.new))
        (device_run P.contents P.has_failed peer.old peer.new)
        (state_run (C.state closure.old) (C.state closure.new)) result }
{
    let count = pull(alloc, closure, source, peer)?;
    write_counted(b"new ", count, sink)?;
    Ok(())
}
