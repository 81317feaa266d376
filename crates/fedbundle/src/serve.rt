//! `serve`: the haves of other replicas, answered, over any devices.
ghost use Rattle.std.specs.Prelude.{◌≡◌, true, IfErr, OnOk};
ghost use Rattle.std.specs.Io.KnownBytes.{Appends};
ghost use Rattle.byte_lines.specs.Device.{AppendsBeginning};
ghost use Rattle.fedbundle.specs.CommandRun.{run_of};
ghost use Rattle.command_exits.specs.DeviceRuns.{device_run};
ghost use Rattle.fedbundle.specs.Serve.{RunsServe, served_text};
ghost use Rattle.command_exits.specs.declared.error.CommandError.TheVariants.{Io};

use crate::counts::write_counted;
use byte_lines::{Sink, Source};
use closure_core::Closure;
use command_exits::CommandError;
use replica_sync::serve_one;
use std::alloc::Global;

/// Serves one session: answers the haves of the source, one after another, until it ends before the
/// next have. Returns how many there were.
///
/// # Errors
/// `Sync`, as [`serve_one`] reports it. The haves before the error are answered, and nothing else
/// is written; if the sink failed or memory ran out, a beginning of that.
pub fn run_serve<C: Closure, R: Source, W: Sink>(
    alloc: Global,
    closure: &C,
    source: &mut R,
    sink: &mut W,
) -> Result<u64, CommandError>
    ensures { RunsServe
        (run_of (device_run R.remaining R.has_failed source.old source.new)
        (device_run W.contents W.has_failed sink.old sink.new))
        (C.state closure.now).meaning result }
{
    let count = serve_one(alloc, closure, source, sink)?;
    Ok(count)
}

/// Writes a line `served` with the number of sessions. It takes no memory.
///
/// # Errors
/// `Io` if the sink failed, which then holds a beginning of the line.
pub fn write_served<W: Sink>(sessions: u64, sink: &mut W) -> Result<(), CommandError>
    ensures ok { OnOk result
        (Appends (W.contents sink.old) (W.contents sink.new) (served_text sessions)) }
    ensures io { IfErr result (λ e. (e ≡ Io) × (W.has_failed sink.new ≡ true)
        × AppendsBeginning (W.contents sink.old) (W.contents sink.new) (served_text sessions)) }
{
    write_counted(b"served ", sessions, sink)?;
    Ok(())
}
