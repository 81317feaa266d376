//! What one replica holds and another one does not: `diff`.
ghost use Rattle.std.specs.Prelude.{◌↔◌, IfOk, IsTrue};
ghost use Rattle.replica_view.specs.HeldTexts.{HoldSame, IsHeldDifference};
ghost use Rattle.fedbundle.specs.CommandRun.{run_of};
ghost use Rattle.command_exits.specs.DeviceRuns.{device_run};
ghost use Rattle.fedbundle.specs.Shown.{RunsWriter, shown_call};
ghost use Rattle.fedbundle.specs.ShownCommands.{ComparesHeld, ComparesSides, ShowsDifference};

use crate::shown::Shown;
use crate::shown_config::status_of_same;
use byte_lines::{Sink, Source};
use closure_core::Closure;
use command_exits::{CommandError, Exit};
use command_line::{OptionName, wanted};
use replica_sync::read_snapshot;
use replica_view::write_held_difference;
use std::alloc::Global;

/// Writes what only one of two replicas holds, and returns the exit status: 1 if they hold
/// different things.
///
/// # Errors
/// [`Exit::Refused`] with `Io` if the sink failed after a beginning of the text, or with `NoMemory`
/// if memory ran out before it.
pub fn run_diff<C: Closure, W: Sink>(
    alloc: Global,
    one: &C,
    other: &C,
    sink: &mut W,
) -> Result<u8, Exit>
    ensures { ComparesSides (C.state one.now).meaning (C.state other.now).meaning
        (device_run W.contents W.has_failed sink.old sink.new) result }
{
    let is_same = sides(alloc, one, other, sink)?;
    Ok(status_of_same(is_same))
}

fn sides<C: Closure, W: Sink>(
    alloc: Global,
    one: &C,
    other: &C,
    sink: &mut W,
) -> Result<bool, CommandError>
    ensures runs { RunsWriter
        (IsHeldDifference (C.state one.now).meaning (C.state other.now).meaning)
        (device_run W.contents W.has_failed sink.old sink.new) result }
    ensures same { IfOk result (λ same. IsTrue same
        ↔ HoldSame (C.state one.now).meaning (C.state other.now).meaning) }
{
    Ok(write_held_difference(alloc, one, other, sink)?)
}

/// The same with what the source's snapshot holds, which is of the same configuration.
pub(crate) fn diff<C: Closure, R: Source, W: Sink>(
    alloc: Global,
    closure: &C,
    shown: Shown<'_, '_, '_>,
    source: &mut R,
    sink: &mut W,
) -> Result<u8, Exit>
    ensures { ShowsDifference (shown_call shown.entry (C.state closure.now).meaning)
        (run_of (device_run R.remaining R.has_failed source.old source.new)
        (device_run W.contents W.has_failed sink.old sink.new)) result }
{
    let _path = wanted(shown.call, OptionName::With)?;
    diff_from(alloc, closure, source, sink)
}

fn diff_from<C: Closure, R: Source, W: Sink>(
    alloc: Global,
    closure: &C,
    source: &mut R,
    sink: &mut W,
) -> Result<u8, Exit>
    ensures { ComparesHeld (C.state closure.now).meaning
        (run_of (device_run R.remaining R.has_failed source.old source.new)
        (device_run W.contents W.has_failed sink.old sink.new)) result }
{
    let other: C = match read_snapshot(alloc, closure.config(), source) {
        Ok(other) => other,
        Err(why) => return Err(Exit::Refused(CommandError::Sync(why))),
    };
    run_diff(alloc, closure, &other, sink)
}
