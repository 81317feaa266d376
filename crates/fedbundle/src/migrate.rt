//! `migrate`: what is held, printed as a snapshot under another configuration.
ghost use Rattle.std.specs.Prelude.{◌≡◌, ◌||◌, IfOk, OnOk};
ghost use Rattle.std.specs.Io.KnownBytes.{Appends};
ghost use Rattle.byte_lines.specs.Device.{AppendsBeginning, is_source_fault};
ghost use Rattle.replica_texts.specs.WrittenSnapshot.{written_snapshot};
ghost use Rattle.command_exits.specs.DeviceRuns.{device_run};
ghost use Rattle.command_exits.specs.Errors.{of_snapshot};
ghost use Rattle.fedbundle.specs.Migrate.{RunsMigrate, move_to};

use byte_lines::{DeviceError, Sink};
use closure_core::Closure;
use command_exits::CommandError;
use fed_config::Config;
use migration::{Choice, carry};
use replica_core::SyncError;
use replica_sync::write_snapshot;
use std::alloc::Global;

/// Writes on `sink` the snapshot, under the configuration `to`, of what is held and goes along: the
/// receipts that fit it, if they are chosen, and the records of distrust whose domain it has. For
/// each other record and chosen receipt it writes a line on `line_errors`, as [`migration::carry`]
/// does, and before the snapshot. Returns the number of these lines.
///
/// The snapshot depends only on the configuration `to` and on the sets that are held: replicas that
/// held the same print the same.
///
/// # Errors
/// A beginning of the lines was written on `line_errors`.
/// - `Io`: `line_errors` failed, and nothing was written on `sink`; or `sink` failed after a
///   beginning of the snapshot,
/// - `NoMemory`: memory ran out, before the snapshot or after a beginning of it.
pub fn run_migrate<C: Closure, W: Sink, E: Sink>(
    alloc: Global,
    closure: &C,
    to: &Config,
    choice: Choice,
    sink: &mut W,
    line_errors: &mut E,
) -> Result<u64, CommandError>
    ensures { RunsMigrate (move_to choice to.now (C.state closure.now).meaning)
        (device_run W.contents W.has_failed sink.old sink.new)
        (device_run E.contents E.has_failed line_errors.old line_errors.new) result }
{
    let carried = carry(alloc, closure, to, choice, line_errors)?;
    print_snapshot(alloc, &carried.closure, sink)?;
    Ok(carried.left_out)
}

fn print_snapshot<C: Closure, W: Sink>(
    alloc: Global,
    closure: &C,
    sink: &mut W,
) -> Result<(), DeviceError>
    ensures ok { OnOk result (Appends (W.contents sink.old) (W.contents sink.new)
        (written_snapshot (C.state closure.now).meaning)) }
    ensures beginning { AppendsBeginning (W.contents sink.old) (W.contents sink.new)
        (written_snapshot (C.state closure.now).meaning) }
    ensures fault { W.has_failed sink.new ≡ (is_source_fault result || W.has_failed sink.old) }
{
    match write_snapshot(alloc, closure, sink) {
        Ok(()) => Ok(()),
        Err(error) => Err(device_error(error)),
    }
}

// A snapshot is not written only if the sink failed or memory ran out.
fn device_error(error: SyncError) -> DeviceError
    ensures { result ≡ of_snapshot error }
{
    match error {
        SyncError::Io => DeviceError::Io,
        _ => DeviceError::NoMemory,
    }
}
