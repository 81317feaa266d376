//! What goes along to another configuration, and a configuration for a new start, by what the
//! arguments of `migrate` and of `reseed` say. Both write on two sinks.
ghost use Rattle.std.specs.Prelude.{◌≡◌, ◌++◌, IfOk, Ok, OnOk, option_copied};
ghost use Rattle.std.specs.Prelude.{decimal, option_map};
ghost use Rattle.fedbundle.specs.CommandRun.{run_of};
ghost use Rattle.command_exits.specs.DeviceRuns.{device_run};
ghost use Rattle.fedbundle.specs.Migrate.{move_to};
ghost use Rattle.fedbundle.specs.Shown.{shown_call};
ghost use Rattle.fedbundle.specs.ShownCommands.{EndsMove, MovesToRead};
ghost use Rattle.fedbundle.specs.ShownCommands.{PrintsBoth, PrintsWhole};
ghost use Rattle.fedbundle.specs.ShownCommands.{ReseedsInto, SaysChoice, ShowsMigration, ShowsMove};
ghost use Rattle.reseeding.specs.declared.new_floors.FloorChoice.TheVariants.{Raised};
ghost use Rattle.fedbundle.specs.ShownCommands.{SaysFloorChoice, ShowsReseed};
ghost use Rattle.fedbundle.specs.ShownCommands.{ReseedsFloored, stay_line};

use crate::migrate::run_migrate;
use crate::said_values::read_chosen;
use crate::shown::Shown;
use byte_lines::{Sink, Source, push_number, write_all};
use closure_core::Closure;
use command_exits::{CommandError, Exit, read_config};
use command_line::{Call, OptionName, given, is_flag_given};
use fed_config::Config;
use migration::Choice;
use reseeding::{FloorChoice, Reseeded, reseed};
use spiffe_name::TrustDomain;
use std::alloc::{AllocError, Global};

/// Writes the snapshot of what goes along to the configuration that the source has, or under the
/// same one without `--to`, and on `line_errors` a line for each that is left out, which makes the
/// exit status 1.
pub(crate) fn migrate<C: Closure, R: Source, W: Sink, E: Sink>(
    alloc: Global,
    closure: &C,
    shown: Shown<'_, '_, '_>,
    source: &mut R,
    sink: &mut W,
    line_errors: &mut E,
) -> Result<u8, Exit>
    ensures { ShowsMigration (shown_call shown.entry (C.state closure.now).meaning)
        (run_of (device_run R.remaining R.has_failed source.old source.new)
        (device_run W.contents W.has_failed sink.old sink.new))
        (device_run E.contents E.has_failed line_errors.old line_errors.new) result }
{
    let choice = choice_of(given(shown.call, OptionName::RecordsOnly));
    match given(shown.call, OptionName::To) {
        Some(_) => migrate_to_read(alloc, closure, choice, source, sink, line_errors),
        None => migrate_to(alloc, closure, closure.config(), choice, sink, line_errors),
    }
}

fn choice_of(text: Option<&str>) -> Choice
    ensures { SaysChoice (option_map (λ t. t.now) text.entry) result }
{
    if is_flag_given(text) {
        Choice::RecordsOnly
    } else {
        Choice::All
    }
}

// The source has the other configuration.
fn migrate_to_read<C: Closure, R: Source, W: Sink, E: Sink>(
    alloc: Global,
    closure: &C,
    choice: Choice,
    source: &mut R,
    sink: &mut W,
    line_errors: &mut E,
) -> Result<u8, Exit>
    ensures { MovesToRead choice (C.state closure.now).meaning
        (run_of (device_run R.remaining R.has_failed source.old source.new)
        (device_run W.contents W.has_failed sink.old sink.new))
        (device_run E.contents E.has_failed line_errors.old line_errors.new) result }
{
    let to = read_config(alloc, source)?;
    migrate_to(alloc, closure, &to, choice, sink, line_errors)
}

fn migrate_to<C: Closure, W: Sink, E: Sink>(
    alloc: Global,
    closure: &C,
    to: &Config,
    choice: Choice,
    sink: &mut W,
    line_errors: &mut E,
) -> Result<u8, Exit>
    ensures { ShowsMove (move_to choice to.now (C.state closure.now).meaning)
        (device_run W.contents W.has_failed sink.old sink.new)
        (device_run E.contents E.has_failed line_errors.old line_errors.new) result }
{
    let count = run_migrate(alloc, closure, to, choice, sink, line_errors)?;
    Ok(status_of_left(count))
}

// The exit status, by how many were left out.
fn status_of_left(count: u64) -> u8
    ensures { EndsMove (Ok count) (Ok result) }
{
    if count == 0 { 0 } else { 1 }
}

/// Writes the configuration for a new start, and with `--floors` on `line_errors` a line that says
/// how many receipts fit it; or there the lines of the domains that are refused, which make the
/// exit status 1.
pub(crate) fn reseed_of<C: Closure, W: Sink, E: Sink>(
    alloc: Global,
    closure: &C,
    shown: Shown<'_, '_, '_>,
    sink: &mut W,
    line_errors: &mut E,
) -> Result<u8, Exit>
    ensures { ShowsReseed (shown_call shown.entry (C.state closure.now).meaning)
        (device_run W.contents W.has_failed sink.old sink.new)
        (device_run E.contents E.has_failed line_errors.old line_errors.new) result }
{
    let allowed = read_chosen(alloc, given(shown.call, OptionName::Allow))?;
    reseed_floored(alloc, closure, shown, allowed.as_ref(), sink, line_errors)
}

fn reseed_floored<C: Closure, W: Sink, E: Sink>(
    alloc: Global,
    closure: &C,
    shown: Shown<'_, '_, '_>,
    allowed: Option<&TrustDomain>,
    sink: &mut W,
    line_errors: &mut E,
) -> Result<u8, Exit>
    ensures { ReseedsFloored (shown_call shown.entry (C.state closure.now).meaning)
        (option_copied allowed.entry)
        (device_run W.contents W.has_failed sink.old sink.new)
        (device_run E.contents E.has_failed line_errors.old line_errors.new) result }
{
    let floors = floors_of(given(shown.call, OptionName::Floors));
    reseed_into(alloc, closure, allowed, floors, sink, line_errors)
}

fn floors_of(text: Option<&str>) -> FloorChoice
    ensures { SaysFloorChoice (option_map (λ t. t.now) text.entry) result }
{
    if is_flag_given(text) {
        FloorChoice::Raised
    } else {
        FloorChoice::Kept
    }
}

fn reseed_into<C: Closure, W: Sink, E: Sink>(
    alloc: Global,
    closure: &C,
    allowed: Option<&TrustDomain>,
    floors: FloorChoice,
    sink: &mut W,
    line_errors: &mut E,
) -> Result<u8, Exit>
    ensures { ReseedsInto (C.state closure.now).meaning
        (record { allowed = option_copied allowed.entry; floors = floors })
        (device_run W.contents W.has_failed sink.old sink.new)
        (device_run E.contents E.has_failed line_errors.old line_errors.new) result }
{
    match reseed(alloc, closure, allowed, floors)? {
        Reseeded::Seeded(new) => {
            let with_it = stay_line(alloc, floors, new.staying, closure.receipt_count())?;
            print_both(
                new.text.as_slice(),
                with_it.as_slice(),
                0,
                sink,
                line_errors,
            )
        }
        Reseeded::Refusals(lines) => print_both(b"", lines.as_slice(), 1, sink, line_errors),
    }
}

// What is said with the new configuration, if anything.
fn stay_line(
    alloc: Global,
    floors: FloorChoice,
    staying: usize,
    held: usize,
) -> Result<Vec<u8>, AllocError>
    ensures { IfOk result (λ line. line.items ≡ stay_line floors staying held) }
{
    let mut line = Vec::new(alloc);
    if floors == FloorChoice::Raised {
        push_stay_line(&mut line, staying as u64, held as u64)?;
    }
    Ok(line)
}

fn push_stay_line(line: &mut Vec<u8>, staying: u64, held: u64) -> Result<(), AllocError>
    ensures { OnOk result (line.new.items ≡ line.old.items ++ stay_line Raised staying held) }
{
    push_labelled(line, b"receipts that stay: ", staying)?;
    push_labelled(line, b" of ", held)?;
    line.extend_from_slice(b"\n")
}

fn push_labelled(line: &mut Vec<u8>, label: &[u8], number: u64) -> Result<(), AllocError>
    ensures { OnOk result (line.new.items ≡ line.old.items ++ (label.now ++ decimal number)) }
{
    line.extend_from_slice(label)?;
    push_number(line, number)
}

// Writes the output, and then what is said with it, and returns the status.
fn print_both<W: Sink, E: Sink>(
    output: &[u8],
    with_it: &[u8],
    status: u8,
    sink: &mut W,
    line_errors: &mut E,
) -> Result<u8, Exit>
    ensures { PrintsBoth (record { output = output.now; with_it = with_it.now; status = status })
        (device_run W.contents W.has_failed sink.old sink.new)
        (device_run E.contents E.has_failed line_errors.old line_errors.new) result }
{
    match print(output, 0, sink) {
        Ok(_) => print(with_it, status, line_errors),
        failed => failed,
    }
}

// Writes all of the text, and returns the status.
fn print<W: Sink>(text: &[u8], status: u8, sink: &mut W) -> Result<u8, Exit>
    ensures { PrintsWhole text.now status
        (device_run W.contents W.has_failed sink.old sink.new) result }
{
    match write_all(sink, text) {
        Ok(()) => Ok(status),
        Err(_) => Err(Exit::Refused(CommandError::Io)),
    }
}
