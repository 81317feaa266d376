//! The subcommands that show what a state file holds, and write no file: they take no lock. The
//! replica is made and given back in one place, and each command only borrows it.
use crate::commands::diff;
use crate::process::{input, line_errors, options, output_progress_mode};
use crate::state_access::{leave, load, state_access_of};
use byte_lines::{FromWrite, Source};
use closure_core::Closure;
use command_exits::Exit;
use command_line::{Call, CommandName, OptionName, given};
use fed_config::Config;
use fedbundle::{Shown, run_shown};
use progress_line::{LongWork, ProgressMode, WatchedWriter, WorkProgress};
use std::rt::Clock;

/// Shows what the command asks for, of what the state file holds.
pub(crate) fn show<C: Closure>(
    rt: &HostRuntime,
    config: &Config,
    call: &Call<'_>,
) -> Result<u8, Exit> {
    let closure: C = load(rt, config, state_access_of(call)?)?;
    let shown = show_of(rt, config, &closure, call);
    leave(closure);
    shown
}

fn show_of<C: Closure>(
    rt: &HostRuntime,
    config: &Config,
    closure: &C,
    call: &Call<'_>,
) -> Result<u8, Exit> {
    match call.name {
        CommandName::Diff => diff::run(rt, config, closure, call),
        _ => show_as_replica(rt, closure, call),
    }
}

// The commands that a running replica has, too. A file that the arguments name is read in place of
// standard input.
fn show_as_replica<C: Closure>(rt: &HostRuntime, closure: &C, call: &Call<'_>) -> Result<u8, Exit> {
    match given(call, OptionName::Polls).or(given(call, OptionName::To)) {
        Some(path) => show_from(rt, closure, call, &mut options::file(rt, path)?),
        None => show_from(rt, closure, call, &mut input(rt)),
    }
}

fn show_from<C: Closure, R: Source>(
    rt: &HostRuntime,
    closure: &C,
    call: &Call<'_>,
    source: &mut R,
) -> Result<u8, Exit> {
    let shown = Shown {
        call,
        running: None,
        moment: unix_second(rt),
    };
    let mode = progress_mode_of(rt, call);
    let mut progress = WorkProgress::begin(rt, rt.alloc(), LongWork::WritingMigratedState, mode);
    let output = WatchedWriter::new(rt.stdout(), &mut progress);
    run_shown(
        rt.alloc(),
        closure,
        shown,
        source,
        &mut FromWrite::new(output),
        &mut line_errors(rt),
    )
}

// A snapshot is all that may be long.
fn progress_mode_of(rt: &HostRuntime, call: &Call<'_>) -> ProgressMode {
    match call.name {
        CommandName::Migrate => output_progress_mode(rt),
        _ => ProgressMode::Silent,
    }
}

// The time of day; 0 if the clock has none.
fn unix_second(rt: &HostRuntime) -> i64 {
    match rt.since_1970() {
        Ok(time) => i64::try_from(time.as_secs()).unwrap_or(0),
        Err(_) => 0,
    }
}
