//! The state file as the commands use it: its lock, which is waited for within a limit, what it
//! holds, and how much may be added to that.
use crate::process::{error_lines, is_verbose_unasked, progress_mode};
use closure_core::Closure;
use command_exits::{CommandError, Exit, Step};
use command_line::{
    Call, CommandName, Manner, OptionName, given, is_flag_given, manner_of, wanted,
};
use fed_config::Config;
use state_files::{
    StateLock, has_journal, is_marked, load_state, save_state, state_bytes, try_lock_state,
};
use std::io::Write;
use std::time::Duration;
use std::{mem, thread};

/// How long a command waits before it tries again to take the lock, and how often it does so in a
/// second.
const PAUSE_MILLIS: u64 = 50;

const TRIES_PER_SECOND: u64 = 20;

/// A state file, and what the options say that may be left out.
#[derive(Clone, Copy)]
pub(crate) struct StateAccess<'a> {
    pub(crate) path: &'a str,
    pub(crate) manner: Manner,
    /// What becomes of a state that is not there.
    pub(crate) missing: MissingState,
}

/// What a command does if there is neither a state file nor a journal.
#[derive(Clone, Copy, PartialEq, Eq)]
pub(crate) enum MissingState {
    /// It takes the state for one that holds nothing.
    HoldsNothing,
    /// It refuses the state.
    Refused,
}

pub(crate) fn state_access_of<'a>(call: &Call<'a>) -> Result<StateAccess<'a>, Exit> {
    Ok(StateAccess {
        path: wanted(call, OptionName::State)?,
        manner: manner_of(call)?,
        missing: missing_of(call),
    })
}

// A command that only looks at what a state holds is mistaken if there is no state, unless its
// arguments say that there may be none. The commands of the exchange format take it for one that
// holds nothing (D-439).
fn missing_of(call: &Call<'_>) -> MissingState {
    if is_flag_given(given(call, OptionName::New)) {
        return MissingState::HoldsNothing;
    }
    match call.name {
        CommandName::Report
        | CommandName::List
        | CommandName::Diff
        | CommandName::Graph
        | CommandName::Status
        | CommandName::Migrate
        | CommandName::Reseed => MissingState::Refused,
        CommandName::Distrust if looks_first(call) => MissingState::Refused,
        _ => MissingState::HoldsNothing,
    }
}

// Whether a distrust is only shown, or looks for the key before it is made.
fn looks_first(call: &Call<'_>) -> bool {
    is_flag_given(given(call, OptionName::DryRun)) || is_flag_given(given(call, OptionName::Known))
}

/// Whether there is a state file, or a journal of one.
pub(crate) fn has_state(rt: &HostRuntime, path: &str) -> Result<bool, Exit> {
    match state_bytes(rt, path) {
        Ok(Some(_)) => Ok(true),
        Ok(None) => Ok(has_journal(rt, rt.alloc(), path)?),
        Err(fault) => Err(Exit::of_file(Step::See, fault)),
    }
}

/// Takes the lock of the state file. If another command has it, it waits until that is done.
pub(crate) fn lock(rt: &HostRuntime, state: StateAccess<'_>) -> Result<StateLock, Exit> {
    if let Some(lock) = try_lock(rt, state.path)? {
        return Ok(lock);
    }
    if is_more_wanted(rt, state) {
        // That it cannot be said changes nothing.
        let _ = writeln!(
            error_lines(rt),
            "fedbundle: waits for the lock of {}",
            state.path
        );
    }
    wait_for_lock(rt, state)
}

fn is_more_wanted(rt: &HostRuntime, state: StateAccess<'_>) -> bool {
    state.manner.is_verbose || is_verbose_unasked(rt)
}

fn wait_for_lock(rt: &HostRuntime, state: StateAccess<'_>) -> Result<StateLock, Exit> {
    let tries = state.manner.wait_seconds.saturating_mul(TRIES_PER_SECOND);
    for _ in 0..tries {
        thread::sleep(rt, Duration::from_millis(PAUSE_MILLIS));
        if let Some(lock) = try_lock(rt, state.path)? {
            return Ok(lock);
        }
        if is_of_replica(rt, state.path)? {
            break;
        }
    }
    if is_of_replica(rt, state.path)? {
        Err(Exit::ReplicaRuns)
    } else {
        Err(Exit::Locked)
    }
}

// A replica does not give the lock back, so nobody waits for that.
fn is_of_replica(rt: &HostRuntime, path: &str) -> Result<bool, Exit> {
    match is_marked(rt, rt.alloc(), path) {
        Ok(is_marked) => Ok(is_marked),
        Err(fault) => Err(Exit::of_file(Step::Lock, fault)),
    }
}

fn try_lock(rt: &HostRuntime, path: &str) -> Result<Option<StateLock>, Exit> {
    match try_lock_state(rt, rt.alloc(), path) {
        Ok(lock) => Ok(lock),
        Err(fault) => Err(Exit::of_file(Step::Lock, fault)),
    }
}

/// What the state file holds. If the file is missing, the command refuses it, or says so if more is
/// wanted.
pub(crate) fn load<C: Closure>(
    rt: &HostRuntime,
    config: &Config,
    state: StateAccess<'_>,
) -> Result<C, Exit> {
    let is_there = has_state(rt, state.path);
    match (state.missing, is_there) {
        (MissingState::Refused, Ok(false)) => return Err(Exit::NoState),
        (MissingState::HoldsNothing, Ok(false)) => say_missing(rt, state),
        _ => {}
    }
    let loaded = load_state(rt, rt.alloc(), config, state.path, progress_mode(rt))?;
    // If the look failed, nobody knows whether there is a state.
    match is_there {
        Err(exit) if state.missing == MissingState::Refused => Err(exit),
        _ => Ok(loaded),
    }
}

fn say_missing(rt: &HostRuntime, state: StateAccess<'_>) {
    if is_more_wanted(rt, state) {
        // That it cannot be said changes nothing.
        let _ = writeln!(
            error_lines(rt),
            "fedbundle: there is no state file {}",
            state.path
        );
    }
}

/// Leaves to the system what the command held: the process ends, and its memory is taken back as a
/// whole, and not piece by piece.
pub(crate) fn leave<T: Drop>(held: T) {
    mem::forget(held);
}

pub(crate) fn save<C: Closure>(rt: &HostRuntime, closure: &C, path: &str) -> Result<(), Exit> {
    match save_state(rt, rt.alloc(), closure, path, progress_mode(rt)) {
        Ok(()) => Ok(()),
        Err(fault) => Err(Exit::of_file(Step::Save, fault)),
    }
}

/// How many bytes may be added to those that the state file has. If the system does not say how
/// many these are, the command finds out when it loads them.
pub(crate) fn room_left(rt: &HostRuntime, state: StateAccess<'_>) -> u64 {
    match state_bytes(rt, state.path) {
        Ok(Some(bytes)) => state.manner.most_bytes.saturating_sub(bytes),
        _ => state.manner.most_bytes,
    }
}
