//! The beginning and the end of a replica that keeps running.
use crate::settings::Settings;
use crate::turn::{RunningReplica, turn};
use closure_core::Closure;
use command_exits::{CommandError, Exit, Step};
use mio::Events;
use peer_talks::HeldState;
use replica_events::{ErrorStream, KeepFault, LogEvent, log_event};
use replica_sockets::file_at_step;
use state_files::{
    BegunSides, FoundFiles, GivenConfigs, StateBeginning, StateLock, has_journal, is_marked,
    remove_previous, state_bytes, try_lock_state,
};
use std::alloc::Global;
use std::fs::{File, Files};
use std::io::{Eprint, Print};
use std::net::Net;
use std::rt::Runtime;
use std::time::Clock;
use trust_closure::ExchangeClosure;

/// How many events one wait returns at most.
const MOST_EVENTS: usize = 256;

/// Runs a replica until a request stops it or the state cannot be kept. It has the lock of the
/// state for all that time. Once it accepts requests it prints `ready`, the configuration's digest,
/// and how many receipts and records of distrust it holds. Before that it prints on standard error
/// the address of the pages, if the system has chosen the port or [`Settings::is_verbose`] is set.
///
/// A change is on the disk before it is acknowledged. So the process may be killed at any time.
///
/// If a previous configuration is given, a state of that one is carried over at the beginning, and
/// what other replicas hold under it is taken and passed on until this replica ends.
///
/// # Errors
/// - [`Exit::Locked`]: another command has the lock of the state,
/// - [`Exit::ReplicaRuns`]: another replica has it,
/// - [`Exit::NoState`]: there is neither a state file nor a journal, and [`Settings::is_new`] is
///   not set,
/// - [`Exit::SocketTaken`]: another process listens on the socket, or its path names something else
///   than a socket,
/// - [`Exit::System`]: the system refused a step of the beginning, or a change could not be put on
///   the disk ([`Step::Journal`], [`Step::Audit`]),
/// - [`Exit::Refused`]: the state is refused, `ready` could not be printed, or memory ran out.
pub fn run_replica<R: Runtime<File = File, A = Global> + Net>(
    rt: &R,
    configs: &GivenConfigs,
    settings: &Settings<'_, '_>,
) -> Result<(), Exit> {
    run_over::<ExchangeClosure, R>(rt, configs, settings)
}

// The same over any closure.
fn run_over<C: Closure, R: Runtime<File = File, A = Global> + Net>(
    rt: &R,
    configs: &GivenConfigs,
    settings: &Settings<'_, '_>,
) -> Result<(), Exit> {
    let alloc = rt.alloc();
    let mut errors = ErrorStream::new(rt, alloc);
    let lock = lock(rt, alloc, settings.state)?;
    let mut beginning = find(rt, alloc, settings)?;
    let seen = beginning.see_previous::<C, R>(rt, alloc, configs, settings.state);
    file_at_step(Step::Save, seen)?;
    let begun: BegunSides<C> = load(
        rt,
        alloc,
        &mut errors,
        configs,
        &mut beginning,
        settings.state,
    )?;
    let mut held = HeldState::new(alloc, begun.sides, begun.fresh);
    run_held(rt, alloc, errors, &mut held, lock, beginning, settings)
}

fn lock<R: Files<File = File>>(rt: &R, alloc: Global, path: &str) -> Result<StateLock, Exit> {
    match file_at_step(Step::Lock, try_lock_state(rt, alloc, path))? {
        Some(mut lock) => {
            file_at_step(Step::Lock, lock.mark())?;
            Ok(lock)
        }
        None if file_at_step(Step::Lock, is_marked(rt, alloc, path))? => Err(Exit::ReplicaRuns),
        None => Err(Exit::Locked),
    }
}

// How it begins with the files that there are.
fn find<R: Files<File = File>>(
    rt: &R,
    alloc: Global,
    settings: &Settings<'_, '_>,
) -> Result<StateBeginning, Exit> {
    let has_journal = has_journal(rt, alloc, settings.state)?;
    let has_state = file_at_step(Step::See, state_bytes(rt, settings.state))?.is_some();
    let found = FoundFiles {
        has_state,
        has_journal,
    };
    match StateBeginning::of(
        alloc,
        settings.state,
        found,
        settings.is_new,
        settings.progress,
    )? {
        Some(beginning) => Ok(beginning),
        None => Err(Exit::NoState),
    }
}

// What is held, all of which is in the snapshot then; or, if that could not be written, in the
// files as they were.
fn load<C: Closure, R: Files<File = File> + Clock + Eprint>(
    rt: &R,
    alloc: Global,
    errors: &mut ErrorStream,
    configs: &GivenConfigs,
    beginning: &mut StateBeginning,
    path: &str,
) -> Result<BegunSides<C>, Exit> {
    let begun: BegunSides<C> = beginning.load(rt, alloc, configs, path)?;
    match beginning.save(rt, alloc, &begun, path) {
        Err(fault) if beginning.is_resumed() => {
            log_event(rt, alloc, errors, LogEvent::FoldFault(fault.why));
        }
        saved => file_at_step(Step::Save, saved)?,
    }
    if let Some(offered) = begun.carried {
        log_event(rt, alloc, errors, LogEvent::CarryOver(offered));
    }
    Ok(begun)
}

fn run_held<C: Closure, R: Files<File = File> + Net + Clock + Print + Eprint>(
    rt: &R,
    alloc: Global,
    errors: ErrorStream,
    held: &mut HeldState<C>,
    lock: StateLock,
    beginning: StateBeginning,
    settings: &Settings<'_, '_>,
) -> Result<(), Exit> {
    let mut running = RunningReplica::begin(
        rt,
        alloc,
        errors,
        &held.sides,
        lock,
        beginning,
        settings,
    )?;
    if held.sides.previous.is_none() {
        file_at_step(Step::Save, remove_previous(rt, alloc, settings.state))?;
    }
    let mut events = Events::with_capacity(alloc, MOST_EVENTS)?;
    say_health(rt, alloc, &running, settings);
    print_ready(rt, alloc, &held.sides.next)?;
    let ended = run_turns(rt, alloc, held, &mut running, &mut events, settings);
    running.print_all(rt, alloc);
    running.remove_files(rt, settings);
    ended
}

fn run_turns<C: Closure, R: Files<File = File> + Net + Clock + Eprint>(
    rt: &R,
    alloc: Global,
    held: &mut HeldState<C>,
    running: &mut RunningReplica,
    events: &mut Events,
    settings: &Settings<'_, '_>,
) -> Result<(), Exit> {
    for _ in 0..u64::MAX {
        match turn(rt, alloc, held, running, events, settings) {
            Ok(true) => break,
            Ok(false) => {}
            Err(KeepFault::State(fault)) => {
                running.log(rt, alloc, LogEvent::Journal(fault.why));
                return Err(Exit::of_file(Step::Journal, fault));
            }
            Err(KeepFault::Audit(fault)) => {
                running.log(rt, alloc, LogEvent::AuditFault(fault.why));
                return Err(Exit::of_file(Step::Audit, fault));
            }
        }
    }
    Ok(())
}

// That it cannot be said changes nothing.
fn say_health<R: Eprint>(
    rt: &R,
    alloc: Global,
    running: &RunningReplica,
    settings: &Settings<'_, '_>,
) {
    let (Some(wanted), Some(address)) = (settings.health, running.health_address()) else {
        return;
    };
    if wanted.port() != 0 && !settings.is_verbose {
        return;
    }
    if let Ok(line) = format!(in alloc; "fedbundle: health {address}\n") {
        let _ = rt.eprint(line);
    }
}

fn print_ready<C: Closure, R: Print>(rt: &R, alloc: Global, closure: &C) -> Result<(), Exit> {
    let digest = hex::encode(alloc, closure.config().digest().0)?;
    let receipts = closure.receipt_count();
    let distrusts = closure.distrusts().count();
    let line = format!(in alloc; "ready {digest} receipts {receipts} distrusts {distrusts}\n")?;
    match rt.print(line) {
        Ok(()) => Ok(()),
        Err(_) => Err(Exit::Refused(CommandError::Io)),
    }
}
