//! `pull`: the end of a session that asks, over a socket. It loads the state, reads the address,
//! and connects before a session begins; it saves the state at the end. A session asks about all
//! buckets. With `--sums` it begins with sums, and asks about those that differ; a peer that does
//! not know sums is then asked about all, on a second connection.
use crate::connection::{Connection, connect};
use crate::faults::status_of;
use crate::limited_reader::LimitedReader;
use crate::process::{output_line, progress_mode};
use crate::state_access::{StateAccess, leave, load, lock, room_left, save, state_access_of};
use bucket_sums::{QuietPulling, SummedClosure, pull_quietly};
use byte_lines::{FromRead, FromWrite};
use closure_core::Closure;
use command_exits::{CommandError, Exit, Step};
use command_line::{Call, OptionName, given, is_flag_given, read_known_address, wanted};
use fed_config::Config;
use fedbundle::{run_pull, write_counted};
use progress_line::{LongWork, WatchedReader, WorkProgress};
use replica_core::SyncError;
use replica_sync::PullFault;
use state_files::{SeenState, has_journal, see_state};
use std::io::Read;

/// What is held when a session begins, and the file that it is of.
#[derive(Drop)]
struct Begun<C: Closure> {
    closure: SummedClosure<C>,
    file: SeenState,
}

/// What came of a session that begins with sums.
#[derive(Drop)]
enum SumsSession {
    /// It ended.
    Ended(Result<(), Exit>),
    /// The other side ended the connection and answered nothing: it may not know sums.
    Unanswered,
}

/// Takes what the replica at the address has, and writes the state, also if the session ends with
/// an error. Without a connection the state file is unchanged. The state is locked while it is
/// loaded and while it is written, and not while the other replica answers.
pub(crate) fn run<C: Closure>(
    rt: &HostRuntime,
    config: &Config,
    call: &Call<'_>,
) -> Result<u8, Exit> {
    let state = state_access_of(call)?;
    let mut begun: Begun<C> = begin(rt, config, state)?;
    let pulled = pull_from(rt, call, &mut begun.closure, room_left(rt, state))?;
    let saved = end_saving(rt, config, state, &begun);
    leave(begun);
    Ok(end_pull(rt, call, pulled, saved))
}

// How the session ended, or why there was no connection. A peer that was asked for sums, and may
// not know them, is asked without them, on another connection.
fn pull_from<C: Closure>(
    rt: &HostRuntime,
    call: &Call<'_>,
    closure: &mut SummedClosure<C>,
    most_bytes: u64,
) -> Result<Result<(), Exit>, Exit> {
    let address = read_known_address(OptionName::Peer, wanted(call, OptionName::Peer)?)?;
    let connection = connect(rt, address)?;
    if !is_flag_given(given(call, OptionName::Sums)) {
        return Ok(pull_with_haves(rt, closure, &connection, most_bytes));
    }
    match pull_with_sums(rt, closure, connection, most_bytes) {
        SumsSession::Ended(ended) => Ok(ended),
        SumsSession::Unanswered => {
            let connection = connect(rt, address)?;
            Ok(pull_with_haves(rt, closure, &connection, most_bytes))
        }
    }
}

fn begin<C: Closure>(
    rt: &HostRuntime,
    config: &Config,
    state: StateAccess<'_>,
) -> Result<Begun<C>, Exit> {
    let _lock = lock(rt, state)?;
    let closure = SummedClosure::of(rt.alloc(), load(rt, config, state)?);
    match see_state(rt, state.path) {
        Ok(file) => Ok(Begun { closure, file }),
        Err(fault) => Err(Exit::of_file(Step::See, fault)),
    }
}

// The connection is closed at the end. A peer that answers one connection after another then
// takes the next one.
fn pull_with_sums<C: Closure>(
    rt: &HostRuntime,
    closure: &mut SummedClosure<C>,
    connection: Connection,
    most_bytes: u64,
) -> SumsSession {
    let mut answers = LimitedReader::new(connection.direction(rt), most_bytes);
    let mut session = match QuietPulling::new(rt.alloc(), &mut *closure) {
        Ok(session) => session,
        Err(why) => return SumsSession::Ended(Err(Exit::Refused(pull_error(why, 0)))),
    };
    let pulled = pull_quietly_on(rt, closure, &mut session, &mut answers, &connection);
    let is_unanswered = match &pulled {
        Ok(()) => false,
        Err(error) => {
            is_of_connection(error) && session.is_unanswered() && connection.is_young(rt)
        }
    };
    if is_unanswered {
        SumsSession::Unanswered
    } else {
        SumsSession::Ended(end_session(pulled, answers.has_passed()))
    }
}

fn pull_quietly_on<C: Closure, R: Read>(
    rt: &HostRuntime,
    closure: &mut C,
    session: &mut QuietPulling,
    answers: &mut R,
    connection: &Connection,
) -> Result<(), CommandError> {
    let mut progress = WorkProgress::begin(rt, rt.alloc(), LongWork::Pulling, progress_mode(rt));
    let mut source = FromRead::new(WatchedReader::new(answers, &mut progress));
    let mut peer = FromWrite::new(connection.direction(rt));
    match pull_quietly(rt.alloc(), closure, session, &mut source, &mut peer) {
        Ok(()) => {
            write_counted(b"new ", session.taken(), &mut output_line(rt))?;
            Ok(())
        }
        Err(why) => Err(pull_error(why, session.taken())),
    }
}

fn pull_error(why: SyncError, taken: u64) -> CommandError {
    CommandError::Pull(PullFault { why, taken })
}

fn pull_with_haves<C: Closure>(
    rt: &HostRuntime,
    closure: &mut C,
    connection: &Connection,
    most_bytes: u64,
) -> Result<(), Exit> {
    let mut answers = LimitedReader::new(connection.direction(rt), most_bytes);
    let pulled = pull_haves_on(rt, closure, &mut answers, connection);
    end_session(pulled, answers.has_passed())
}

fn pull_haves_on<C: Closure, R: Read>(
    rt: &HostRuntime,
    closure: &mut C,
    answers: &mut R,
    connection: &Connection,
) -> Result<(), CommandError> {
    let mut progress = WorkProgress::begin(rt, rt.alloc(), LongWork::Pulling, progress_mode(rt));
    let mut source = FromRead::new(WatchedReader::new(answers, &mut progress));
    let mut peer = FromWrite::new(connection.direction(rt));
    run_pull(
        rt.alloc(),
        closure,
        &mut source,
        &mut peer,
        &mut output_line(rt),
    )
}

fn end_session(pulled: Result<(), CommandError>, has_passed: bool) -> Result<(), Exit> {
    match pulled {
        Ok(()) => Ok(()),
        Err(_) if has_passed => Err(Exit::TooManyBytes),
        Err(error) => Err(Exit::Refused(error)),
    }
}

// Whether the connection ended or failed.
fn is_of_connection(error: &CommandError) -> bool {
    match error {
        CommandError::Pull(fault) => matches!(fault.why, SyncError::Truncated | SyncError::Io),
        _ => false,
    }
}

// The state is written before an error of the session is reported.
fn end_pull(
    rt: &HostRuntime,
    call: &Call<'_>,
    pulled: Result<(), Exit>,
    saved: Result<(), Exit>,
) -> u8 {
    let ended = status_of(rt, call, pulled.map(|()| 0));
    status_of(rt, call, saved.map(|()| 0)).max(ended)
}

// If another command has written the state meanwhile, or there is a journal, what was pulled is
// joined to that.
fn end_saving<C: Closure>(
    rt: &HostRuntime,
    config: &Config,
    state: StateAccess<'_>,
    begun: &Begun<C>,
) -> Result<(), Exit> {
    let _lock = lock(rt, state)?;
    if is_as_begun(rt, &begun.file, state.path)? {
        save(rt, &begun.closure, state.path)
    } else {
        join(rt, config, state, begun.closure.closure())
    }
}

fn is_as_begun(rt: &HostRuntime, file: &SeenState, path: &str) -> Result<bool, Exit> {
    if has_journal(rt, rt.alloc(), path)? {
        return Ok(false);
    }
    match file.is_last(rt, path) {
        Ok(is_last) => Ok(is_last),
        Err(fault) => Err(Exit::of_file(Step::See, fault)),
    }
}

fn join<C: Closure>(
    rt: &HostRuntime,
    config: &Config,
    state: StateAccess<'_>,
    pulled: &C,
) -> Result<(), Exit> {
    let mut held: C = load(rt, config, state)?;
    match held.merge(pulled) {
        Ok(_) => save(rt, &held, state.path),
        Err(why) => Err(Exit::Refused(CommandError::Take(why))),
    }
}
