//! The commands with `--at`: a running replica carries them out.
use crate::process::{input, options};
use crate::replica_client::client::{AskFault, LocalRequest, ask_replica};
use byte_lines::{Source, read_up_to};
use command_exits::{CommandError, Exit, Step};
use command_line::{Call, CommandName, OptionName, given};
use local_answers::{MOST_INPUT, request_words};
use state_files::{has_journal, state_bytes};
use std::fs;
use std::io::Write;
use std::os::unix::fs::FileTypeExt;

/// The input of a request, or the exit status with which another replica refused to give it.
#[derive(Drop)]
enum AskInput {
    Bytes(Vec<u8>),
    Ended(u8),
}

/// Hands the arguments and what the command reads to the replica that listens at the path, and
/// writes what it replies. It waits for each reply for this many seconds.
pub fn ask_running(
    rt: &HostRuntime,
    call: &Call<'_>,
    path: &str,
    wait_seconds: u64,
) -> Result<u8, Exit> {
    let words = request_words(rt.alloc(), call)?;
    let texts: Vec<&str> = words.iter().map(|word| word.as_str()).collect(rt.alloc())?;
    let text = match input_of(rt, call, wait_seconds)? {
        AskInput::Bytes(bytes) => bytes,
        AskInput::Ended(status) => return Ok(status),
    };
    let request = LocalRequest {
        path,
        words: texts.as_slice(),
        input: text.as_slice(),
        wait_seconds,
    };
    ask_for(rt, &request, &mut rt.stdout())
}

// Hands the request to the replica, and writes the two streams of its reply: the output there, and
// the errors on standard error.
fn ask_for<W: Write>(
    rt: &HostRuntime,
    request: &LocalRequest<'_>,
    output: &mut W,
) -> Result<u8, Exit> {
    match ask_replica(rt, rt.alloc(), request, output, &mut rt.stderr()) {
        Ok(status) => Ok(status),
        Err(AskFault::NoReplica) => Err(Exit::NoReplica),
        Err(AskFault::NoReply) => Err(Exit::NoReply),
        Err(AskFault::Socket(fault)) => Err(Exit::of_file(Step::Socket, fault)),
        Err(AskFault::Io) => Err(Exit::Refused(CommandError::Io)),
        Err(AskFault::NoMemory) => Err(Exit::Refused(CommandError::NoMemory)),
    }
}

// What the command reads: a file that the arguments name, what another side holds, or standard
// input.
fn input_of(rt: &HostRuntime, call: &Call<'_>, wait_seconds: u64) -> Result<AskInput, Exit> {
    let with = given(call, OptionName::With);
    if let (CommandName::Diff, Some(path)) = (call.name, with) {
        return other_side(rt, path, wait_seconds);
    }
    let named = given(call, OptionName::Polls)
        .or(given(call, OptionName::To))
        .or(with);
    match named {
        Some(path) => read_input(rt, &mut options::file(rt, path)?),
        None if reads_input(call.name) => read_input(rt, &mut input(rt)),
        None => Ok(AskInput::Bytes(Vec::new(rt.alloc()))),
    }
}

// One byte more than a request may have, so that the replica can see what is too long.
fn read_input<R: Source>(rt: &HostRuntime, source: &mut R) -> Result<AskInput, Exit> {
    match read_up_to(rt.alloc(), source, MOST_INPUT + 1) {
        Ok(bytes) => Ok(AskInput::Bytes(bytes)),
        Err(error) => Err(Exit::Refused(CommandError::from(error))),
    }
}

fn reads_input(name: CommandName) -> bool {
    matches!(
        name,
        CommandName::Observe | CommandName::Merge | CommandName::Explain | CommandName::Polls
    )
}

// The snapshot of the other side of `diff`: of the running replica whose socket it is, or a state
// file. What a journal says can only be read with the configuration, which its replica has.
fn other_side(rt: &HostRuntime, path: &str, wait_seconds: u64) -> Result<AskInput, Exit> {
    if is_socket(rt, path) {
        return snapshot_at(rt, path, wait_seconds);
    }
    if has_journal(rt, rt.alloc(), path)? {
        return Err(Exit::ReplicaRuns);
    }
    match state_bytes(rt, path) {
        Ok(Some(_)) => read_input(rt, &mut options::file(rt, path)?),
        Ok(None) => Err(Exit::NoState),
        Err(fault) => Err(Exit::of_file(Step::See, fault)),
    }
}

fn is_socket(rt: &HostRuntime, path: &str) -> bool {
    match fs::metadata(rt, path) {
        Ok(there) => there.file_type().is_socket(),
        Err(_) => false,
    }
}

// What the other replica carries over to its own configuration.
fn snapshot_at(rt: &HostRuntime, path: &str, wait_seconds: u64) -> Result<AskInput, Exit> {
    let words = Vec::from_elem(rt.alloc(), CommandName::Migrate.text(), 1)?;
    let request = LocalRequest {
        path,
        words: words.as_slice(),
        input: b"".as_slice(),
        wait_seconds,
    };
    let mut snapshot = Vec::new(rt.alloc());
    match ask_for(rt, &request, &mut snapshot)? {
        0 => Ok(AskInput::Bytes(snapshot)),
        status => Ok(AskInput::Ended(status)),
    }
}
