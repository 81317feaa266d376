//! The same arguments as a request to a running replica, which has the configuration and the state
//! itself. What is held afterwards is read back from the state and the lines of the journal.
use crate::commands::{Case, snapshot};
use crate::devices::Devices;
use crate::words::split_words;
use byte_lines::{FromRead, write_all};
use closure_core::Closure;
use fed_config::Config;
use fedbundle::{Call, CommandError, CommandName, OptionName, given, is_flag_given, read_words};
use local_answers::{
    Reply, RequestFault, RequestParts, StreamState, answer_request, request_words,
};
use replica_journal::{begin_journal, read_journal};
use replica_sync::{read_snapshot, write_snapshot};
use request_lines::write_request_words;
use status_view::RunningStatus;
use std::alloc::{AllocError, Global};

/// A running replica: its configuration, and the text of its state file, if there is one.
#[derive(Clone, Copy)]
struct Running<'a> {
    alloc: Global,
    config: &'a Config,
    file: Option<&'a [u8]>,
}

/// Asks a running replica if it can be asked so, and returns whether it was. What it replied is in
/// the devices then.
pub(crate) fn ask<C: Closure>(
    case: &Case<'_>,
    devices: &mut Devices,
) -> Result<bool, CommandError> {
    let words = split_words(case.alloc, case.words)?;
    match read_words(case.alloc, words.as_slice()) {
        Ok(call) => ask_call::<C>(case, &call, devices),
        Err(_) => Ok(false),
    }
}

fn ask_call<C: Closure>(
    case: &Case<'_>,
    call: &Call<'_>,
    devices: &mut Devices,
) -> Result<bool, CommandError> {
    let config = given(call, OptionName::Config).and_then(|name| case.script.text(name));
    let state = given(call, OptionName::State);
    let has_state = state.is_some() || call.name == CommandName::Config;
    match (config, input_of(case, call)) {
        (Some(config), Some(input)) if has_state && is_asked(case, call) => {
            let asked = Case { input, ..*case };
            let file = state.and_then(|name| case.script.text(name));
            ask_under::<C>(&asked, call, config, file, devices)
        }
        _ => Ok(false),
    }
}

fn is_asked(case: &Case<'_>, call: &Call<'_>) -> bool {
    case.is_request || is_same_of_replicas(call)
}

// What the request has in place of standard input: the file that is carried over to or compared
// with, if one is named, which has to be there.
fn input_of<'a>(case: &Case<'a>, call: &Call<'_>) -> Option<&'a [u8]> {
    let script = case.script;
    match given(call, OptionName::To).or(given(call, OptionName::With)) {
        Some(name) => script.text(name),
        None => Some(case.input),
    }
}

// Whether a replica replies what the command prints. For `status` it says more.
fn is_same_of_replicas(call: &Call<'_>) -> bool {
    matches!(
        call.name,
        CommandName::Config
            | CommandName::Report
            | CommandName::List
            | CommandName::Diff
            | CommandName::Graph
            | CommandName::Bundle
            | CommandName::Explain
            | CommandName::Polls
            | CommandName::Observe
            | CommandName::Merge
            | CommandName::Migrate
            | CommandName::Reseed
            | CommandName::Distrust
    )
}

fn ask_under<C: Closure>(
    case: &Case<'_>,
    call: &Call<'_>,
    config: &[u8],
    file: Option<&[u8]>,
    devices: &mut Devices,
) -> Result<bool, CommandError> {
    // A replica does not start if either is refused.
    let Ok(config) = Config::read(case.alloc, config) else {
        return Ok(false);
    };
    let running = Running {
        alloc: case.alloc,
        config: &config,
        file,
    };
    let Ok(mut closure) = load::<C>(running) else {
        return Ok(false);
    };
    ask_replica(running, &mut closure, call, case.input, devices)?;
    Ok(true)
}

fn load<C: Closure>(running: Running<'_>) -> Result<C, CommandError> {
    match running.file {
        Some(text) => Ok(read_snapshot(running.alloc, running.config, &mut FromRead::new(text))?),
        None => Ok(C::new(running.alloc, running.config)?),
    }
}

fn ask_replica<C: Closure>(
    running: Running<'_>,
    closure: &mut C,
    call: &Call<'_>,
    input: &[u8],
    devices: &mut Devices,
) -> Result<(), CommandError> {
    let before = snapshot(running.alloc, closure)?;
    let line = line_of(running.alloc, call)?;
    let reply = reply_of(running, closure, line.as_str(), input)?;
    show_reply(call, &reply, devices)?;
    let read_back: C = with_journal(running, &reply)?;
    write_snapshot(running.alloc, &read_back, &mut devices.state)?;
    let is_kept = reply.status == 0 && changes(call);
    let known = if is_kept {
        running.file
    } else {
        Some(before.as_bytes())
    };
    devices.is_state_new = known != Some(devices.state.as_bytes());
    let after = snapshot(running.alloc, closure)?;
    if after.as_bytes() != devices.state.as_bytes() {
        write_all(&mut devices.errors, b"the journal says something else\n")?;
    }
    Ok(())
}

fn reply_of<C: Closure>(
    running: Running<'_>,
    closure: &mut C,
    line: &str,
    input: &[u8],
) -> Result<Reply, CommandError> {
    let status = RunningStatus {
        snapshot_bytes: running.file.map_or(0, |text| text.len()) as u64,
        journal_bytes: 0,
        peers: &[],
        began: 0,
        moment: 0,
        previous: None,
    };
    match reply_on_stream(running.alloc, closure, &status, line, input) {
        Ok(Some(reply)) => Ok(reply),
        Ok(None) | Err(_) => Err(CommandError::NoMemory),
    }
}

// The reply to the request of a stream: its line, and its input up to the end.
fn reply_on_stream<C: Closure>(
    alloc: Global,
    closure: &mut C,
    running: &RunningStatus<'_>,
    line: &str,
    input: &[u8],
) -> Result<Option<Reply>, RequestFault> {
    let mut parts = RequestParts::new(alloc);
    for piece in [line.as_bytes(), b"\n", input] {
        parts.take(piece)?;
    }
    let Some(request) = parts.next(alloc, StreamState::Ended)? else {
        return Ok(None);
    };
    let texts = request.texts(alloc)?;
    let reply = answer_request(alloc, closure, running, texts.as_slice(), request.input())?;
    Ok(Some(reply))
}

/// Whether the command changes what is held, if it ends without an error.
pub(crate) fn changes(call: &Call<'_>) -> bool {
    match call.name {
        CommandName::Observe | CommandName::Merge => true,
        CommandName::Distrust => !is_flag_given(given(call, OptionName::DryRun)),
        _ => false,
    }
}

// A running replica has a state, so it is not asked as if there may be none. A key that is to be
// distrusted may be unknown to it, as it may be over files.
fn line_of(alloc: Global, call: &Call<'_>) -> Result<String, AllocError> {
    let words = request_words(alloc, call)?;
    let mut texts: Vec<&str> = words
        .iter()
        .map(|word| word.as_str())
        .filter(|word| *word != "--new")
        .collect(alloc)?;
    if call.name == CommandName::Distrust {
        texts.push("--unknown-key")?;
    }
    write_request_words(alloc, texts.as_slice())
}

fn show_reply(call: &Call<'_>, reply: &Reply, devices: &mut Devices) -> Result<(), CommandError> {
    let output = match call.name {
        CommandName::Distrust => behind_fallen(reply.output.as_slice()),
        _ => reply.output.as_slice(),
    };
    write_all(&mut devices.output, output)?;
    write_all(&mut devices.errors, reply.errors.as_slice())?;
    devices.status = reply.status;
    Ok(())
}

// Only a running replica says of which domains documents fell, in lines before all others.
fn behind_fallen(output: &[u8]) -> &[u8] {
    let mut rest = output;
    for _ in 0..output.len() {
        match rest.iter().position(|byte| *byte == b'\n') {
            Some(feed) if rest.starts_with(b"fell ") => rest = &rest[feed + 1..],
            _ => break,
        }
    }
    rest
}

// What the state and the journal say together.
fn with_journal<C: Closure>(running: Running<'_>, reply: &Reply) -> Result<C, CommandError> {
    let held: C = load(running)?;
    let mut journal = Vec::new(running.alloc);
    begin_journal(running.alloc, running.config, &mut journal)?;
    journal.extend_from_slice(reply.journal.as_slice())?;
    Ok(read_journal(running.alloc, held, &mut FromRead::new(journal.as_slice()))?)
}
