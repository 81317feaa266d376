//! `serve`: the end of a session that answers, over a socket. It loads the state, reads the
//! address, and opens the socket before a session begins.
use crate::connection::{Connection, accept, listen};
use crate::open_line::{LineReader, OpenLine};
use crate::process::options::config_of;
use crate::process::{
    error_lines, options, output_line, print_exit, progress_mode, warn_of_anywhere,
};
use crate::state_access::{load, state_access_of};
use bucket_sums::{SummedClosure, serve_quietly};
use byte_lines::{FromRead, FromWrite};
use closure_core::Closure;
use command_exits::{CommandError, Exit};
use command_line::{Call, OptionName, read_address, wanted};
use fed_config::Config;
use fedbundle::write_served;
use progress_line::{LongWork, WatchedWriter, WorkProgress};
use std::io::Write;
use std::net::{SocketAddr, TcpListener};

/// How many sessions are served, and whether each is spoken of.
#[derive(Clone, Copy)]
struct Service {
    sessions: u32,
    is_verbose: bool,
}

/// Serves the number of sessions that the arguments say. The error of a session is reported at its
/// end, and the greatest exit status of all is returned.
pub(crate) fn run<C: Closure>(rt: &HostRuntime, call: &Call<'_>) -> Result<u8, Exit> {
    let sessions = options::session_count(wanted(call, OptionName::Sessions)?)?;
    let config = config_of(rt, call)?;
    serve::<C>(rt, &config, call, sessions)
}

// Serves this many sessions, one after another, with what the state file holds at the start.
fn serve<C: Closure>(
    rt: &HostRuntime,
    config: &Config,
    call: &Call<'_>,
    sessions: u32,
) -> Result<u8, Exit> {
    let state = state_access_of(call)?;
    let loaded: C = load(rt, config, state)?;
    let mut closure = SummedClosure::of(rt.alloc(), loaded);
    let service = Service {
        sessions,
        is_verbose: state.manner.is_verbose,
    };
    serve_at(rt, &mut closure, wanted(call, OptionName::Listen)?, service)
}

fn serve_at<C: Closure>(
    rt: &HostRuntime,
    closure: &mut SummedClosure<C>,
    address: &str,
    service: Service,
) -> Result<u8, Exit> {
    let wanted = read_address(OptionName::Listen, address)?;
    let listener = listen(rt, wanted)?;
    if service.is_verbose || wanted.port() == 0 {
        // If the system does not say which port it chose, nothing else is known of it.
        say_listening(rt, listener.local_addr().unwrap_or(wanted));
    }
    Ok(serve_all(rt, closure, &listener, service))
}

fn serve_all<C: Closure>(
    rt: &HostRuntime,
    closure: &mut SummedClosure<C>,
    listener: &TcpListener,
    service: Service,
) -> u8 {
    let mut worst = 0;
    for _ in 0..service.sessions {
        let served = serve_next(rt, closure, listener, service.is_verbose);
        worst = status_of(rt, served).max(worst);
    }
    let written = write_served(u64::from(service.sessions), &mut output_line(rt));
    status_of(rt, written.map_err(Exit::Refused)).max(worst)
}

fn serve_next<C: Closure>(
    rt: &HostRuntime,
    closure: &mut SummedClosure<C>,
    listener: &TcpListener,
    is_verbose: bool,
) -> Result<(), Exit> {
    let connection = accept(rt, listener)?;
    if is_verbose {
        say_coming(rt, connection.peer());
    }
    let count = serve_on(rt, closure, &connection)?;
    if is_verbose {
        say_given(rt, connection.peer(), count);
    }
    Ok(())
}

fn serve_on<C: Closure>(
    rt: &HostRuntime,
    closure: &mut SummedClosure<C>,
    connection: &Connection,
) -> Result<u64, CommandError> {
    let mut progress = WorkProgress::begin(rt, rt.alloc(), LongWork::Serving, progress_mode(rt));
    let answers = WatchedWriter::new(connection.direction(rt), &mut progress);
    let mut sink = FromWrite::new(answers);
    let mut line = OpenLine::new();
    let served = {
        let mut source = FromRead::new(LineReader::new(connection.direction(rt), &mut line));
        serve_quietly(rt.alloc(), closure, &mut source, &mut sink)
    };
    match served {
        Ok(count) => Ok(count),
        Err(why) => {
            let why = line.error_of(why, &mut connection.direction(rt));
            Err(CommandError::from(why))
        }
    }
}

// In these three, a line that cannot be written changes nothing.
fn say_listening(rt: &HostRuntime, address: SocketAddr) {
    let _ = writeln!(error_lines(rt), "fedbundle: listens at {address}");
    warn_of_anywhere(rt, address);
}

fn say_coming(rt: &HostRuntime, peer: SocketAddr) {
    let _ = writeln!(error_lines(rt), "fedbundle: {peer} came");
}

fn say_given(rt: &HostRuntime, peer: SocketAddr, answers: u64) {
    let _ = writeln!(
        error_lines(rt),
        "fedbundle: {peer} was given {answers} answers"
    );
}

// The exit status of what was done, if an error is reported.
fn status_of(rt: &HostRuntime, done: Result<(), Exit>) -> u8 {
    match done {
        Ok(()) => 0,
        Err(exit) => print_exit(rt, &exit),
    }
}
