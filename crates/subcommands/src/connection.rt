//! Connections with other replicas, and how long they may keep this one.
use command_exits::{CommandError, Exit, Step, SystemFault};
use replica_core::SyncError;
use std::io::{ErrorKind, Read, Write};
use std::net::{SocketAddr, TcpListener, TcpStream};
use std::time::{Duration, Instant};
use std::{io, thread};

/// How many seconds a connect may take, and a read or a write in which no byte moves.
const MAX_IDLE_SECONDS: u64 = 30;

/// How many seconds a session may take in all. It ends with the first read or write that begins
/// later.
const MAX_SESSION_SECONDS: u64 = 600;

/// How often one read or write is begun again after a signal, as when the process was stopped and
/// continued, or a debugger was attached.
const MAX_INTERRUPTIONS: u32 = 1_000_000;

/// How long a failed accept waits, so that errors that come one after another take no processor.
const PAUSE_MILLIS: u64 = 100;

/// A connection with another replica, for one session.
#[derive(Drop)]
pub(crate) struct Connection {
    stream: TcpStream,
    peer: SocketAddr,
    begun: Instant,
    deadline: Instant,
}

/// One direction of a connection. Past the session's time each call fails.
#[derive(Drop)]
pub(crate) struct Direction<'a> {
    rt: &'a HostRuntime,
    connection: &'a Connection,
}

/// Waits at the address. It fails if another program does so already.
pub(crate) fn listen(rt: &HostRuntime, address: SocketAddr) -> Result<TcpListener, Exit> {
    match TcpListener::bind(rt, address) {
        Ok(listener) => Ok(listener),
        Err(error) => Err(fault_at(Step::Listen, &error)),
    }
}

/// The connection that the next client makes. How long it is waited for has no limit. An error is
/// returned after a pause.
pub(crate) fn accept(rt: &HostRuntime, listener: &TcpListener) -> Result<Connection, Exit> {
    match accept_stream(rt, listener) {
        Ok(connection) => Ok(connection),
        Err(error) => {
            thread::sleep(rt, Duration::from_millis(PAUSE_MILLIS));
            Err(fault_at(Step::Accept, &error))
        }
    }
}

/// A connection to the replica that serves at the address.
pub(crate) fn connect(rt: &HostRuntime, address: SocketAddr) -> Result<Connection, Exit> {
    match connect_stream(rt, address) {
        Ok(connection) => Ok(connection),
        Err(error) => Err(fault_at(Step::Connect, &error)),
    }
}

impl Connection {
    /// The address of the other side.
    pub(crate) fn peer(&self) -> SocketAddr {
        self.peer
    }

    /// Whether it began so lately that nothing on it can have failed because no byte moved.
    pub(crate) fn is_young(&self, rt: &HostRuntime) -> bool {
        match Instant::now(rt) {
            Ok(now) => now.duration_since(self.begun) < Duration::from_secs(MAX_IDLE_SECONDS),
            Err(_) => false,
        }
    }

    /// A direction of the connection; either serves for both.
    pub(crate) fn direction<'a>(&'a self, rt: &'a HostRuntime) -> Direction<'a> {
        Direction {
            rt,
            connection: self,
        }
    }
}

impl Direction<'_> {
    fn check_time(&self) -> io::Result<()> {
        if Instant::now(self.rt)? < self.connection.deadline {
            Ok(())
        } else {
            Err(io::Error::from(ErrorKind::TimedOut))
        }
    }
}

impl Read for Direction<'_> {
    fn read(&mut self, buffer: &mut [u8]) -> io::Result<usize> {
        for _ in 0..MAX_INTERRUPTIONS {
            self.check_time()?;
            let mut stream = &self.connection.stream;
            match stream.read(buffer) {
                Err(error) if is_interruption(&error) => {}
                done => return done,
            }
        }
        Err(io::Error::from(ErrorKind::Interrupted))
    }
}

impl Write for Direction<'_> {
    fn write(&mut self, bytes: &[u8]) -> io::Result<usize> {
        for _ in 0..MAX_INTERRUPTIONS {
            self.check_time()?;
            let mut stream = &self.connection.stream;
            match stream.write(bytes) {
                Err(error) if is_interruption(&error) => {}
                done => return done,
            }
        }
        Err(io::Error::from(ErrorKind::Interrupted))
    }

    fn flush(&mut self) -> io::Result<()> {
        Ok(())
    }
}

// A signal came before any byte moved.
fn is_interruption(error: &io::Error) -> bool {
    error.kind() == ErrorKind::Interrupted
}

fn fault_at(step: Step, error: &io::Error) -> Exit {
    Exit::System(SystemFault {
        error: fault_of(error),
        step,
        code: error.raw_os_error(),
    })
}

// Among all errors of the system, only lack of memory has a name of its own.
fn fault_of(error: &io::Error) -> CommandError {
    match error.kind() {
        ErrorKind::OutOfMemory => CommandError::Sync(SyncError::NoMemory),
        _ => CommandError::Sync(SyncError::Io),
    }
}

fn accept_stream(rt: &HostRuntime, listener: &TcpListener) -> io::Result<Connection> {
    let (stream, peer) = listener.accept()?;
    with_timeouts(rt, stream, peer)
}

fn connect_stream(rt: &HostRuntime, address: SocketAddr) -> io::Result<Connection> {
    let idle = Duration::from_secs(MAX_IDLE_SECONDS);
    let stream = TcpStream::connect_timeout(rt, &address, idle)?;
    with_timeouts(rt, stream, address)
}

// A session whose time begins now. Each write goes out immediately, since the other side waits for
// it.
fn with_timeouts(rt: &HostRuntime, stream: TcpStream, peer: SocketAddr) -> io::Result<Connection> {
    let idle = Duration::from_secs(MAX_IDLE_SECONDS);
    stream.set_nodelay(true)?;
    stream.set_read_timeout(Some(idle))?;
    stream.set_write_timeout(Some(idle))?;
    let begun = Instant::now(rt)?;
    match begun.checked_add(Duration::from_secs(MAX_SESSION_SECONDS)) {
        Some(deadline) => Ok(Connection {
            stream,
            peer,
            begun,
            deadline,
        }),
        None => Err(io::Error::from(ErrorKind::TimedOut)),
    }
}
