//! The other side of a local request: the arguments and the input go to the replica, and its reply
//! goes to the standard streams. The wait for a stopped or stuck replica has a limit.
use command_exits::FileFault;
use memchr::memchr;
use replica_sockets::too_long;
use request_lines::{ReplyHead, read_reply_head, write_request_words};
use std::alloc::{AllocError, AllocFailed, Global};
use std::io::{ErrorKind, Read, Write};
use std::net::{Net, Shutdown};
use std::os::fd::OwnedFd;
use std::os::unix::net::UnixStream;
use std::time::{Clock, Duration, Instant};
use std::{io, thread};

/// A request to the replica of a socket.
#[derive(Clone, Copy, Debug)]
pub struct LocalRequest<'a> {
    /// The path of the socket.
    pub path: &'a str,
    /// Its arguments.
    pub words: &'a [&'a str],
    /// Its input.
    pub input: &'a [u8],
    /// How many seconds the whole reply is waited for, at least one.
    pub wait_seconds: u64,
}

/// Why there is no reply, or it is not written.
#[derive(Clone, Copy, Debug, PartialEq, Eq)]
pub enum AskFault {
    /// Nobody listens on the socket, or the reply is cut.
    NoReplica,
    /// The reply was not there in time.
    NoReply,
    /// The system refuses access to the socket, or its path is not one that the system takes.
    Socket(FileFault),
    /// A stream failed.
    Io,
    /// Memory ran out.
    NoMemory,
}

impl From<AllocError> for AskFault {
    fn from(_error: AllocError) -> AskFault {
        AskFault::NoMemory
    }
}

impl<T: Drop> From<AllocFailed<T>> for AskFault {
    fn from(_error: AllocFailed<T>) -> AskFault {
        AskFault::NoMemory
    }
}

/// How many bytes are read or written together.
const PIECE_BYTES: usize = 65_536;

/// How often a connect, a read or a write is begun again.
const MAX_TRIES: u64 = 1 << 48;

/// How long a connect waits before it tries again, while too many clients wait at the socket.
const PAUSE_MILLIS: u64 = 20;

/// Sends the arguments and the input to the replica that listens on the socket, writes its reply's
/// two streams, and returns its exit status. Nothing is written unless the whole reply came.
///
/// # Errors
/// A change may have been made all the same, unless nobody listens.
/// - [`AskFault::NoReplica`]: nobody listens on the socket, or the reply is cut,
/// - [`AskFault::NoReply`]: the whole reply was not there in time,
/// - [`AskFault::Socket`]: the system refuses access to the socket, or its path has more than 107
///   bytes,
/// - [`AskFault::Io`]: a stream failed,
/// - [`AskFault::NoMemory`]: memory ran out.
pub fn ask_replica<R: Net + Clock, O: Write, E: Write>(
    rt: &R,
    alloc: Global,
    request: &LocalRequest<'_>,
    output: &mut O,
    errors: &mut E,
) -> Result<u8, AskFault> {
    let mut line = write_request_words(alloc, request.words)?.into_bytes();
    line.push(b'\n')?;
    let reply = exchange(rt, alloc, request, line.as_slice())?;
    give(alloc, reply.as_slice(), output, errors)
}

// The whole reply.
fn exchange<R: Net + Clock>(
    rt: &R,
    alloc: Global,
    request: &LocalRequest<'_>,
    line: &[u8],
) -> Result<Vec<u8>, AskFault> {
    let deadline = Deadline::after(rt, request.wait_seconds)?;
    let mut stream = connect(rt, request.path, &deadline)?;
    // If the replica refuses the request before it has read all of it, its reply says so.
    if write_all(rt, &mut stream, line, &deadline)?
        && write_all(rt, &mut stream, request.input, &deadline)?
    {
        let _ = stream.shutdown(Shutdown::Write);
    }
    read_all(rt, alloc, &mut stream, &deadline)
}

/// When the time of a request is over.
#[derive(Clone, Copy, Debug)]
struct Deadline {
    end: Instant,
}

impl Deadline {
    fn after<R: Clock>(rt: &R, seconds: u64) -> Result<Deadline, AskFault> {
        let Ok(now) = Instant::now(rt) else {
            return Err(AskFault::Io);
        };
        match now.checked_add(Duration::from_secs(seconds.max(1))) {
            Some(end) => Ok(Deadline { end }),
            None => Err(AskFault::Io),
        }
    }

    // The time that is left, if any is.
    fn left<R: Clock>(&self, rt: &R) -> Result<Duration, AskFault> {
        let Ok(now) = Instant::now(rt) else {
            return Err(AskFault::Io);
        };
        match self.end.checked_duration_since(now) {
            Some(left) if !left.is_zero() => Ok(left),
            _ => Err(AskFault::NoReply),
        }
    }
}

// While too many clients wait at the socket, it tries again.
fn connect<R: Net + Clock>(
    rt: &R,
    path: &str,
    deadline: &Deadline,
) -> Result<UnixStream, AskFault> {
    if let Err(fault) = too_long(path) {
        return Err(AskFault::Socket(fault));
    }
    for _ in 0..MAX_TRIES {
        match mio::net::UnixStream::connect(rt, path) {
            Ok(stream) => return waiting(stream),
            Err(error) if error.kind() == ErrorKind::WouldBlock => {
                let pause = Duration::from_millis(PAUSE_MILLIS);
                thread::sleep(rt, deadline.left(rt)?.min(pause));
            }
            Err(error) if error.kind() == ErrorKind::PermissionDenied => {
                return Err(AskFault::Socket(FileFault::from(error)));
            }
            Err(_) => return Err(AskFault::NoReplica),
        }
    }
    Err(AskFault::NoReply)
}

// The same connection, whose reads and writes wait.
fn waiting(stream: mio::net::UnixStream) -> Result<UnixStream, AskFault> {
    let stream = UnixStream::from(OwnedFd::from(stream));
    match stream.set_nonblocking(false) {
        Ok(()) => Ok(stream),
        Err(_) => Err(AskFault::Io),
    }
}

// Whether the replica took all bytes.
fn write_all<R: Clock>(
    rt: &R,
    stream: &mut UnixStream,
    bytes: &[u8],
    deadline: &Deadline,
) -> Result<bool, AskFault> {
    let mut rest = bytes;
    for _ in 0..MAX_TRIES {
        if rest.is_empty() {
            break;
        }
        let left = deadline.left(rt)?;
        let piece = &rest[..rest.len().min(PIECE_BYTES)];
        match write_piece(stream, piece, left) {
            Ok(count) => rest = &rest[count.min(rest.len())..],
            Err(error) if is_passing(&error) => {}
            Err(_) => return Ok(false),
        }
    }
    Ok(true)
}

fn write_piece(stream: &mut UnixStream, piece: &[u8], left: Duration) -> io::Result<usize> {
    stream.set_write_timeout(Some(left))?;
    stream.write(piece)
}

// What comes until the stream ends or fails.
fn read_all<R: Clock>(
    rt: &R,
    alloc: Global,
    stream: &mut UnixStream,
    deadline: &Deadline,
) -> Result<Vec<u8>, AskFault> {
    let mut buffer = Vec::from_elem(alloc, 0, PIECE_BYTES)?;
    let mut all = Vec::new(alloc);
    for _ in 0..MAX_TRIES {
        let left = deadline.left(rt)?;
        match read_piece(stream, buffer.as_mut_slice(), left) {
            Ok(0) => break,
            Ok(count) => {
                let count = count.min(buffer.len());
                all.extend_from_slice(&buffer[..count])?;
            }
            Err(error) if is_passing(&error) => {}
            Err(_) => break,
        }
    }
    Ok(all)
}

fn read_piece(stream: &mut UnixStream, buffer: &mut [u8], left: Duration) -> io::Result<usize> {
    stream.set_read_timeout(Some(left))?;
    stream.read(buffer)
}

// A signal came before any byte moved, or the time may be over, which the clock then says.
fn is_passing(error: &io::Error) -> bool {
    matches!(
        error.kind(),
        ErrorKind::Interrupted | ErrorKind::WouldBlock | ErrorKind::TimedOut
    )
}

fn give<O: Write, E: Write>(
    alloc: Global,
    reply: &[u8],
    output: &mut O,
    errors: &mut E,
) -> Result<u8, AskFault> {
    let Some(end) = memchr(b'\n', reply) else {
        return Err(AskFault::NoReplica);
    };
    let Ok(head) = read_reply_head(alloc, &reply[..end]) else {
        return Err(AskFault::NoReplica);
    };
    let Some(streams) = streams_of(head, &reply[end + 1..]) else {
        return Err(AskFault::NoReplica);
    };
    if output.write_all(streams.0).is_err() || errors.write_all(streams.1).is_err() {
        return Err(AskFault::Io);
    }
    Ok(head.status)
}

// Standard output and standard error, if all of both came.
fn streams_of(head: ReplyHead, rest: &[u8]) -> Option<(&[u8], &[u8])> {
    let output = usize::try_from(head.output).ok()?;
    let errors = usize::try_from(head.errors).ok()?;
    if output > rest.len() || errors != rest.len() - output {
        return None;
    }
    Some((&rest[..output], &rest[output..]))
}
