//! A connection's socket, of either kind, and what moved on it.
ghost use Rattle.std.specs.Io.{ReadsAtMost, WritesAtMost};

use mio::net::{TcpStream, UnixStream};
use mio::{Interest, Poll, Token};
use std::io;
use std::io::{ErrorKind, Read, Write};

/// A socket that never waits.
#[derive(Drop)]
pub enum Socket {
    Tcp(TcpStream),
    Unix(UnixStream),
}

/// What a read or a write moved.
#[derive(Clone, Copy, Debug, PartialEq, Eq)]
pub enum Progress {
    /// This many bytes.
    Bytes(usize),
    /// Nothing: it would have waited.
    Blocked,
    /// Nothing: a signal came. It is to be tried again.
    Interrupted,
    /// The system refused it.
    Failed,
}

impl Socket {
    pub fn read(&mut self, buffer: &mut [u8]) -> Progress {
        match self {
            Socket::Tcp(stream) => progress_of(stream.read(buffer)),
            Socket::Unix(stream) => progress_of(stream.read(buffer)),
        }
    }

    pub fn write(&mut self, bytes: &[u8]) -> Progress {
        match self {
            Socket::Tcp(stream) => progress_of(stream.write(bytes)),
            Socket::Unix(stream) => progress_of(stream.write(bytes)),
        }
    }

    /// Has the poll report under the number when the socket can be read or written.
    pub fn register(&mut self, poll: &Poll, serial: usize) -> io::Result<()> {
        let both = Interest::READABLE | Interest::WRITABLE;
        match self {
            Socket::Tcp(stream) => poll.registry().register(stream, Token(serial), both),
            Socket::Unix(stream) => poll.registry().register(stream, Token(serial), both),
        }
    }

    /// Whether a connection that was begun is there: `None` while that is not known.
    pub fn is_connected(&self) -> Option<bool> {
        match self {
            Socket::Tcp(stream) => is_stream_connected(stream),
            Socket::Unix(_) => Some(true),
        }
    }
}

fn is_stream_connected(stream: &TcpStream) -> Option<bool> {
    match stream.take_error() {
        Ok(None) => {}
        _ => return Some(false),
    }
    match stream.peer_addr() {
        Ok(_) => Some(true),
        Err(error) if error.kind() == ErrorKind::NotConnected => None,
        Err(_) => Some(false),
    }
}

fn progress_of(moved: io::Result<usize>) -> Progress {
    match moved {
        Ok(count) => Progress::Bytes(count),
        Err(error) => match error.kind() {
            ErrorKind::WouldBlock => Progress::Blocked,
            ErrorKind::Interrupted => Progress::Interrupted,
            _ => Progress::Failed,
        },
    }
}
