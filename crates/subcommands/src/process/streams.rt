//! The standard streams: files in the place of those that are closed, and lines that go out whole.
ghost use Rattle.std.specs.Prelude.{◌≤◌};

use byte_lines::{FromRead, FromWrite};
use progress_line::ProgressMode;
use std::fs::{File, OpenOptions};
use std::io::{IsTerminal, Result, Stderr, Stdin, Stdout, Write};
use std::net::SocketAddr;
use std::os::unix::io::AsFd;

/// The file that takes the place of a closed stream. It holds nothing.
const NOWHERE: &str = "/dev/null";

/// The most bytes of a line that goes out in one piece. A longer one goes out in pieces.
const MAX_LINE_BYTES: usize = 512;

/// Files that have the numbers of the standard streams that were closed when the program started.
/// So no file and no socket that the program opens gets such a number and is printed into. Reading
/// from and writing to such a stream fail.
#[derive(Drop)]
pub struct ClosedStreams {
    _stdin: Option<File>,
    _stdout: Option<File>,
    _stderr: Option<File>,
}

impl ClosedStreams {
    /// Fails if a stream is closed and there is no `/dev/null`.
    pub fn hold(rt: &HostRuntime) -> Result<ClosedStreams> {
        // A file that is opened gets the lowest number that is free, so the order matters.
        Ok(ClosedStreams {
            _stdin: stand_in(rt, &rt.stdin(), OpenOptions::new().write(true))?,
            _stdout: stand_in(rt, &rt.stdout(), OpenOptions::new().read(true))?,
            _stderr: stand_in(rt, &rt.stderr(), OpenOptions::new().read(true))?,
        })
    }
}

// A file in the place of the stream that is closed.
fn stand_in<S: AsFd>(rt: &HostRuntime, stream: &S, options: &OpenOptions) -> Result<Option<File>> {
    match stream.as_fd().try_clone_to_owned() {
        Ok(_) => Ok(None),
        Err(_) => Ok(Some(options.open(rt, NOWHERE)?)),
    }
}

/// A writer that gathers the bytes of a line, and writes it in one piece when its line feed comes.
/// It takes no memory.
#[derive(Drop)]
pub struct WholeLines<W: Write + Drop> {
    inner: W,
    line: [u8; MAX_LINE_BYTES],
    len: usize,
    ghost within: { len ≤ 512 },
}

impl<W: Write + Drop> WholeLines<W> {
    pub fn new(inner: W) -> WholeLines<W> {
        WholeLines {
            inner,
            line: [0; MAX_LINE_BYTES],
            len: 0,
        }
    }

    fn write_out(&mut self) -> Result<()> {
        let len = self.len;
        self.len = 0;
        self.inner.write_all(&self.line[..len])
    }
}

impl<W: Write + Drop> Write for WholeLines<W> {
    fn write(&mut self, bytes: &[u8]) -> Result<usize> {
        if self.len == MAX_LINE_BYTES {
            self.write_out()?;
        }
        let room = (MAX_LINE_BYTES - self.len).min(bytes.len());
        let line_feed = bytes[..room].iter().position(|byte| *byte == b'\n');
        let taken = line_feed.map_or(room, |place| place + 1);
        let end = self.len + taken;
        self.line[self.len..end].copy_from_slice(&bytes[..taken]);
        self.len = end;
        if line_feed.is_some() {
            self.write_out()?;
        }
        Ok(taken)
    }

    fn flush(&mut self) -> Result<()> {
        self.write_out()?;
        self.inner.flush()
    }
}

/// Warns if other machines reach the address.
pub fn warn_of_anywhere(rt: &HostRuntime, address: SocketAddr) {
    if !address.ip().is_loopback() {
        // That it cannot be said changes nothing.
        let _ = writeln!(
            error_lines(rt),
            "fedbundle: warning: {address} is not a loopback address: anyone can read what is held"
        );
    }
}

/// Whether long work says how far it is: if standard error is a terminal.
pub fn progress_mode(rt: &HostRuntime) -> ProgressMode {
    if rt.stderr().is_terminal() {
        ProgressMode::Shown
    } else {
        ProgressMode::Silent
    }
}

/// The same for work that writes to standard output, if that is not a terminal: its lines would
/// come between those of the output.
pub fn output_progress_mode(rt: &HostRuntime) -> ProgressMode {
    if rt.stdout().is_terminal() {
        ProgressMode::Silent
    } else {
        progress_mode(rt)
    }
}

/// Standard error, to which each line goes in one piece.
pub fn error_lines(rt: &HostRuntime) -> WholeLines<Stderr> {
    WholeLines::new(rt.stderr())
}

/// The same, as a sink.
pub fn line_errors(rt: &HostRuntime) -> FromWrite<WholeLines<Stderr>> {
    FromWrite::new(error_lines(rt))
}

/// Standard output for one line, which goes out in one piece.
pub fn output_line(rt: &HostRuntime) -> FromWrite<WholeLines<Stdout>> {
    FromWrite::new(WholeLines::new(rt.stdout()))
}

pub fn input(rt: &HostRuntime) -> FromRead<Stdin> {
    FromRead::new(rt.stdin())
}

pub fn output(rt: &HostRuntime) -> FromWrite<Stdout> {
    FromWrite::new(rt.stdout())
}
