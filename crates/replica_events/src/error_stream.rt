//! Standard error, for which a replica does not wait: a line that would have to wait is left out.
//!
//! Before each write it looks whether standard error takes bytes. The write may wait all the same
//! if another process fills the pipe after the look, or for a terminal with room for a part only.
use mio::unix::SourceFd;
use mio::{Events, Interest, Poll, Token};
use std::alloc::Global;
use std::io::Eprint;
use std::net::Net;
use std::os::fd::RawFd;
use std::time::Duration;

const STANDARD_ERROR: RawFd = 2;

/// How long a line may be. A pipe or a socket that takes bytes takes at least this many without a
/// wait, and they go out in one write, with the line of what was left out before them. No event has
/// more than 600, for a domain of 255 bytes and three digests, except that of a distrust of many
/// keys: with more than 50 it may be longer than a line, and the audit file has it.
const MOST_LINE_BYTES: usize = 4_000;

/// Standard error, and what was not written on it.
#[derive(Drop)]
pub struct ErrorStream {
    // `None` if the system gave none, for lack of descriptors or memory.
    watch: Option<ErrorWatch>,
    // How many lines were left out since a line said so.
    lost: u64,
}

/// What knows whether standard error takes bytes.
#[derive(Drop)]
struct ErrorWatch {
    poll: Poll,
    events: Events,
    // The system registers no regular file: that always takes them.
    is_registered: bool,
}

impl ErrorStream {
    /// If the system cannot watch standard error, each line is written.
    pub fn new<R: Net>(rt: &R, alloc: Global) -> ErrorStream {
        ErrorStream {
            watch: ErrorWatch::begin(rt, alloc),
            lost: 0,
        }
    }

    /// Writes a line, and before it how many were left out. A line that would have to wait, or
    /// that the system refuses, is left out and counted.
    pub(crate) fn write<R: Eprint>(&mut self, rt: &R, alloc: Global, line: &str) {
        let is_written = line.len() <= MOST_LINE_BYTES
            && self.is_ready()
            && self.write_with_lost(rt, alloc, line);
        if !is_written {
            self.lost = self.lost.saturating_add(1);
        }
    }

    /// Says how many lines were left out, if there are some and it takes a line now.
    pub fn say_lost<R: Eprint>(&mut self, rt: &R, alloc: Global) {
        if self.lost > 0 && self.is_ready() {
            let _ = self.write_with_lost(rt, alloc, "");
        }
    }

    // Both go out in one write, since it may not take a second one.
    fn write_with_lost<R: Eprint>(&mut self, rt: &R, alloc: Global, line: &str) -> bool {
        let lost = self.lost;
        if lost == 0 {
            return rt.eprint(line).is_ok();
        }
        let Ok(both) = format!(in alloc; "event=log lost={lost}\n{line}") else {
            return false;
        };
        let is_written = rt.eprint(both).is_ok();
        if is_written {
            self.lost = 0;
        }
        is_written
    }

    fn is_ready(&mut self) -> bool {
        match &mut self.watch {
            Some(watch) => watch.is_ready(),
            None => true,
        }
    }
}

impl ErrorWatch {
    fn begin<R: Net>(rt: &R, alloc: Global) -> Option<ErrorWatch> {
        let poll = Poll::new(rt).ok()?;
        let events = Events::with_capacity(alloc, 1).ok()?;
        let mut source = SourceFd(&STANDARD_ERROR);
        let registered = poll
            .registry()
            .register(&mut source, Token(0), Interest::WRITABLE);
        Some(ErrorWatch {
            poll,
            events,
            is_registered: registered.is_ok(),
        })
    }

    // Whether a write returns without a wait. That is reported only once for each registration, so
    // each look registers it again. If the system does not say, it is taken as ready.
    fn is_ready(&mut self) -> bool {
        if !self.is_registered {
            return true;
        }
        let mut source = SourceFd(&STANDARD_ERROR);
        let again = self
            .poll
            .registry()
            .reregister(&mut source, Token(0), Interest::WRITABLE);
        let looked = self.poll.poll(&mut self.events, Some(Duration::ZERO));
        again.is_err() || looked.is_err() || !self.events.is_empty()
    }
}
