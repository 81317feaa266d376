//! What is said on a connection: local requests, a request for a page, an answer to another
//! replica, or a question to one.
use crate::local_talk::{LocalTalk, Surroundings};
use crate::page_talk::PageTalk;
use change_view::TurnLines;
use closure_core::Closure;
use fair_turns::{ByteRoom, Work};
use peer_talks::{Ending, HeldState, PullTalk, ServedTalk};
use replica_sync::SyncError;
use std::alloc::{AllocError, Global};

/// What is said on a connection. Bytes that come are given to it, and what is to be written is
/// taken from it.
#[derive(Drop)]
pub enum Talk {
    /// Requests of this machine.
    Local(LocalTalk),
    /// A request for a page.
    Page(PageTalk),
    /// Another replica asks.
    Served(ServedTalk),
    /// This replica asks.
    Pull(PullTalk),
}

impl Talk {
    /// Whether bytes are to be read.
    pub fn wants_bytes(&self) -> bool {
        match self {
            Talk::Local(talk) => talk.wants_bytes(),
            Talk::Page(talk) => talk.wants_bytes(),
            Talk::Served(talk) => talk.wants_bytes(),
            Talk::Pull(talk) => talk.wants_bytes(),
        }
    }

    /// What waits for a turn, if something does: of what was read nothing was carried out yet.
    pub fn work(&self) -> Option<Work> {
        match self {
            Talk::Local(talk) => talk.work(),
            Talk::Page(talk) => talk.work(),
            Talk::Served(talk) if talk.has_work() => Some(Work::Short),
            Talk::Pull(talk) if talk.has_work() => Some(Work::Change),
            Talk::Served(_) | Talk::Pull(_) => None,
        }
    }

    /// The lines that are to be on the disk before the reply to a request is sent.
    pub(crate) fn turn_lines(&self) -> Option<TurnLines<'_>> {
        match self {
            Talk::Local(talk) => talk.turn_lines(),
            Talk::Page(_) | Talk::Served(_) | Talk::Pull(_) => None,
        }
    }

    /// How many bytes are held of requests of this machine or for a page, and of what is replied.
    pub(crate) fn held_bytes(&self) -> u64 {
        match self {
            Talk::Local(talk) => talk.held_bytes(),
            Talk::Page(talk) => talk.held_bytes(),
            Talk::Served(_) | Talk::Pull(_) => 0,
        }
    }

    /// Keeps bytes that came. Those of requests need room.
    pub fn take(
        &mut self,
        alloc: Global,
        piece: &[u8],
        room: &mut ByteRoom,
    ) -> Result<(), AllocError> {
        match self {
            Talk::Local(talk) => {
                talk.take(piece, room);
                Ok(())
            }
            Talk::Page(talk) => {
                talk.take(alloc, piece, room);
                Ok(())
            }
            Talk::Served(talk) => talk.take(piece),
            Talk::Pull(talk) => talk.take(piece),
        }
    }

    /// Its turn has come: what waits is carried out.
    pub fn carry_out<C: Closure>(
        &mut self,
        alloc: Global,
        held: &mut HeldState<C>,
        around: &Surroundings<'_, '_, '_>,
    ) -> Result<(), Ending> {
        match self {
            Talk::Local(talk) => {
                talk.answer(held, around);
                Ok(())
            }
            Talk::Page(talk) => {
                talk.answer(alloc, held, around);
                Ok(())
            }
            Talk::Served(talk) => talk.go_on(alloc, held),
            Talk::Pull(talk) => talk.go_on(alloc, held),
        }
    }

    /// The other side sends nothing more.
    pub fn end_input(&mut self) -> Result<(), Ending> {
        match self {
            Talk::Local(talk) => {
                talk.end_input();
                Ok(())
            }
            Talk::Page(talk) => {
                talk.end_input();
                Ok(())
            }
            Talk::Served(talk) => {
                talk.end_input();
                Ok(())
            }
            Talk::Pull(talk) => talk.end_input(),
        }
    }

    /// How it ends if the connection fails.
    pub(crate) fn broken(&self) -> Ending {
        match self {
            Talk::Pull(talk) => talk.broken(),
            Talk::Local(_) | Talk::Page(_) | Talk::Served(_) => Ending::Fault(SyncError::Io),
        }
    }

    /// How it ends if nothing moved for too long: a connection that is kept ends well.
    pub(crate) fn overdue(&self) -> Ending {
        match self {
            Talk::Local(talk) if talk.is_kept() => Ending::Well,
            _ => Ending::Fault(SyncError::Io),
        }
    }

    /// What is to be written next.
    pub fn output(&self) -> &[u8] {
        match self {
            Talk::Local(talk) => talk.output(),
            Talk::Page(talk) => talk.output(),
            Talk::Served(talk) => talk.output(),
            Talk::Pull(talk) => talk.output(),
        }
    }

    /// `count` bytes of the output were written.
    pub fn wrote(&mut self, count: usize) {
        match self {
            Talk::Local(talk) => talk.wrote(count),
            Talk::Page(talk) => talk.wrote(count),
            Talk::Served(talk) => talk.wrote(count),
            Talk::Pull(talk) => talk.wrote(count),
        }
    }

    /// How it ended, once nothing more is to be read or written.
    pub fn ending(&self) -> Option<Ending> {
        match self {
            Talk::Local(talk) => talk.ending(),
            Talk::Page(talk) => talk.ending(),
            Talk::Served(talk) => talk.ending(),
            Talk::Pull(talk) => talk.ending(),
        }
    }
}
