//! One connection: its socket, what is said on it, and how long it has been quiet.
use crate::local_talk::Surroundings;
use crate::talk::Talk;
use closure_core::Closure;
use fair_turns::{ByteRoom, Candidate, Work, most_seconds};
use peer_talks::{Ending, HeldState};
use replica_sockets::{Progress, Socket};
use replica_sync::SyncError;
use std::alloc::Global;
use std::net::SocketAddr;
use std::time::{Duration, Instant};

/// How many bytes of a connection are read, or written, in one turn.
pub(crate) const BYTES_A_TURN: usize = 65_536;

/// How often a connection is read in one turn: what came is mostly followed by the end.
const READS_A_TURN: usize = 2;

/// How often one is written in one turn: a reply has three parts.
const WRITES_A_TURN: usize = 3;

/// For how many seconds nothing may move on a connection, and how old it may be, or a request on
/// one of this machine.
const MAX_IDLE_SECONDS: u64 = 30;

const MAX_AGE_SECONDS: u64 = 600;

/// A connection of any kind.
#[derive(Drop)]
pub struct LiveConnection {
    pub talk: Talk,
    socket: Socket,
    /// The address of the other side, if it has one.
    pub peer: Option<SocketAddr>,
    /// Under which number the poll reports it.
    pub serial: usize,
    /// When it came.
    pub begun: Instant,
    // When it last asked something whole that was answered, or came.
    asked: Instant,
    moved: Instant,
    // How many bytes came, and how many were sent.
    received_bytes: u64,
    sent_bytes: u64,
    is_connected: bool,
    can_read: bool,
    can_write: bool,
    /// How it ended, once it has.
    pub ending: Option<Ending>,
}

impl LiveConnection {
    /// A connection that came, or one that is being made. What came is looked at immediately.
    pub fn new(
        socket: Socket,
        talk: Talk,
        peer: Option<SocketAddr>,
        serial: usize,
        now: Instant,
    ) -> LiveConnection {
        let is_connected = !matches!(talk, Talk::Pull(_));
        LiveConnection {
            is_connected,
            talk,
            socket,
            peer,
            serial,
            begun: now,
            asked: now,
            moved: now,
            received_bytes: 0,
            sent_bytes: 0,
            can_read: is_connected,
            can_write: is_connected,
            ending: None,
        }
    }

    /// The poll reports that it can be read or written.
    pub fn mark(&mut self, can_read: bool, can_write: bool) {
        self.can_read |= can_read;
        self.can_write |= can_write;
    }

    /// Whether something may have come that was not read yet.
    pub(crate) fn may_have_come(&self) -> bool {
        self.can_read
    }

    /// Whether there is something to do immediately.
    pub(crate) fn is_busy(&self) -> bool {
        self.ending.is_some()
            || self.work().is_some()
            || (self.can_read && self.talk.wants_bytes())
            || (self.can_write && (!self.is_connected || !self.talk.output().is_empty()))
    }

    /// How long it may still be quiet, or live.
    pub fn time_left(&self, now: Instant) -> Duration {
        let idle = Duration::from_secs(MAX_IDLE_SECONDS);
        let idle = idle.saturating_sub(now.duration_since(self.moved));
        let age = Duration::from_secs(self.max_age_seconds());
        let age = age.saturating_sub(now.duration_since(self.begun_last()));
        idle.min(age)
    }

    // On a connection of this machine each request has its own time.
    fn begun_last(&self) -> Instant {
        match &self.talk {
            Talk::Local(_) => self.asked,
            Talk::Page(_) | Talk::Served(_) | Talk::Pull(_) => self.begun,
        }
    }

    // A session that this replica asked for ends earlier if little moves.
    fn max_age_seconds(&self) -> u64 {
        match &self.talk {
            Talk::Pull(_) => {
                let moved = self.received_bytes.saturating_add(self.sent_bytes);
                most_seconds(moved).min(MAX_AGE_SECONDS)
            }
            Talk::Local(_) | Talk::Page(_) | Talk::Served(_) => MAX_AGE_SECONDS,
        }
    }

    /// How many bytes came.
    pub fn received_bytes(&self) -> u64 {
        self.received_bytes
    }

    /// How many bytes were sent.
    pub fn sent_bytes(&self) -> u64 {
        self.sent_bytes
    }

    fn note_received(&mut self, count: usize, now: Instant) {
        self.moved = now;
        self.received_bytes = self.received_bytes.saturating_add(count as u64);
    }

    fn note_sent(&mut self, count: usize, now: Instant) {
        self.moved = now;
        self.sent_bytes = self.sent_bytes.saturating_add(count as u64);
    }

    /// What waits for its turn, if something does.
    pub fn work(&self) -> Option<Work> {
        match self.ending {
            Some(_) => None,
            None => self.talk.work(),
        }
    }

    /// Keeps what came, at most what one turn allows.
    pub fn read(&mut self, alloc: Global, now: Instant, buffer: &mut [u8], room: &mut ByteRoom) {
        if self.ending.is_some() || !self.is_connected {
            return;
        }
        if let Err(ending) = self.take_pieces(alloc, now, buffer, room) {
            self.ending = Some(ending);
        }
    }

    /// Its turn has come.
    pub fn carry_out<C: Closure>(
        &mut self,
        alloc: Global,
        held: &mut HeldState<C>,
        around: &Surroundings<'_, '_, '_>,
    ) {
        // It was this replica that kept it waiting.
        self.moved = around.now;
        match self.talk.carry_out(alloc, held, around) {
            Ok(()) if self.talk.output().is_empty() && self.talk.turn_lines().is_none() => {}
            Ok(()) => self.asked = around.now,
            Err(ending) => self.ending = Some(ending),
        }
    }

    /// The connection as one that may make room.
    pub(crate) fn candidate(&self, now: Instant) -> Candidate {
        let quiet = now.duration_since(self.asked).as_millis();
        Candidate {
            serial: self.serial,
            quiet: u64::try_from(quiet).unwrap_or(u64::MAX),
        }
    }

    fn take_pieces(
        &mut self,
        alloc: Global,
        now: Instant,
        buffer: &mut [u8],
        room: &mut ByteRoom,
    ) -> Result<(), Ending> {
        let mut left = buffer.len();
        for _ in 0..READS_A_TURN {
            if left == 0 || !self.can_read || !self.talk.wants_bytes() {
                break;
            }
            let most = left.min(buffer.len());
            let count = self.take_piece(alloc, now, &mut buffer[..most], room)?;
            left = left.saturating_sub(count);
        }
        Ok(())
    }

    // Returns how many bytes came.
    fn take_piece(
        &mut self,
        alloc: Global,
        now: Instant,
        buffer: &mut [u8],
        room: &mut ByteRoom,
    ) -> Result<usize, Ending> {
        match self.socket.read(buffer) {
            Progress::Bytes(0) => {
                self.talk.end_input()?;
                Ok(0)
            }
            Progress::Bytes(count) => {
                let count = count.min(buffer.len());
                self.note_received(count, now);
                self.talk.take(alloc, &buffer[..count], room)?;
                Ok(count)
            }
            Progress::Blocked => {
                self.can_read = false;
                Ok(0)
            }
            Progress::Interrupted => Ok(0),
            Progress::Failed => Err(self.talk.broken()),
        }
    }

    /// A change could not be put on the disk: a request is refused, and nothing is sent to anyone
    /// else.
    pub fn fail(&mut self) {
        match &mut self.talk {
            Talk::Local(talk) => talk.fail(),
            Talk::Page(_) | Talk::Served(_) | Talk::Pull(_) => {
                self.ending = Some(Ending::Fault(SyncError::Io));
            }
        }
    }

    /// Writes what is to be written, at most what one turn allows, and looks whether the
    /// connection has ended or has taken too long.
    pub fn write(&mut self, now: Instant) {
        if self.ending.is_none() && self.can_write {
            self.find_connected();
            self.write_pieces(now);
        }
        if self.ending.is_none() {
            self.ending = self.talk.ending();
        }
        if self.work().is_none() && self.ending.is_none() && self.time_left(now).is_zero() {
            self.ending = Some(self.talk.overdue());
        }
    }

    fn find_connected(&mut self) {
        if self.is_connected {
            return;
        }
        match self.socket.is_connected() {
            Some(true) => self.is_connected = true,
            Some(false) => self.ending = Some(Ending::Fault(SyncError::Io)),
            None => self.can_write = false,
        }
    }

    // A reply has several parts: mostly all of them are written together.
    fn write_pieces(&mut self, now: Instant) {
        let mut left = BYTES_A_TURN;
        for _ in 0..WRITES_A_TURN {
            if left == 0 || !self.can_write || !self.is_connected {
                break;
            }
            left = left.saturating_sub(self.write_piece(now, left));
        }
    }

    // Returns how many bytes were written.
    fn write_piece(&mut self, now: Instant, most: usize) -> usize {
        let output = self.talk.output();
        let count = output.len().min(most);
        if count == 0 {
            return 0;
        }
        match self.socket.write(&output[..count]) {
            Progress::Bytes(count) => {
                self.note_sent(count, now);
                self.talk.wrote(count);
                return count;
            }
            Progress::Blocked => self.can_write = false,
            Progress::Interrupted => {}
            Progress::Failed => self.ending = Some(self.talk.broken()),
        }
        0
    }
}
