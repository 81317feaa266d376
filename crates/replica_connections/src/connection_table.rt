//! The connections that there are, and how many there may be.
use crate::live_connection::{BYTES_A_TURN, LiveConnection};
use crate::local_talk::{LocalTalk, Surroundings};
use crate::talk::Talk;
use change_view::TurnLines;
use closure_core::Closure;
use fair_turns::{ByteRoom, Candidate, Turns, Work, comes_first, first_to_go};
use mio::Poll;
use peer_talks::{Ending, HeldState};
use replica_sockets::{Rights, Socket};
use state_files::OnDisk;
use std::alloc::{AllocError, Global};
use std::io;
use std::net::SocketAddr;
use std::time::{Clock, Duration, Instant};

/// The most connections at the same time: those of this machine, those on which pages are asked
/// for, those on which other replicas ask, one with each peer, and some on which is only replied
/// that there are too many.
const MOST_CONNECTIONS: usize = 160;

const MOST_LOCAL: usize = 64;

/// How many of those may be at the socket at which nothing can be changed: so they keep out nobody
/// who wants to change something.
const MOST_LOOKING: usize = 48;

const MOST_PAGES: usize = 16;

const MOST_SERVED: usize = 48;

const MOST_PULLS: usize = 16;

/// The number of the first connection; those below it are of the listeners.
const FIRST_SERIAL: usize = 4;

/// For how long one turn carries out work of one kind, beyond what it began.
const MILLIS_A_TURN: u64 = 4;

/// Some of the connections.
#[derive(Clone, Copy)]
enum Group {
    All,
    Served,
    /// Those of this machine that have a request, or a reply of a command.
    Local,
    /// Those of them that only look.
    Looking,
    /// All of this machine that only look: those that are refused, too.
    AllLooking,
    /// Those of this machine that are kept for a next request, of which nothing came.
    Kept,
    /// Those of them that only look.
    KeptLooking,
    /// Those of this machine whose request has not come whole, though all that came was read.
    Awaited,
    /// Those of them that only look.
    AwaitedLooking,
    Pages,
    /// Those of pages whose head has not come whole, though all that came was read.
    AwaitedPages,
    Pulls,
}

/// The connections, and the buffer into which each reads.
#[derive(Drop)]
pub struct ConnectionTable {
    connections: Vec<LiveConnection>,
    serial: usize,
    buffer: Vec<u8>,
    turns: Turns,
    most_request_bytes: u64,
}

impl ConnectionTable {
    pub fn new(alloc: Global, most_request_bytes: u64) -> Result<ConnectionTable, AllocError> {
        Ok(ConnectionTable {
            connections: Vec::with_capacity(alloc, MOST_CONNECTIONS)?,
            serial: FIRST_SERIAL,
            buffer: Vec::from_elem(alloc, 0, BYTES_A_TURN)?,
            turns: Turns::new(),
            most_request_bytes,
        })
    }

    /// Whether one more connection may come on which this is said.
    pub fn has_room_for(&self, talk: &Talk) -> bool {
        match talk {
            Talk::Served(_) => self.has_room() && self.count(Group::Served) < MOST_SERVED,
            Talk::Local(talk) if looks(talk) => {
                self.has_room() && self.count(Group::AllLooking) < MOST_LOCAL
            }
            Talk::Local(_) => self.has_room(),
            Talk::Page(_) => self.has_room() && self.count(Group::Pages) < MOST_PAGES,
            Talk::Pull(_) => self.has_pull_room(),
        }
    }

    fn has_room(&self) -> bool {
        self.count(Group::All) < MOST_CONNECTIONS
    }

    /// Whether one more session may begin in which this replica asks.
    pub fn has_pull_room(&self) -> bool {
        self.has_room() && self.count(Group::Pulls) < MOST_PULLS
    }

    // How many there are of those that have not ended.
    fn count(&self, group: Group) -> usize {
        let live = self.connections.iter().filter(|conn| conn.ending.is_none());
        live.filter(|conn| is_of(conn, group)).count()
    }

    /// If the number of other replicas that ask is at its limit, one of them makes room.
    pub fn make_served_room(&mut self, now: Instant) {
        if self.count(Group::Served) < MOST_SERVED {
            return;
        }
        if let Some(serial) = self.first_to_go(Group::Served, now) {
            self.end(serial, Ending::GaveWay);
        }
    }

    /// If the number of requests for pages is at its limit, one that has not come whole makes room.
    pub fn make_page_room(&mut self, now: Instant) {
        if self.count(Group::Pages) < MOST_PAGES {
            return;
        }
        if let Some(serial) = self.first_to_go(Group::AwaitedPages, now) {
            self.end(serial, Ending::GaveWay);
        }
    }

    fn end(&mut self, serial: usize, ending: Ending) {
        for conn in &mut self.connections {
            if conn.serial == serial {
                conn.ending = Some(ending);
            }
        }
    }

    /// If the number of connections of this machine is at its limit, one makes room that is kept
    /// and has asked nothing since, or else one whose request has not come whole, which gets a
    /// reply. One that only looks takes no such place of one that may change something. Returns
    /// whether there is room for one more.
    pub fn make_local_room(&mut self, rights: Rights, now: Instant) -> bool {
        if self.has_local_room(rights) {
            return true;
        }
        let kept = if self.has_place(rights) {
            Group::Kept
        } else {
            Group::KeptLooking
        };
        if let Some(serial) = self.first_to_go(kept, now) {
            self.end(serial, Ending::Well);
            return true;
        }
        let awaited = match rights {
            Rights::Change => Group::Awaited,
            Rights::Look => Group::AwaitedLooking,
        };
        let Some(serial) = self.first_to_go(awaited, now) else {
            return false;
        };
        for conn in &mut self.connections {
            if let Talk::Local(talk) = &mut conn.talk
                && conn.serial == serial
            {
                talk.free_place();
            }
        }
        true
    }

    fn has_local_room(&self, rights: Rights) -> bool {
        self.has_place(rights) && self.count(Group::Local) < MOST_LOCAL
    }

    // Whether those that only look leave room for one more with these rights.
    fn has_place(&self, rights: Rights) -> bool {
        match rights {
            Rights::Change => true,
            Rights::Look => self.count(Group::Looking) < MOST_LOOKING,
        }
    }

    fn first_to_go(&self, group: Group, now: Instant) -> Option<usize> {
        let mut first: Option<Candidate> = None;
        for conn in &self.connections {
            if conn.ending.is_none() && is_of(conn, group) {
                let candidate = conn.candidate(now);
                first = match first {
                    Some(other) => Some(first_to_go(other, candidate)),
                    None => Some(candidate),
                };
            }
        }
        Some(first?.serial)
    }

    /// Takes the connection in. One that the poll cannot watch is closed.
    pub fn add(
        &mut self,
        poll: &Poll,
        mut socket: Socket,
        talk: Talk,
        peer: Option<SocketAddr>,
        now: Instant,
    ) -> bool {
        let serial = self.serial;
        if socket.register(poll, serial).is_err() {
            return false;
        }
        self.serial = serial.checked_add(1).unwrap_or(FIRST_SERIAL);
        let conn = LiveConnection::new(socket, talk, peer, serial, now);
        self.connections.push(conn).is_ok()
    }

    /// The poll reports the connection of the number.
    pub fn mark(&mut self, serial: usize, can_read: bool, can_write: bool) {
        for conn in &mut self.connections {
            if conn.serial == serial {
                conn.mark(can_read, can_write);
            }
        }
    }

    /// How long until there is something to do, if nothing comes.
    pub fn time_left(&self, now: Instant) -> Option<Duration> {
        self.connections.iter().map(|conn| time_of(conn, now)).min()
    }

    /// Keeps what came on each connection, of requests only what there is room for.
    pub fn read(&mut self, alloc: Global, now: Instant) {
        let mut room = self.room();
        for conn in &mut self.connections {
            conn.read(alloc, now, &mut self.buffer, &mut room);
        }
    }

    /// The room for requests of this machine and their replies.
    pub fn room(&self) -> ByteRoom {
        let mut held: u64 = 0;
        for conn in &self.connections {
            held = held.saturating_add(conn.talk.held_bytes());
        }
        ByteRoom::new(self.most_request_bytes, held)
    }

    /// Which work comes after the short one, if some waits.
    pub fn work_after_short(&mut self) -> Option<Work> {
        let has_long = self.has_work(Work::Long);
        let has_change = self.has_work(Work::Change);
        self.turns.after_short(has_long, has_change)
    }

    fn has_work(&self, work: Work) -> bool {
        self.connections
            .iter()
            .any(|conn| conn.work() == Some(work))
    }

    /// Carries out what waits, one connection after another, until the time of one turn is over.
    /// One always has its turn.
    pub fn carry_out<C: Closure, R: Clock>(
        &mut self,
        rt: &R,
        alloc: Global,
        held: &mut HeldState<C>,
        around: &Surroundings<'_, '_, '_>,
        work: Work,
    ) {
        let begun = Instant::now(rt);
        for _ in 0..MOST_CONNECTIONS {
            let Some(serial) = self.next_turn(work) else {
                break;
            };
            self.turns.note(work, serial);
            let room = self.room();
            let around = Surroundings { room, ..*around };
            for conn in &mut self.connections {
                if conn.serial == serial {
                    conn.carry_out(alloc, held, &around);
                }
            }
            if is_time_over(rt, &begun) {
                break;
            }
        }
    }

    // The connection whose turn it is.
    fn next_turn(&self, work: Work) -> Option<usize> {
        let last = self.turns.last(work);
        let mut next: Option<usize> = None;
        for conn in &self.connections {
            let is_first = match next {
                Some(other) => comes_first(conn.serial, other, last),
                None => true,
            };
            if is_first && conn.work() == Some(work) {
                next = Some(conn.serial);
            }
        }
        next
    }

    /// Adds the lines of what requests have changed.
    ///
    /// # Errors
    /// Memory ran out.
    pub fn add_lines<'a>(&'a self, turn: &mut Vec<TurnLines<'a>>) -> Result<(), AllocError> {
        for conn in &self.connections {
            if let Some(part) = conn.talk.turn_lines() {
                turn.push(part)?;
            }
        }
        Ok(())
    }

    /// Whether requests have changed something that is not on the disk yet.
    pub fn has_changes(&self) -> bool {
        self.connections.iter().any(has_change)
    }

    /// What requests have changed is on the disk.
    pub fn settle(&mut self, on_disk: &OnDisk) {
        for conn in &mut self.connections {
            if let Talk::Local(talk) = &mut conn.talk {
                talk.settle(on_disk);
            }
        }
    }

    /// It could not be put there: requests are refused, and nothing is sent to anyone else.
    pub fn fail(&mut self) {
        for conn in &mut self.connections {
            conn.fail();
        }
    }

    /// Whether a request asks the replica to end.
    pub fn is_stopped(&self) -> bool {
        self.connections.iter().any(is_stop)
    }

    /// Whether replies are still to be made or sent.
    pub fn has_replies(&self) -> bool {
        self.connections.iter().any(has_reply)
    }

    /// Takes away the connections that have ended, after each was reported.
    pub fn remove_ended(&mut self) {
        self.connections.retain(|conn| conn.ending.is_none());
    }

    /// How many replies of commands there were on the connections that there are.
    pub fn replies(&self) -> u64 {
        let mut replies: u64 = 0;
        for conn in &self.connections {
            replies = replies.saturating_add(replies_on(conn));
        }
        replies
    }

    /// How many bytes came on the connections that there are.
    pub fn received_bytes(&self) -> u64 {
        let mut bytes: u64 = 0;
        for conn in &self.connections {
            bytes = bytes.saturating_add(conn.received_bytes());
        }
        bytes
    }

    /// How many bytes were sent on them.
    pub fn sent_bytes(&self) -> u64 {
        let mut bytes: u64 = 0;
        for conn in &self.connections {
            bytes = bytes.saturating_add(conn.sent_bytes());
        }
        bytes
    }

    /// The connections.
    pub fn all(&self) -> &[LiveConnection] {
        self.connections.as_slice()
    }

    /// Writes what is to be written on each connection.
    pub fn write(&mut self, now: Instant) {
        for conn in &mut self.connections {
            conn.write(now);
        }
    }
}

fn is_of(conn: &LiveConnection, group: Group) -> bool {
    match (&conn.talk, group) {
        (_, Group::All) => true,
        (Talk::Served(_), Group::Served) | (Talk::Pull(_), Group::Pulls) => true,
        (Talk::Page(_), Group::Pages) => true,
        (Talk::Page(_), Group::AwaitedPages) => is_awaited(conn),
        (Talk::Local(talk), Group::Local) => talk.takes_place(),
        (Talk::Local(talk), Group::Looking) => talk.takes_place() && looks(talk),
        (Talk::Local(talk), Group::AllLooking) => looks(talk),
        (Talk::Local(talk), Group::Kept) => talk.is_kept() && is_awaited(conn),
        (Talk::Local(talk), Group::KeptLooking) => {
            talk.is_kept() && is_awaited(conn) && looks(talk)
        }
        (Talk::Local(_), Group::Awaited) => is_awaited(conn),
        (Talk::Local(talk), Group::AwaitedLooking) => is_awaited(conn) && looks(talk),
        _ => false,
    }
}

// Whether it has not come whole, though all that came was read.
fn is_awaited(conn: &LiveConnection) -> bool {
    conn.talk.wants_bytes() && !conn.may_have_come()
}

fn looks(talk: &LocalTalk) -> bool {
    talk.rights() == Rights::Look
}

// Whether the time of one turn is over. If the clock fails, it is.
fn is_time_over<R: Clock>(rt: &R, begun: &io::Result<Instant>) -> bool {
    match (begun, Instant::now(rt)) {
        (Ok(begun), Ok(now)) => now.duration_since(*begun) >= Duration::from_millis(MILLIS_A_TURN),
        _ => true,
    }
}

fn time_of(conn: &LiveConnection, now: Instant) -> Duration {
    if conn.is_busy() {
        Duration::ZERO
    } else {
        conn.time_left(now)
    }
}

fn is_stop(conn: &LiveConnection) -> bool {
    match &conn.talk {
        Talk::Local(talk) => talk.is_stop(),
        _ => false,
    }
}

fn replies_on(conn: &LiveConnection) -> u64 {
    match &conn.talk {
        Talk::Local(talk) => talk.replies(),
        Talk::Page(_) | Talk::Served(_) | Talk::Pull(_) => 0,
    }
}

fn has_change(conn: &LiveConnection) -> bool {
    match &conn.talk {
        Talk::Local(talk) => !talk.journal().is_empty(),
        _ => false,
    }
}

fn has_reply(conn: &LiveConnection) -> bool {
    match &conn.talk {
        Talk::Local(_) | Talk::Page(_) => {
            conn.ending.is_none() && (conn.talk.work().is_some() || !conn.talk.output().is_empty())
        }
        Talk::Served(_) | Talk::Pull(_) => false,
    }
}
