//! The places at which connections come in: the sockets of local requests, the address for other
//! replicas, and the one for pages; and the poll, which says what is ready.
use crate::socket::Socket;
use crate::socket_path::{FileId, file_id, too_long};
use crate::step_fault::{at_step, file_at_step};
use command_exits::{Exit, Step};
use fair_turns::Arrivals;
use mio::net::{TcpListener, TcpStream, UnixListener, UnixStream};
use mio::{Interest, Poll, Token};
use std::fs::{Files, Permissions};
use std::io::ErrorKind;
use std::net::{Net, SocketAddr};
use std::os::unix::fs::{FileTypeExt, PermissionsExt};
use std::time::{Duration, Instant};
use std::{fs, io};

/// Under which number the poll reports each listener. Connections have greater ones.
pub(crate) const LOCAL_LISTENER: usize = 0;

pub(crate) const GOSSIP_LISTENER: usize = 1;

pub(crate) const READ_LISTENER: usize = 2;

pub(crate) const HEALTH_LISTENER: usize = 3;

/// The mode of the socket: its owner alone connects.
const OWNER_ONLY: u32 = 0o600;

/// The mode of the socket at which nothing can be changed: its group connects, too.
const OWNER_AND_GROUP: u32 = 0o660;

/// How long nothing is accepted after an accept failed.
const PAUSE_MILLIS: u64 = 100;

/// A span of time, and how many connections of this machine may come within one, and how many of
/// other replicas or for pages: so few that they do not fill the table before one of them has
/// asked.
const SPAN_MILLIS: u64 = 125;

const LOCAL_A_SPAN: u64 = 128;

const GOSSIP_A_SPAN: u64 = 8;

const HEALTH_A_SPAN: u64 = 8;

/// The places at which a replica listens.
#[derive(Clone, Copy, Debug)]
pub struct ListenPlaces<'a> {
    /// The path of the socket for local requests.
    pub socket: &'a str,
    /// The path of a second socket, at which nothing can be changed.
    pub read_socket: Option<&'a str>,
    /// The address from which other replicas pull.
    pub listen: Option<SocketAddr>,
    /// The address of the pages for health and metrics.
    pub health: Option<SocketAddr>,
}

/// What the requests of a socket may do.
#[derive(Clone, Copy, Debug, PartialEq, Eq)]
pub enum Rights {
    /// All that there is.
    Change,
    /// Look at what is held.
    Look,
}

/// The listeners, and what is known of them.
#[derive(Drop)]
pub struct Listeners {
    pub poll: Poll,
    local: LocalListener,
    read: Option<LocalListener>,
    gossip: Option<AddressListener>,
    health: Option<AddressListener>,
}

/// A socket of this machine, and who waits there.
#[derive(Drop)]
struct LocalListener {
    socket: UnixListener,
    file: FileId,
    queue: Queue,
}

/// An address, and who waits there.
#[derive(Drop)]
struct AddressListener {
    socket: TcpListener,
    queue: Queue,
}

/// How an address is opened.
#[derive(Clone, Copy)]
struct AddressGate {
    token: usize,
    most_a_span: u64,
}

/// How a socket of this machine is opened.
#[derive(Clone, Copy)]
struct LocalGate<'a> {
    path: &'a str,
    mode: u32,
    token: usize,
}

/// What is known of those who wait at a listener.
#[derive(Clone, Copy)]
struct Queue {
    // Whether somebody may wait.
    is_filled: bool,
    // When the next accept is tried, after one failed, or the most that may come in a span came.
    closed_until: Option<Instant>,
    begun: Instant,
    arrivals: Arrivals,
}

/// What an accept gave.
#[derive(Drop)]
pub enum Arrival {
    /// A connection of this machine, with what it may do.
    Local(Socket, Rights),
    /// A connection of another replica, with its address.
    Gossip(Socket, SocketAddr),
    /// A connection on which a page is asked for, with its address.
    Page(Socket, SocketAddr),
    /// Nobody waits.
    Nobody,
    /// The one who waited has left, or a signal came. Others may wait.
    Left,
    /// The system refused it.
    Failed,
}

impl Listeners {
    /// Listens at each. The lock of the state is held, so a socket's file on which nobody listens
    /// is that of a replica that has ended.
    pub fn open<R: Files + Net>(
        rt: &R,
        places: &ListenPlaces<'_>,
        now: Instant,
    ) -> Result<Listeners, Exit> {
        let poll = at_step(Step::Socket, Poll::new(rt))?;
        let gate = LocalGate {
            path: places.socket,
            mode: OWNER_ONLY,
            token: LOCAL_LISTENER,
        };
        let local = LocalListener::open(rt, &poll, gate, now)?;
        let read = open_read(rt, &poll, places.read_socket, now)?;
        let at_gossip = AddressGate {
            token: GOSSIP_LISTENER,
            most_a_span: GOSSIP_A_SPAN,
        };
        let at_health = AddressGate {
            token: HEALTH_LISTENER,
            most_a_span: HEALTH_A_SPAN,
        };
        Ok(Listeners {
            local,
            read,
            gossip: AddressListener::open(rt, &poll, places.listen, at_gossip, now)?,
            health: AddressListener::open(rt, &poll, places.health, at_health, now)?,
            poll,
        })
    }

    /// The address of the pages, as the system has chosen it.
    pub fn health_address(&self) -> Option<SocketAddr> {
        let health = self.health.as_ref()?;
        health.socket.local_addr().ok()
    }

    /// Removes the sockets' files, unless their paths name something else by now. One that is left
    /// is replaced by the next replica.
    pub fn remove_sockets<R: Files>(&self, rt: &R, places: &ListenPlaces<'_>) {
        self.local.remove(rt, places.socket);
        if let (Some(read), Some(path)) = (&self.read, places.read_socket) {
            read.remove(rt, path);
        }
    }

    /// The poll reports that somebody waits.
    pub fn mark(&mut self, listener: usize) {
        match listener {
            LOCAL_LISTENER => self.local.queue.is_filled = true,
            READ_LISTENER => self.mark_read(),
            GOSSIP_LISTENER => mark_filled(&mut self.gossip),
            HEALTH_LISTENER => mark_filled(&mut self.health),
            _ => {}
        }
    }

    fn mark_read(&mut self) {
        if let Some(read) = &mut self.read {
            read.queue.is_filled = true;
        }
    }

    /// How long to wait before the next accept: `None` if nobody waits.
    pub fn time_left(&self, now: Instant) -> Option<Duration> {
        let read = match &self.read {
            Some(read) => read.queue.time_left(now),
            None => None,
        };
        let local = first_of(self.local.queue.time_left(now), read);
        let gossip = time_left_at(&self.gossip, now);
        first_of(first_of(local, gossip), time_left_at(&self.health, now))
    }

    /// The next connection of this machine at the socket with these rights.
    pub fn accept_local(&mut self, rights: Rights, now: Instant) -> Arrival {
        match (rights, &mut self.read) {
            (Rights::Change, _) => self.local.accept(rights, now),
            (Rights::Look, Some(read)) => read.accept(rights, now),
            (Rights::Look, None) => Arrival::Nobody,
        }
    }

    /// The next connection of another replica.
    pub fn accept_gossip(&mut self, now: Instant) -> Arrival {
        match accept_at(&mut self.gossip, now) {
            Ok((socket, peer)) => Arrival::Gossip(socket, peer),
            Err(nobody) => nobody,
        }
    }

    /// The next connection on which a page is asked for.
    pub fn accept_page(&mut self, now: Instant) -> Arrival {
        match accept_at(&mut self.health, now) {
            Ok((socket, peer)) => Arrival::Page(socket, peer),
            Err(nobody) => nobody,
        }
    }
}

// Who came at the address, or else why nobody did.
fn accept_at(
    listener: &mut Option<AddressListener>,
    now: Instant,
) -> Result<(Socket, SocketAddr), Arrival> {
    match listener {
        Some(listener) => listener.accept(now),
        None => Err(Arrival::Nobody),
    }
}

fn mark_filled(listener: &mut Option<AddressListener>) {
    if let Some(listener) = listener {
        listener.queue.is_filled = true;
    }
}

fn time_left_at(listener: &Option<AddressListener>, now: Instant) -> Option<Duration> {
    match listener {
        Some(listener) => listener.queue.time_left(now),
        None => None,
    }
}

impl AddressListener {
    fn open<R: Net>(
        rt: &R,
        poll: &Poll,
        address: Option<SocketAddr>,
        gate: AddressGate,
        now: Instant,
    ) -> Result<Option<AddressListener>, Exit> {
        let Some(address) = address else {
            return Ok(None);
        };
        Ok(Some(AddressListener {
            socket: at_step(Step::Listen, open_address(rt, poll, address, gate))?,
            queue: Queue::new(gate.most_a_span, now),
        }))
    }

    fn accept(&mut self, now: Instant) -> Result<(Socket, SocketAddr), Arrival> {
        if !self.queue.is_open(now) {
            return Err(Arrival::Nobody);
        }
        match self.socket.accept() {
            // It takes no place, so it does not count: one after another, they would keep the
            // others waiting for as long as their number says.
            Ok((stream, _)) if has_left(&stream) => Err(Arrival::Left),
            Ok((stream, peer)) => {
                // Without it an answer may wait for a while.
                let _ = stream.set_nodelay(true);
                self.queue.note_arrival(now);
                Ok((Socket::Tcp(stream), peer))
            }
            Err(error) => Err(self.queue.note(&error, now)),
        }
    }
}

impl LocalListener {
    fn open<R: Files + Net>(
        rt: &R,
        poll: &Poll,
        gate: LocalGate<'_>,
        now: Instant,
    ) -> Result<LocalListener, Exit> {
        file_at_step(Step::Socket, too_long(gate.path))?;
        free_path(rt, gate.path)?;
        Ok(LocalListener {
            socket: at_step(Step::Socket, open_local(rt, poll, gate))?,
            file: at_step(Step::Socket, file_id(rt, gate.path))?,
            queue: Queue::new(LOCAL_A_SPAN, now),
        })
    }

    fn accept(&mut self, rights: Rights, now: Instant) -> Arrival {
        if !self.queue.is_open(now) {
            return Arrival::Nobody;
        }
        match self.socket.accept() {
            Ok((stream, _)) => {
                self.queue.note_arrival(now);
                Arrival::Local(Socket::Unix(stream), rights)
            }
            Err(error) => self.queue.note(&error, now),
        }
    }

    fn remove<R: Files>(&self, rt: &R, path: &str) {
        if let Ok(found) = file_id(rt, path)
            && found == self.file
        {
            let _ = fs::remove_file(rt, path);
        }
    }
}

// Whether the other side has closed the connection, and sent nothing before.
fn has_left(stream: &TcpStream) -> bool {
    let mut first = [0; 1];
    match stream.peek(&mut first) {
        Ok(count) => count == 0,
        Err(error) => !matches!(error.kind(), ErrorKind::WouldBlock | ErrorKind::Interrupted),
    }
}

// The shorter of two spans, if there are any.
fn first_of(one: Option<Duration>, other: Option<Duration>) -> Option<Duration> {
    match (one, other) {
        (Some(one), Some(other)) => Some(one.min(other)),
        (one, other) => one.or(other),
    }
}

impl Queue {
    fn new(most_a_span: u64, now: Instant) -> Queue {
        Queue {
            is_filled: false,
            closed_until: None,
            begun: now,
            arrivals: Arrivals::new(most_a_span),
        }
    }

    // One came. If no more may come within this span, the others wait for the next one.
    fn note_arrival(&mut self, now: Instant) {
        let millis = now.duration_since(self.begun).as_millis();
        let span = u64::try_from(millis).unwrap_or(u64::MAX) / SPAN_MILLIS;
        self.arrivals.note(span);
        if !self.arrivals.may_come(span) {
            let next = Duration::from_millis(span.saturating_add(1).saturating_mul(SPAN_MILLIS));
            self.closed_until = self.begun.checked_add(next);
        }
    }

    // How long to wait before the next accept: `None` if nobody waits.
    fn time_left(&self, now: Instant) -> Option<Duration> {
        if !self.is_filled {
            return None;
        }
        match self.closed_until {
            Some(until) => Some(until.duration_since(now)),
            None => Some(Duration::ZERO),
        }
    }

    // Whether an accept is to be tried now.
    fn is_open(&mut self, now: Instant) -> bool {
        let until = self.closed_until.unwrap_or(now);
        if !self.is_filled || now < until {
            return false;
        }
        self.closed_until = None;
        true
    }

    // An accept gave nobody. After a failure the next one waits, so that failures that come one
    // after another take no processor.
    fn note(&mut self, error: &io::Error, now: Instant) -> Arrival {
        match error.kind() {
            ErrorKind::WouldBlock => {
                self.is_filled = false;
                Arrival::Nobody
            }
            ErrorKind::ConnectionAborted | ErrorKind::Interrupted => Arrival::Left,
            _ => {
                self.closed_until = now.checked_add(Duration::from_millis(PAUSE_MILLIS));
                Arrival::Failed
            }
        }
    }
}

fn open_address<R: Net>(
    rt: &R,
    poll: &Poll,
    address: SocketAddr,
    gate: AddressGate,
) -> io::Result<TcpListener> {
    let mut listener = TcpListener::bind(rt, address)?;
    poll.registry()
        .register(&mut listener, Token(gate.token), Interest::READABLE)?;
    Ok(listener)
}

fn open_read<R: Files + Net>(
    rt: &R,
    poll: &Poll,
    path: Option<&str>,
    now: Instant,
) -> Result<Option<LocalListener>, Exit> {
    let Some(path) = path else {
        return Ok(None);
    };
    let gate = LocalGate {
        path,
        mode: OWNER_AND_GROUP,
        token: READ_LISTENER,
    };
    Ok(Some(LocalListener::open(rt, poll, gate, now)?))
}

fn open_local<R: Files + Net>(
    rt: &R,
    poll: &Poll,
    gate: LocalGate<'_>,
) -> io::Result<UnixListener> {
    let mut listener = UnixListener::bind(rt, gate.path)?;
    fs::set_permissions(rt, gate.path, Permissions::from_mode(gate.mode))?;
    poll.registry()
        .register(&mut listener, Token(gate.token), Interest::READABLE)?;
    Ok(listener)
}

// Removes the socket of a replica that has ended.
fn free_path<R: Files + Net>(rt: &R, path: &str) -> Result<(), Exit> {
    match fs::symlink_metadata(rt, path) {
        Ok(there) if there.file_type().is_socket() => {}
        Ok(_) => return Err(Exit::SocketTaken),
        Err(error) if error.kind() == ErrorKind::NotFound => return Ok(()),
        Err(error) => return at_step(Step::Socket, Err(error)),
    }
    match UnixStream::connect(rt, path) {
        Err(error) if error.kind() == ErrorKind::ConnectionRefused => {
            at_step(Step::Socket, fs::remove_file(rt, path))
        }
        _ => Err(Exit::SocketTaken),
    }
}
