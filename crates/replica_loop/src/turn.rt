//! One turn of the loop: what is ready is read, and what takes little is answered; then a few
//! milliseconds of long requests or of changes are carried out, what came is put on the disk, and
//! only then it is shown. So nobody is shown a change that a kill could take back, and nobody waits
//! for more than one of the others at a time. `kept_files` has what is on the disk.
use crate::change_reports::{log_changes, texts_of_turn};
use crate::settings::Settings;
use crate::turn_counts::TurnCounts;
use change_view::NewEntries;
use closure_core::Closure;
use command_exits::{Exit, FileFault, Step};
use command_line::WarnTimes;
use fair_turns::Work;
use fed_config::ConfigId;
use health_pages::LoopCounts;
use local_answers::PageSource;
use mio::Events;
use mio::net::TcpStream;
use peer_talks::{
    DueSession, Ending, HeldState, PeerAnswer, Peers, PullTalk, ServedTalk, SessionEnd,
};
use replica_connections::{
    ConnectionTable, LiveConnection, LocalTalk, PageTalk, Surroundings, Talk,
};
use replica_events::{ErrorStream, EventCounts, KeepFault, KeptFiles, LogEvent, log_event};
use replica_sockets::{Arrival, Listeners, Rights, Socket, at_step, file_at_step};
use replica_sync::SyncError;
use side_by_side::{Side, Sides};
use state_files::{AuditFile, OnDisk, StateBeginning, StateLock};
use status_view::{PreviousStatus, RunningStatus};
use std::alloc::Global;
use std::fs::{File, Files};
use std::io::{Eprint, ErrorKind};
use std::net::{Net, SocketAddr};
use std::thread;
use std::time::{Clock, Duration, Instant};

/// How long a turn waits at most if nothing comes.
const MAX_WAIT_SECONDS: u64 = 60;

/// How long it waits if the system does not say what is ready.
const PAUSE_MILLIS: u64 = 100;

/// How many connections are accepted at each listener in one turn.
const ARRIVALS_A_TURN: usize = 32;

/// How many sessions are begun in one turn.
const PULLS_A_TURN: usize = 16;

/// What a session has brought that did not begin.
const NOTHING_NEW: NewEntries = NewEntries {
    receipts: 0,
    records: 0,
};

/// How long replies may still be sent after the replica was asked to end.
const LAST_SECONDS: u64 = 1;

/// What a replica works with, in addition to what it holds.
#[derive(Drop)]
pub(crate) struct RunningReplica {
    listeners: Listeners,
    table: ConnectionTable,
    peers: Peers,
    // The configuration that is changed from, as `status` shows it.
    previous: Option<PreviousStatus>,
    files: KeptFiles,
    errors: ErrorStream,
    events: EventCounts,
    now: Instant,
    // The Unix second at which it began; 0 if the clock had none.
    began: u64,
    // When it ends, once it was asked to.
    ends_at: Option<Instant>,
    // Whether it was reported that a connection had no room, or was not accepted, and none came
    // since.
    has_reported: bool,
    counts: TurnCounts,
    warn_times: WarnTimes,
    version: &'static str,
}

impl RunningReplica {
    /// Begins the journal, and listens.
    pub(crate) fn begin<C: Closure, R: Files<File = File> + Net + Clock + Eprint>(
        rt: &R,
        alloc: Global,
        mut errors: ErrorStream,
        sides: &Sides<C>,
        lock: StateLock,
        beginning: StateBeginning,
        settings: &Settings<'_, '_>,
    ) -> Result<RunningReplica, Exit> {
        let now = at_step(Step::Socket, Instant::now(rt))?;
        let listeners = Listeners::open(rt, &settings.places(), now)?;
        let began = unix_seconds(rt).unwrap_or(0);
        let begun = beginning.begin_journal(rt, alloc, &sides.next, settings.state);
        let journal = file_at_step(Step::Journal, begun)?;
        // All that is held is on the disk by now, so a line that is left is of a change that is
        // kept.
        let audit = begin_audit(rt, alloc, &mut errors, sides, settings.audit, began)?;
        let previous = previous_status(sides);
        let mut peers = Peers::new(alloc, settings.peers, settings.every, now)?;
        if previous.is_some() {
            peers.ask_under_previous();
        }
        Ok(RunningReplica {
            listeners,
            table: ConnectionTable::new(alloc, settings.most_request_bytes)?,
            peers,
            previous,
            files: KeptFiles::new(lock, journal, audit, settings.progress),
            errors,
            events: EventCounts::new(alloc),
            now,
            began,
            ends_at: None,
            has_reported: false,
            counts: TurnCounts::new(began),
            warn_times: settings.warn_times,
            version: settings.version,
        })
    }

    /// The address at which pages are asked for, as the system has chosen it.
    pub(crate) fn health_address(&self) -> Option<SocketAddr> {
        self.listeners.health_address()
    }

    /// Waits until something is ready or due.
    pub(crate) fn wait<R: Clock + Eprint>(&mut self, rt: &R, alloc: Global, events: &mut Events) {
        let wait = self.time_left();
        if let Err(error) = self.listeners.poll.poll(events, Some(wait)) {
            // A signal came, as when the process was stopped and continued.
            if error.kind() != ErrorKind::Interrupted {
                self.note(rt, alloc, LogEvent::Poll);
                thread::sleep(rt, Duration::from_millis(PAUSE_MILLIS));
            }
        }
        // If the clock fails, no time has passed.
        if let Ok(now) = Instant::now(rt) {
            self.now = now;
        }
        for event in &*events {
            let serial = event.token().0;
            let can_read = event.is_readable() || event.is_error();
            let can_write = event.is_writable() || event.is_error();
            self.listeners.mark(serial);
            self.table.mark(serial, can_read, can_write);
        }
    }

    fn time_left(&self) -> Duration {
        if self.files.is_folding() {
            return Duration::ZERO;
        }
        let most = Duration::from_secs(MAX_WAIT_SECONDS);
        let table = self.table.time_left(self.now).unwrap_or(most);
        let listeners = self.listeners.time_left(self.now).unwrap_or(most);
        let peers = match self.peers.time_left(self.now) {
            Some(left) if self.may_pull() => left,
            _ => most,
        };
        let end = match self.ends_at {
            Some(moment) => moment.duration_since(self.now),
            None => most,
        };
        let events = self.events.time_left(self.now).unwrap_or(most);
        let rest = listeners.min(peers).min(end).min(events);
        most.min(table).min(rest)
    }

    fn may_pull(&self) -> bool {
        self.ends_at.is_none() && self.table.has_pull_room()
    }

    /// Takes in the connections that came.
    pub(crate) fn accept<R: Eprint>(&mut self, rt: &R, alloc: Global) {
        self.accept_local(rt, alloc, Rights::Change);
        self.accept_local(rt, alloc, Rights::Look);
        for _ in 0..ARRIVALS_A_TURN {
            let arrival = self.listeners.accept_page(self.now);
            if !self.take_in(rt, alloc, arrival) {
                break;
            }
        }
        for _ in 0..ARRIVALS_A_TURN {
            let arrival = self.listeners.accept_gossip(self.now);
            if !self.take_in(rt, alloc, arrival) {
                break;
            }
        }
    }

    fn accept_local<R: Eprint>(&mut self, rt: &R, alloc: Global, rights: Rights) {
        for _ in 0..ARRIVALS_A_TURN {
            let arrival = self.listeners.accept_local(rights, self.now);
            if !self.take_in(rt, alloc, arrival) {
                break;
            }
        }
    }

    // Returns whether there may be more.
    fn take_in<R: Eprint>(&mut self, rt: &R, alloc: Global, arrival: Arrival) -> bool {
        match arrival {
            Arrival::Nobody => false,
            Arrival::Left => true,
            Arrival::Failed => {
                self.report_once(rt, alloc, LogEvent::Accept);
                false
            }
            Arrival::Local(socket, rights) => {
                let talk = Talk::Local(self.local_talk(alloc, rights));
                self.add(rt, alloc, socket, talk, None);
                true
            }
            Arrival::Page(socket, peer) => {
                self.table.make_page_room(self.now);
                let talk = Talk::Page(PageTalk::new(alloc));
                self.add(rt, alloc, socket, talk, Some(peer));
                true
            }
            Arrival::Gossip(socket, peer) => {
                self.table.make_served_room(self.now);
                let talk = Talk::Served(ServedTalk::new(alloc));
                self.add(rt, alloc, socket, talk, Some(peer));
                true
            }
        }
    }

    // If there are too many connections of this machine, one of them makes room.
    fn local_talk(&mut self, alloc: Global, rights: Rights) -> LocalTalk {
        if self.table.make_local_room(rights, self.now) {
            LocalTalk::new(alloc, rights)
        } else {
            LocalTalk::refused(alloc, rights)
        }
    }

    fn add<R: Eprint>(
        &mut self,
        rt: &R,
        alloc: Global,
        socket: Socket,
        talk: Talk,
        peer: Option<SocketAddr>,
    ) {
        if !self.table.has_room_for(&talk) {
            self.report_once(rt, alloc, LogEvent::Refuse);
            return;
        }
        if self
            .table
            .add(&self.listeners.poll, socket, talk, peer, self.now)
        {
            self.has_reported = false;
        } else {
            self.report_once(rt, alloc, LogEvent::Accept);
        }
    }

    fn report_once<R: Eprint>(&mut self, rt: &R, alloc: Global, event: LogEvent) {
        if !self.has_reported {
            self.note(rt, alloc, event);
            self.has_reported = true;
        }
    }

    /// Begins a session with each peer that is due.
    pub(crate) fn begin_pulls<C: Closure, R: Net + Eprint>(
        &mut self,
        rt: &R,
        alloc: Global,
        held: &mut HeldState<C>,
        most_bytes: u64,
    ) {
        let files = self
            .files
            .snapshot_bytes()
            .saturating_add(self.files.journal_bytes());
        let left = most_bytes.saturating_sub(files);
        for _ in 0..PULLS_A_TURN {
            if !self.may_pull() {
                break;
            }
            let Some(due) = self.peers.begin(self.now) else {
                break;
            };
            let begun = match PullTalk::new(alloc, held, due, left) {
                Ok(talk) => self.connect(rt, talk, due.address),
                Err(why) => Err(Ending::Fault(why)),
            };
            if let Err(ending) = begun {
                self.end_unbegun(rt, alloc, due, ending);
            }
        }
    }

    // There is no connection.
    fn end_unbegun<R: Eprint>(&mut self, rt: &R, alloc: Global, due: DueSession, ending: Ending) {
        let session = SessionEnd {
            ending,
            side: due.way.side,
            answer: PeerAnswer::Nothing,
            receipts: 0,
        };
        self.peers.end(due.number, session, self.now, None);
        let event = LogEvent::Pull(due.address, NOTHING_NEW, Duration::ZERO, ending);
        self.log(rt, alloc, event);
    }

    fn connect<R: Net>(&mut self, rt: &R, talk: PullTalk, peer: SocketAddr) -> Result<(), Ending> {
        let stream = match TcpStream::connect(rt, peer) {
            Ok(stream) => stream,
            Err(_) => return Err(Ending::Fault(SyncError::Io)),
        };
        // Without it a question may wait for a short time.
        let _ = stream.set_nodelay(true);
        let socket = Socket::Tcp(stream);
        let talk = Talk::Pull(talk);
        if self
            .table
            .add(&self.listeners.poll, socket, talk, Some(peer), self.now)
        {
            Ok(())
        } else {
            Err(Ending::Fault(SyncError::Io))
        }
    }

    /// Keeps what came on each connection, and answers what takes little. That is shown
    /// immediately: it is what is on the disk, and does not wait for the changes of this turn.
    /// Pages may be asked of hosts of these names.
    pub(crate) fn read<C: Closure, R: Clock>(
        &mut self,
        rt: &R,
        alloc: Global,
        held: &mut HeldState<C>,
        names: &[&str],
    ) {
        self.table.read(alloc, self.now);
        self.carry_out(rt, alloc, held, names, Work::Short);
        if held.fresh.is_empty() && !self.table.has_changes() {
            self.write();
        }
    }

    /// Carries out long requests or changes, if some wait.
    pub(crate) fn go_on<C: Closure, R: Clock>(
        &mut self,
        rt: &R,
        alloc: Global,
        held: &mut HeldState<C>,
        names: &[&str],
    ) {
        if let Some(work) = self.table.work_after_short() {
            self.carry_out(rt, alloc, held, names, work);
        }
    }

    fn carry_out<C: Closure, R: Clock>(
        &mut self,
        rt: &R,
        alloc: Global,
        held: &mut HeldState<C>,
        names: &[&str],
        work: Work,
    ) {
        let running = RunningStatus {
            previous: self.previous,
            ..running_status(rt, &self.files, &self.peers, self.began)
        };
        let counts = self.counts.all(&self.table, &self.files);
        let around = Surroundings {
            now: self.now,
            room: self.table.room(),
            pages: page_source(running, counts, self.version, self.warn_times),
            page_names: names,
        };
        self.table.carry_out(rt, alloc, held, &around, work);
        if self.ends_at.is_none() && self.table.is_stopped() {
            let last = Duration::from_secs(LAST_SECONDS);
            self.ends_at = Some(self.now.checked_add(last).unwrap_or(self.now));
        }
    }

    /// Puts on the disk what came in this turn. If that fails, the replies say so.
    pub(crate) fn commit<C: Closure, R: Files<File = File> + Clock + Eprint>(
        &mut self,
        rt: &R,
        alloc: Global,
        held: &mut HeldState<C>,
        path: &str,
    ) -> Result<(), KeepFault> {
        match self.keep(rt, alloc, held, path) {
            Ok(on_disk) => {
                log_changes(rt, alloc, &mut self.errors, &self.table);
                pass_on_requests(alloc, held, &self.table, &on_disk);
                held.settle(alloc, &on_disk);
                self.table.settle(&on_disk);
                Ok(())
            }
            Err(fault) => {
                self.table.fail();
                self.table.write(self.now);
                Err(fault)
            }
        }
    }

    // Gives the files what came in this turn; the audit file gets the Unix second with it.
    fn keep<C: Closure, R: Files<File = File> + Clock + Eprint>(
        &mut self,
        rt: &R,
        alloc: Global,
        held: &HeldState<C>,
        path: &str,
    ) -> Result<OnDisk, KeepFault> {
        let moment = self.audit_second(rt);
        match texts_of_turn(alloc, held, &self.table, moment) {
            Ok(texts) => {
                self.files.keep(rt, alloc, &mut self.errors, &held.sides.next, &texts, path)
            }
            Err(error) if moment.is_some() => Err(KeepFault::Audit(FileFault::from(error))),
            Err(error) => Err(KeepFault::State(FileFault::from(error))),
        }
    }

    // Without an audit file there is no second.
    fn audit_second<R: Clock>(&self, rt: &R) -> Option<u64> {
        if self.files.has_audit() {
            Some(unix_seconds(rt).unwrap_or(0))
        } else {
            None
        }
    }

    /// Writes what is to be written on each connection.
    pub(crate) fn write(&mut self) {
        self.table.write(self.now);
    }

    /// Reports the connections that have ended, and takes them away.
    pub(crate) fn end_connections<R: Eprint + Clock>(
        &mut self,
        rt: &R,
        alloc: Global,
        is_verbose: bool,
    ) {
        for conn in self.table.all() {
            if let Some(ending) = conn.ending {
                let time = self.now.duration_since(conn.begun);
                note_pull(rt, &mut self.peers, conn, ending, self.now);
                note_previous(rt, &mut self.previous, &self.peers, conn);
                self.counts.note_end(conn, ending);
                if let Some(event) = event_of(conn, ending, time, is_verbose) {
                    self.events
                        .note(rt, alloc, &mut self.errors, event, self.now);
                }
            }
        }
        self.table.remove_ended();
        self.events.print_out(rt, alloc, &mut self.errors, self.now);
    }

    /// Writes the state file again if its journal is long, one piece a turn.
    pub(crate) fn fold<C: Closure, R: Files<File = File> + Clock + Eprint>(
        &mut self,
        rt: &R,
        alloc: Global,
        closure: &C,
        path: &str,
    ) -> Result<(), FileFault> {
        self.files.fold(rt, alloc, &mut self.errors, closure, path)
    }

    /// The turn that began when the wait ended is over.
    pub(crate) fn note_turn<R: Clock>(&mut self, rt: &R) {
        if let Ok(now) = Instant::now(rt) {
            self.counts.note_turn(now.duration_since(self.now));
        }
    }

    /// Reports an event.
    pub(crate) fn log<R: Eprint>(&mut self, rt: &R, alloc: Global, event: LogEvent) {
        log_event(rt, alloc, &mut self.errors, event);
    }

    // Reports an event that may come often.
    fn note<R: Eprint>(&mut self, rt: &R, alloc: Global, event: LogEvent) {
        self.events
            .note(rt, alloc, &mut self.errors, event, self.now);
    }

    /// Reports what was only counted, and how many lines were left out.
    pub(crate) fn print_all<R: Eprint>(&mut self, rt: &R, alloc: Global) {
        self.events.print_all(rt, alloc, &mut self.errors);
        self.errors.say_lost(rt, alloc);
    }

    /// Removes a snapshot that is not written whole, and the sockets' files if they are still those
    /// of this replica.
    pub(crate) fn remove_files<R: Files>(&mut self, rt: &R, settings: &Settings<'_, '_>) {
        self.files.end(rt, settings.state);
        self.listeners.remove_sockets(rt, &settings.places());
    }

    /// Whether it was asked to end, and the replies are sent or had their time.
    pub(crate) fn has_ended(&self) -> bool {
        match self.ends_at {
            Some(moment) => self.now >= moment || !self.table.has_replies(),
            None => false,
        }
    }
}

// What pages show in addition to what is held.
fn page_source<'a>(
    running: RunningStatus<'a>,
    counts: LoopCounts,
    version: &'a str,
    warn_times: WarnTimes,
) -> PageSource<'a> {
    PageSource {
        running,
        counts,
        version,
        warn_times,
    }
}

// What the replica says of itself.
fn running_status<'a, R: Clock>(
    rt: &R,
    files: &KeptFiles,
    peers: &'a Peers,
    began: u64,
) -> RunningStatus<'a> {
    RunningStatus {
        snapshot_bytes: files.snapshot_bytes(),
        journal_bytes: files.journal_bytes(),
        peers: peers.statuses(),
        began,
        moment: i64::try_from(unix_seconds(rt).unwrap_or(0)).unwrap_or(0),
        previous: None,
    }
}

// What is shown of the configuration that is changed from, if there is one.
fn previous_status<C: Closure>(sides: &Sides<C>) -> Option<PreviousStatus> {
    let closure = sides.previous.as_ref()?;
    Some(PreviousStatus {
        config: closure.config().digest(),
        used: None,
    })
}

// What requests have changed, which is on the disk, is offered under the previous configuration.
fn pass_on_requests<C: Closure>(
    alloc: Global,
    held: &mut HeldState<C>,
    table: &ConnectionTable,
    on_disk: &OnDisk,
) {
    for conn in table.all() {
        if let Talk::Local(talk) = &conn.talk {
            held.pass_on(alloc, talk.journal(), on_disk);
        }
    }
}

// If something was said with a peer under the previous configuration on a connection that has
// ended, this is the last time at which it was used. What others ask means nothing: anybody may.
fn note_previous<R: Clock>(
    rt: &R,
    previous: &mut Option<PreviousStatus>,
    peers: &Peers,
    conn: &LiveConnection,
) {
    if let Some(status) = previous
        && conn.peer.is_some_and(|peer| peers.has_address(peer.ip()))
        && is_under(conn, status.config)
    {
        status.used = unix_seconds(rt).or(status.used);
    }
}

// Whether something was said on the connection under the previous configuration, which has this
// digest.
fn is_under(conn: &LiveConnection, previous: ConfigId) -> bool {
    match &conn.talk {
        Talk::Served(talk) => talk.digest() == Some(previous) && conn.sent_bytes() > 0,
        Talk::Pull(talk) => talk.side() == Side::Previous && talk.answer() == PeerAnswer::Came,
        Talk::Local(_) | Talk::Page(_) => false,
    }
}

// Counts what a session brought, or asks the peer in another way.
fn note_pull<R: Clock>(
    rt: &R,
    peers: &mut Peers,
    conn: &LiveConnection,
    ending: Ending,
    now: Instant,
) {
    let Talk::Pull(talk) = &conn.talk else {
        return;
    };
    if ending == Ending::Unanswered {
        peers.ask_otherwise(talk.number(), now);
    } else {
        let session = SessionEnd {
            ending,
            side: talk.side(),
            answer: talk.answer(),
            receipts: talk.taken(),
        };
        peers.end(talk.number(), session, now, unix_seconds(rt));
    }
}

fn unix_seconds<R: Clock>(rt: &R) -> Option<u64> {
    match rt.since_1970() {
        Ok(time) => Some(time.as_secs()),
        Err(_) => None,
    }
}

// What is reported of a connection that has ended.
fn event_of(
    conn: &LiveConnection,
    ending: Ending,
    time: Duration,
    is_verbose: bool,
) -> Option<LogEvent> {
    let is_said = is_verbose || ending != Ending::Well;
    match ending {
        Ending::GaveWay => return Some(LogEvent::Refuse),
        Ending::Unanswered => return None,
        Ending::Well | Ending::Fault(_) | Ending::TooManyBytes => {}
    }
    match &conn.talk {
        Talk::Pull(talk) => Some(LogEvent::Pull(conn.peer?, new_of(talk), time, ending)),
        Talk::Served(_) if is_said => Some(LogEvent::Serve(conn.peer, time, ending)),
        Talk::Local(_) if is_said => Some(LogEvent::Local(time, ending)),
        Talk::Page(_) if is_said => Some(LogEvent::Page(conn.peer, time, ending)),
        _ => None,
    }
}

// How much the session brought.
fn new_of(talk: &PullTalk) -> NewEntries {
    NewEntries {
        receipts: talk.taken(),
        records: talk.records(),
    }
}

// The audit file, if there is to be one. It is reported how many lines were cut off.
fn begin_audit<C: Closure, R: Files<File = File> + Eprint>(
    rt: &R,
    alloc: Global,
    errors: &mut ErrorStream,
    sides: &Sides<C>,
    path: Option<&str>,
    moment: u64,
) -> Result<Option<AuditFile>, Exit> {
    let Some(path) = path else {
        return Ok(None);
    };
    let begun = AuditFile::begin(rt, alloc, sides, path, moment);
    let (audit, cut) = file_at_step(Step::Audit, begun)?;
    if cut > 0 {
        log_event(rt, alloc, errors, LogEvent::AuditCut(cut));
    }
    Ok(Some(audit))
}

/// One turn. Returns whether the replica has ended.
pub(crate) fn turn<C: Closure, R: Files<File = File> + Net + Clock + Eprint>(
    rt: &R,
    alloc: Global,
    held: &mut HeldState<C>,
    running: &mut RunningReplica,
    events: &mut Events,
    settings: &Settings<'_, '_>,
) -> Result<bool, KeepFault> {
    running.wait(rt, alloc, events);
    running.accept(rt, alloc);
    running.begin_pulls(rt, alloc, held, settings.most_bytes);
    running.read(rt, alloc, held, settings.health_names);
    running.end_connections(rt, alloc, settings.is_verbose);
    running.go_on(rt, alloc, held, settings.health_names);
    running.commit(rt, alloc, held, settings.state)?;
    running.write();
    running.end_connections(rt, alloc, settings.is_verbose);
    running.fold(rt, alloc, &held.sides.next, settings.state)?;
    running.note_turn(rt);
    Ok(running.has_ended())
}
