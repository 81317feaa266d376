//! The replicas from which this one pulls, when, and how a session with each begins.
use crate::ending::Ending;
use crate::session_start::{AskedWay, PeerAnswer, SessionStart};
use replica_sync::SyncError;
use side_by_side::Side;
use status_view::{AskedConfig, PeerStatus};
use std::alloc::{AllocError, Global};
use std::net::{IpAddr, SocketAddr};
use std::time::{Duration, Instant};

/// For how long a peer that does not know sums is not asked for them.
const SECONDS_WITHOUT_SUMS: u64 = 3_600;

/// The peers, of which each is asked by itself: a session begins a fixed time after the one before
/// it began, or when that has ended.
#[derive(Drop)]
pub struct Peers {
    places: Vec<PeerPlace>,
    // What is said of each, in the same order.
    statuses: Vec<PeerStatus>,
    every: Duration,
    // Whether a peer may be asked under a previous configuration.
    has_previous: bool,
}

// A peer, and its next session.
#[derive(Clone, Copy)]
struct PeerPlace {
    address: SocketAddr,
    is_asked: bool,
    // Whether the last session failed: then others that are due are asked before.
    has_failed: bool,
    due: Instant,
    // How it is asked next, if it did not answer in another way; `None` if it is asked in the first
    // way.
    way: Option<AskedWay>,
    // Until when it is not asked for sums: it did not answer that, and then answered a have.
    without_sums_until: Option<Instant>,
}

/// A session that is due.
#[derive(Clone, Copy, Debug)]
pub struct DueSession {
    /// Which of the peers it is with.
    pub number: usize,
    pub address: SocketAddr,
    /// How the peer is asked.
    pub way: AskedWay,
    /// Whether it is asked in another way if it does not answer.
    pub has_other_way: bool,
}

/// What came of a session.
#[derive(Clone, Copy, Debug)]
pub struct SessionEnd {
    pub ending: Ending,
    /// Under which configuration the peer was asked.
    pub side: Side,
    /// What the peer answered.
    pub answer: PeerAnswer,
    /// How many receipts came that were not held.
    pub receipts: u64,
}

impl Peers {
    /// The peers, which are asked under one configuration.
    pub fn new(
        alloc: Global,
        peers: &[SocketAddr],
        every: Duration,
        now: Instant,
    ) -> Result<Peers, AllocError> {
        let mut places = Vec::new(alloc);
        let mut statuses = Vec::new(alloc);
        for peer in peers {
            places.push(PeerPlace {
                address: *peer,
                is_asked: false,
                has_failed: false,
                due: now,
                way: None,
                without_sums_until: None,
            })?;
            statuses.push(PeerStatus {
                address: format!(in alloc; "{peer}")?,
                ended_well: None,
                fault: None,
                receipts: 0,
                asked: None,
            })?;
        }
        Ok(Peers {
            places,
            statuses,
            every,
            has_previous: false,
        })
    }

    /// From now on a peer that does not answer is also asked under the previous configuration.
    pub fn ask_under_previous(&mut self) {
        self.has_previous = true;
    }

    /// Whether one of the peers has this IP address.
    pub fn has_address(&self, wanted: IpAddr) -> bool {
        let wanted = wanted.to_canonical();
        self.places
            .iter()
            .any(|place| place.address.ip().to_canonical() == wanted)
    }

    /// What is said of each peer, in the order of the arguments.
    pub fn statuses(&self) -> &[PeerStatus] {
        self.statuses.as_slice()
    }

    /// How long until the next session may begin: `None` if each peer is asked, or there is no
    /// peer.
    pub fn time_left(&self, now: Instant) -> Option<Duration> {
        let idle = self.places.iter().filter(|place| !place.is_asked);
        idle.map(|place| place.due.duration_since(now)).min()
    }

    /// The session with a peer that is due: one whose last session failed only if there is no
    /// other. It counts as begun.
    pub fn begin(&mut self, now: Instant) -> Option<DueSession> {
        let number = match self.due_place(now, false) {
            Some(number) => number,
            None => self.due_place(now, true)?,
        };
        let has_previous = self.has_previous;
        let place = self.places.get_mut(number)?;
        let way = place.next_way(now);
        place.is_asked = true;
        place.due = now.checked_add(self.every).unwrap_or(now);
        place.way = Some(way);
        Some(DueSession {
            number,
            address: place.address,
            way,
            has_other_way: way.after(has_previous).is_some(),
        })
    }

    fn due_place(&self, now: Instant, has_failed: bool) -> Option<usize> {
        self.places.iter().position(|place| !place.is_asked
            && place.has_failed == has_failed
            && place.due <= now)
    }

    /// The peer of this number ended the connection without an answer: it is asked immediately in
    /// the way that comes next, on another connection.
    pub fn ask_otherwise(&mut self, number: usize, now: Instant) {
        let has_previous = self.has_previous;
        if let Some(place) = self.places.get_mut(number) {
            place.is_asked = false;
            place.has_failed = false;
            place.due = now;
            place.way = match place.way {
                Some(way) => way.after(has_previous),
                None => None,
            };
        }
    }

    /// The session with the peer of this number has ended.
    pub fn end(
        &mut self,
        number: usize,
        session: SessionEnd,
        now: Instant,
        unix_seconds: Option<u64>,
    ) {
        let fault = session.ending.fault();
        if let Some(place) = self.places.get_mut(number) {
            place.is_asked = false;
            place.has_failed = fault.is_some();
            place.note_answer(session.answer, now);
            place.way = None;
        }
        if let Some(peer) = self.statuses.get_mut(number) {
            peer.receipts = peer.receipts.saturating_add(session.receipts);
            if session.answer == PeerAnswer::Came {
                peer.asked = asked_config(session);
            }
            match fault {
                Some(fault) => peer.fault = Some(fault),
                None => peer.ended_well = unix_seconds,
            }
        }
    }
}

impl PeerPlace {
    // How it is asked in a session that begins now.
    fn next_way(&self, now: Instant) -> AskedWay {
        match (self.way, self.without_sums_until) {
            (Some(way), _) => way,
            (None, Some(moment)) if now < moment => AskedWay::first(SessionStart::Haves),
            (None, _) => AskedWay::first(SessionStart::Sums),
        }
    }

    // Notes whether it may know sums. A peer that answered nothing at all is asked for sums again.
    fn note_answer(&mut self, answer: PeerAnswer, now: Instant) {
        let is_known = self.without_sums_until.is_some_and(|moment| now < moment);
        let asked_haves = self.way.is_some_and(|way| way.start == SessionStart::Haves);
        if is_known {
            return;
        }
        self.without_sums_until = if asked_haves && answer == PeerAnswer::Came {
            let time = Duration::from_secs(SECONDS_WITHOUT_SUMS);
            Some(now.checked_add(time).unwrap_or(now))
        } else {
            None
        };
    }
}

// Under which configuration a peer has answered, if it was one of those that it was asked under.
fn asked_config(session: SessionEnd) -> Option<AskedConfig> {
    match (session.ending, session.side) {
        (Ending::Fault(SyncError::ConfigDiffers), _) => None,
        (_, Side::Next) => Some(AskedConfig::Next),
        (_, Side::Previous) => Some(AskedConfig::Previous),
    }
}
