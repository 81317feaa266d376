//! A connection on which this replica asks another one.
use crate::ending::Ending;
use crate::held_state::HeldState;
use crate::peers::DueSession;
use crate::session_start::{AskedWay, PeerAnswer, SessionStart};
use crate::unread_bytes::UnreadBytes;
use bucket_sums::QuietPulling;
use change_view::{HeldChange, JournalledChange, NewEntries, count_entries};
use closure_core::Closure;
use replica_sync::SyncError;
use side_by_side::Side;
use std::alloc::{AllocError, Global};
use std::net::SocketAddr;

/// A connection on which this replica asks, and takes what is answered.
#[derive(Drop)]
pub struct PullTalk {
    // Which of the peers it is.
    number: usize,
    peer: SocketAddr,
    // Under which configuration it is asked.
    side: Side,
    // Whether it can be asked in another way if it does not answer.
    has_other_way: bool,
    // How many records came that were not held.
    records: u64,
    pulling: QuietPulling,
    answer: PeerAnswer,
    rest: UnreadBytes,
    // How many more bytes may come.
    bytes_left: u64,
    // Whether more came.
    has_too_many: bool,
}

impl PullTalk {
    /// The beginning of a session that is due, in which this many bytes may come.
    pub fn new<C: Closure>(
        alloc: Global,
        held: &mut HeldState<C>,
        due: DueSession,
        most_bytes: u64,
    ) -> Result<PullTalk, SyncError> {
        Ok(PullTalk {
            number: due.number,
            peer: due.address,
            side: due.way.side,
            has_other_way: due.has_other_way,
            records: 0,
            pulling: begin(alloc, held, due.way)?,
            answer: PeerAnswer::Nothing,
            rest: UnreadBytes::new(alloc),
            bytes_left: most_bytes,
            has_too_many: false,
        })
    }

    pub fn wants_bytes(&self) -> bool {
        self.rest.is_empty() && self.can_take()
    }

    /// Whether bytes that came can be taken.
    pub fn has_work(&self) -> bool {
        (self.has_too_many || !self.rest.is_empty()) && self.can_take()
    }

    fn can_take(&self) -> bool {
        !self.pulling.is_over() && self.pulling.output().is_empty()
    }

    /// Keeps bytes that came, at most the number that may come.
    pub fn take(&mut self, piece: &[u8]) -> Result<(), AllocError> {
        self.answer = PeerAnswer::Came;
        let left = usize::try_from(self.bytes_left).unwrap_or(usize::MAX);
        let room = left.min(piece.len());
        self.bytes_left = self.bytes_left.saturating_sub(room as u64);
        self.has_too_many |= room < piece.len();
        self.rest.keep(&piece[..room])
    }

    /// Takes what is left of the bytes that came, up to the end of an answer. Records of distrust
    /// among them are taken together.
    pub fn go_on<C: Closure>(
        &mut self,
        alloc: Global,
        held: &mut HeldState<C>,
    ) -> Result<(), Ending> {
        if !self.rest.is_empty() && self.can_take() {
            self.take_lines(alloc, held)?;
        }
        if self.has_too_many {
            return Err(Ending::TooManyBytes);
        }
        Ok(())
    }

    fn take_lines<C: Closure>(
        &mut self,
        alloc: Global,
        held: &mut HeldState<C>,
    ) -> Result<(), SyncError> {
        let before = held.fresh.len();
        let read = match self.side {
            Side::Next => self.take_next(alloc, held),
            Side::Previous => self.take_previous(alloc, held),
        };
        let came = &held.fresh[before.min(held.fresh.len())..];
        if !came.is_empty() {
            let new = count_entries(came);
            self.records = self.records.saturating_add(new.records);
            let is_noted = match pulled(alloc, self.peer, new, came) {
                Ok(change) => held.pulled.push(change).is_ok(),
                Err(_) => false,
            };
            held.has_unreported |= !is_noted;
        }
        self.rest.took(read?);
        Ok(())
    }

    fn take_next<C: Closure>(
        &mut self,
        alloc: Global,
        held: &mut HeldState<C>,
    ) -> Result<usize, SyncError> {
        let closure = &mut held.sides.next;
        self.pulling
            .read_lines(alloc, closure, self.rest.left(), &mut held.fresh)
    }

    // What the previous side takes is offered to the next one, also after an error.
    fn take_previous<C: Closure>(
        &mut self,
        alloc: Global,
        held: &mut HeldState<C>,
    ) -> Result<usize, SyncError> {
        let mut lines = Vec::new(alloc);
        let Some(closure) = &mut held.sides.previous else {
            return Err(SyncError::ConfigDiffers);
        };
        let piece = self.rest.left();
        let read = self.pulling.read_lines(alloc, closure, piece, &mut lines);
        held.pass_back(alloc, lines.as_slice())?;
        read
    }

    /// The other side sends nothing more.
    pub fn end_input(&self) -> Result<(), Ending> {
        if self.is_unanswered() {
            return Err(Ending::Unanswered);
        }
        self.pulling.end()?;
        Ok(())
    }

    /// How the session ends if its connection fails.
    pub fn broken(&self) -> Ending {
        if self.is_unanswered() {
            Ending::Unanswered
        } else {
            Ending::Fault(SyncError::Io)
        }
    }

    // Whether nothing came, and the peer can be asked in another way.
    fn is_unanswered(&self) -> bool {
        self.answer == PeerAnswer::Nothing && self.has_other_way
    }

    /// What the other side answered.
    pub fn answer(&self) -> PeerAnswer {
        self.answer
    }

    pub fn output(&self) -> &[u8] {
        self.pulling.output()
    }

    pub fn wrote(&mut self, count: usize) {
        let count = count.min(self.pulling.output().len());
        self.pulling.wrote(count);
    }

    pub fn ending(&self) -> Option<Ending> {
        if self.pulling.is_over() {
            Some(Ending::Well)
        } else {
            None
        }
    }

    /// Which of the peers it is.
    pub fn number(&self) -> usize {
        self.number
    }

    /// Under which configuration it is asked.
    pub fn side(&self) -> Side {
        self.side
    }

    /// How many receipts came that were not held.
    pub fn taken(&self) -> u64 {
        self.pulling.taken()
    }

    /// How many records of distrust came that were not held.
    pub fn records(&self) -> u64 {
        self.records
    }
}

// The machine of a session that asks in this way.
fn begin<C: Closure>(
    alloc: Global,
    held: &mut HeldState<C>,
    way: AskedWay,
) -> Result<QuietPulling, SyncError> {
    let Some(closure) = held.sides.closure(way.side) else {
        return Err(SyncError::ConfigDiffers);
    };
    match way.start {
        SessionStart::Sums => QuietPulling::new(alloc, closure),
        SessionStart::Haves => QuietPulling::without_sums(alloc, &*closure),
    }
}

// What is reported of lines that came of the peer.
fn pulled(
    alloc: Global,
    peer: SocketAddr,
    new: NewEntries,
    lines: &[u8],
) -> Result<JournalledChange, AllocError> {
    Ok(JournalledChange {
        change: HeldChange::Pull(format!(in alloc; "{peer}")?, new),
        bytes: lines.len(),
    })
}
