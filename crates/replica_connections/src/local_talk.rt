//! A connection of this machine, on which requests come and replies go, one after another.
use crate::request_work::work_of;
use change_view::{HeldChange, TurnLines};
use closure_core::Closure;
use fair_turns::{ByteRoom, RoomUser, Work};
use local_answers::{
    PageSource, Reply, RequestFault, RequestParts, Sending, StreamState, WholeRequest, answer_look,
    answer_request,
};
use peer_talks::{Ending, HeldState};
use replica_sockets::Rights;
use state_files::OnDisk;
use std::alloc::Global;
use std::mem;
use std::time::Instant;

/// The time, the room that there is, and what the replica says of itself.
#[derive(Clone, Copy)]
pub struct Surroundings<'a, 'n, 's> {
    pub now: Instant,
    /// The room for requests and replies.
    pub room: ByteRoom,
    pub pages: PageSource<'a>,
    /// The names of hosts of which pages may be asked.
    pub page_names: &'n [&'s str],
}

/// The reply if a change could not be put on the disk. It takes no memory.
static DISK_FAILED: &[u8] = b"{\"errors\":17,\"output\":0,\"status\":3}\nfedbundle: S9 Io\n";

/// Requests and their replies: while one is answered, no bytes are read.
#[derive(Drop)]
pub struct LocalTalk {
    alloc: Global,
    rights: Rights,
    parts: RequestParts,
    // Whether more may come.
    stream: StreamState,
    // How many replies of commands there were.
    replies: u64,
    answer: LocalAnswer,
    // How many bytes the request has that waits for its turn, or the reply of a command.
    held: u64,
    // What it changed that is not on the disk yet.
    change: Option<HeldChange>,
}

// What is being sent.
#[derive(Drop)]
enum LocalAnswer {
    // Nothing, as long as a request comes.
    Awaited,
    // Nothing, as long as a whole request waits for its turn.
    Due(Work, WholeRequest),
    // What is left of a reply that says why no command answers: the last one.
    Fault(&'static [u8]),
    Whole(Sending),
    // Nothing any more.
    Over,
}

impl LocalTalk {
    pub fn new(alloc: Global, rights: Rights) -> LocalTalk {
        LocalTalk::with(alloc, rights, LocalAnswer::Awaited)
    }

    /// One more than there may be: the reply says so, and nothing is read.
    pub fn refused(alloc: Global, rights: Rights) -> LocalTalk {
        let reply = RequestFault::TooManyRequests.reply();
        LocalTalk::with(alloc, rights, LocalAnswer::Fault(reply))
    }

    fn with(alloc: Global, rights: Rights, answer: LocalAnswer) -> LocalTalk {
        LocalTalk {
            alloc,
            rights,
            parts: RequestParts::new(alloc),
            stream: StreamState::Open,
            replies: 0,
            answer,
            held: 0,
            change: None,
        }
    }

    pub fn wants_bytes(&self) -> bool {
        matches!(self.answer, LocalAnswer::Awaited)
    }

    /// Whether it is kept for a next request, of which no byte came.
    pub(crate) fn is_kept(&self) -> bool {
        self.replies > 0 && self.wants_bytes() && self.parts.len() == 0
    }

    /// Whether it has a request or a reply of a command: one that is refused takes no place.
    pub(crate) fn takes_place(&self) -> bool {
        !matches!(self.answer, LocalAnswer::Fault(_))
    }

    /// What the requests of its socket may do.
    pub(crate) fn rights(&self) -> Rights {
        self.rights
    }

    fn room_user(&self) -> RoomUser {
        match self.rights {
            Rights::Change => RoomUser::Writer,
            Rights::Look => RoomUser::Reader,
        }
    }

    /// It makes room for another request: the reply says that there are too many.
    pub(crate) fn free_place(&mut self) {
        self.refuse(RequestFault::TooManyRequests);
    }

    /// How many bytes are held: of requests, and of the reply.
    pub(crate) fn held_bytes(&self) -> u64 {
        self.held.saturating_add(self.parts.len() as u64)
    }

    /// Takes bytes of requests. If there are too many, the reply says so immediately.
    pub fn take(&mut self, piece: &[u8], room: &mut ByteRoom) {
        if !room.take(self.room_user(), piece.len() as u64) {
            self.refuse(RequestFault::TooManyRequests);
        } else if self.parts.take(piece).is_err() {
            self.refuse(RequestFault::NoMemory);
        } else {
            self.go_on();
        }
    }

    /// Nothing more comes.
    pub fn end_input(&mut self) {
        self.stream = StreamState::Ended;
        self.go_on();
    }

    // The next request, if it is whole, waits for its turn. A stream that ends between requests
    // ends well.
    fn go_on(&mut self) {
        if self.stream == StreamState::Ended && self.is_kept() {
            self.answer = LocalAnswer::Over;
            return;
        }
        let came = self.parts.len();
        match self.parts.next(self.alloc, self.stream) {
            Ok(Some(request)) => {
                let work = self.allowed(work_of(request.words.as_slice()));
                self.held = came.saturating_sub(self.parts.len()) as u64;
                self.answer = LocalAnswer::Due(work, request);
            }
            Ok(None) => self.answer = LocalAnswer::Awaited,
            Err(fault) => self.refuse(fault),
        }
    }

    // A change that is not allowed is refused, which takes little.
    fn allowed(&self, work: Work) -> Work {
        match (self.rights, work) {
            (Rights::Look, Work::Change) => Work::Short,
            _ => work,
        }
    }

    /// What the request waits for, once it is whole.
    pub fn work(&self) -> Option<Work> {
        match &self.answer {
            LocalAnswer::Due(work, _) => Some(*work),
            _ => None,
        }
    }

    /// The request has its turn: it is carried out.
    pub fn answer<C: Closure>(
        &mut self,
        held: &mut HeldState<C>,
        around: &Surroundings<'_, '_, '_>,
    ) {
        if self.work().is_none() {
            return;
        }
        let LocalAnswer::Due(work, request) = mem::replace(&mut self.answer, LocalAnswer::Over)
        else {
            return;
        };
        let mut room = around.room;
        // The lines of what changes take about the room of the input once more.
        if work == Work::Change && !room.take(self.room_user(), self.held) {
            self.refuse(RequestFault::TooManyRequests);
            return;
        }
        match self.carry_out(&request, held, around) {
            Ok(reply) => self.reply_within(reply, around.room),
            Err(fault) => self.refuse(fault),
        }
    }

    /// What it changed that is not on the disk yet.
    pub fn change(&self) -> Option<&HeldChange> {
        self.change.as_ref()
    }

    /// The lines that are to be on the disk before anything is sent, and what reports them.
    pub(crate) fn turn_lines(&self) -> Option<TurnLines<'_>> {
        TurnLines::of_request(self.journal(), self.change())
    }

    // If there is no room for the reply, and nothing was changed, it is refused.
    fn reply_within(&mut self, mut reply: Reply, mut room: ByteRoom) {
        let bytes = bytes_of(&reply);
        let shows_only = reply.journal.is_empty() && !reply.ends;
        if shows_only && !room.take(self.room_user(), bytes) {
            self.refuse(RequestFault::TooManyRequests);
        } else {
            self.change = reply.change.take();
            self.answer = LocalAnswer::Whole(Sending::new(reply));
            self.held = bytes;
            self.replies = self.replies.saturating_add(1);
        }
    }

    fn carry_out<C: Closure>(
        &self,
        request: &WholeRequest,
        held: &mut HeldState<C>,
        around: &Surroundings<'_, '_, '_>,
    ) -> Result<Reply, RequestFault> {
        let (alloc, running, input) = (self.alloc, &around.pages.running, request.input());
        let texts = request.texts(alloc)?;
        let (next, words) = (&mut held.sides.next, texts.as_slice());
        match self.rights {
            Rights::Change => answer_request(alloc, next, running, words, input),
            Rights::Look => answer_look(alloc, next, running, words, input),
        }
    }

    fn refuse(&mut self, fault: RequestFault) {
        self.end_with(fault.reply());
    }

    // Nothing more is read, so what was read is let go.
    fn end_with(&mut self, reply: &'static [u8]) {
        self.parts = RequestParts::new(self.alloc);
        self.held = 0;
        self.answer = LocalAnswer::Fault(reply);
    }

    /// The lines that are to be on the disk before anything is sent.
    pub fn journal(&self) -> &[u8] {
        match &self.answer {
            LocalAnswer::Whole(sending) => sending.journal(),
            _ => b"".as_slice(),
        }
    }

    /// The lines are on the disk.
    pub fn settle(&mut self, on_disk: &OnDisk) {
        self.change = None;
        if let LocalAnswer::Whole(sending) = &mut self.answer {
            sending.settle(on_disk);
        }
    }

    /// The lines of this turn could not be put on the disk: a reply of which nothing is sent says
    /// that in the place of what it said, which may show what is not on the disk. A request
    /// that waits for its turn gets the same reply.
    pub fn fail(&mut self) {
        let is_refused = match &self.answer {
            LocalAnswer::Whole(sending) => !sending.has_begun(),
            LocalAnswer::Due(..) => true,
            LocalAnswer::Awaited | LocalAnswer::Fault(_) | LocalAnswer::Over => false,
        };
        if is_refused {
            self.end_with(DISK_FAILED);
        }
    }

    /// How many replies of commands there were.
    pub fn replies(&self) -> u64 {
        self.replies
    }

    /// Whether it asks the replica to end.
    pub(crate) fn is_stop(&self) -> bool {
        match &self.answer {
            LocalAnswer::Whole(sending) => sending.ends(),
            _ => false,
        }
    }

    pub fn output(&self) -> &[u8] {
        match &self.answer {
            LocalAnswer::Awaited | LocalAnswer::Due(..) | LocalAnswer::Over => b"".as_slice(),
            LocalAnswer::Fault(text) => text,
            LocalAnswer::Whole(sending) => sending.output(),
        }
    }

    /// This many bytes of the output were sent, or all if there are no more. After the whole reply
    /// the next request may come, unless the replica is to end.
    pub fn wrote(&mut self, count: usize) {
        match &mut self.answer {
            LocalAnswer::Awaited | LocalAnswer::Due(..) | LocalAnswer::Over => {}
            LocalAnswer::Fault(text) => *text = &text[count.min(text.len())..],
            LocalAnswer::Whole(sending) => {
                let count = count.min(sending.output().len());
                sending.wrote(count);
                if sending.journal().is_empty() && sending.output().is_empty() && !sending.ends() {
                    self.end_reply();
                }
            }
        }
    }

    fn end_reply(&mut self) {
        self.answer = LocalAnswer::Awaited;
        self.held = 0;
        self.go_on();
    }

    pub fn ending(&self) -> Option<Ending> {
        let waits = self.wants_bytes() || self.work().is_some() || !self.journal().is_empty();
        if waits || !self.output().is_empty() {
            return None;
        }
        Some(Ending::Well)
    }
}

fn bytes_of(reply: &Reply) -> u64 {
    let parts = [&reply.head, &reply.output, &reply.errors, &reply.journal];
    let mut bytes: u64 = 0;
    for part in parts {
        bytes = bytes.saturating_add(part.len() as u64);
    }
    bytes
}
