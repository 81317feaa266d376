//! A connection on which a page is asked for, and one response goes.
use crate::local_talk::Surroundings;
use crate::request_work::work_of_page;
use closure_core::Closure;
use fair_turns::{ByteRoom, RoomUser, Work};
use health_pages::{
    ContentType, HeadBytes, HeadVerdict, PageFault, PageResponse, ResponseSending, crowd_response,
    memory_response, write_response,
};
use local_answers::answer_page;
use peer_talks::{Ending, HeldState};
use std::alloc::{AllocError, Global};
use std::mem;

/// One request for a page, and its response.
#[derive(Drop)]
pub struct PageTalk {
    answer: PageReply,
    // How many bytes came of the head, or how many the response has.
    held: u64,
}

// What is being sent.
#[derive(Drop)]
enum PageReply {
    // Nothing, as long as the head comes.
    Awaited(HeadBytes),
    // Nothing, as long as a request waits for its turn.
    Due(HeadVerdict),
    // What is left of a response that takes no memory.
    Fixed(&'static [u8]),
    Whole(ResponseSending),
}

impl PageTalk {
    pub fn new(alloc: Global) -> PageTalk {
        PageTalk {
            answer: PageReply::Awaited(HeadBytes::new(alloc)),
            held: 0,
        }
    }

    pub fn wants_bytes(&self) -> bool {
        matches!(self.answer, PageReply::Awaited(_))
    }

    /// How many bytes are held of the request, or of the response.
    pub(crate) fn held_bytes(&self) -> u64 {
        self.held
    }

    /// Takes bytes of the request. What comes after its head is let go.
    pub fn take(&mut self, alloc: Global, piece: &[u8], room: &mut ByteRoom) {
        let count = piece.len() as u64;
        if !room.take(RoomUser::Reader, count) {
            self.reply_with(PageReply::Fixed(crowd_response()), 0);
            return;
        }
        self.held = self.held.saturating_add(count);
        match self.verdict_with(alloc, piece) {
            Ok(Some(verdict)) => self.answer = PageReply::Due(verdict),
            Ok(None) => {}
            Err(_) => self.reply_with(PageReply::Fixed(memory_response(false)), 0),
        }
    }

    // What the head asks for, once it is whole. Then it is not kept.
    fn verdict_with(
        &mut self,
        alloc: Global,
        piece: &[u8],
    ) -> Result<Option<HeadVerdict>, AllocError> {
        match &mut self.answer {
            PageReply::Awaited(head) => {
                head.take(piece)?;
                head.verdict(alloc)
            }
            _ => Ok(None),
        }
    }

    /// Nothing more comes. If nothing came at all, nothing is replied.
    pub fn end_input(&mut self) {
        self.answer = match self.held {
            0 => PageReply::Fixed(b"".as_slice()),
            _ => PageReply::Due(HeadVerdict::unread()),
        };
    }

    /// What the request waits for, once its head is whole.
    pub fn work(&self) -> Option<Work> {
        match &self.answer {
            PageReply::Due(verdict) => Some(work_of_verdict(verdict)),
            _ => None,
        }
    }

    /// The request has its turn.
    pub fn answer<C: Closure>(
        &mut self,
        alloc: Global,
        held: &HeldState<C>,
        around: &Surroundings<'_, '_, '_>,
    ) {
        let nothing = PageReply::Fixed(b"".as_slice());
        let PageReply::Due(verdict) = mem::replace(&mut self.answer, nothing) else {
            return;
        };
        let is_head = verdict.is_head;
        match respond(alloc, held, around, verdict) {
            Ok(response) => self.reply_within(ResponseSending::new(response), around.room),
            Err(_) => self.reply_with(PageReply::Fixed(memory_response(is_head)), 0),
        }
    }

    // If there is no room for the response, it is refused.
    fn reply_within(&mut self, sending: ResponseSending, mut room: ByteRoom) {
        let bytes = sending.bytes();
        if room.take(RoomUser::Reader, bytes) {
            self.reply_with(PageReply::Whole(sending), bytes);
        } else {
            self.reply_with(PageReply::Fixed(crowd_response()), 0);
        }
    }

    // Nothing more is read, so what was read is let go.
    fn reply_with(&mut self, answer: PageReply, bytes: u64) {
        self.answer = answer;
        self.held = bytes;
    }

    pub fn output(&self) -> &[u8] {
        match &self.answer {
            PageReply::Awaited(_) | PageReply::Due(_) => b"".as_slice(),
            PageReply::Fixed(text) => text,
            PageReply::Whole(sending) => sending.output(),
        }
    }

    /// This many bytes of the output were sent, or all if there are no more.
    pub fn wrote(&mut self, count: usize) {
        match &mut self.answer {
            PageReply::Awaited(_) | PageReply::Due(_) => {}
            PageReply::Fixed(text) => *text = &text[count.min(text.len())..],
            PageReply::Whole(sending) => {
                let count = count.min(sending.output().len());
                sending.wrote(count);
            }
        }
    }

    pub fn ending(&self) -> Option<Ending> {
        if self.wants_bytes() || self.work().is_some() || !self.output().is_empty() {
            return None;
        }
        Some(Ending::Well)
    }
}

fn work_of_verdict(verdict: &HeadVerdict) -> Work {
    match &verdict.asked {
        Ok(asked) => work_of_page(asked.page),
        Err(_) => Work::Short,
    }
}

fn respond<C: Closure>(
    alloc: Global,
    held: &HeldState<C>,
    around: &Surroundings<'_, '_, '_>,
    verdict: HeadVerdict,
) -> Result<PageResponse, AllocError> {
    let is_head = verdict.is_head;
    match verdict.asked_of(around.page_names) {
        Ok(asked) => {
            let closure = &held.sides.next;
            answer_page(alloc, closure, &around.pages, &asked, is_head)
        }
        Err(fault) => fault_response(alloc, fault, is_head),
    }
}

fn fault_response(
    alloc: Global,
    fault: PageFault,
    is_head: bool,
) -> Result<PageResponse, AllocError> {
    let text = String::from_str(alloc, fault.text())?.into_bytes();
    write_response(alloc, fault.status(), ContentType::Text, text, is_head)
}
