//! The requests of a connection, out of the pieces in which its bytes come.
ghost use Rattle.std.specs.Prelude.{◌≡◌, ◌+◌, ◌≤◌, ◌++◌, [], IfErr, IfOk, OnErr, OnOk};
ghost use Rattle.std.specs.Prelude.{MatchOption, MatchResult, drop, length, map, string_bytes};
ghost use Rattle.std.specs.Prelude.{take, vec_len};
ghost use Rattle.byte_lines.specs.Ahead.{AtFeed, IsFeed};
ghost use Rattle.local_answers.specs.Inside.StreamSteps.{AwaitsInput, AwaitsLine, HasInput};
ghost use Rattle.local_answers.specs.Inside.StreamSteps.{IsAtPlaces, RefusesCountOf, RefusesLength};
ghost use Rattle.local_answers.specs.RequestStream.{AwaitsBytes, GivesFirst, GivesNoRequest};

use crate::request_fault::RequestFault;
use memchr::memchr;
use request_lines::{InputEnd, MOST_WORDS, read_request_line, read_request_words};
use std::alloc::{AllocError, Global};
use std::mem;

/// The most bytes of input that a request has.
pub const MOST_INPUT: usize = 268_435_456;

/// Whether more may come on a stream.
#[derive(Clone, Copy, Debug, PartialEq, Eq)]
pub enum StreamState {
    /// It may.
    Open,
    /// Nothing more comes.
    Ended,
}

/// What came on a stream of requests, and was not given yet. A request is a first line of at most
/// 65,536 bytes without its line feed ([`request_lines::read_request_line`]), and its input of at
/// most 268,435,456 bytes. The ends of the pieces mean nothing.
#[derive(Drop)]
pub struct RequestParts {
    bytes: Vec<u8>,
}

/// A request that came whole. It is given once: what it was made of is no longer in its stream.
#[derive(Debug, Drop)]
pub struct WholeRequest {
    /// The arguments.
    pub words: Vec<String>,
    // The input begins there.
    bytes: Vec<u8>,
    start: usize,
    ghost within: { start ≤ vec_len bytes },
}

impl WholeRequest {
    ghost use Rattle.local_answers.specs.RequestBytes.{asked_input};

    /// The bytes of standard input.
    pub fn input(&self) -> &[u8]
        ensures { result.now ≡ asked_input self.now }
    {
        &self.bytes[self.start..]
    }

    /// The arguments, lent.
    ///
    /// # Errors
    /// Memory ran out.
    pub fn texts(&self, alloc: Global) -> Result<Vec<&str>, AllocError>
        ensures { IfOk result (λ texts. map (λ t. t.now) texts.items
            ≡ map string_bytes self.now.words.items) }
    {
        texts_of_words(alloc, self.words.as_slice())
    }
}

fn texts_of_words(alloc: Global, words: &[String]) -> Result<Vec<&str>, AllocError>
    ensures { IfOk result (λ texts. map (λ t. t.now) texts.items ≡ map string_bytes words.now) }
{
    let mut texts = Vec::with_capacity(alloc, words.len())?;
    'words: for word in words {
        texts.push(word.as_str())?;
    }
    Ok(texts)
}

/// The arguments of the first request, the place of its input, and how many bytes that has.
#[derive(Debug, Drop)]
struct FirstPlaces {
    words: Vec<String>,
    start: usize,
    count: usize,
}

impl RequestParts {
    ghost use Rattle.local_answers.specs.RequestBytes.{asked_input, asking_of, bytes_come};

    /// Nothing came yet.
    pub fn new(alloc: Global) -> RequestParts
        ensures { bytes_come result ≡ [] }
    {
        RequestParts {
            bytes: Vec::new(alloc),
        }
    }

    /// How many bytes came that were not given.
    pub fn len(&self) -> usize
        ensures { result ≡ length (bytes_come self.now) }
    {
        self.bytes.len()
    }

    /// Takes the next bytes of the stream, all of them or none.
    ///
    /// # Errors
    /// Memory ran out, and nothing was taken.
    pub fn take(&mut self, piece: &[u8]) -> Result<(), AllocError>
        ensures taken { OnOk result (bytes_come self.new ≡ bytes_come self.old ++ piece.now) }
        ensures left { OnErr result (bytes_come self.new ≡ bytes_come self.old) }
    {
        self.bytes.extend_from_slice(piece)?;
        Ok(())
    }

    /// Gives the first request, if it came whole: then its bytes are gone, and those after them are
    /// still there. A request whose line does not count its input is whole when the stream has
    /// ended.
    ///
    /// # Errors
    /// What came is still there.
    /// - [`RequestFault::WordsTooLong`]: its line has more than 65,536 bytes,
    /// - [`RequestFault::InputTooLong`]: its input has more than 268,435,456,
    /// - [`RequestFault::BadWords`]: its line begins with a brace, and is not one that counts; or,
    ///   once it is whole, its arguments are not a JSON array of texts,
    /// - [`RequestFault::NoWords`]: the stream has ended, and it is not whole,
    /// - [`RequestFault::NoMemory`]: memory ran out.
    pub fn next(
        &mut self,
        alloc: Global,
        state: StreamState,
    ) -> Result<Option<WholeRequest>, RequestFault>
        ensures given { IfOk result (λ found. MatchOption found
            (AwaitsBytes state (bytes_come self.old) × (bytes_come self.new ≡ bytes_come self.old))
            (λ request. GivesFirst state (bytes_come self.old) (asking_of request)
            (bytes_come self.new))) }
        ensures refused { IfErr result (GivesNoRequest state (bytes_come self.old)) }
        ensures left { OnErr result (bytes_come self.new ≡ bytes_come self.old) }
    {
        match first_of(alloc, self.bytes.as_slice(), state)? {
            Some(places) => Ok(Some(self.give(alloc, places)?)),
            None => Ok(None),
        }
    }

    // The request takes all bytes up to the end of its input.
    fn give(&mut self, alloc: Global, places: FirstPlaces) -> Result<WholeRequest, AllocError>
        requires { places.start + places.count ≤ length (bytes_come self.old) }
        ensures words { IfOk result (λ request. request.words.items ≡ places.words.items) }
        ensures input { IfOk result (λ request. asked_input request
            ≡ take places.count (drop places.start (bytes_come self.old))) }
        ensures rest { OnOk result (bytes_come self.new
            ≡ drop places.count (drop places.start (bytes_come self.old))) }
        ensures left { OnErr result (bytes_come self.new ≡ bytes_come self.old) }
    {
        let end = places.start + places.count;
        let rest = self.bytes[end..].to_vec(alloc)?;
        self.bytes.truncate(end);
        Ok(WholeRequest {
            words: places.words,
            bytes: mem::replace(&mut self.bytes, rest),
            start: places.start,
        })
    }
}

fn first_of(
    alloc: Global,
    bytes: &[u8],
    state: StreamState,
) -> Result<Option<FirstPlaces>, RequestFault>
    ensures { MatchResult result
        (λ found. MatchOption found (AwaitsBytes state bytes.now) (IsAtPlaces state bytes.now))
        (GivesNoRequest state bytes.now) }
{
    match line_feed(bytes) {
        Some(feed) => first_at(alloc, bytes, feed, state),
        None => {
            check_begun(bytes.len(), state)?;
            Ok(None)
        }
    }
}

fn first_at(
    alloc: Global,
    bytes: &[u8],
    feed: usize,
    state: StreamState,
) -> Result<Option<FirstPlaces>, RequestFault>
    requires { IsFeed bytes.now feed }
    ensures { MatchResult result
        (λ found. MatchOption found (AwaitsBytes state bytes.now) (IsAtPlaces state bytes.now))
        (GivesNoRequest state bytes.now) }
{
    let line = read_request_line(alloc, &bytes[..feed])?;
    let start = feed + 1;
    match input_count(line.input, bytes.len() - start, state)? {
        Some(count) => Ok(Some(FirstPlaces {
            words: read_request_words(alloc, line.words)?,
            start,
            count,
        })),
        None => Ok(None),
    }
}

// The place of the first line feed.
fn line_feed(bytes: &[u8]) -> Option<usize>
    ensures { AtFeed bytes.now result }
{
    memchr(b'\n', bytes)
}

// Whether this many bytes without a line feed may be the beginning of a line.
fn check_begun(count: usize, state: StreamState) -> Result<(), RequestFault>
    ensures { MatchResult result (λ _. AwaitsLine state count) (RefusesCountOf state count) }
{
    match state {
        _ if count > MOST_WORDS => Err(RequestFault::WordsTooLong),
        StreamState::Open => Ok(()),
        StreamState::Ended => Err(RequestFault::NoWords),
    }
}

// How many bytes of input the request has, if it is whole and this many came after its line.
fn input_count(
    input: InputEnd,
    came: usize,
    state: StreamState,
) -> Result<Option<usize>, RequestFault>
    ensures { MatchResult result
        (λ found. MatchOption found (AwaitsInput state input came) (HasInput state input came))
        (RefusesLength state input came) }
{
    match (input, state) {
        (InputEnd::Bytes(count), _) if count > MOST_INPUT as u64 => Err(RequestFault::InputTooLong),
        (InputEnd::Bytes(count), _) if count <= came as u64 => Ok(Some(count as usize)),
        (InputEnd::Bytes(_), StreamState::Open) => Ok(None),
        (InputEnd::Bytes(_), StreamState::Ended) => Err(RequestFault::NoWords),
        (InputEnd::Stream, _) if came > MOST_INPUT => Err(RequestFault::InputTooLong),
        (InputEnd::Stream, StreamState::Open) => Ok(None),
        (InputEnd::Stream, StreamState::Ended) => Ok(Some(came)),
    }
}
