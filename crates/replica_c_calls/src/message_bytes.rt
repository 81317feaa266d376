//! The messages between replicas, each as the bytes that cross. The caller brings the transport.
ghost use Rattle.std.specs.Prelude.{◌≡◌, true, false, IfErr, IfOk, MatchResult};
ghost use Rattle.std.specs.Io.KnownBytes.{IsAtEnd};
ghost use Rattle.byte_lines.specs.Lines.{HasMore};
ghost use Rattle.byte_lines.specs.Streams.{stream_of};
ghost use Rattle.replica_core.specs.Session.{give_of, have_of};
ghost use Rattle.replica_texts.specs.Gives.{next_entry_number};
ghost use Rattle.replica_texts.specs.Messages.{give_text, have_text};
ghost use Rattle.replica_c_calls.specs.CallErrors.{IsWantOfMemory};
ghost use Rattle.replica_c_calls.specs.Changes.{AbsorbsBytes, HasRefusedGiveBytes};
ghost use Rattle.replica_c_calls.specs.Changes.{ReadsGiveBytes, RefusesGiveBytes};
ghost use Rattle.replica_c_calls.specs.Texts.{AnswersBytes, RefusesHaveBytes};

use crate::call_error::CallError;
use crate::growing_sink::{GrowingSink, source_of};
use byte_lines::{Line, LineBuf, Source};
use closure_core::Closure;
use replica_sync::{
    Give, Have, SyncError, absorb, answer, have, read_give, read_have_line, write_answer,
    write_have,
};
use std::alloc::{AllocError, Global};

/// The have of a bucket: the ids of the receipts that are held of it, as a line with its line feed.
///
/// # Errors
/// Memory ran out.
pub fn have_bytes<C: Closure>(alloc: Global, closure: &C, bucket: u8) -> Result<Vec<u8>, CallError>
    ensures ok { IfOk result
        (λ text. text.items ≡ have_text (have_of (C.state closure.now).meaning bucket)) }
    ensures refused { IfErr result IsWantOfMemory }
{
    let asked = have(alloc, closure, bucket)?;
    Ok(have_line(alloc, &asked)?)
}

fn have_line(alloc: Global, asked: &Have) -> Result<Vec<u8>, AllocError>
    ensures { IfOk result (λ text. text.items ≡ have_text asked.now) }
{
    let mut sink = GrowingSink::new(alloc);
    match write_have(alloc, asked, &mut sink) {
        Ok(()) => Ok(sink.into_text()),
        Err(_) => Err(AllocError),
    }
}

/// What is answered to a have, which is one line with its line feed and nothing more.
///
/// # Errors
/// The first of these that holds:
/// - `Truncated`: the bytes do not end with a line feed,
/// - the refusals of [`read_have_line`],
/// - [`CallError::NoMemory`]: memory ran out.
pub fn answer_bytes<C: Closure>(
    alloc: Global,
    closure: &C,
    asked: &[u8],
) -> Result<Vec<u8>, CallError>
    ensures { MatchResult result
        (λ text. AnswersBytes (C.state closure.now).meaning asked.now text.items)
        (RefusesHaveBytes (C.state closure.now).meaning asked.now) }
{
    let Some((b'\n', line)) = asked.split_last() else {
        return Err(CallError::Sync(SyncError::Truncated));
    };
    let asked = read_have_line(alloc, closure.config(), line)?;
    Ok(give_lines(alloc, closure, &asked)?)
}

fn give_lines<C: Closure>(alloc: Global, closure: &C, asked: &Have) -> Result<Vec<u8>, AllocError>
    ensures { IfOk result
        (λ text. text.items ≡ give_text (give_of (C.state closure.now).meaning asked.now)) }
{
    let mut sink = GrowingSink::new(alloc);
    match write_answer(alloc, answer(closure, asked), &mut sink) {
        Ok(()) => Ok(sink.into_text()),
        Err(_) => Err(AllocError),
    }
}

/// Takes all of an answer, or nothing, and returns how many receipts were not held. The bytes are
/// one answer and nothing more.
///
/// # Errors
/// What is held is as before. The first of these that holds:
/// - [`CallError::Sync`]: the bytes are not an answer, as [`read_give`] reports it, or more bytes
///   follow it, which is `NotCanonical` at the line after the last; or what it has is refused, as
///   [`absorb`] reports it,
/// - [`CallError::NoMemory`]: memory ran out before the answer was read.
pub fn absorb_bytes<C: Closure>(
    alloc: Global,
    closure: &mut C,
    answered: &[u8],
) -> Result<usize, CallError>
    ensures { MatchResult result
        (AbsorbsBytes (C.state closure.old).meaning answered.now (C.state closure.new).meaning)
        (HasRefusedGiveBytes (C.state closure.old) answered.now (C.state closure.new).meaning) }
{
    let give = give_of_bytes(alloc, answered)?;
    Ok(absorb(closure, give)?)
}

// The answer that the bytes are.
fn give_of_bytes(alloc: Global, bytes: &[u8]) -> Result<Give, CallError>
    ensures { MatchResult result (ReadsGiveBytes bytes.now) (RefusesGiveBytes bytes.now) }
{
    let mut source = source_of(alloc, bytes)?;
    let mut lines = LineBuf::new(alloc);
    let give = match read_give(alloc, &mut lines, &mut source) {
        Ok(give) => give,
        Err(why) => return Err(CallError::Sync(why)),
    };
    if ends(&mut lines, &mut source)? {
        Ok(give)
    } else {
        Err(CallError::Sync(SyncError::NotCanonical(line_after(&give))))
    }
}

// Whether the stream has no more bytes.
#[tactic(auto, using(crate::proofs::LineEndFacts::more_of_line))]
fn ends<R: Source>(lines: &mut LineBuf, source: &mut R) -> Result<bool, AllocError>
    ensures ended { IfOk result
        (λ at_end. at_end ≡ true → IsAtEnd (stream_of R.remaining lines.old source.old)) }
    ensures more { IfOk result
        (λ at_end. at_end ≡ false → HasMore (stream_of R.remaining lines.old source.old)) }
{
    match lines.next_line(source) {
        Ok(Line::End) => Ok(true),
        Ok(Line::Text(_)) => Ok(false),
        Ok(Line::TooLong) => Ok(false),
        Ok(Line::Cut) => Ok(false),
        Err(_) => Err(AllocError),
    }
}

// The number of the line that would follow the answer's last.
fn line_after(give: &Give) -> u64
    ensures { result ≡ next_entry_number 1 give.now.content }
{
    let records = give.distrusts().len();
    let receipts = give.receipts().len();
    (2 + records + receipts) as u64
}
