//! The next polls as lines and as compact JSON.
ghost use Rattle.std.specs.Prelude.{◌≡◌, ◌++◌, flat_map, map, IfOk, OnOk};
ghost use Rattle.poll_log.specs.Polling.{polled, polled_domains};
ghost use Rattle.poll_view.specs.PollTexts.{IsPollsText, later_members, next_members};
ghost use Rattle.poll_view.specs.PollTexts.{next_text, poll_json, poll_line, polls_in};
ghost use Rattle.poll_view.specs.PollTexts.{polls_json, seconds_text};

use crate::domain_polls::{DomainPoll, NextPoll, next_polls};
use closure_core::Closure;
use itoa::Buffer;
use jiff::Timestamp;
use json_text::{push_array, push_string};
use poll_log::PollLog;
use std::alloc::{AllocError, Global};
use text_lines::TextLine;

/// How the next polls are written.
#[derive(Clone, Copy, Debug, PartialEq, Eq)]
pub enum PollsForm {
    /// A line for each: the domain and then `due`, `past range`, or the time in seconds since the
    /// Unix epoch, rounded toward zero.
    Lines,
    /// A compact JSON object with one member, `polls`, and a line feed. It has an object for each,
    /// of `domain`, `due`, which is `true` or `false`, and `next`, which is the time in seconds as
    /// in a line, and `null` if the poll is due or past the range.
    Json,
}

/// The text of [`next_polls`] in this form.
///
/// # Errors
/// Memory ran out.
pub fn polls_text<C: Closure>(
    alloc: Global,
    closure: &C,
    form: PollsForm,
    log: &PollLog,
    now: Timestamp,
) -> Result<Vec<u8>, AllocError>
    requires { polled_domains log.now ≡ polled (C.state closure.now).meaning.config }
    ensures { IfOk result (λ text. IsPollsText form
        (record { meaning = (C.state closure.now).meaning; log = log.now; now = now.nanosecond })
        text.items) }
{
    let polls = next_polls(alloc, closure, log, now)?;
    polls_in(alloc, form, polls.as_slice())
}

fn polls_in(alloc: Global, form: PollsForm, polls: &[DomainPoll]) -> Result<Vec<u8>, AllocError>
    ensures { IfOk result (λ text. text.items ≡ polls_in form polls.now) }
{
    match form {
        PollsForm::Lines => polls_lines(alloc, polls),
        PollsForm::Json => polls_json(alloc, polls),
    }
}

fn polls_lines(alloc: Global, polls: &[DomainPoll]) -> Result<Vec<u8>, AllocError>
    ensures { IfOk result (λ text. text.items ≡ flat_map poll_line polls.now) }
{
    let mut text = Vec::new(alloc);
    for poll in polls {
        push_poll_line(&mut text, poll)?;
    }
    Ok(text)
}

fn push_poll_line(text: &mut Vec<u8>, poll: &DomainPoll) -> Result<(), AllocError>
    ensures { OnOk result (text.new.items ≡ text.old.items ++ poll_line poll.now) }
{
    text.extend_from_slice(poll.domain.as_str().as_bytes())?;
    text.extend_from_slice(b" ")?;
    push_next_text(text, poll.next)?;
    text.extend_from_slice(b"\n")
}

fn push_next_text(text: &mut Vec<u8>, next: NextPoll) -> Result<(), AllocError>
    ensures { OnOk result (text.new.items ≡ text.old.items ++ next_text next) }
{
    match next {
        NextPoll::Due => text.extend_from_slice(b"due"),
        NextPoll::At(moment) => push_moment(text, moment),
        NextPoll::PastRange => text.extend_from_slice(b"past range"),
    }
}

fn push_moment(text: &mut Vec<u8>, moment: Timestamp) -> Result<(), AllocError>
    ensures { OnOk result (text.new.items ≡ text.old.items ++ seconds_text moment) }
{
    let mut buffer = Buffer::new();
    text.extend_from_slice(buffer.format(moment.as_second()).as_bytes())
}

fn polls_json(alloc: Global, polls: &[DomainPoll]) -> Result<Vec<u8>, AllocError>
    ensures { IfOk result (λ text. text.items ≡ polls_json polls.now) }
{
    let items = poll_jsons(alloc, polls)?;
    let mut text = Vec::new(alloc);
    push_array(&mut text, b"{\"polls\":", items.as_slice())?;
    text.extend_from_slice(b"}\n")?;
    Ok(text)
}

fn poll_jsons(alloc: Global, polls: &[DomainPoll]) -> Result<Vec<TextLine>, AllocError>
    ensures { IfOk result (λ texts. texts.items ≡ map poll_json polls.now) }
{
    let mut texts = Vec::new(alloc);
    for poll in polls {
        texts.push(poll_json(alloc, poll)?)?;
    }
    Ok(texts)
}

fn poll_json(alloc: Global, poll: &DomainPoll) -> Result<TextLine, AllocError>
    ensures { IfOk result (λ text. text ≡ poll_json poll.now) }
{
    let mut text = Vec::new(alloc);
    push_string(alloc, &mut text, b"{\"domain\":", poll.domain.as_str())?;
    push_next_members(&mut text, poll.next)?;
    Ok(TextLine::new(text))
}

fn push_next_members(text: &mut Vec<u8>, next: NextPoll) -> Result<(), AllocError>
    ensures { OnOk result (text.new.items ≡ text.old.items ++ next_members next) }
{
    match next {
        NextPoll::Due => text.extend_from_slice(b",\"due\":true,\"next\":null}"),
        NextPoll::At(moment) => push_next_moment(text, moment),
        NextPoll::PastRange => text.extend_from_slice(b",\"due\":false,\"next\":null}"),
    }
}

fn push_next_moment(text: &mut Vec<u8>, moment: Timestamp) -> Result<(), AllocError>
    ensures { OnOk result (text.new.items ≡ text.old.items ++ later_members moment) }
{
    text.extend_from_slice(b",\"due\":false,\"next\":")?;
    push_moment(text, moment)?;
    text.extend_from_slice(b"}")?;
    Ok(())
}
