//! The first line of a request: how its input ends, and the text of its arguments.
ghost use Rattle.std.specs.Prelude.{◌≡◌, ◌++◌, ℕ, List, MatchOption, MatchResult};
ghost use Rattle.std.specs.List.{AllPass};
ghost use Rattle.request_lines.specs.Inside.LineSteps.{IsFirstComma, IsFirstPart};
ghost use Rattle.request_lines.specs.Inside.LineSteps.{RefusesCount};
ghost use Rattle.request_lines.specs.RequestLines.{IsWholeNumber, IsRequestLine, RefusesInput};
ghost use Rattle.request_lines.specs.RequestLines.{SplitsCounted, is_no_comma};

use crate::request_error::RequestError;
use crate::request_words::{MOST_WORDS, read_value};
use std::alloc::Global;

/// How the input of a request ends.
#[derive(Clone, Copy, Debug, PartialEq, Eq)]
pub enum InputEnd {
    /// With the stream.
    Stream,
    /// After this many bytes. The next request may follow.
    Bytes(u64),
}

/// A first line.
#[derive(Clone, Copy, Debug)]
pub struct RequestLine<'a> {
    /// The JSON text of the arguments, as it came.
    pub words: &'a [u8],
    /// How the input ends that follows.
    pub input: InputEnd,
}

/// Reads a first line of at most 65,536 bytes, without its line feed:
/// `{"input":N,"words":[..]}`, in this order, counts `N` bytes of input; and one that does not
/// begin with a brace is the text of the arguments, and its input ends with the stream. Whether
/// that text is one of arguments is not looked at.
///
/// # Errors
/// - [`RequestError::TooLong`]: the line has more than 65,536 bytes,
/// - [`RequestError::BadLine`]: it begins with a brace, and is not such a line,
/// - [`RequestError::NoMemory`]: memory ran out.
pub fn read_request_line(alloc: Global, line: &[u8]) -> Result<RequestLine<'_>, RequestError>
    ensures { MatchResult result (λ l. IsRequestLine line.now l.words.now l.input)
        (RefusesInput line.now) }
{
    if line.len() > MOST_WORDS {
        return Err(RequestError::TooLong);
    }
    if after(line, b"{").is_none() {
        return Ok(RequestLine {
            words: line,
            input: InputEnd::Stream,
        });
    }
    let Some((count, words)) = split_counted(line) else {
        return Err(RequestError::BadLine);
    };
    Ok(RequestLine {
        words,
        input: InputEnd::Bytes(read_count(alloc, count)?),
    })
}

// A whole number as a JSON text.
fn read_count(alloc: Global, text: &[u8]) -> Result<u64, RequestError>
    ensures { MatchResult result (IsWholeNumber text.now) (RefusesCount text.now) }
{
    match read_value(alloc, text)?.as_u64() {
        Some(number) => Ok(number),
        None => Err(RequestError::BadLine),
    }
}

// The text of the count, and that of the arguments.
fn split_counted(line: &[u8]) -> Option<(&[u8], &[u8])>
    ensures { MatchOption result ((count words : List ℕ) → SplitsCounted line.now count words → ⊥)
        (λ p. SplitsCounted line.now p.0.now p.1.now) }
{
    let Some(rest) = after(line, b"{\"input\":") else {
        return None;
    };
    let Some((count, rest)) = first_part(rest) else {
        return None;
    };
    let Some(rest) = after(rest, b"\"words\":") else {
        return None;
    };
    match before_end(rest, b"}") {
        Some(words) => Some((count, words)),
        None => None,
    }
}

// What comes before the first comma, and what comes after it.
fn first_part(text: &[u8]) -> Option<(&[u8], &[u8])>
    ensures { MatchOption result (AllPass is_no_comma text.now)
        (λ p. IsFirstPart text.now p.0.now p.1.now) }
{
    let comma = first_comma(text)?;
    let (part, rest) = text.split_at(comma);
    Some((part, &rest[1..]))
}

fn first_comma(text: &[u8]) -> Option<usize>
    ensures { MatchOption result (AllPass is_no_comma text.now) (IsFirstComma text.now) }
{
    text.iter().position(|byte| *byte == b',')
}

fn after<'a>(text: &'a [u8], label: &[u8]) -> Option<&'a [u8]>
    ensures { MatchOption result ((rest : List ℕ) → text.now ≡ label.now ++ rest → ⊥)
        (λ rest. text.now ≡ label.now ++ rest.now) }
{
    text.strip_prefix(label)
}

fn before_end<'a>(text: &'a [u8], label: &[u8]) -> Option<&'a [u8]>
    ensures { MatchOption result ((rest : List ℕ) → text.now ≡ rest ++ label.now → ⊥)
        (λ rest. text.now ≡ rest.now ++ label.now) }
{
    text.strip_suffix(label)
}
