//! Polls as lines of a text.
ghost use Rattle.std.specs.Prelude.{◌≡◌, ◌||◌, ◌++◌, Bool, List, ℕ, ◌↔◌, IsTrue, IfOk, IfErr};
ghost use Rattle.std.specs.Prelude.{IfSome, OnOk, MatchOption, codes};
ghost use Rattle.std.specs.Fmt.{signed_decimal};
ghost use Rattle.std.specs.List.{AllPass};
ghost use Rattle.std.specs.Io.KnownBytes.{IsAtEnd};
ghost use Rattle.spiffe_name.specs.Bytes.{FirstFails};
ghost use Rattle.poll_log.specs.Polling.{polled_domains, polled};
ghost use Rattle.poll_log.specs.PollErrors.{is_poll_fault};
ghost use Rattle.poll_log.specs.PollLines.{IsLogOf, ReadsSeconds, RefusesPolls, SaysNoPoll};
ghost use Rattle.poll_log.specs.PollLines.{outcome_text};
ghost use Rattle.poll_log.specs.Inside.PollSteps.{IsWord, RecordsLine, SaysFields, is_no_space};

use crate::error::PollError;
use crate::log::PollLog;
use byte_lines::{Line, LineBuf, Source};
use fed_config::Config;
use itoa::Buffer;
use jiff::Timestamp;
use std::alloc::Global;

/// Reads polls from lines `<domain> ok <seconds>` and `<domain> fail <seconds>`, with single
/// spaces, and records them in their order. The domain has a relationship; the seconds are those
/// since the Unix epoch, as [`read_seconds`] reads them. A line feed (byte 10) ends each line.
///
/// # Errors
/// The first bad line is reported.
/// - [`PollError::BadLine`]: the line is not one of these, or no line feed ends it,
/// - [`PollError::BadMoment`]: it is one, but its time is outside the range of times,
/// - [`PollError::NoMemory`]: memory ran out,
/// - [`PollError::Io`]: the source failed.
pub fn read_polls<R: Source>(
    alloc: Global,
    config: &Config,
    source: &mut R,
) -> Result<PollLog, PollError>
    ensures domains { IfOk result (λ log. polled_domains log ≡ polled config.now) }
    ensures log { IfOk result
        (λ log. IfSome (R.remaining source.old) (λ bytes. IsLogOf (polled config.now) bytes log)) }
    ensures refused { IfErr result
        (λ e. IfSome (R.remaining source.old) (λ bytes. RefusesPolls (polled config.now) bytes e)) }
    ensures end { OnOk result (IsAtEnd (R.remaining source.new)) }
    ensures fault { R.has_failed source.new ≡ (is_poll_fault result || R.has_failed source.old) }
{
    let mut log = PollLog::new(alloc, config)?;
    let mut lines = LineBuf::new(alloc);
    let mut number = 0u64;
    'lines: loop {
        match lines.next_line(source)? {
            Line::Text(text) => {
                number += 1;
                record_line(&mut log, text, number)?;
            }
            Line::TooLong => return Err(PollError::BadLine(number + 1)),
            Line::Cut => return Err(PollError::BadLine(number + 1)),
            Line::End => return Ok(log),
        }
    }
}

/// Records the poll that the line with this number says.
fn record_line(log: &mut PollLog, text: &[u8], number: u64) -> Result<(), PollError>
    ensures { RecordsLine log.old text.now number log.new result }
{
    let Some(parts) = read_parts(log, text) else {
        return Err(PollError::BadLine(number));
    };
    let Ok(moment) = Timestamp::from_second(parts.seconds) else {
        return Err(PollError::BadMoment(number));
    };
    log.add(parts.place, moment, parts.ok);
    Ok(())
}

/// What a poll line says: the place of its domain in the log, whether the poll succeeded, and when
/// it was.
#[derive(Clone, Copy)]
struct PollFields {
    place: usize,
    ok: bool,
    seconds: i64,
}

fn read_parts(log: &PollLog, text: &[u8]) -> Option<PollFields>
    ensures { MatchOption result (SaysNoPoll (polled_domains log.now) text.now)
        (SaysFields (polled_domains log.now) text.now) }
{
    let (domain, rest) = first_word(text)?;
    let place = log.place_of(domain)?;
    let (ok, seconds) = read_outcome(rest)?;
    let seconds = read_seconds(seconds)?;
    Some(PollFields { place, ok, seconds })
}

/// What comes before the first space, and what comes after it.
fn first_word(text: &[u8]) -> Option<(&[u8], &[u8])>
    ensures { MatchOption result (AllPass is_no_space text.now)
        (λ words. IsWord text.now words.0.now words.1.now) }
{
    let space = first_space(text)?;
    let (word, rest) = text.split_at(space);
    Some((word, &rest[1..]))
}

fn first_space(text: &[u8]) -> Option<usize>
    ensures { MatchOption result (AllPass is_no_space text.now) (FirstFails is_no_space text.now) }
{
    text.iter().position(|byte| *byte == b' ')
}

/// Whether the poll succeeded, and what comes after the space that follows.
fn read_outcome(text: &[u8]) -> Option<(bool, &[u8])>
    ensures { MatchOption result
        ((ok : Bool) (rest : List ℕ) → text.now ≡ outcome_text ok ++ (codes " " ++ rest) → ⊥)
        (λ read. text.now ≡ outcome_text read.0 ++ (codes " " ++ read.1.now)) }
{
    if let Some(rest) = text.strip_prefix(b"ok ") {
        return Some((true, rest));
    }
    let rest = text.strip_prefix(b"fail ")?;
    Some((false, rest))
}

/// Reads a whole number of seconds within 64 signed bits, as it is written in decimal: a minus sign
/// if it is below 0, then its digits, without a needless zero. So `-0`, `+1`, `01` and the empty
/// text are not read.
pub fn read_seconds(text: &[u8]) -> Option<i64>
    ensures { ReadsSeconds text.now result }
{
    let seconds = std::str::from_utf8(text).ok()?.parse::<i64>().ok()?;
    if is_written(seconds, text) {
        Some(seconds)
    } else {
        None
    }
}

fn is_written(seconds: i64, text: &[u8]) -> bool
    ensures { IsTrue result ↔ (text.now ≡ signed_decimal seconds) }
{
    let mut buffer = Buffer::new();
    buffer.format(seconds).as_bytes() == text
}
