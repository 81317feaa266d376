//! Snapshots, read.
ghost use Rattle.std.specs.Prelude.{◌≡◌, ◌+◌, ◌<◌, ◌≤◌, ◌||◌, ◌↔◌, true, [], IsTrue, IfOk, OnOk};
ghost use Rattle.std.specs.Prelude.{IfErr, MatchResult, length};
ghost use Rattle.std.specs.Io.KnownBytes.{Consumes, IsAtEnd};
ghost use Rattle.receipt_core.specs.Acceptance.{IsMeaning};
ghost use Rattle.byte_lines.specs.Streams.{stream_of, left_of};
ghost use Rattle.replica_texts.specs.Snapshots.{IsSnapshot, FitsFormat, RefusesNext, RefusesPlace};
ghost use Rattle.replica_texts.specs.Snapshots.{RefusesSnapshot, count_of, is_io, last_line};
ghost use Rattle.replica_texts.specs.Snapshots.{next_number, wanted_of};
ghost use Rattle.replica_texts.specs.Inside.Reading.{FailsAfter, HoldsAll, Judges, RefusesEnd};
ghost use Rattle.replica_texts.specs.Inside.Reading.{StepsThroughSnapshot};
ghost use Rattle.closure_core.specs.Changes.{empty_of};
ghost use Rattle.byte_lines.specs.Limits.{line_limit};
ghost use Rattle.receipt_core.specs.Limits.{most_receipts, most_records};

use crate::entry_line::{Wanted, take_line};
use crate::format::Format;
use crate::header::{read_first, write_count};
use crate::line_bytes::set_last;
use bundle_doc::KnownDocuments;
use byte_lines::{Line, LineBuf, Source};
use closure_core::Closure;
use fed_config::Config;
use replica_core::SyncError;
use std::alloc::{AllocError, Global};

/// Reads a snapshot of this configuration: a first line, the lines of records of distrust and of
/// receipts, sorted, and a last line with their numbers, each ended by a line feed (byte 10), and
/// nothing after them. The second format is read, which [`write_snapshot`](crate::write_snapshot)
/// writes, and the first, which has only receipts. The closure then holds exactly what the lines
/// say.
///
/// The work is linear in the bytes. Apart from what is held, memory is taken for one line.
///
/// # Errors
/// There is no closure then. The first error in the order of the bytes:
/// - [`SyncError::Truncated`]: it ends before the last line's line feed,
/// - [`SyncError::BadHeader`]: the line is not a first line, or has more than 8,388,608 bytes,
/// - [`SyncError::ConfigDiffers`]: it is of another configuration,
/// - [`SyncError::VersionDiffers`]: it is of another format than the first two,
/// - [`SyncError::NotCanonical`]: a line is not that of a record or a receipt, or is a record's in
///   the first format, or has more than 8,388,608 bytes, or something follows the last line,
/// - [`SyncError::NotRising`]: a line is not greater than the one before,
/// - [`SyncError::Refused`]: a receipt or a record is not of the configuration, or is one too many,
/// - [`SyncError::BadCount`]: a line begins as the last one, and says other numbers,
/// - [`SyncError::Io`]: the source failed,
/// - [`SyncError::NoMemory`]: memory ran out.
pub fn read_snapshot<C: Closure, R: Source>(
    alloc: Global,
    config: &Config,
    source: &mut R,
) -> Result<C, SyncError>
    ensures ok { IfOk result
        (λ c. IsSnapshot config.now (R.remaining source.old) (C.state c).meaning) }
    ensures ends { OnOk result (IsAtEnd (R.remaining source.new)) }
    ensures refused { IfErr result (RefusesSnapshot config.now (R.remaining source.old)) }
    ensures fault { R.has_failed source.new ≡ (is_io result || R.has_failed source.old) }
{
    let mut lines = LineBuf::new(alloc);
    let format = read_first(config, &mut lines, source)?;
    let mut closure = C::new(alloc, config)?;
    let number = read_held(alloc, format, &mut closure, &mut lines, source)?;
    read_end(number, &mut lines, source)?;
    Ok(closure)
}

// Reads up to the last line, and returns the number of the line that would follow it.
fn read_held<C: Closure, R: Source>(
    alloc: Global,
    format: Format,
    closure: &mut C,
    lines: &mut LineBuf,
    source: &mut R,
) -> Result<u64, SyncError>
    requires { (C.state closure.old).meaning ≡ empty_of (C.state closure.old).meaning.config }
    ensures ok { IfOk result
        (HoldsAll (C.state closure.old).meaning.config (stream_of R.remaining lines.old source.old)
        format (C.state closure.new).meaning (stream_of R.remaining lines.new source.new)) }
    ensures refused { IfErr result
        (FailsAfter (C.state closure.old).meaning.config
        (stream_of R.remaining lines.old source.old) format) }
    ensures fault { R.has_failed source.new ≡ (is_io result || R.has_failed source.old) }
{
    let mut last = Vec::new(alloc);
    let mut known = KnownDocuments::new(alloc);
    let mut number = 2;
    'lines: while read_next(
        alloc, format, closure, &mut known, &mut last, number, lines, source,
    )? {
        number += 1;
    }
    Ok(number + 1)
}

// Reads the line with this number, and returns whether it was not the last one. `last` is the line
// before.
fn read_next<C: Closure, R: Source>(
    alloc: Global,
    format: Format,
    closure: &mut C,
    known: &mut KnownDocuments,
    last: &mut Vec<u8>,
    number: u64,
    lines: &mut LineBuf,
    source: &mut R,
) -> Result<bool, SyncError>
    requires last { last.old.items ≡ last_line (C.state closure.old).meaning }
    requires number { number ≡ next_number (C.state closure.old).meaning }
    requires fits { FitsFormat format (C.state closure.old).meaning }
    ensures ok { IfOk result
        (StepsThroughSnapshot format (C.state closure.old).meaning
        (stream_of R.remaining lines.old source.old) (C.state closure.new).meaning
        (stream_of R.remaining lines.new source.new)) }
    ensures last { IfOk result
        (λ more. more ≡ true → last.new.items ≡ last_line (C.state closure.new).meaning) }
    ensures valid { IsMeaning (C.state closure.old).meaning }
    ensures few { next_number (C.state closure.old).meaning ≤ most_receipts + most_records + 2 }
    ensures refused { IfErr result
        (RefusesNext format (C.state closure.old).meaning
        (stream_of R.remaining lines.old source.old)) }
    ensures fault { R.has_failed source.new ≡ (is_io result || R.has_failed source.old) }
    ensures falls { OnOk result
        (left_of R.budget lines.new source.new < left_of R.budget lines.old source.old) }
{
    let _config = closure.config();
    match lines.next_line(source)? {
        Line::Text(text) => judge(alloc, format, closure, known, last, number, text),
        Line::TooLong => Err(SyncError::NotCanonical(number)),
        Line::Cut => Err(SyncError::Truncated),
        Line::End => Err(SyncError::Truncated),
    }
}

// Takes what the line with this number says, or compares the numbers that it says. Returns whether
// it was not the last one. `last` is the line before.
fn judge<C: Closure>(
    alloc: Global,
    format: Format,
    closure: &mut C,
    known: &mut KnownDocuments,
    last: &mut Vec<u8>,
    number: u64,
    text: &[u8],
) -> Result<bool, SyncError>
    requires last { last.old.items ≡ last_line (C.state closure.old).meaning }
    requires number { number ≡ next_number (C.state closure.old).meaning }
    requires fits { FitsFormat format (C.state closure.old).meaning }
    requires short { length text.now ≤ line_limit }
    ensures judges { MatchResult result
        (Judges format (C.state closure.old).meaning text.now (C.state closure.new).meaning)
        (RefusesPlace format (C.state closure.old).meaning text.now) }
    ensures last { IfOk result
        (λ more. more ≡ true → last.new.items ≡ last_line (C.state closure.new).meaning) }
{
    let _config = closure.config();
    if text.starts_with(b"{\"count\":") {
        let receipts = closure.receipt_count() as u64;
        if says(alloc, format, receipts, number - 2 - receipts, text)? {
            return Ok(false);
        }
        return Err(SyncError::BadCount);
    }
    receipt_core::laws::lines();
    take_line(
        alloc,
        closure,
        known,
        wanted(format),
        last.as_slice(),
        number,
        text,
    )?;
    set_last(last, text)?;
    Ok(true)
}

// Whether the line says these numbers.
fn says(
    alloc: Global,
    format: Format,
    receipts: u64,
    records: u64,
    text: &[u8],
) -> Result<bool, AllocError>
    ensures { IfOk result (λ same. IsTrue same ↔ (text.now ≡ count_of format receipts records)) }
{
    Ok(text == write_count(alloc, format, receipts, records)?.as_slice())
}

fn wanted(format: Format) -> Wanted
    ensures { result ≡ wanted_of format }
{
    match format {
        Format::First => Wanted::Receipts,
        Format::Second => Wanted::Either,
    }
}

// Nothing may follow the last line; what does would begin the line with this number.
fn read_end<R: Source>(number: u64, lines: &mut LineBuf, source: &mut R) -> Result<(), SyncError>
    ensures ok { OnOk result (IsAtEnd (stream_of R.remaining lines.old source.old)) }
    ensures ends { OnOk result (IsAtEnd (stream_of R.remaining lines.new source.new)) }
    ensures refused { IfErr result
        (RefusesEnd number (stream_of R.remaining lines.old source.old)) }
    ensures fault { R.has_failed source.new ≡ (is_io result || R.has_failed source.old) }
{
    match lines.next_line(source)? {
        Line::Text(_) => Err(SyncError::NotCanonical(number)),
        Line::TooLong => Err(SyncError::NotCanonical(number)),
        Line::Cut => Err(SyncError::NotCanonical(number)),
        Line::End => Ok(()),
    }
}
