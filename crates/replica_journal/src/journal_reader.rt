//! Journals, read.
ghost use Rattle.std.specs.Prelude.{◌≡◌, ◌+◌, ◌<◌, ◌^◌, ◌||◌, true, false, IfOk, IfErr, OnOk};
ghost use Rattle.byte_lines.specs.Streams.{stream_of, left_of};
ghost use Rattle.receipt_core.specs.Acceptance.{IsMeaning};
ghost use Rattle.replica_texts.specs.Snapshots.{is_io};
ghost use Rattle.replica_journal.specs.Journal.{ReadsJournal, RefusesJournal};
ghost use Rattle.replica_journal.specs.Inside.JournalSteps.{FindsStart, FailsStart, FailsNext};
ghost use Rattle.replica_journal.specs.Inside.JournalSteps.{StepsThroughJournal, HasReadAll};
ghost use Rattle.replica_journal.specs.Inside.JournalSteps.{FailsBehindLines};

use byte_lines::{Line, LineBuf, Source};
use closure_core::Closure;
use fed_config::Config;
use replica_core::SyncError;
use replica_texts::{read_first_line, take_sole_line};
use std::alloc::Global;

/// Reads a journal over what a snapshot gave: the first line, which is a snapshot's, and then the
/// lines of receipts and records of distrust in any order, any of them more than once. The closure
/// holds what it held and what the whole lines say. A rest without a line feed, which a kill or a
/// failed write may leave, says nothing, also if it is the first line.
///
/// The work is linear in the bytes, apart from that of the takes. Memory is taken for one line.
///
/// # Errors
/// There is no closure then. Lines count from 1. The first error in the order of the bytes:
/// - [`SyncError::BadHeader`]: the line is not a first line, or has more than 8,388,608 bytes,
/// - [`SyncError::ConfigDiffers`]: it is of another configuration,
/// - [`SyncError::VersionDiffers`]: it is of another format than the second,
/// - [`SyncError::NotCanonical`]: a line is not that of a record or a receipt, or has more than
///   8,388,608 bytes,
/// - [`SyncError::Refused`]: a receipt or a record is not of the configuration, or is one too many,
/// - [`SyncError::Io`]: the source failed,
/// - [`SyncError::NoMemory`]: memory ran out.
pub fn read_journal<C: Closure, R: Source>(
    alloc: Global,
    closure: C,
    source: &mut R,
) -> Result<C, SyncError>
    ensures ok { IfOk result
        (λ c. ReadsJournal (C.state closure).meaning (R.remaining source.old) (C.state c).meaning) }
    ensures refused { IfErr result
        (RefusesJournal (C.state closure).meaning (R.remaining source.old)) }
    ensures fault { R.has_failed source.new ≡ (is_io result || R.has_failed source.old) }
{
    let mut closure = closure;
    let mut lines = LineBuf::new(alloc);
    if read_start(closure.config(), &mut lines, source)? {
        read_entries(alloc, &mut closure, &mut lines, source)?;
    }
    Ok(closure)
}

// Reads the first line, and returns whether it is whole.
fn read_start<R: Source>(
    config: &Config,
    lines: &mut LineBuf,
    source: &mut R,
) -> Result<bool, SyncError>
    ensures ok { IfOk result
        (FindsStart config.now (stream_of R.remaining lines.old source.old)
        (stream_of R.remaining lines.new source.new)) }
    ensures refused { IfErr result
        (FailsStart config.now (stream_of R.remaining lines.old source.old)) }
    ensures fault { R.has_failed source.new ≡ (is_io result || R.has_failed source.old) }
    ensures falls { IfOk result
        (λ whole. whole ≡ true → left_of R.budget lines.new source.new
        < left_of R.budget lines.old source.old) }
{
    match lines.next_line(source)? {
        Line::Text(text) => {
            read_first_line(config, text)?;
            Ok(true)
        }
        Line::TooLong => Err(SyncError::BadHeader),
        Line::Cut => Ok(false),
        Line::End => Ok(false),
    }
}

// Takes what the whole lines after the first one say.
fn read_entries<C: Closure, R: Source>(
    alloc: Global,
    closure: &mut C,
    lines: &mut LineBuf,
    source: &mut R,
) -> Result<(), SyncError>
    requires counted { 1 + left_of R.budget lines.old source.old < 2 ^ 64 }
    ensures ok { OnOk result
        (HasReadAll (C.state closure.old).meaning (stream_of R.remaining lines.old source.old)
        (C.state closure.new).meaning) }
    ensures refused { IfErr result
        (FailsBehindLines (C.state closure.old).meaning 1
        (stream_of R.remaining lines.old source.old)) }
    ensures fault { R.has_failed source.new ≡ (is_io result || R.has_failed source.old) }
{
    let mut read = 1;
    'lines: while read_entry(alloc, closure, read, lines, source)? {
        read += 1;
    }
    let _config = closure.config();
    Ok(())
}

// Takes what the next line says, after this many, and returns whether there is one.
fn read_entry<C: Closure, R: Source>(
    alloc: Global,
    closure: &mut C,
    read: u64,
    lines: &mut LineBuf,
    source: &mut R,
) -> Result<bool, SyncError>
    requires counted { read + left_of R.budget lines.old source.old < 2 ^ 64 }
    ensures ok { IfOk result
        (StepsThroughJournal (C.state closure.old).meaning
        (stream_of R.remaining lines.old source.old) (C.state closure.new).meaning
        (stream_of R.remaining lines.new source.new)) }
    ensures refused { IfErr result
        (FailsNext (C.state closure.old).meaning (read + 1)
        (stream_of R.remaining lines.old source.old)) }
    ensures valid { IsMeaning (C.state closure.old).meaning }
    ensures fault { R.has_failed source.new ≡ (is_io result || R.has_failed source.old) }
    ensures falls { IfOk result
        (λ more. more ≡ true → left_of R.budget lines.new source.new
        < left_of R.budget lines.old source.old) }
{
    let _config = closure.config();
    match lines.next_line(source)? {
        Line::Text(text) => {
            take_sole_line(alloc, closure, read + 1, text)?;
            Ok(true)
        }
        Line::TooLong => Err(SyncError::NotCanonical(read + 1)),
        Line::Cut => Ok(false), // torn by a kill
        Line::End => Ok(false),
    }
}
