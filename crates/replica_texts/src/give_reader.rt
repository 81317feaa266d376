//! Answers, read.
ghost use Rattle.std.specs.Prelude.{◌≡◌, ◌<◌, ◌||◌, true, IfOk, IfErr, OnOk, MatchOption};
ghost use Rattle.std.specs.Io.KnownBytes.{Consumes};
ghost use Rattle.byte_lines.specs.Streams.{stream_of, left_of};
ghost use Rattle.replica_texts.specs.Entries.{RefusesEntryText};
ghost use Rattle.replica_texts.specs.Snapshots.{is_io, last_of};
ghost use Rattle.replica_texts.specs.Messages.{give_text};
ghost use Rattle.replica_texts.specs.Gives.{IsGive, IsBegun, RefusesGive, RefusesNextEntry};
ghost use Rattle.replica_texts.specs.Gives.{Wants, content_lines, next_entry_number, refused_text};
ghost use Rattle.replica_texts.specs.Inside.Gathering.{StopsGathering, GathersAll, IsWhole, Pushes};
ghost use Rattle.replica_texts.specs.Inside.Gathering.{StepsThroughGive, body_content, pushed};

use crate::entry_line::{Wanted, next_entry};
use crate::give_header_reader::{Head, next_head};
use crate::line_bytes::set_last;
use byte_lines::{Line, LineBuf, Source};
use receipt_core::{Distrust, Receipt};
use replica_core::{Entry, Give, SyncError};
use std::alloc::{AllocError, Global};

/// Reads an answer: the next lines of what the buffer keeps, followed by what the source still has.
/// Only the spelling of [`write_answer`](crate::write_answer) is read, and lines that rise. No
/// configuration is compared.
///
/// Memory is taken for what was read, and for one line, but never for a number that the first line
/// says.
///
/// # Errors
/// The lines up to the error are used up; but if memory ran out the last of them may still be next,
/// and if the source failed nothing is known of what is next. The first error in the order of the
/// stream:
/// - [`SyncError::Truncated`]: it ends before the last line's line feed,
/// - [`SyncError::BadHeader`]: the first line is not an answer's, of whatever format and number of
///   buckets, or its bucket is not below that number, or it has more than 8,388,608 bytes,
/// - [`SyncError::VersionDiffers`]: it has another format than 2, or another number of buckets than
///   256,
/// - [`SyncError::NotCanonical`]: a line that should be a record's is not, or one that should be a
///   receipt's is not, or a line has more than 8,388,608 bytes,
/// - [`SyncError::NotRising`]: a line is not greater than the one before,
/// - [`SyncError::Io`]: the source failed,
/// - [`SyncError::NoMemory`]: memory ran out.
pub fn read_give<R: Source>(
    alloc: Global,
    lines: &mut LineBuf,
    source: &mut R,
) -> Result<Give, SyncError>
    ensures ok { IfOk result
        (λ give. Consumes (stream_of R.remaining lines.old source.old)
        (stream_of R.remaining lines.new source.new) (give_text give)) }
    ensures valid { IfOk result IsGive }
    ensures refused { IfErr result
        (RefusesGive (stream_of R.remaining lines.old source.old)
        (stream_of R.remaining lines.new source.new)) }
    ensures fault { R.has_failed source.new ≡ (is_io result || R.has_failed source.old) }
{
    let head = next_head(alloc, lines, source)?;
    let content = read_content(alloc, &head, lines, source)?;
    Ok(to_give(&head, content))
}

// What was read of an answer so far.
#[derive(Drop)]
struct GiveBody {
    distrusts: Vec<Distrust>,
    receipts: Vec<Receipt>,
    // The last line of it, and empty if it has no line.
    last: Vec<u8>,
}

fn to_give(head: &Head, content: GiveBody) -> Give
    ensures { result ≡ record {
      bucket = head.now.bucket;
      config = head.now.config.0;
      content = body_content content;
    } }
{
    Give::new(
        head.bucket,
        head.config,
        content.distrusts,
        content.receipts,
    )
}

// Reads the lines after the first.
fn read_content<R: Source>(
    alloc: Global,
    head: &Head,
    lines: &mut LineBuf,
    source: &mut R,
) -> Result<GiveBody, SyncError>
    ensures ok { IfOk result
        (λ content. GathersAll head.now.count head.now.distrusts
        (stream_of R.remaining lines.old source.old) (body_content content)
        (stream_of R.remaining lines.new source.new)) }
    ensures refused { IfErr result
        (StopsGathering head.now.count head.now.distrusts
        (stream_of R.remaining lines.old source.old) (stream_of R.remaining lines.new source.new)) }
    ensures fault { R.has_failed source.new ≡ (is_io result || R.has_failed source.old) }
{
    let mut content = GiveBody {
        distrusts: Vec::new(alloc),
        receipts: Vec::new(alloc),
        last: Vec::new(alloc),
    };
    'lines: while read_next(alloc, head, &mut content, lines, source)? {}
    Ok(content)
}

// Reads the next line, and returns whether one was wanted.
fn read_next<R: Source>(
    alloc: Global,
    head: &Head,
    content: &mut GiveBody,
    lines: &mut LineBuf,
    source: &mut R,
) -> Result<bool, SyncError>
    requires begun { IsBegun head.now.count head.now.distrusts (body_content content.old) }
    requires last { content.old.last.items ≡ last_of (content_lines (body_content content.old)) }
    ensures ok { IfOk result
        (StepsThroughGive head.now.count head.now.distrusts (body_content content.old)
        (stream_of R.remaining lines.old source.old) (body_content content.new)
        (stream_of R.remaining lines.new source.new)) }
    ensures last { OnOk result
        (content.new.last.items ≡ last_of (content_lines (body_content content.new))) }
    ensures refused { IfErr result
        (RefusesNextEntry (refused_text (body_content content.old)) head.now.count
        head.now.distrusts (body_content content.old) (stream_of R.remaining lines.old source.old)
        (stream_of R.remaining lines.new source.new)) }
    ensures fault { R.has_failed source.new ≡ (is_io result || R.has_failed source.old) }
    ensures falls { IfOk result
        (λ more. more ≡ true → left_of R.budget lines.new source.new
        < left_of R.budget lines.old source.old) }
{
    let Some(wanted) = next_wanted(head, content) else {
        return Ok(false);
    };
    let number = next_line_number(alloc, content)?;
    match lines.next_line(source)? {
        Line::Text(text) => {
            push_line(alloc, wanted, content, number, text)?;
            Ok(true)
        }
        Line::TooLong => Err(SyncError::NotCanonical(number)),
        Line::Cut => Err(SyncError::Truncated),
        Line::End => Err(SyncError::Truncated),
    }
}

// Which line should come after what was read, if this is not all.
fn next_wanted(head: &Head, content: &GiveBody) -> Option<Wanted>
    requires { IsBegun head.now.count head.now.distrusts (body_content content.now) }
    ensures { MatchOption result
        (IsWhole head.now.count head.now.distrusts (body_content content.now))
        (Wants head.now.count head.now.distrusts (body_content content.now)) }
{
    if (content.distrusts.len() as u64) < head.distrusts {
        return Some(Wanted::Records);
    }
    if (content.receipts.len() as u64) < head.count {
        return Some(Wanted::Receipts);
    }
    None
}

// The number of the line after what was read. Past 64 bits, which no memory reaches, it asks for a
// growth that is always refused.
fn next_line_number(alloc: Global, content: &GiveBody) -> Result<u64, AllocError>
    ensures { IfOk result (λ number. number ≡ next_entry_number 1 (body_content content.now)) }
{
    let count = content.distrusts.len() as u64 + content.receipts.len() as u64;
    if count > u64::MAX - 2 {
        let mut room: Vec<u8> = Vec::new(alloc);
        room.try_reserve(usize::MAX)?;
    }
    Ok(count + 2)
}

// Keeps what the line with this number says.
fn push_line(
    alloc: Global,
    wanted: Wanted,
    content: &mut GiveBody,
    number: u64,
    text: &[u8],
) -> Result<(), SyncError>
    requires last { content.old.last.items ≡ last_of (content_lines (body_content content.old)) }
    requires number { number ≡ next_entry_number 1 (body_content content.old) }
    ensures ok { OnOk result
        (Pushes wanted (body_content content.old) text.now (body_content content.new)) }
    ensures last { OnOk result (content.new.last.items ≡ text.now) }
    ensures refused { IfErr result
        (refused_text (body_content content.old) wanted
        (last_of (content_lines (body_content content.old))) text.now) }
{
    let entry = next_entry(alloc, wanted, content.last.as_slice(), number, text)?;
    push_entry(content, entry)?;
    set_last(&mut content.last, text)?;
    Ok(())
}

fn push_entry(content: &mut GiveBody, entry: Entry) -> Result<(), AllocError>
    ensures pushed { OnOk result
        (body_content content.new ≡ pushed entry (body_content content.old)) }
    ensures last { content.new.last ≡ content.old.last }
{
    match entry {
        Entry::Record(distrust) => content.distrusts.push(distrust)?,
        Entry::Receipt(receipt) => content.receipts.push(receipt)?,
    }
    Ok(())
}
