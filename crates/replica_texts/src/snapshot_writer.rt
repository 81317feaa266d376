//! Snapshots, written.
ghost use Rattle.std.specs.Prelude.{◌≡◌, ◌||◌, IfOk, length, map};
ghost use Rattle.receipt_core.specs.Receipt.{distrust_line, line};
ghost use Rattle.replica_texts.specs.Snapshots.{ended, is_io, snapshot_text, text_of_lines};
ghost use Rattle.replica_texts.specs.Writing.{Writes};

use crate::format::Format;
use crate::header::{write_count, write_header};
use crate::line_bytes::record_line;
use byte_lines::{Sink, write_all};
use closure_core::Closure;
use replica_core::SyncError;
use std::alloc::Global;

/// Writes the snapshot of what is held: a first line with the configuration's digest, the lines of
/// records of distrust and of receipts, each sorted, and a last line with their numbers, each ended
/// by a line feed (byte 10). The text depends only on the configuration, the receipts and the
/// records of distrust, so closures of one meaning write the same bytes.
///
/// Memory is taken for one line at a time.
///
/// # Errors
/// The sink has taken a beginning of the text:
/// - [`SyncError::Io`]: the sink failed,
/// - [`SyncError::NoMemory`]: memory ran out.
pub fn write_snapshot<C: Closure, W: Sink>(
    alloc: Global,
    closure: &C,
    sink: &mut W,
) -> Result<(), SyncError>
    ensures writes { Writes (W.contents sink.old) (W.contents sink.new)
        (snapshot_text Format.Second (C.state closure.now).meaning) result }
    ensures fault { W.has_failed sink.new ≡ (is_io result || W.has_failed sink.old) }
{
    byte_lines::laws::pieces();
    let header = write_header(alloc, closure.config(), Format::Second)?;
    put_line(sink, header)?;
    let records = put_records(alloc, closure, sink)?;
    put_receipts(alloc, closure, sink)?;
    let receipts = closure.receipt_count() as u64;
    let count = write_count(alloc, Format::Second, receipts, records)?;
    put_line(sink, count)?;
    Ok(())
}

// Writes the lines of the records of distrust, and returns how many there are.
fn put_records<C: Closure, W: Sink>(
    alloc: Global,
    closure: &C,
    sink: &mut W,
) -> Result<u64, SyncError>
    ensures writes { Writes (W.contents sink.old) (W.contents sink.new)
        (text_of_lines (map distrust_line (C.state closure.now).meaning.records)) result }
    ensures count { IfOk result (λ count. count ≡ length (C.state closure.now).meaning.records) }
    ensures fault { W.has_failed sink.new ≡ (is_io result || W.has_failed sink.old) }
{
    byte_lines::laws::pieces();
    let _config = closure.config();
    let mut count = 0u64;
    'records: for (domain, key) in closure.distrusts() {
        let text = record_line(alloc, domain, key)?;
        put_line(sink, text)?;
        count += 1;
    }
    Ok(count)
}

fn put_receipts<C: Closure, W: Sink>(
    alloc: Global,
    closure: &C,
    sink: &mut W,
) -> Result<(), SyncError>
    ensures writes { Writes (W.contents sink.old) (W.contents sink.new)
        (text_of_lines (map line (C.state closure.now).meaning.held)) result }
    ensures fault { W.has_failed sink.new ≡ (is_io result || W.has_failed sink.old) }
{
    byte_lines::laws::pieces();
    'receipts: for receipt in closure.receipts() {
        let text = receipt.write_line(alloc)?;
        put_line(sink, text)?;
    }
    Ok(())
}

// Writes the line and its line feed.
fn put_line<W: Sink>(sink: &mut W, mut text: Vec<u8>) -> Result<(), SyncError>
    ensures writes { Writes (W.contents sink.old) (W.contents sink.new) (ended text.items) result }
    ensures fault { W.has_failed sink.new ≡ (is_io result || W.has_failed sink.old) }
{
    byte_lines::laws::pieces();
    text.extend_from_slice(b"\n")?;
    write_all(sink, text.as_slice())?;
    Ok(())
}
