//! Answers, written.
ghost use Rattle.std.specs.Prelude.{◌≡◌, ◌≢◌, ◌||◌, IfErr, IfOk, flat_map, true, Err};
ghost use Rattle.replica_texts.specs.Messages.{WritesText, receipt_text, record_text, give_text};
ghost use Rattle.replica_texts.specs.Messages.{give_header_of, give_header_text};
ghost use Rattle.replica_texts.specs.Snapshots.{ended, is_io};
ghost use Rattle.replica_core.specs.declared.error.SyncError.TheVariants.{Io, NoMemory};

use crate::line_bytes::record_line;
use crate::spelling::{GiveHeaderLine, push_give_header};
use byte_lines::{Sink, write_all};
use closure_core::Distrusts;
use jwk_set::KeyId;
use receipt_core::Receipt;
use replica_core::{Answer, Lacking, SyncError};
use spiffe_name::TrustDomain;
use std::alloc::{AllocError, Global};

/// Writes the answer: a line of compact JSON with the members `bucket`, `config`, `count`, the
/// number of receipts, `distrusts`, the number of records, `format`, which is 2, and `of`, which is
/// 256; then a line for each record, and a line for each receipt. Memory is taken for one line at a
/// time.
///
/// # Errors
/// A beginning of the answer may have been written.
/// - [`SyncError::Io`]: the sink failed.
/// - [`SyncError::NoMemory`]: memory ran out.
pub fn write_answer<W: Sink>(
    alloc: Global,
    answer: Answer<'_>,
    sink: &mut W,
) -> Result<(), SyncError>
    ensures written { WritesText (W.contents sink.old) (W.contents sink.new) result
        (give_text answer.entry) }
    ensures io { result ≡ Err Io → W.has_failed sink.new ≡ true }
    ensures fault { W.has_failed sink.new ≡ (is_io result || W.has_failed sink.old) }
    ensures refused { IfErr result (λ e. e ≢ Io → e ≡ NoMemory) }
{
    let header = header_of(alloc, &answer)?;
    write_all(sink, header.as_slice())?;
    let (distrusts, receipts) = answer.into_parts();
    write_records(alloc, distrusts, sink)?;
    write_receipts(alloc, receipts, sink)
}

fn header_of(alloc: Global, answer: &Answer<'_>) -> Result<Vec<u8>, AllocError>
    ensures { IfOk result
        (λ text. text.items ≡ ended (give_header_text (give_header_of answer.now))) }
{
    let mut text = Vec::new(alloc);
    let header = GiveHeaderLine {
        bucket: u64::from(answer.bucket()),
        config: answer.config(),
        count: answer.receipt_count() as u64,
        distrusts: Some(answer.record_count() as u64),
        format: 2,
        buckets: 256,
    };
    push_give_header(&mut text, &header)?;
    text.extend_from_slice(b"\n")?;
    Ok(text)
}

fn write_records<W: Sink>(
    alloc: Global,
    distrusts: Distrusts<'_>,
    sink: &mut W,
) -> Result<(), SyncError>
    ensures written { WritesText (W.contents sink.old) (W.contents sink.new) result
        (flat_map record_text distrusts.entry) }
    ensures io { result ≡ Err Io → W.has_failed sink.new ≡ true }
    ensures fault { W.has_failed sink.new ≡ (is_io result || W.has_failed sink.old) }
    ensures refused { IfErr result (λ e. e ≢ Io → e ≡ NoMemory) }
{
    for (domain, key) in distrusts {
        write_record(alloc, domain, key, sink)?;
    }
    Ok(())
}

fn write_receipts<W: Sink>(
    alloc: Global,
    receipts: Lacking<'_>,
    sink: &mut W,
) -> Result<(), SyncError>
    ensures written { WritesText (W.contents sink.old) (W.contents sink.new) result
        (flat_map receipt_text receipts.entry) }
    ensures io { result ≡ Err Io → W.has_failed sink.new ≡ true }
    ensures fault { W.has_failed sink.new ≡ (is_io result || W.has_failed sink.old) }
    ensures refused { IfErr result (λ e. e ≢ Io → e ≡ NoMemory) }
{
    for receipt in receipts {
        write_receipt(alloc, receipt, sink)?;
    }
    Ok(())
}

fn write_record<W: Sink>(
    alloc: Global,
    domain: &TrustDomain,
    key: &KeyId,
    sink: &mut W,
) -> Result<(), SyncError>
    ensures written { WritesText (W.contents sink.old) (W.contents sink.new) result
        (record_text (record { domain = domain.now; key = key.now })) }
    ensures io { result ≡ Err Io → W.has_failed sink.new ≡ true }
    ensures fault { W.has_failed sink.new ≡ (is_io result || W.has_failed sink.old) }
    ensures refused { IfErr result (λ e. e ≢ Io → e ≡ NoMemory) }
{
    let mut text = record_line(alloc, domain, key)?;
    text.extend_from_slice(b"\n")?;
    write_all(sink, text.as_slice())?;
    Ok(())
}

fn write_receipt<W: Sink>(alloc: Global, receipt: &Receipt, sink: &mut W) -> Result<(), SyncError>
    ensures written { WritesText (W.contents sink.old) (W.contents sink.new) result
        (receipt_text receipt.now) }
    ensures io { result ≡ Err Io → W.has_failed sink.new ≡ true }
    ensures fault { W.has_failed sink.new ≡ (is_io result || W.has_failed sink.old) }
    ensures refused { IfErr result (λ e. e ≢ Io → e ≡ NoMemory) }
{
    let mut text = receipt.write_line(alloc)?;
    text.extend_from_slice(b"\n")?;
    write_all(sink, text.as_slice())?;
    Ok(())
}
