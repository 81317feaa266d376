//! The first lines of answers, read: what the line says is guessed, written again by `spelling` and
//! compared with the line. So a line is read exactly if it has the one spelling.
ghost use Rattle.std.specs.Prelude.{◌≡◌, ◌++◌, ◌<◌, ◌^◌, ◌↔◌, ◌||◌, ℕ, List, Option, IsTrue, IfOk};
ghost use Rattle.std.specs.Prelude.{IfErr, IfSome, None, OnOk, MatchOption, codes};
ghost use Rattle.byte_lines.specs.Streams.{stream_of, left_of};
ghost use Rattle.replica_texts.specs.Snapshots.{is_io};
ghost use Rattle.replica_texts.specs.Messages.{GiveHeader, distrusts_part, give_header_text};
ghost use Rattle.replica_texts.specs.FirstLines.{IsAbout, HasDigestOf, IsRecordCount, IsGiveHeader};
ghost use Rattle.replica_texts.specs.FirstLines.{IsGiveHeaderLine, RefusesGiveLine, config_of};
ghost use Rattle.replica_texts.specs.Gives.{RefusesHead};
ghost use Rattle.replica_texts.specs.Inside.Spelling.{HasHead, HasWords, IsHeadOf};
ghost use Rattle.replica_texts.specs.Inside.Spelling.{RefusesGiveHeader, IsHeadLine, expected_by};
ghost use Rattle.replica_texts.specs.Inside.Spelling.{header_by};

use crate::scanner::{after, digest_after, id_of, number_after};
use crate::spelling::{GiveHeaderLine, push_give_header};
use byte_lines::{Line, LineBuf, Source};
use fed_config::{Config, ConfigId};
use replica_core::SyncError;
use std::alloc::{AllocError, Global};

/// What a session wants of an answer: that it is of this configuration, and about this bucket.
#[derive(Clone, Copy)]
pub(crate) struct Expected<'a> {
    pub(crate) config: &'a Config,
    pub(crate) bucket: u8,
}

/// What the first line of an answer says, of format 2 with 256 buckets.
#[derive(Clone, Copy, Debug)]
pub(crate) struct Head {
    pub(crate) bucket: u8,
    pub(crate) config: ConfigId,
    /// The number of receipts.
    pub(crate) count: u64,
    /// The number of records.
    pub(crate) distrusts: u64,
}

/// Reads the next line as the first of an answer, of any configuration and about any bucket. The
/// line is used up.
pub(crate) fn next_head<R: Source>(
    alloc: Global,
    lines: &mut LineBuf,
    source: &mut R,
) -> Result<Head, SyncError>
    ensures ok { IfOk result
        (HasHead None (stream_of R.remaining lines.old source.old)
        (stream_of R.remaining lines.new source.new)) }
    ensures refused { IfErr result
        (RefusesHead None (stream_of R.remaining lines.old source.old)
        (stream_of R.remaining lines.new source.new)) }
    ensures fault { R.has_failed source.new ≡ (is_io result || R.has_failed source.old) }
    ensures falls { OnOk result
        (left_of R.budget lines.new source.new < left_of R.budget lines.old source.old) }
{
    match lines.next_line(source)? {
        Line::Text(text) => read_head(alloc, None, text),
        Line::TooLong => Err(SyncError::BadHeader),
        Line::Cut => Err(SyncError::Truncated),
        Line::End => Err(SyncError::Truncated),
    }
}

/// Reads the first line of an answer.
pub(crate) fn read_head(
    alloc: Global,
    expected: Option<Expected<'_>>,
    text: &[u8],
) -> Result<Head, SyncError>
    ensures ok { IfOk result (IsHeadLine (expected_by expected.entry) text.now) }
    ensures refused { IfErr result (RefusesGiveLine (expected_by expected.entry) text.now) }
{
    match read_give_header(alloc, text)? {
        Some(header) => head_of(expected, &header),
        None => Err(SyncError::BadHeader),
    }
}

// What the line says, if it is wanted and of the one format that is supported.
fn head_of(expected: Option<Expected<'_>>, header: &GiveHeaderLine) -> Result<Head, SyncError>
    requires { IsGiveHeader (header_by header.now) }
    ensures ok { IfOk result (IsHeadOf (expected_by expected.entry) (header_by header.now)) }
    ensures refused { IfErr result
        (RefusesGiveHeader (expected_by expected.entry) (header_by header.now)) }
{
    if !is_about(expected, header.bucket) {
        return Err(SyncError::BadHeader);
    }
    if !is_own(expected, &header.config) {
        return Err(SyncError::ConfigDiffers);
    }
    let Some(distrusts) = header.distrusts else {
        return Err(SyncError::VersionDiffers);
    };
    if header.format != 2 || header.buckets != 256 {
        return Err(SyncError::VersionDiffers);
    }
    Ok(Head {
        bucket: header.bucket as u8,
        config: header.config,
        count: header.count,
        distrusts,
    })
}

fn is_about(expected: Option<Expected<'_>>, bucket: u64) -> bool
    ensures { IsTrue result ↔ IsAbout (expected_by expected.entry) bucket }
{
    match expected {
        Some(expected) => bucket == u64::from(expected.bucket),
        None => true,
    }
}

fn is_own(expected: Option<Expected<'_>>, config: &ConfigId) -> bool
    ensures { IsTrue result ↔ HasDigestOf (config_of (expected_by expected.entry)) config.now.0 }
{
    match expected {
        Some(expected) => *config == expected.config.digest(),
        None => true,
    }
}

/// Reads the first line of an answer, of whatever format and number of buckets. Returns `None` if
/// the line is not spelt as one, or its bucket is not below that number.
pub(crate) fn read_give_header(
    alloc: Global,
    text: &[u8],
) -> Result<Option<GiveHeaderLine>, AllocError>
    ensures read { IfOk result
        (λ found. MatchOption found ((t : GiveHeader) → IsGiveHeaderLine text.now t → ⊥)
        (λ t. IsGiveHeaderLine text.now (header_by t))) }
    ensures only { IfOk result
        (λ found. IfSome found (λ t. (other : GiveHeader) → IsGiveHeaderLine text.now other
        → header_by t ≡ other)) }
{
    let header = guess(text);
    if !is_give_header(&header) {
        return Ok(None);
    }
    if is_spelt(alloc, &header, text)? {
        Ok(Some(header))
    } else {
        Ok(None)
    }
}

// What the line says, if it is spelt as the first of an answer; otherwise anything.
fn guess(text: &[u8]) -> GiveHeaderLine
    ensures words { HasWords (header_by result) }
    ensures right { (t : GiveHeader) → IsGiveHeaderLine text.now t → header_by result ≡ t }
{
    let (bucket, rest) = number_after(text, b"{\"bucket\":");
    let (config, rest) = digest_after(rest, b",\"config\":\"");
    let (count, rest) = number_after(rest, b"\",\"count\":");
    let (distrusts, rest) = records_after(rest);
    let (format, rest) = number_after(rest, b",\"format\":");
    let (buckets, _) = number_after(rest, b",\"of\":");
    GiveHeaderLine {
        bucket,
        config: id_of(&config),
        count,
        distrusts,
        format,
        buckets,
    }
}

// The number of records, if one is given, and what follows.
fn records_after(text: &[u8]) -> (Option<u64>, &[u8])
    ensures few { IfSome result.0 (λ n. n < 2 ^ 64) }
    ensures right { (distrusts : Option ℕ) (more : List ℕ) → IfSome distrusts (λ n. n < 2 ^ 64)
        → text.now ≡ distrusts_part distrusts ++ (codes ",\"format\":" ++ more)
        → (result.0 ≡ distrusts) × (result.1.now ≡ codes ",\"format\":" ++ more) }
{
    match after(text, b",\"distrusts\":") {
        Some(_) => {
            let (number, rest) = number_after(text, b",\"distrusts\":");
            (Some(number), rest)
        }
        None => (None, text),
    }
}

// Whether the bucket is below the number of buckets, and the number of records is given, except in
// the first format.
fn is_give_header(header: &GiveHeaderLine) -> bool
    requires { HasWords (header_by header.now) }
    ensures { IsTrue result ↔ IsGiveHeader (header_by header.now) }
{
    if header.bucket >= header.buckets {
        return false;
    }
    is_record_count(header.format, header.distrusts)
}

fn is_record_count(format: u64, distrusts: Option<u64>) -> bool
    requires { IfSome distrusts (λ n. n < 2 ^ 64) }
    ensures { IsTrue result ↔ IsRecordCount format distrusts }
{
    match distrusts {
        Some(_) => true,
        None => format == 1,
    }
}

fn is_spelt(alloc: Global, header: &GiveHeaderLine, text: &[u8]) -> Result<bool, AllocError>
    ensures { IfOk result
        (λ same. IsTrue same ↔ (text.now ≡ give_header_text (header_by header.now))) }
{
    let mut spelt = Vec::new(alloc);
    push_give_header(&mut spelt, header)?;
    Ok(text == spelt.as_slice())
}
