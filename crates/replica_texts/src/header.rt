//! The first and the last line of a snapshot.
ghost use Rattle.std.specs.Prelude.{◌≡◌, ◌++◌, ◌↔◌, ℕ, List, ◌||◌, IsTrue, OnOk, IfOk, IfErr};
ghost use Rattle.std.specs.Prelude.{MatchOption, MatchResult};
ghost use Rattle.std.specs.Io.KnownBytes.{Consumes};
ghost use Rattle.byte_lines.specs.Streams.{stream_of};
ghost use Rattle.replica_texts.specs.Snapshots.{RefusesFirst, ended, is_io, IsHeader, IsNoHeader};
ghost use Rattle.replica_texts.specs.Snapshots.{RefusesHeader, header_line, count_of, digits_of};
ghost use Rattle.replica_texts.specs.Snapshots.{records_part, version_of};
ghost use Rattle.replica_texts.specs.Inside.Reading.{IsSplit};

use crate::format::Format;
use crate::number_text::{are_digits, read_number};
use byte_lines::{Line, LineBuf, Source, push_digits, push_number};
use fed_config::Config;
use replica_core::SyncError;
use std::alloc::{AllocError, Global};

/// The first line's digest, as its digits, and its number.
#[derive(Clone, Copy)]
struct Header<'a> {
    digits: &'a [u8],
    version: u64,
}

/// Reads the first line, and returns its format.
pub(crate) fn read_first<R: Source>(
    config: &Config,
    lines: &mut LineBuf,
    source: &mut R,
) -> Result<Format, SyncError>
    ensures ok { IfOk result
        (λ format. Consumes (stream_of R.remaining lines.old source.old)
        (stream_of R.remaining lines.new source.new) (ended (header_line format config.now))) }
    ensures refused { IfErr result
        (RefusesFirst config.now (stream_of R.remaining lines.old source.old)) }
    ensures fault { R.has_failed source.new ≡ (is_io result || R.has_failed source.old) }
{
    match lines.next_line(source)? {
        Line::Text(text) => format_of(config, text),
        Line::TooLong => Err(SyncError::BadHeader),
        Line::Cut => Err(SyncError::Truncated),
        Line::End => Err(SyncError::Truncated),
    }
}

/// The format that a first line says, if it is one of this configuration.
pub(crate) fn format_of(config: &Config, text: &[u8]) -> Result<Format, SyncError>
    ensures { MatchResult result (λ format. text.now ≡ header_line format config.now)
        (λ e. RefusesHeader config.now text.now e) }
{
    let Some(header) = read_header(text) else {
        return Err(SyncError::BadHeader);
    };
    if !is_of(config, header.digits) {
        return Err(SyncError::ConfigDiffers);
    }
    match header.version {
        1 => Ok(Format::First),
        2 => Ok(Format::Second),
        _ => Err(SyncError::VersionDiffers),
    }
}

fn read_header(text: &[u8]) -> Option<Header<'_>>
    ensures { MatchOption result (IsNoHeader text.now)
        (λ h. IsHeader text.now h.digits.now h.version) }
{
    let Some((digits, number)) = split_header(text) else {
        return None;
    };
    if !are_digits(digits) {
        return None;
    }
    match read_number(number) {
        Some(version) => Some(Header { digits, version }),
        None => None,
    }
}

fn split_header(text: &[u8]) -> Option<(&[u8], &[u8])>
    ensures { MatchOption result ((digits number : List ℕ) → IsSplit text.now digits number → ⊥)
        (λ p. IsSplit text.now p.0.now p.1.now) }
{
    let Some(rest) = after(text, b"{\"config\":\"") else {
        return None;
    };
    if rest.len() < 64 {
        return None;
    }
    let (digits, rest) = rest.split_at(64);
    let Some(rest) = after(rest, b"\",\"format\":") else {
        return None;
    };
    match before_end(rest, b"}") {
        Some(number) => Some((digits, number)),
        None => None,
    }
}

fn after<'a>(text: &'a [u8], label: &[u8]) -> Option<&'a [u8]>
    ensures { MatchOption result ((rest : List ℕ) → text.now ≡ label.now ++ rest → ⊥)
        (λ rest. text.now ≡ label.now ++ rest.now) }
{
    text.strip_prefix(label)
}

fn before_end<'a>(text: &'a [u8], label: &[u8]) -> Option<&'a [u8]>
    ensures { MatchOption result ((rest : List ℕ) → text.now ≡ rest ++ label.now → ⊥)
        (λ rest. text.now ≡ rest.now ++ label.now) }
{
    text.strip_suffix(label)
}

fn is_of(config: &Config, digits: &[u8]) -> bool
    ensures { IsTrue result ↔ (digits.now ≡ digits_of config.now) }
{
    let mut own = [0; 64];
    // The lengths agree, so it is never refused.
    let _ = hex::encode_to_slice(config.digest().0, &mut own);
    digits == own.as_slice()
}

/// The first line of a snapshot.
pub(crate) fn write_header(
    alloc: Global,
    config: &Config,
    format: Format,
) -> Result<Vec<u8>, AllocError>
    ensures { IfOk result (λ text. text.items ≡ header_line format config.now) }
{
    let mut text = Vec::new(alloc);
    text.extend_from_slice(b"{\"config\":\"")?;
    push_digits(&mut text, &config.digest().0)?;
    text.extend_from_slice(b"\",\"format\":")?;
    push_number(&mut text, version(format))?;
    text.extend_from_slice(b"}")?;
    Ok(text)
}

fn version(format: Format) -> u64
    ensures { result ≡ version_of format }
{
    match format {
        Format::First => 1,
        Format::Second => 2,
    }
}

/// The last line of a snapshot.
pub(crate) fn write_count(
    alloc: Global,
    format: Format,
    receipts: u64,
    records: u64,
) -> Result<Vec<u8>, AllocError>
    ensures { IfOk result (λ text. text.items ≡ count_of format receipts records) }
{
    let mut text = Vec::new(alloc);
    text.extend_from_slice(b"{\"count\":")?;
    push_number(&mut text, receipts)?;
    push_records(&mut text, format, records)?;
    text.extend_from_slice(b"}")?;
    Ok(text)
}

fn push_records(out: &mut Vec<u8>, format: Format, records: u64) -> Result<(), AllocError>
    ensures { OnOk result (out.new.items ≡ out.old.items ++ records_part format records) }
{
    match format {
        Format::First => Ok(()),
        Format::Second => {
            out.extend_from_slice(b",\"distrusts\":")?;
            push_number(out, records)
        }
    }
}
