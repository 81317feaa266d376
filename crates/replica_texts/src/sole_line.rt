//! Single lines, for a caller that does not have them in a stream: a receipt or a record from any
//! place, the first line of a snapshot, a have, and the first line of an answer.
ghost use Rattle.std.specs.Prelude.{◌≡◌, IfOk, IfErr, MatchResult, Some};
ghost use Rattle.replica_texts.specs.Gives.{Heads};
ghost use Rattle.replica_texts.specs.Snapshots.{header_line};
ghost use Rattle.replica_texts.specs.SoleLines.{HasRefusedSoleLine, RefusesSoleHeader};
ghost use Rattle.replica_texts.specs.SoleLines.{TakesSoleLine, IsHaveLine};
ghost use Rattle.replica_texts.specs.FirstLines.{RefusesHaveLine, RefusesGiveLine};

use crate::entry_line::{Wanted, take_line};
use crate::format::Format;
use crate::give_header_reader::{Expected, read_head};
use crate::have_reader::{own_have, versioned_have};
use crate::header::{format_of, write_header};
use bundle_doc::KnownDocuments;
use closure_core::Closure;
use fed_config::Config;
use replica_core::{Have, SyncError};
use std::alloc::{AllocError, Global};

/// Takes the receipt or the record of distrust whose line this is, from whatever place. Returns how
/// many receipts are held now and were not.
///
/// # Errors
/// What is held is as before. Errors name the line by this number. The first of these that holds:
/// - [`SyncError::NotCanonical`]: it is not a line of a record or a receipt, or has more than
///   8,388,608 bytes,
/// - [`SyncError::Refused`]: the receipt or the record is not of the configuration, or is one too
///   many,
/// - [`SyncError::NoMemory`]: memory ran out.
pub fn take_sole_line<C: Closure>(
    alloc: Global,
    closure: &mut C,
    number: u64,
    text: &[u8],
) -> Result<u64, SyncError>
    ensures { MatchResult result
        (TakesSoleLine (C.state closure.old).meaning text.now (C.state closure.new).meaning)
        (HasRefusedSoleLine (C.state closure.old).meaning
        (record { number = number; text = text.now }) (C.state closure.new).meaning) }
{
    let mut none = KnownDocuments::none(alloc);
    take_line(
        alloc,
        closure,
        &mut none,
        Wanted::Either,
        b"".as_slice(),
        number,
        text,
    )
}

/// Reads the first line of a snapshot of this configuration, in the format that is written.
///
/// # Errors
/// The first of these that holds:
/// - [`SyncError::BadHeader`]: the line is not a first line,
/// - [`SyncError::ConfigDiffers`]: it is of another configuration,
/// - [`SyncError::VersionDiffers`]: it is of another format.
pub fn read_first_line(config: &Config, text: &[u8]) -> Result<(), SyncError>
    ensures { MatchResult result (λ done. text.now ≡ header_line Format.Second config.now)
        (RefusesSoleHeader config.now text.now) }
{
    match format_of(config, text)? {
        Format::First => Err(SyncError::VersionDiffers),
        Format::Second => Ok(()),
    }
}

/// The first line of a snapshot of this configuration, in the format that is written. The allocator
/// may refuse its memory.
pub fn write_first_line(alloc: Global, config: &Config) -> Result<Vec<u8>, AllocError>
    ensures { IfOk result (λ text. text.items ≡ header_line Format.Second config.now) }
{
    write_header(alloc, config, Format::Second)
}

/// Reads a have of this configuration from its line, as [`read_have`](crate::read_have) reads
/// one from a stream.
///
/// # Errors
/// The first of these that holds:
/// - [`SyncError::BadHeader`]: the line is not a have's, of whatever format and number of buckets,
///   or its bucket is not below that number, or its ids do not rise strictly,
/// - [`SyncError::ConfigDiffers`]: it is of another configuration,
/// - [`SyncError::VersionDiffers`]: it has another format than 2, or another number of buckets than
///   256,
/// - [`SyncError::NoMemory`]: memory ran out.
pub fn read_have_line(alloc: Global, config: &Config, text: &[u8]) -> Result<Have, SyncError>
    ensures { MatchResult result (IsHaveLine config.now text.now)
        (RefusesHaveLine (Some config.now) text.now) }
{
    let versioned = versioned_have(alloc, text)?;
    own_have(config, versioned)
}

/// Reads the first line of an answer of this configuration about this bucket, as
/// [`pull`](crate::pull) does. Returns how many receipts it announces, and how many records.
///
/// # Errors
/// The first of these that holds:
/// - [`SyncError::BadHeader`]: the line is not an answer's first, of whatever format and number of
///   buckets, or is about another bucket,
/// - [`SyncError::ConfigDiffers`]: it is of another configuration,
/// - [`SyncError::VersionDiffers`]: it has another format than 2, or another number of buckets than
///   256,
/// - [`SyncError::NoMemory`]: memory ran out.
pub fn read_give_line(
    alloc: Global,
    config: &Config,
    bucket: u8,
    text: &[u8],
) -> Result<(u64, u64), SyncError>
    ensures ok { IfOk result
        (λ counts. Heads (Some (record { config = config.now; bucket = bucket })) text.now counts.0
        counts.1) }
    ensures refused { IfErr result
        (RefusesGiveLine (Some (record { config = config.now; bucket = bucket })) text.now) }
{
    let head = read_head(alloc, Some(Expected { config, bucket }), text)?;
    Ok((head.count, head.distrusts))
}
