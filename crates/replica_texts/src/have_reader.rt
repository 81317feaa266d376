//! Haves, read.
ghost use Rattle.std.specs.Prelude.{◌≡◌, ◌||◌, IfOk, IfErr, MatchResult, None};
ghost use Rattle.std.specs.Io.KnownBytes.{Consumes};
ghost use Rattle.fed_config.specs.Configuration.{config_id_of};
ghost use Rattle.byte_lines.specs.Streams.{stream_of};
ghost use Rattle.replica_texts.specs.Snapshots.{is_io};
ghost use Rattle.replica_texts.specs.Messages.{have_text};
ghost use Rattle.replica_texts.specs.FirstLines.{IsAnyHaveLine};
ghost use Rattle.replica_texts.specs.Haves.{IsAskable, RefusesHave};
ghost use Rattle.replica_texts.specs.Inside.HaveLines.{FindsHaveLine, RefusesAnyHave};
ghost use Rattle.replica_texts.specs.Inside.HaveLines.{IsSupportedHave, IsUnsupportedHave};
ghost use Rattle.replica_texts.specs.Inside.HaveLines.{RefusesNextHave, RefusesVersionedHave};
ghost use Rattle.replica_texts.specs.Inside.HaveLines.{versioned_have_says};

use crate::have_fields::VersionedHave;
use crate::have_line_reader::read_versioned_have;
use byte_lines::{Line, LineBuf, Source};
use fed_config::Config;
use replica_core::{Have, SyncError};
use std::alloc::Global;

/// Reads a have: the next line, of which the first bytes may lie in the buffer already. Only
/// the spelling of [`write_have`](crate::write_have) is read. No configuration is compared.
///
/// Memory is taken for the line, which has at most 8,388,608 bytes, for its ids, and for the line
/// as it is written.
///
/// # Errors
/// The line is used up; but if memory ran out it may still be next, and if the source failed
/// nothing is known of what is next. The first of these that holds:
/// - [`SyncError::Truncated`]: the stream ends before the line's line feed,
/// - [`SyncError::BadHeader`]: the line is not a have's, of whatever format and number of buckets,
///   or its bucket is not below that number, or its ids do not rise strictly, or it has more than
///   8,388,608 bytes,
/// - [`SyncError::VersionDiffers`]: it has another format than 2, or another number of buckets than
///   256,
/// - [`SyncError::Io`]: the source failed,
/// - [`SyncError::NoMemory`]: memory ran out.
pub fn read_have<R: Source>(
    alloc: Global,
    lines: &mut LineBuf,
    source: &mut R,
) -> Result<Have, SyncError>
    ensures ok { IfOk result
        (λ h. Consumes (stream_of R.remaining lines.old source.old)
        (stream_of R.remaining lines.new source.new) (have_text h)) }
    ensures asked { IfOk result IsAskable }
    ensures refused { IfErr result
        (RefusesHave None (stream_of R.remaining lines.old source.old)
        (stream_of R.remaining lines.new source.new)) }
    ensures fault { R.has_failed source.new ≡ (is_io result || R.has_failed source.old) }
{
    match next_have_line(alloc, lines, source)? {
        Some(versioned) => supported_have(versioned),
        None => Err(SyncError::Truncated),
    }
}

// The line of a have that is next in the stream, or `None` if the stream ends before its first
// byte.
fn next_have_line<R: Source>(
    alloc: Global,
    lines: &mut LineBuf,
    source: &mut R,
) -> Result<Option<VersionedHave>, SyncError>
    ensures ok { IfOk result
        (FindsHaveLine (stream_of R.remaining lines.old source.old)
        (stream_of R.remaining lines.new source.new)) }
    ensures refused { IfErr result
        (RefusesNextHave (stream_of R.remaining lines.old source.old)
        (stream_of R.remaining lines.new source.new)) }
    ensures fault { R.has_failed source.new ≡ (is_io result || R.has_failed source.old) }
{
    match lines.next_line(source)? {
        Line::Text(text) => Ok(Some(versioned_have(alloc, text)?)),
        Line::TooLong => Err(SyncError::BadHeader),
        Line::Cut => Err(SyncError::Truncated),
        Line::End => Ok(None),
    }
}

/// What the line of a have says, of whatever configuration, format and number of buckets.
pub(crate) fn versioned_have(alloc: Global, text: &[u8]) -> Result<VersionedHave, SyncError>
    ensures { MatchResult result (λ a. IsAnyHaveLine text.now (versioned_have_says a))
        (RefusesAnyHave text.now) }
{
    match read_versioned_have(alloc, text)? {
        Some(versioned) => Ok(versioned),
        None => Err(SyncError::BadHeader),
    }
}

/// The have, if it is of this configuration.
pub(crate) fn own_have(config: &Config, versioned: VersionedHave) -> Result<Have, SyncError>
    ensures { MatchResult result
        (λ h. (h.config ≡ config_id_of config.now) × IsSupportedHave versioned h)
        (RefusesVersionedHave config.now versioned) }
{
    if versioned.have.config() != config.digest() {
        return Err(SyncError::ConfigDiffers);
    }
    supported_have(versioned)
}

// The have, if it is of the one format and number of buckets that are supported.
fn supported_have(versioned: VersionedHave) -> Result<Have, SyncError>
    ensures { MatchResult result (IsSupportedHave versioned) (IsUnsupportedHave versioned) }
{
    if versioned.format == 2 && versioned.buckets == 256 {
        Ok(versioned.have)
    } else {
        Err(SyncError::VersionDiffers)
    }
}
