//! The status of a replica with its warnings, written.
ghost use Rattle.std.specs.Prelude.{◌≡◌, ◌||◌, true, Err, IfOk, OnOk};
ghost use Rattle.byte_lines.specs.Device.{is_source_fault};
ghost use Rattle.byte_lines.specs.declared.error.DeviceError.TheVariants.{Io, NoMemory};
ghost use Rattle.text_lines.specs.TextLines.{BeginsSome, WritesSome};
ghost use Rattle.status_view.specs.StatusRuns.{IsWarned};
ghost use Rattle.status_warnings.specs.WarnedStatus.{IsWarnedStatusIn, seen_text, watching_of};

use crate::ending_certificates::certificate_ends;
use crate::same_keys::find_same_keys;
use crate::seen::{CertificateEnd, SamePublicKey, Seen, Watch};
use crate::warned_text::{began_of, peers_of, warned_text};
use crate::warning_search::find_warnings;
use byte_lines::{DeviceError, Sink, write_all};
use closure_core::Closure;
use status_view::{Status, StatusFormat, has_warning, read_status};
use std::alloc::{AllocError, Global};

/// Writes the status of the replica, then what it says of itself if it runs, and then the warnings
/// ([`crate::find_warnings`]). Returns what [`status_view::has_warning`] returns, whatever these
/// are.
///
/// All memory is taken before the first byte is written.
///
/// # Errors
/// - [`DeviceError::Io`]: the sink failed, and holds a beginning of the text.
/// - [`DeviceError::NoMemory`]: memory ran out. Nothing was written.
pub fn write_warned_status<C: Closure, W: Sink>(
    alloc: Global,
    closure: &C,
    watch: &Watch<'_>,
    format: StatusFormat,
    sink: &mut W,
) -> Result<bool, DeviceError>
    ensures warning { IfOk result (IsWarned (C.state closure.now).meaning) }
    ensures ok { OnOk result (WritesSome
        (IsWarnedStatusIn (C.state closure.now).meaning (watching_of watch.now) format)
        (W.contents sink.old) (W.contents sink.new)) }
    ensures io { result ≡ Err Io → (W.has_failed sink.new ≡ true) × BeginsSome
        (IsWarnedStatusIn (C.state closure.now).meaning (watching_of watch.now) format)
        (W.contents sink.old) (W.contents sink.new) }
    ensures memory { result ≡ Err NoMemory → sink.new ≡ sink.old }
    ensures fault { W.has_failed sink.new ≡ (is_source_fault result || W.has_failed sink.old) }
{
    let status = read_status(alloc, closure)?;
    let certificates = certificate_ends(alloc, closure)?;
    let same_keys = find_same_keys(alloc, closure)?;
    let text = seen_text(
        alloc,
        watch,
        &status,
        certificates.as_slice(),
        same_keys.as_slice(),
        format,
    )?;
    write_all(sink, text.as_slice())?;
    Ok(has_warning(&status))
}

fn seen_text(
    alloc: Global,
    watch: &Watch<'_>,
    status: &Status,
    certificates: &[CertificateEnd],
    same_keys: &[SamePublicKey],
    format: StatusFormat,
) -> Result<Vec<u8>, AllocError>
    ensures { IfOk result (λ text. text.items
        ≡ seen_text format (watching_of watch.now) status.now certificates.now
        same_keys.now) }
{
    let seen = Seen {
        status,
        certificates,
        same_keys,
        fetches: watch.fetches,
        peers: peers_of(watch.running),
        began: began_of(watch.running),
    };
    let warnings = find_warnings(alloc, &watch.limits, &seen)?;
    let text = warned_text(alloc, watch.running, &seen, warnings.as_slice(), format)?;
    Ok(text)
}
