//! The three texts of a status, with the warnings at the end.
ghost use Rattle.std.specs.Prelude.{◌≡◌, ◌++◌, IfOk, OnOk, option_map};
ghost use Rattle.status_warnings.specs.WarnedStatus.{began_of, lines_of_running};
ghost use Rattle.status_warnings.specs.WarnedStatus.{members_of_running, metrics_of_running};
ghost use Rattle.status_warnings.specs.WarnedStatus.{peers_of, warned_json, warned_lines};
ghost use Rattle.status_warnings.specs.WarnedStatus.{warned_metrics, warned_text};
ghost use Rattle.status_warnings.specs.Warnings.{sight_of};

use crate::seen::Seen;
use crate::warning_json::push_warning_member;
use crate::warning_kinds::Warning;
use crate::warning_lines::push_warning_lines;
use crate::warning_metrics::{push_certificate_metrics, push_warning_metrics};
use status_view::{
    PeerStatus, RunningStatus, Status, StatusFormat, push_running_lines, push_running_members,
    push_running_metrics, push_status_members, status_lines, status_metrics,
};
use std::alloc::{AllocError, Global};

/// The text of the status in this format, then what a running replica says of itself, then the
/// certificates if the format is that of metrics, and then the warnings.
pub(crate) fn warned_text(
    alloc: Global,
    running: Option<&RunningStatus<'_>>,
    seen: &Seen<'_>,
    warnings: &[Warning],
    format: StatusFormat,
) -> Result<Vec<u8>, AllocError>
    ensures { IfOk result (λ text. text.items ≡ warned_text format
        (option_map (λ r. r.now) running.entry) (sight_of seen.now) warnings.now) }
{
    match format {
        StatusFormat::Text => warned_lines(alloc, running, seen.status, warnings),
        StatusFormat::Json => warned_json(alloc, running, seen.status, warnings),
        StatusFormat::Prometheus => warned_metrics(alloc, running, seen, warnings),
    }
}

fn warned_lines(
    alloc: Global,
    running: Option<&RunningStatus<'_>>,
    status: &Status,
    warnings: &[Warning],
) -> Result<Vec<u8>, AllocError>
    ensures { IfOk result (λ text. text.items ≡ warned_lines
        (option_map (λ r. r.now) running.entry) status.now warnings.now) }
{
    let mut out = status_lines(alloc, status)?;
    push_lines_of_running(&mut out, running)?;
    push_warning_lines(&mut out, warnings)?;
    Ok(out)
}

fn push_lines_of_running(
    out: &mut Vec<u8>,
    running: Option<&RunningStatus<'_>>,
) -> Result<(), AllocError>
    ensures { OnOk result (out.new.items
        ≡ out.old.items ++ lines_of_running (option_map (λ r. r.now) running.entry)) }
{
    match running {
        Some(running) => push_running_lines(out, running),
        None => Ok(()),
    }
}

fn warned_json(
    alloc: Global,
    running: Option<&RunningStatus<'_>>,
    status: &Status,
    warnings: &[Warning],
) -> Result<Vec<u8>, AllocError>
    ensures { IfOk result (λ text. text.items ≡ warned_json
        (option_map (λ r. r.now) running.entry) status.now warnings.now) }
{
    let mut out = Vec::from_slice(alloc, b"{")?;
    push_status_members(&mut out, status)?;
    push_members_of_running(alloc, &mut out, running)?;
    push_warning_member(alloc, &mut out, warnings)?;
    out.extend_from_slice(b"}\n")?;
    Ok(out)
}

fn push_members_of_running(
    alloc: Global,
    out: &mut Vec<u8>,
    running: Option<&RunningStatus<'_>>,
) -> Result<(), AllocError>
    ensures { OnOk result (out.new.items
        ≡ out.old.items ++ members_of_running (option_map (λ r. r.now) running.entry)) }
{
    match running {
        Some(running) => push_running_members(alloc, out, running),
        None => Ok(()),
    }
}

fn warned_metrics(
    alloc: Global,
    running: Option<&RunningStatus<'_>>,
    seen: &Seen<'_>,
    warnings: &[Warning],
) -> Result<Vec<u8>, AllocError>
    ensures { IfOk result (λ text. text.items ≡ warned_metrics
        (option_map (λ r. r.now) running.entry) (sight_of seen.now) warnings.now) }
{
    let mut out = status_metrics(alloc, seen.status)?;
    push_metrics_of_running(&mut out, running)?;
    push_certificate_metrics(&mut out, seen.certificates)?;
    push_warning_metrics(&mut out, warnings)?;
    Ok(out)
}

fn push_metrics_of_running(
    out: &mut Vec<u8>,
    running: Option<&RunningStatus<'_>>,
) -> Result<(), AllocError>
    ensures { OnOk result (out.new.items
        ≡ out.old.items ++ metrics_of_running (option_map (λ r. r.now) running.entry)) }
{
    match running {
        Some(running) => push_running_metrics(out, running),
        None => Ok(()),
    }
}

/// The peers of a running replica.
pub(crate) fn peers_of<'a>(running: Option<&'a RunningStatus<'a>>) -> &'a [PeerStatus]
    ensures { result.now ≡ peers_of (option_map (λ r. r.now) running.entry) }
{
    match running {
        Some(running) => running.peers,
        None => &[],
    }
}

/// When it began.
pub(crate) fn began_of(running: Option<&RunningStatus<'_>>) -> u64
    ensures { result ≡ began_of (option_map (λ r. r.now) running.entry) }
{
    match running {
        Some(running) => running.began,
        None => 0,
    }
}
