//! The status of a replica, by what the arguments of `status` say.
ghost use Rattle.std.specs.Prelude.{◌≡◌, [], IfErr, IfOk};
ghost use Rattle.status_view.specs.StatusRuns.{IsWarned};
ghost use Rattle.status_warnings.specs.WarnedStatus.{IsWarnedStatusIn, watching_of};
ghost use Rattle.fedbundle.specs.CommandRun.{run_of};
ghost use Rattle.command_exits.specs.DeviceRuns.{device_run};
ghost use Rattle.fedbundle.specs.SaidValues.{texts_of_call};
ghost use Rattle.fedbundle.specs.Shown.{EndsAtLimits, EndsAtSecond, ReadsPollLog, RunsWriter};
ghost use Rattle.fedbundle.specs.Shown.{SaysLimits, SaysSecond, ShowsPolled, ShowsStanding};
ghost use Rattle.fedbundle.specs.Shown.{ShowsStatus, second_said, shown_call, look_with};

use crate::option_values::read_status_format;
use crate::shown::Shown;
use byte_lines::{Sink, Source};
use closure_core::Closure;
use command_exits::{CommandError, Exit};
use command_line::{Call, OptionName, given, warn_times_given};
use poll_log::{PollLog, read_polls, read_seconds};
use status_view::{RunningStatus, StatusFormat};
use status_warnings::{Fetch, WarnLimits, Watch, fetches_of, write_warned_status};
use std::alloc::Global;

/// What is looked at in addition to what is held and how domains are fetched, and how that is
/// written.
#[derive(Clone, Copy, Debug)]
pub(crate) struct StatusLook<'a> {
    limits: WarnLimits,
    running: Option<&'a RunningStatus<'a>>,
    format: StatusFormat,
}

/// Writes the status of the replica. With `--polls` the source has the polls that were made. A
/// warning makes the exit status 1.
pub(crate) fn status<C: Closure, R: Source, W: Sink>(
    alloc: Global,
    closure: &C,
    shown: Shown<'_, '_, '_>,
    source: &mut R,
    sink: &mut W,
) -> Result<u8, Exit>
    ensures { ShowsStatus (shown_call shown.entry (C.state closure.now).meaning)
        (run_of (device_run R.remaining R.has_failed source.old source.new)
        (device_run W.contents W.has_failed sink.old sink.new)) result }
{
    let look = StatusLook {
        format: read_status_format(given(shown.call, OptionName::Format))?,
        limits: limits_of(shown.call, shown.moment)?,
        running: shown.running,
    };
    match given(shown.call, OptionName::Polls) {
        Some(_) => polled(alloc, closure, look, source, sink),
        None => standing(alloc, closure, look, &[], sink),
    }
}

fn limits_of(call: &Call<'_>, moment: i64) -> Result<WarnLimits, Exit>
    ensures ok { IfOk result (SaysLimits moment call.now.name (texts_of_call call.now)) }
    ensures refused { IfErr result (EndsAtLimits call.now.name (texts_of_call call.now)) }
{
    let moment = second_of(call, moment)?;
    let times = warn_times_given(call)?;
    Ok(WarnLimits {
        moment,
        expires_within: times.expires_within,
        peer_quiet: times.peer_quiet,
    })
}

// The Unix second that `--now` says, or the other one.
fn second_of(call: &Call<'_>, otherwise: i64) -> Result<i64, Exit>
    ensures ok { IfOk result
        (SaysSecond otherwise (second_said call.now.name (texts_of_call call.now))) }
    ensures refused { IfErr result
        (EndsAtSecond (second_said call.now.name (texts_of_call call.now))) }
{
    match given(call, OptionName::Now) {
        Some(text) => read_seconds(text.as_bytes()).ok_or(Exit::BadMoment),
        None => Ok(otherwise),
    }
}

// The source has the polls that were made.
fn polled<C: Closure, R: Source, W: Sink>(
    alloc: Global,
    closure: &C,
    look: StatusLook<'_>,
    source: &mut R,
    sink: &mut W,
) -> Result<u8, Exit>
    ensures { ShowsPolled (look_with look.entry (C.state closure.now).meaning)
        (run_of (device_run R.remaining R.has_failed source.old source.new)
        (device_run W.contents W.has_failed sink.old sink.new)) result }
{
    let log = read_log(alloc, closure, source)?;
    let fetches = fetches_of(alloc, closure, &log)?;
    standing(alloc, closure, look, fetches.as_slice(), sink)
}

fn read_log<C: Closure, R: Source>(
    alloc: Global,
    closure: &C,
    source: &mut R,
) -> Result<PollLog, CommandError>
    ensures { ReadsPollLog (C.state closure.now).meaning
        (device_run R.remaining R.has_failed source.old source.new) result }
{
    Ok(read_polls(alloc, closure.config(), source)?)
}

fn standing<C: Closure, W: Sink>(
    alloc: Global,
    closure: &C,
    look: StatusLook<'_>,
    fetches: &[Fetch],
    sink: &mut W,
) -> Result<u8, Exit>
    ensures { ShowsStanding (look_with look.entry (C.state closure.now).meaning) fetches.now
        (device_run W.contents W.has_failed sink.old sink.new) result }
{
    let watch = Watch {
        limits: look.limits,
        running: look.running,
        fetches,
    };
    let is_warned = status_in(alloc, closure, &watch, look.format, sink)?;
    Ok(u8::from(is_warned))
}

fn status_in<C: Closure, W: Sink>(
    alloc: Global,
    closure: &C,
    watch: &Watch<'_>,
    format: StatusFormat,
    sink: &mut W,
) -> Result<bool, CommandError>
    ensures runs { RunsWriter
        (IsWarnedStatusIn (C.state closure.now).meaning (watching_of watch.now) format)
        (device_run W.contents W.has_failed sink.old sink.new) result }
    ensures warned { IfOk result (IsWarned (C.state closure.now).meaning) }
{
    Ok(write_warned_status(alloc, closure, watch, format, sink)?)
}
