//! `polls`: when each domain is polled next.
ghost use Rattle.fedbundle.specs.CommandRun.{run_of};
ghost use Rattle.command_exits.specs.DeviceRuns.{device_run};
ghost use Rattle.fedbundle.specs.Polls.{RunsPollsIn, polls_call};

use byte_lines::{Sink, Source, write_all};
use closure_core::Closure;
use command_exits::CommandError;
use jiff::Timestamp;
use poll_log::read_polls;
use poll_view::{PollsForm, polls_text};
use std::alloc::Global;

/// Reads the lines of the polls that were made, and writes for each relationship of the
/// configuration, sorted by domain, a line: the domain and then `due` if it is to be polled now,
/// `past range` if its next poll is later than the latest time, and else the time of its next poll,
/// in seconds since the Unix epoch, rounded toward zero. The refresh hint is that of the domain's
/// current document (SPIFFE Trust Domain and Bundle, section 4.1.2). No clock is read, and nothing
/// is written before the whole text is made. [`PollsForm`] says what the text is as JSON.
///
/// # Errors
/// `Poll` if the first bad line is reported, if the source failed or if memory ran out while the
/// lines were read, and `NoMemory` if memory ran out for the text: then nothing was written. `Io`
/// if the sink failed, which then holds a beginning of the text.
pub fn run_polls_in<C: Closure, R: Source, W: Sink>(
    alloc: Global,
    closure: &C,
    form: PollsForm,
    now: Timestamp,
    source: &mut R,
    sink: &mut W,
) -> Result<(), CommandError>
    ensures { RunsPollsIn
        (run_of (device_run R.remaining R.has_failed source.old source.new)
        (device_run W.contents W.has_failed sink.old sink.new))
        (C.state closure.now).meaning (polls_call form now.nanosecond) result }
{
    let log = read_polls(alloc, closure.config(), source)?;
    let text = polls_text(alloc, closure, form, &log, now)?;
    write_all(sink, text.as_slice())?;
    Ok(())
}
