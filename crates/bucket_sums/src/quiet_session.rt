//! A whole session, over any devices: one in which a replica asks for sums, or is asked.
ghost use Rattle.std.specs.Prelude.{◌≡◌, ◌⊎◌, ◌||◌, [], true, false, is_err, IfErr, OnOk};
ghost use Rattle.replica_core.specs.declared.error.SyncError.TheVariants.{Io};
ghost use Rattle.replica_texts.specs.Snapshots.{is_io};
ghost use Rattle.bucket_sums.specs.Quiet.{due_quiet, fault_of_quiet};
ghost use Rattle.bucket_sums.specs.QuietRuns.{IsQuietlyDone, RunsToEnd, StopsRun, session_state};
ghost use Rattle.bucket_sums.specs.QuietRuns.{ServesToEnd, feeds_in};
ghost use Rattle.bucket_sums.specs.Inside.QuietTurns.{GivesQuietly, turns_left};

use crate::quiet_pulling::QuietPulling;
use crate::quiet_serving::QuietServing;
use crate::summed_closure::SummedClosure;
use byte_lines::{Fault, ReadAhead, Sink, Source};
use closure_core::Closure;
use replica_sync::SyncError;
use std::alloc::Global;

/// Continues the session until all is answered: the questions go to the sink, and the answers come
/// from the source. What comes after the last answer may be read, and is lost.
///
/// What the lines say that was not held is held afterwards, also if an error is returned. Apart
/// from what is held, memory is taken for 65,536 bytes that are read ahead, and for what the
/// session needs.
///
/// # Errors
/// - those of [`QuietPulling::read_lines`],
/// - [`SyncError::Truncated`]: the source ends before all is answered,
/// - [`SyncError::Io`]: the source or the sink failed,
/// - [`SyncError::NoMemory`]: memory ran out.
pub fn pull_quietly<C: Closure, R: Source, W: Sink>(
    alloc: Global,
    closure: &mut C,
    session: &mut QuietPulling,
    source: &mut R,
    sink: &mut W,
) -> Result<(), SyncError>
    ensures runs { RunsToEnd session.old
        (session_state (C.state closure.old).meaning (R.remaining source.old)
        (W.contents sink.old))
        (session_state (C.state closure.new).meaning (R.remaining source.new)
        (W.contents sink.new)) session.new }
    ensures done { OnOk result (IsQuietlyDone session.new) }
    ensures refused { IfErr result (λ e. StopsRun session.new e
        ⊎ ((e ≡ Io) × ((R.has_failed source.new ≡ true) ⊎ (W.has_failed sink.new ≡ true)))) }
{
    let mut ahead = ReadAhead::new(alloc);
    ahead.reserve()?;
    let mut journal = Vec::new(alloc);
    'steps: for _ in 0..u64::MAX {
        if !session.output().is_empty() {
            let count = sink.write(session.output())?;
            session.wrote(count);
        } else if session.is_over() {
            return session.end();
        } else if ahead.fill(source)? {
            let used = session.read_lines(alloc, closure, ahead.as_slice(), &mut journal)?;
            ahead.pass(used);
            journal.clear();
        } else {
            return Err(SyncError::Truncated);
        }
    }
    Err(SyncError::Truncated)
}

/// Answers what comes, until the source ends: a question of sums or none, and then haves. Returns
/// how many haves were answered.
///
/// Memory is taken for 65,536 bytes that are read ahead, and for what the session needs.
///
/// # Errors
/// What is to be answered before the error is written; if the sink failed, a beginning of that.
/// - those of [`QuietServing::read`],
/// - [`SyncError::Truncated`]: the source ends within the question or a have,
/// - [`SyncError::Io`]: the source or the sink failed,
/// - [`SyncError::NoMemory`]: memory ran out.
pub fn serve_quietly<C: Closure, R: Source, W: Sink>(
    alloc: Global,
    closure: &mut SummedClosure<C>,
    source: &mut R,
    sink: &mut W,
) -> Result<u64, SyncError>
    ensures serves { ServesToEnd
        ((R.has_failed source.new ≡ true) ⊎ (W.has_failed sink.new ≡ true))
        (session_state (C.state closure.old).meaning (R.remaining source.old)
        (W.contents sink.old)) (W.contents sink.new) result }
    ensures same { closure.new ≡ closure.old }
    ensures fault { is_io result ≡ false
        → (R.has_failed source.new ≡ R.has_failed source.old)
        × (W.has_failed sink.new ≡ W.has_failed sink.old) }
{
    let mut session = QuietServing::new(alloc);
    let mut ahead = ReadAhead::new(alloc);
    ahead.reserve()?;
    let mut lines = 0;
    'pieces: while ahead.fill(source)? {
        let piece = ahead.as_slice();
        let taken = session.read(alloc, closure, piece);
        give_due(&mut session, sink)?;
        let used = taken?;
        lines += line_feeds(&piece[..used]);
        ahead.pass(used);
    }
    session.end()?;
    Ok(lines - session.question_size())
}

// Writes all that is to be written.
fn give_due<W: Sink>(session: &mut QuietServing, sink: &mut W) -> Result<(), Fault>
    ensures gives { GivesQuietly session.old (W.contents sink.old) (W.contents sink.new)
        session.new }
    ensures idle { OnOk result (due_quiet session.new ≡ []) }
    ensures turns { turns_left session.new ≡ turns_left session.old }
    ensures found { fault_of_quiet session.new ≡ fault_of_quiet session.old }
    ensures fault { W.has_failed sink.new ≡ (is_err result || W.has_failed sink.old) }
{
    'pieces: while !session.output().is_empty() {
        let given = sink.write(session.output())?;
        session.wrote(given);
    }
    Ok(())
}

// How many lines end in these bytes.
fn line_feeds(bytes: &[u8]) -> u64
    ensures { result ≡ feeds_in bytes.now }
{
    bytes.iter().filter(|byte| **byte == b'\n').count() as u64
}
