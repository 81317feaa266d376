//! Sessions in which a replica asks: a [`Pulling`] over a source and a sink.
ghost use Rattle.std.specs.Prelude.{◌≡◌, ◌+◌, ◌<◌, ◌⊎◌, ◌||◌, IfOk, IfErr, IsErr, IsErrOf};
ghost use Rattle.std.specs.Prelude.{OnOk, OnErr, List, ℕ, Option, None, [], length, take, is_err};
ghost use Rattle.std.specs.Prelude.{◌↔◌, true, false, IsTrue, MatchOption};
ghost use Rattle.std.specs.Io.KnownBytes.{prepend_known};
ghost use Rattle.byte_lines.specs.Ahead.{ahead_of, chunk_room};
ghost use Rattle.byte_lines.specs.Lines.{HasNoFeed};
ghost use Rattle.receipt_core.specs.Acceptance.{Meaning};
ghost use Rattle.replica_texts.specs.Snapshots.{is_io};
ghost use Rattle.replica_sync.specs.SessionRun.{SessionRun, session_run};
ghost use Rattle.replica_sync.specs.Pulling.{HasGained, Pulls, PullsAll, is_pull_io};
ghost use Rattle.replica_sync.specs.PullSessions.{EndsInFeed, HasPulledPieces, IsOverPulling};
ghost use Rattle.replica_sync.specs.PullSessions.{count_of_pulling, due_have, fault_of_pulling};
ghost use Rattle.replica_sync.specs.Inside.Driving.{Driven, StopsDriven};
ghost use Rattle.replica_core.specs.declared.error.SyncError.TheVariants.{Io, NoMemory};

use crate::piece_pulling::Pulling;
use crate::refused_line::error_of_line;
use byte_lines::{Fault, ReadAhead, Sink, Source, write_all};
use closure_core::Closure;
use memchr::memrchr;
use replica_core::{PullFault, SyncError};
use std::alloc::Global;

/// Asks about each bucket in order, from 0 to 255, and takes each answer line by line. Returns how
/// many receipts are held now that were not.
///
/// Each have has the ids that are held when it is asked. It is written whole before its answer is
/// read, and what follows the last answer is not taken. The records of distrust that one read
/// brings are taken together, by one merge. Apart from what is held, memory is taken for one have,
/// for a few lines and for the bytes of one read, and never for a number that the other side says.
///
/// # Errors
/// What the lines before the error say remains held, and [`PullFault::taken`] says how many
/// receipts of it were new. The first error in the order of the answers' bytes:
/// - [`SyncError::Truncated`]: the source ends before the last answer does,
/// - [`SyncError::BadHeader`]: a line is not an answer's first, of whatever format and number of
///   buckets, or is about another bucket than was asked about, or has more than 8,388,608 bytes,
/// - [`SyncError::ConfigDiffers`]: it is of another configuration,
/// - [`SyncError::VersionDiffers`]: it has another format than 2, or another number of buckets than
///   256,
/// - [`SyncError::NotCanonical`]: a line that should be a record's is not, or one that should be a
///   receipt's is not, or a line has more than 8,388,608 bytes,
/// - [`SyncError::NotRising`]: a line is not greater than the one before it in its answer,
/// - [`SyncError::Refused`]: a receipt or a record is not of the configuration, or is one too many,
/// - [`SyncError::Io`]: the source or the sink failed,
/// - [`SyncError::NoMemory`]: memory ran out.
pub fn pull<C: Closure, R: Source, W: Sink>(
    alloc: Global,
    closure: &mut C,
    source: &mut R,
    sink: &mut W,
) -> Result<u64, PullFault>
    ensures pulls { Pulls
        (session_run (R.remaining source.old) (W.contents sink.old) (W.contents sink.new))
        (C.state closure.old).meaning (C.state closure.new).meaning result }
    ensures io { IfErr result
        (λ fault. fault.why ≡ Io
        → (R.has_failed source.new ≡ true) ⊎ (W.has_failed sink.new ≡ true)) }
    ensures fault { is_pull_io result ≡ false
        → (R.has_failed source.new ≡ R.has_failed source.old)
        × (W.has_failed sink.new ≡ W.has_failed sink.old) }
{
    let mut pulling = match Pulling::new(alloc, closure) {
        Ok(pulling) => pulling,
        Err(why) => return Err(PullFault { why, taken: 0 }),
    };
    let driven = drive(alloc, closure, &mut pulling, source, sink);
    let taken = pulling.taken();
    match driven {
        Ok(()) => Ok(taken),
        Err(why) => Err(PullFault { why, taken }),
    }
}

// Writes what the session says, and gives it what is read, until it is over.
fn drive<C: Closure, R: Source, W: Sink>(
    alloc: Global,
    closure: &mut C,
    pulling: &mut Pulling,
    source: &mut R,
    sink: &mut W,
) -> Result<(), SyncError>
    requires sound { fault_of_pulling pulling.old ≡ None }
    requires begun { HasPulledPieces pulling.old (C.state closure.old).meaning [] [] }
    ensures ok { OnOk result
        (PullsAll (session_run (R.remaining source.old) (W.contents sink.old) (W.contents sink.new))
        (C.state closure.old).meaning (C.state closure.new).meaning
        × HasGained (C.state closure.old).meaning (C.state closure.new).meaning
        (count_of_pulling pulling.new)) }
    ensures refused { IfErr result (StopsDriven
        (session_run (R.remaining source.old) (W.contents sink.old) (W.contents sink.new))
        (C.state closure.old).meaning (C.state closure.new).meaning pulling.new) }
    ensures io { IsErrOf result Io
        → (R.has_failed source.new ≡ true) ⊎ (W.has_failed sink.new ≡ true) }
    ensures fault { is_io result ≡ false
        → (R.has_failed source.new ≡ R.has_failed source.old)
        × (W.has_failed sink.new ≡ W.has_failed sink.old) }
{
    let mut ahead = ReadAhead::new(alloc);
    'rounds: loop {
        send(pulling, sink)?;
        if pulling.is_over() {
            return Ok(());
        }
        ahead.reserve()?;
        if !ahead.fill(source)? {
            return pulling.end();
        }
        read_ahead(alloc, closure, pulling, &mut ahead, source)?;
    }
}

// Writes what is to be written.
fn send<W: Sink>(pulling: &mut Pulling, sink: &mut W) -> Result<(), Fault>
    ensures ok { OnOk result ((start held : Meaning) (source before left : Option (List ℕ))
        → Driven start (session_run source before (W.contents sink.old)) pulling.old held left
        → Driven start (session_run source before (W.contents sink.new)) pulling.new held left) }
    ensures none { OnOk result (due_have pulling.new ≡ []) }
    ensures refused { OnErr result ((start held : Meaning) (source before left : Option (List ℕ))
        → Driven start (session_run source before (W.contents sink.old)) pulling.old held left
        → StopsDriven (session_run source before (W.contents sink.new)) start held pulling.new
        Io) }
    ensures io { IsErr result → W.has_failed sink.new ≡ true }
    ensures fault { W.has_failed sink.new ≡ (is_err result || W.has_failed sink.old) }
{
    let count = pulling.output().len();
    write_all(sink, pulling.output())?;
    pulling.wrote(count);
    Ok(())
}

// Gives the session the whole lines that were read, or the beginning of one.
fn read_ahead<C: Closure, R: Source>(
    alloc: Global,
    closure: &mut C,
    pulling: &mut Pulling,
    ahead: &mut ReadAhead,
    source: &mut R,
) -> Result<(), SyncError>
    requires idle { due_have pulling.old ≡ [] }
    requires more { IsOverPulling pulling.old → ⊥ }
    requires some { 0 < length (ahead_of ahead.old) }
    requires room { 0 < chunk_room ahead.old }
    ensures ok { OnOk result ((start : Meaning) (run : SessionRun)
        → Driven start run pulling.old (C.state closure.old).meaning
        (prepend_known (ahead_of ahead.old) (R.remaining source.old))
        → Driven start run pulling.new (C.state closure.new).meaning
        (prepend_known (ahead_of ahead.new) (R.remaining source.new))) }
    ensures falls { OnOk result (length (ahead_of ahead.new) < length (ahead_of ahead.old)) }
    ensures same { OnOk result (source.new ≡ source.old) }
    ensures refused { IfErr result (λ e. (start : Meaning) (run : SessionRun)
        → Driven start run pulling.old (C.state closure.old).meaning
        (prepend_known (ahead_of ahead.old) (R.remaining source.old))
        → StopsDriven run start (C.state closure.new).meaning pulling.new e
        × (e ≡ Io → R.has_failed source.new ≡ true)) }
    ensures fault { is_io result ≡ false → R.has_failed source.new ≡ R.has_failed source.old }
{
    let place = last_feed(ahead.as_slice());
    let count = match place {
        Some(at) => at + 1,
        None => ahead.as_slice().len(),
    };
    let mut journal = Vec::new(alloc);
    match pulling.read_lines(alloc, closure, &ahead.as_slice()[..count], &mut journal) {
        Ok(used) => {
            ahead.pass(used);
            Ok(())
        }
        Err(why) if place.is_some() || is_memory_gone(why) => Err(why),
        Err(why) => Err(error_of_line(why, ahead, source)?),
    }
}

fn is_memory_gone(why: SyncError) -> bool
    ensures { IsTrue result ↔ (why ≡ NoMemory) }
{
    matches!(why, SyncError::NoMemory)
}

// The place of the last line feed.
fn last_feed(bytes: &[u8]) -> Option<usize>
    ensures { MatchOption result (HasNoFeed bytes.now) (λ place. (place < length bytes.now)
        × EndsInFeed (take (place + 1) bytes.now)) }
{
    memrchr(b'\n', bytes)
}
