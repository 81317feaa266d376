//! Sessions that are served.
ghost use Rattle.std.specs.Prelude.{◌≡◌, ◌||◌, ◌⊎◌, [], true, false, is_err, IfOk, OnOk};
ghost use Rattle.std.specs.Prelude.{IsErrOf};
ghost use Rattle.std.specs.Io.KnownBytes.{Appends};
ghost use Rattle.byte_lines.specs.Device.{AppendsBeginning};
ghost use Rattle.replica_texts.specs.Snapshots.{is_io};
ghost use Rattle.replica_sync.specs.SessionRun.{session_run};
ghost use Rattle.replica_sync.specs.ServedPieces.{due_give, fault_of_serving, kept_have};
ghost use Rattle.replica_sync.specs.ServedPieces.{records_answered};
ghost use Rattle.replica_sync.specs.Serving.{Serves};
ghost use Rattle.replica_sync.specs.Inside.Serving.{IsAnswerCount};
ghost use Rattle.replica_core.specs.declared.error.SyncError.TheVariants.{Io};

use crate::piece_serving::Serving;
use crate::refused_line::error_of_line;
use byte_lines::{Fault, ReadAhead, Sink, Source, write_all};
use closure_core::Closure;
use replica_core::SyncError;
use std::alloc::Global;

/// Answers the haves of the source, one after another, until it ends before the first byte of a
/// have. Returns how many there were.
///
/// Only haves of the closure's configuration are answered, each with what the closure holds.
/// Memory is taken for 65,536 bytes that are read ahead, for one have and for its answer.
///
/// # Errors
/// The haves before the error are answered, and nothing else is written; if the sink failed or
/// memory ran out, a beginning of that. The first of these that holds:
/// - [`SyncError::Truncated`]: the source ends within a have,
/// - [`SyncError::BadHeader`]: a line is not a have's, of whatever format and number of buckets, or
///   its bucket is not below that number, or its ids do not rise strictly, or it has more than
///   8,388,608 bytes,
/// - [`SyncError::ConfigDiffers`]: a have is of another configuration,
/// - [`SyncError::VersionDiffers`]: it has another format than 2, or another number of buckets than
///   256,
/// - [`SyncError::Io`]: the source or the sink failed,
/// - [`SyncError::NoMemory`]: memory ran out.
pub fn serve_one<C: Closure, R: Source, W: Sink>(
    alloc: Global,
    closure: &C,
    source: &mut R,
    sink: &mut W,
) -> Result<u64, SyncError>
    ensures serves { Serves
        (session_run (R.remaining source.old) (W.contents sink.old) (W.contents sink.new))
        (C.state closure.now).meaning result }
    ensures io { IsErrOf result Io
        → (R.has_failed source.new ≡ true) ⊎ (W.has_failed sink.new ≡ true) }
    ensures fault { is_io result ≡ false
        → (R.has_failed source.new ≡ R.has_failed source.old)
        × (W.has_failed sink.new ≡ W.has_failed sink.old) }
{
    let mut ahead = ReadAhead::new(alloc);
    ahead.reserve()?;
    let mut serving = Serving::new(alloc);
    let mut count = 0;
    'pieces: while ahead.fill(source)? {
        match serving.read(alloc, closure, ahead.as_slice()) {
            Ok(used) => ahead.pass(used),
            Err(why) => return Err(error_of_line(why, &mut ahead, source)?),
        }
        count += write_due(&mut serving, sink)?;
    }
    serving.end()?;
    Ok(count)
}

// Writes what is due, and returns how many answers that is: one or none.
fn write_due<W: Sink>(serving: &mut Serving, sink: &mut W) -> Result<u64, Fault>
    ensures written { OnOk result
        (Appends (W.contents sink.old) (W.contents sink.new) (due_give serving.old)) }
    ensures beginning { AppendsBeginning (W.contents sink.old) (W.contents sink.new)
        (due_give serving.old) }
    ensures count { IfOk result (IsAnswerCount (due_give serving.old)) }
    ensures idle { OnOk result (due_give serving.new ≡ []) }
    ensures kept { kept_have serving.new ≡ kept_have serving.old }
    ensures sound { fault_of_serving serving.new ≡ fault_of_serving serving.old }
    ensures records { records_answered serving.new ≡ records_answered serving.old }
    ensures fault { W.has_failed sink.new ≡ (is_err result || W.has_failed sink.old) }
{
    let due = serving.output();
    let count = due.len();
    if count == 0 {
        return Ok(0);
    }
    write_all(sink, due)?;
    serving.wrote(count);
    Ok(1)
}
