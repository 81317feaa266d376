//! The error of a line that was refused before its end was read.
ghost use Rattle.std.specs.Prelude.{◌≡◌, ◌<◌, ◌||◌, IfOk, is_err};
ghost use Rattle.std.specs.Io.KnownBytes.{prepend_known};
ghost use Rattle.byte_lines.specs.Ahead.{ahead_of, chunk_room};
ghost use Rattle.replica_sync.specs.Inside.LineErrors.{IsLineError};

use crate::line_part::line_feed;
use byte_lines::{Fault, ReadAhead, Source};
use replica_core::SyncError;

// The error of a line refused for this. It counts only if the line ends; its rest is passed.
pub(crate) fn error_of_line<R: Source>(
    why: SyncError,
    ahead: &mut ReadAhead,
    source: &mut R,
) -> Result<SyncError, Fault>
    requires { 0 < chunk_room ahead.old }
    ensures line { IfOk result
        (IsLineError why (prepend_known (ahead_of ahead.old) (R.remaining source.old))) }
    ensures fault { R.has_failed source.new ≡ (is_err result || R.has_failed source.old) }
{
    'pieces: while ahead.fill(source)? {
        let piece = ahead.as_slice();
        if let Some(_) = line_feed(piece) {
            return Ok(why);
        }
        let count = piece.len();
        ahead.pass(count);
    }
    Ok(SyncError::Truncated)
}
