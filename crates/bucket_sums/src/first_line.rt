//! What the first line of a connection begins.
ghost use Rattle.std.specs.Prelude.{◌≡◌, IfOk, IfErr};
ghost use Rattle.replica_sync.specs.Pieces.{kept_part, longest};
ghost use Rattle.bucket_sums.specs.Inside.OpeningSteps.{BeginsAs, RefusesOpeningLine};
ghost use Rattle.bucket_sums.specs.Questions.{longest_line};

use fed_config::Config;
use replica_sync::{LinePart, PieceEnd, SyncError, read_first_line};

/// What the first line of a connection begins.
#[derive(Clone, Copy, Debug, PartialEq, Eq)]
pub(crate) enum FirstLine {
    /// The line has not ended.
    Within,
    /// A question of sums. The line ended after this many bytes of the piece.
    Sums(usize),
    /// Anything else: haves.
    Haves,
}

/// Takes the next bytes of the first line.
///
/// # Errors
/// [`SyncError::ConfigDiffers`], [`SyncError::VersionDiffers`]: it is the first line of a question
/// of another configuration, or in another format; [`SyncError::NoMemory`]: memory ran out.
pub(crate) fn take_first_line(
    part: &mut LinePart,
    config: &Config,
    piece: &[u8],
) -> Result<FirstLine, SyncError>
    requires { longest part.old ≡ longest_line }
    ensures ok { IfOk result
        (BeginsAs config.now (kept_part part.old) piece.now (kept_part part.new)) }
    ensures refused { IfErr result (RefusesOpeningLine config.now (kept_part part.old) piece.now) }
    ensures limit { longest part.new ≡ longest part.old }
{
    match part.take(piece)? {
        PieceEnd::Within => Ok(FirstLine::Within),
        PieceEnd::TooLong => Ok(FirstLine::Haves),
        PieceEnd::Line(used) => match read_first_line(config, part.line()) {
            Ok(()) => Ok(FirstLine::Sums(used)),
            Err(SyncError::BadHeader) => Ok(FirstLine::Haves),
            Err(why) => Err(why),
        },
    }
}
