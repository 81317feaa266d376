//! Whole lines out of the pieces in which their bytes come.
ghost use Rattle.std.specs.Prelude.{◌≡◌, ◌≤◌, [], false, IfOk, OnErr, vec_len};
ghost use Rattle.std.specs.Prelude.{◌↔◌, IsTrue};
ghost use Rattle.byte_lines.specs.Lines.{HasNoFeed};
ghost use Rattle.byte_lines.specs.Ahead.{AtFeed};

use memchr::memchr;
use std::alloc::{AllocError, Global};

/// How a piece of bytes ended.
#[derive(Clone, Copy, Debug, PartialEq, Eq)]
pub enum PieceEnd {
    /// Within a line: all of the piece is kept.
    Within,
    /// A line ended in it. This is the number of bytes that were taken: those up to the line's line
    /// feed, and that one. The others belong to the lines after it, and are to be given again.
    Line(usize),
    /// It makes the line longer than it may be. Nothing of it was taken.
    TooLong,
}

/// The beginning of a line, kept until its line feed (byte 10) comes. It is given the bytes of a
/// stream in pieces of any size, and the places at which pieces end mean nothing.
///
/// Each byte is looked at and copied once. Memory is taken for one line of at most the limit.
#[derive(Drop)]
pub struct LinePart {
    // The line that ended last, or the beginning of the next one.
    line: Vec<u8>,
    has_ended: bool,
    limit: usize,
    ghost within: { vec_len line ≤ limit },
    ghost unbroken: { HasNoFeed line.items },
}

impl LinePart {
    ghost use Rattle.replica_sync.specs.Pieces.{kept_part, ended_line, longest, piece_run};
    ghost use Rattle.replica_sync.specs.Pieces.{TakesPiece};

    /// Keeps nothing yet. A line may have at most `limit` bytes, without its line feed.
    pub fn new(alloc: Global, limit: usize) -> LinePart
        ensures empty { kept_part result ≡ [] }
        ensures limit { longest result ≡ limit }
    {
        LinePart {
            line: Vec::new(alloc),
            has_ended: false,
            limit,
        }
    }

    /// Takes the next bytes of the stream, up to the end of a line at most.
    ///
    /// # Errors
    /// Memory ran out. Nothing was taken: the piece may be given again.
    pub fn take(&mut self, piece: &[u8]) -> Result<PieceEnd, AllocError>
        ensures takes { IfOk result
            (TakesPiece (piece_run (longest self.old) (kept_part self.old) piece.now) self.new) }
        ensures refused { OnErr result (kept_part self.new ≡ kept_part self.old) }
        ensures limit { longest self.new ≡ longest self.old }
    {
        self.begin();
        let place = line_feed(piece);
        let count = place.unwrap_or(piece.len());
        if count > self.limit - self.line.len() {
            return Ok(PieceEnd::TooLong);
        }
        self.line.extend_from_slice(&piece[..count])?;
        if place.is_none() {
            return Ok(PieceEnd::Within);
        }
        self.has_ended = true;
        Ok(PieceEnd::Line(count + 1))
    }

    // Lets go of the line that ended.
    fn begin(&mut self)
        ensures kept { kept_part self.new ≡ kept_part self.old }
        ensures open { self.new.has_ended ≡ false }
        ensures limit { longest self.new ≡ longest self.old }
    {
        if self.has_ended {
            self.line.clear();
            self.has_ended = false;
        }
    }

    /// The line that ended in the last piece, without its line feed. If none did, the beginning of
    /// a line that is kept.
    pub fn line(&self) -> &[u8]
        ensures { result.now ≡ ended_line self.now }
    {
        self.line.as_slice()
    }

    /// Whether the stream may end here: no beginning of a line is kept.
    pub fn is_empty(&self) -> bool
        ensures { IsTrue result ↔ (kept_part self.now ≡ []) }
    {
        self.has_ended || self.line.is_empty()
    }
}

// The place of the first line feed.
pub(crate) fn line_feed(bytes: &[u8]) -> Option<usize>
    ensures { AtFeed bytes.now result }
{
    memchr(b'\n', bytes)
}
