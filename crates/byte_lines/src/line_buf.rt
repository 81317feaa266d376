//! Lines of a source.
ghost use Rattle.std.specs.Prelude.{◌≡◌, ◌+◌, ◌-◌, ◌<◌, ◌≤◌, ◌||◌, ◌++◌, ◌∷◌, ℕ, List, true, false};
ghost use Rattle.std.specs.Prelude.{[], length, take, drop, is_err, IfOk, OnOk, OnErr, IsErrOf};
ghost use Rattle.std.specs.Prelude.{vec_len};
ghost use Rattle.std.specs.Borrow.{sem};
ghost use Rattle.std.specs.Io.KnownBytes.{Keeps, Consumes, IsAtEnd};
ghost use Rattle.byte_lines.specs.Device.{is_source_fault};
ghost use Rattle.byte_lines.specs.Lines.{HasNoFeed};
ghost use Rattle.byte_lines.specs.Limits.{line_limit};

use crate::error::DeviceError;
use crate::read_ahead::ReadAhead;
use crate::source::Source;
use std::alloc::{AllocError, Global};

/// The most bytes of a line that is given, without its line feed.
const LONGEST_LINE: usize = 8_388_608;

/// What a source has next.
#[derive(Debug)]
pub enum Line<'a> {
    /// A line of at most 8,388,608 bytes, without the line feed (byte 10) that ends it.
    Text(&'a [u8]),
    /// A longer line, with the line feed that ends it. Its bytes are lost.
    TooLong,
    /// Bytes that no line feed ends, of whatever length, at least one. They are lost.
    Cut,
    /// No byte.
    End,
}

/// Gives the lines of a source, one after another. It keeps the bytes that it read ahead, and the
/// beginning of a line of which it could not read more: at most 8,388,608 bytes and one chunk of
/// 65,536 bytes. How the bytes are cut into pieces means nothing.
#[derive(Drop)]
pub struct LineBuf {
    ahead: ReadAhead,
    // The line that was given last, or the beginning of the next one.
    line: Vec<u8>,
    is_given: bool,
    ghost within: { vec_len line ≤ line_limit },
    ghost unbroken: { HasNoFeed line.items },
}

impl LineBuf {
    ghost use Rattle.byte_lines.specs.Loan.{IsGivenBack};
    ghost use Rattle.byte_lines.specs.Ahead.{ahead_of, chunk_room};
    ghost use Rattle.byte_lines.specs.Streams.{kept, state_of_stream, TakesLine};
    ghost use Rattle.byte_lines.specs.Inside.Steps.{TakesFound, GathersLine};

    /// A buffer that keeps nothing yet. No memory is taken before the first line is asked for.
    pub fn new(alloc: Global) -> LineBuf
        ensures { kept result ≡ [] }
    {
        LineBuf {
            ahead: ReadAhead::new(alloc),
            line: Vec::new(alloc),
            is_given: false,
        }
    }

    /// The next line of what is kept followed by what the source still has. Each byte is copied
    /// once, and nothing of a line that is too long is kept while the rest of it is passed.
    ///
    /// # Errors
    ///
    /// `Io` if the source failed and no whole line was kept: the lines that were read before a
    /// failure are given before it is. After `Io` nothing is said of what remains. `NoMemory` if
    /// the allocator refused: no byte is lost, and the next call begins at the same line.
    pub fn next_line<R: Source>(&mut self, source: &mut R) -> Result<Line<'_>, DeviceError>
        ensures* takes { sem 𝓛 (IsGivenBack self.entry (λ new. TakesLine
            (state_of_stream R.remaining R.budget self.old source.old)
            (state_of_stream R.remaining R.budget new source.new) result)) }
        ensures lines_first { is_source_fault result ≡ true → HasNoFeed (kept self.old) }
        ensures fault { R.has_failed source.new
            ≡ (is_source_fault result || R.has_failed source.old) }
    {
        match self.advance(source)? {
            Found::Text => Ok(Line::Text(self.line.as_slice())),
            Found::TooLong => Ok(Line::TooLong),
            Found::Cut => Ok(Line::Cut),
            Found::End => Ok(Line::End),
        }
    }

    // The same, but it leaves the line in `line`.
    fn advance<R: Source>(&mut self, source: &mut R) -> Result<Found, DeviceError>
        ensures takes { TakesFound (state_of_stream R.remaining R.budget self.old source.old)
            (state_of_stream R.remaining R.budget self.new source.new) self.new.line.items result }
        ensures lines_first { is_source_fault result ≡ true → HasNoFeed (kept self.old) }
        ensures fault { R.has_failed source.new
            ≡ (is_source_fault result || R.has_failed source.old) }
    {
        self.begin()?;
        'pieces: while self.ahead.fill(source)? {
            match self.gather()? {
                Gathered::Part => {}
                Gathered::Line => return Ok(Found::Text),
                Gathered::TooMuch => {
                    let is_ended = self.ahead.skip_line(source)?;
                    return Ok(if is_ended { Found::TooLong } else { Found::Cut });
                }
            }
        }
        if self.line.len() == 0 {
            return Ok(Found::End);
        }
        self.is_given = true;
        Ok(Found::Cut)
    }

    // Lets go of the line that was given, and takes memory for the chunk.
    fn begin(&mut self) -> Result<(), AllocError>
        ensures kept { kept self.new ≡ kept self.old }
        ensures ready { OnOk result (0 < chunk_room self.new.ahead) }
        ensures open { self.new.is_given ≡ false }
    {
        if self.is_given {
            self.line.clear();
            self.is_given = false;
        }
        self.ahead.reserve()
    }

    // Moves what was read ahead to the line, up to the line feed. Nothing of a line that grows too
    // long is kept.
    fn gather(&mut self) -> Result<Gathered, AllocError>
        requires open { self.old.is_given ≡ false }
        ensures gathers { GathersLine self.old self.new result }
        ensures room { chunk_room self.new.ahead ≡ chunk_room self.old.ahead }
    {
        let place = self.ahead.line_feed();
        let piece = self.ahead.as_slice();
        let count = place.unwrap_or(piece.len());
        if count > LONGEST_LINE - self.line.len() {
            self.line.clear();
            self.ahead.pass(count);
            return Ok(Gathered::TooMuch);
        }
        self.line.extend_from_slice(&piece[..count])?;
        if place.is_none() {
            self.ahead.pass_all();
            return Ok(Gathered::Part);
        }
        self.ahead.pass(count + 1);
        self.is_given = true;
        Ok(Gathered::Line)
    }
}

// What `advance` found.
enum Found {
    Text,
    TooLong,
    Cut,
    End,
}

// What `gather` found.
enum Gathered {
    // All that was read ahead, and no line feed.
    Part,
    // A line.
    Line,
    // The beginning of a line that is too long, which was passed.
    TooMuch,
}
