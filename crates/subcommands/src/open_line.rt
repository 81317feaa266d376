//! The line of a stream that has not ended yet.
use replica_core::SyncError;
use std::io;
use std::io::Read;

/// The most bytes that a line may have, without its line feed.
const LONGEST_LINE: u64 = 8_388_608;

/// How many bytes the line has that has not ended yet.
#[derive(Clone, Copy)]
pub(crate) struct OpenLine {
    bytes: u64,
}

impl OpenLine {
    pub(crate) fn new() -> OpenLine {
        OpenLine { bytes: 0 }
    }

    fn note(&mut self, piece: &[u8]) {
        self.bytes = match piece.iter().rposition(|byte| *byte == b'\n') {
            Some(place) => piece.len().saturating_sub(place.saturating_add(1)) as u64,
            None => self.bytes.saturating_add(piece.len() as u64),
        };
    }

    /// The error of a session that a line ended. One that is too long is refused before its end,
    /// and that counts only if it has one: so the rest of the stream is read up to there.
    pub(crate) fn error_of<R: Read>(&self, why: SyncError, rest: &mut R) -> SyncError {
        if self.bytes <= LONGEST_LINE || why == SyncError::NoMemory {
            return why;
        }
        match finds_end(rest) {
            Ok(true) => why,
            Ok(false) => SyncError::Truncated,
            Err(_) => SyncError::Io,
        }
    }
}

// Reads on to the end of the line. Returns whether it has one.
fn finds_end<R: Read>(rest: &mut R) -> io::Result<bool> {
    let mut piece = [0; 4_096];
    for _ in 0..u64::MAX {
        let count = rest.read(&mut piece)?;
        if count == 0 {
            return Ok(false);
        }
        if piece[..count].contains(&b'\n') {
            return Ok(true);
        }
    }
    Ok(false)
}

/// A reader that notes the line which has not ended yet.
#[derive(Drop)]
pub(crate) struct LineReader<'a, R> {
    reader: R,
    line: &'a mut OpenLine,
}

impl<'a, R: Read> LineReader<'a, R> {
    pub(crate) fn new(reader: R, line: &'a mut OpenLine) -> LineReader<'a, R> {
        LineReader { reader, line }
    }
}

impl<R: Read> Read for LineReader<'_, R> {
    fn read(&mut self, buffer: &mut [u8]) -> io::Result<usize> {
        let count = self.reader.read(buffer)?;
        self.line.note(&buffer[..count]);
        Ok(count)
    }
}
