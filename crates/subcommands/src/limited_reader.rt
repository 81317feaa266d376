//! A reader with a limit, past which it fails.
use std::io;
use std::io::{ErrorKind, Read};

/// A reader that gives at most this many bytes. If there are more it fails, after it has given
/// those.
#[derive(Drop)]
pub(crate) struct LimitedReader<R> {
    reader: R,
    left: u64,
    has_passed: bool,
}

impl<R: Read> LimitedReader<R> {
    pub(crate) fn new(reader: R, most: u64) -> LimitedReader<R> {
        LimitedReader {
            reader,
            left: most,
            has_passed: false,
        }
    }

    /// Whether it failed because there were more bytes.
    pub(crate) fn has_passed(&self) -> bool {
        self.has_passed
    }

    // Looks for a byte that would be one too many.
    fn read_past(&mut self) -> io::Result<()> {
        let mut byte = [0; 1];
        if self.reader.read(&mut byte)? == 0 {
            return Ok(());
        }
        self.has_passed = true;
        Err(io::Error::from(ErrorKind::FileTooLarge))
    }
}

impl<R: Read> Read for LimitedReader<R> {
    fn read(&mut self, buffer: &mut [u8]) -> io::Result<usize> {
        if self.left == 0 && !buffer.is_empty() {
            self.read_past()?;
            return Ok(0);
        }
        let left = usize::try_from(self.left).unwrap_or(usize::MAX);
        let room = left.min(buffer.len());
        let read = self.reader.read(&mut buffer[..room])?;
        self.left = self.left.saturating_sub(read as u64);
        Ok(read)
    }
}
