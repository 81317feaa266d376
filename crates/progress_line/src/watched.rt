//! A reader and a writer that have their bytes counted.
use crate::progress::WorkProgress;
use std::io;
use std::io::{Eprint, Read, Write};
use std::time::Clock;

/// A reader whose bytes are noted as they come.
#[derive(Drop)]
pub struct WatchedReader<'p, 'a, T, R> {
    reader: T,
    progress: &'p mut WorkProgress<'a, R>,
}

impl<'p, 'a, T: Read, R: Clock + Eprint> WatchedReader<'p, 'a, T, R> {
    /// All that the reader gives from here on.
    pub fn new(reader: T, progress: &'p mut WorkProgress<'a, R>) -> WatchedReader<'p, 'a, T, R> {
        WatchedReader { reader, progress }
    }
}

impl<T: Read, R: Clock + Eprint> Read for WatchedReader<'_, '_, T, R> {
    fn read(&mut self, buffer: &mut [u8]) -> io::Result<usize> {
        let read = self.reader.read(buffer)?;
        self.progress.note(&buffer[..read]);
        Ok(read)
    }
}

/// A writer whose bytes are noted as they are taken.
#[derive(Drop)]
pub struct WatchedWriter<'p, 'a, T, R> {
    writer: T,
    progress: &'p mut WorkProgress<'a, R>,
}

impl<'p, 'a, T: Write, R: Clock + Eprint> WatchedWriter<'p, 'a, T, R> {
    /// All that the writer takes from here on.
    pub fn new(writer: T, progress: &'p mut WorkProgress<'a, R>) -> WatchedWriter<'p, 'a, T, R> {
        WatchedWriter { writer, progress }
    }
}

impl<T: Write, R: Clock + Eprint> Write for WatchedWriter<'_, '_, T, R> {
    fn write(&mut self, bytes: &[u8]) -> io::Result<usize> {
        let taken = self.writer.write(bytes)?;
        self.progress.note(&bytes[..taken]);
        Ok(taken)
    }

    fn flush(&mut self) -> io::Result<()> {
        self.writer.flush()
    }
}
