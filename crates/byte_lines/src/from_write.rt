//! A sink made of a writer of std.
ghost use Rattle.std.specs.Prelude.{◌≡◌, ◌<◌, false, is_err, IsErr, OkIff, MatchResult};

use crate::error::Fault;
use crate::sink::Sink;
use std::io;
use std::io::Write;

/// A sink over a writer of std. Each error of the writer counts as a failure, also an interrupted
/// write, and so does a write of 0 bytes if there were bytes to write.
///
/// If the writer keeps bytes back, as a `BufWriter` does, a write may be Ok before the bytes are
/// out: take the writer back at the end with `into_inner`, and flush it.
#[derive(Drop)]
pub struct FromWrite<W> {
    writer: W,
    failed: bool,
}

impl<W: Write> FromWrite<W> {
    ghost use Rattle.byte_lines.specs.Adaptor.{writer_of, writer_failed};

    /// A sink whose bytes go to the writer.
    pub fn new(writer: W) -> FromWrite<W>
        ensures writer { writer_of result ≡ writer }
        ensures sound { writer_failed result ≡ false }
    {
        FromWrite {
            writer,
            failed: false,
        }
    }

    /// The writer, with what it was given.
    pub fn into_inner(self) -> W
        ensures { result ≡ writer_of self }
    {
        self.writer
    }

    // What a write of the writer is to the sink, if there were bytes to write.
    fn settle(&mut self, written: io::Result<usize>) -> Result<usize, Fault>
        requires { writer_failed self.old ≡ false }
        ensures outcome { MatchResult written (λ n. OkIff result (0 < n) n) (λ _. IsErr result) }
        ensures fault { writer_failed self.new ≡ is_err result }
        ensures writer { writer_of self.new ≡ writer_of self.old }
    {
        match written {
            Ok(n) if n > 0 => Ok(n),
            _ => {
                self.failed = true;
                Err(Fault)
            }
        }
    }
}

impl<W: Write> Sink for FromWrite<W> {
    ghost use Rattle.byte_lines.specs.Adaptor.{writer_of, writer_failed};

    ghost contents = { λ sink. W.contents (writer_of sink) };

    ghost has_failed = { writer_failed };

    fn write(&mut self, bytes: &[u8]) -> Result<usize, Fault> {
        if self.failed {
            return Err(Fault);
        }
        if bytes.is_empty() {
            return Ok(0);
        }
        let written = self.writer.write(bytes);
        self.settle(written)
    }

    fn failed(&self) -> bool {
        self.failed
    }
}
