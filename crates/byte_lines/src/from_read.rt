//! A source made of a reader of std.
ghost use Rattle.std.specs.Prelude.{◌≡◌, ◌+◌, ◌-◌, ◌^◌, ◌≤◌, false, is_err, IsErr, IfOk, OnErr};
ghost use Rattle.std.specs.Prelude.{OkIff, MatchResult};
ghost use Rattle.std.proofs.Common.{rules};

use crate::error::Fault;
use crate::source::Source;
use std::io;
use std::io::Read;

/// A source over a reader of std. Each error of the reader counts as a failure, also an interrupted
/// read, and so does a read that would pass 2^64 - 1 bytes in all.
#[derive(Drop)]
pub struct FromRead<R> {
    reader: R,
    count: u64,
    failed: bool,
}

impl<R: Read> FromRead<R> {
    ghost use Rattle.byte_lines.specs.Adaptor.{reader_of, reader_failed, bytes_allowed};

    /// A source of all that the reader gives from here on.
    pub fn new(reader: R) -> FromRead<R>
        ensures reader { reader_of result ≡ reader }
        ensures allowed { bytes_allowed result ≡ 2 ^ 64 - 1 }
        ensures sound { reader_failed result ≡ false }
    {
        FromRead {
            reader,
            count: 0,
            failed: false,
        }
    }

    // What a read of the reader is to the source.
    fn settle(&mut self, read: io::Result<usize>) -> Result<usize, Fault>
        requires { reader_failed self.old ≡ false }
        ensures outcome { MatchResult read
            (λ n. OkIff result (n ≤ bytes_allowed self.old) n) (λ _. IsErr result) }
        ensures spent { IfOk result (λ n. bytes_allowed self.new + n ≡ bytes_allowed self.old) }
        ensures unspent { OnErr result (bytes_allowed self.new ≡ bytes_allowed self.old) }
        ensures fault { reader_failed self.new ≡ is_err result }
        ensures reader { reader_of self.new ≡ reader_of self.old }
    {
        if let Ok(n) = read
            && let Some(count) = self.count.checked_add(n as u64)
        {
            self.count = count;
            return Ok(n);
        }
        self.failed = true;
        Err(Fault)
    }
}

impl<R: Read> Source for FromRead<R> {
    ghost use Rattle.byte_lines.specs.Adaptor.{reader_of, reader_failed, bytes_allowed};

    ghost remaining = { λ source. R.remaining (reader_of source) };

    ghost budget = { bytes_allowed };

    ghost has_failed = { reader_failed };

    ghost bounded = { Prim.search rules };

    fn read(&mut self, buffer: &mut [u8]) -> Result<usize, Fault> {
        if self.failed {
            return Err(Fault);
        }
        let read = self.reader.read(buffer);
        self.settle(read)
    }

    fn failed(&self) -> bool {
        self.failed
    }
}
