//! A source that fails after a number of reads, to test failures in the middle of a stream.
ghost use Rattle.std.specs.Prelude.{◌≡◌, ◌==◌, ◌||◌, ◌+◌, ◌<◌, ◌≤◌, false, length, take, is_err};
ghost use Rattle.std.specs.Prelude.{IfOk, OnOk};
ghost use Rattle.std.specs.Io.{ReadsAtMost};
ghost use Rattle.std.specs.Io.KnownBytes.{Consumes, IsAtEnd};

use crate::error::Fault;
use crate::source::Source;

/// A source that passes a number of reads on to another, and then fails.
#[derive(Drop)]
pub struct FuseSource<S> {
    inner: S,
    calls_left: u64,
    blown: bool,
}

impl<S: Source> FuseSource<S> {
    ghost use Rattle.byte_lines.specs.Fuse.{source_of, reads_left, source_blew};

    /// A source of the bytes of `inner` for `calls` reads.
    pub fn new(inner: S, calls: u64) -> FuseSource<S>
        ensures inner { source_of result ≡ inner }
        ensures calls { reads_left result ≡ calls }
        ensures whole { source_blew result ≡ false }
    {
        FuseSource {
            inner,
            calls_left: calls,
            blown: false,
        }
    }
}

impl<S: Source> Source for FuseSource<S> {
    ghost use Rattle.byte_lines.specs.Fuse.{source_of, reads_left, source_blew};

    ghost remaining = { λ fuse. S.remaining (source_of fuse) };

    ghost budget = { λ fuse. S.budget (source_of fuse) };

    ghost has_failed = { λ fuse. source_blew fuse || S.has_failed (source_of fuse) };

    ghost bounded = { λ fuse. S.bounded (source_of fuse) };

    fn read(&mut self, buffer: &mut [u8]) -> Result<usize, Fault>
        ensures bound { ReadsAtMost result buffer.new }
        ensures consumes { IfOk result (λ n. Consumes (S.remaining (source_of self.old))
            (S.remaining (source_of self.new)) (take n buffer.new)) }
        ensures end { IfOk result
            (λ n. n ≡ 0 → 0 < length buffer.old → IsAtEnd (S.remaining (source_of self.new))) }
        ensures spends { IfOk result
            (λ n. S.budget (source_of self.new) + n ≤ S.budget (source_of self.old)) }
        ensures budget_falls { S.budget (source_of self.new) ≤ S.budget (source_of self.old) }
        ensures fault { (source_blew self.new || S.has_failed (source_of self.new))
            ≡ is_err result }
        ensures lasting { OnOk result
            ((source_blew self.old || S.has_failed (source_of self.old)) ≡ false) }

        // It blows at the read after the last one that it passes on.
        ensures blows { source_blew self.new
            ≡ (source_blew self.old || (reads_left self.old == 0)) }
        ensures counts { source_blew self.new ≡ false
            → reads_left self.new + 1 ≡ reads_left self.old }
    {
        if self.blown || self.calls_left == 0 {
            self.blown = true;
            return Err(Fault);
        }
        self.calls_left -= 1;
        self.inner.read(buffer)
    }

    fn failed(&self) -> bool {
        self.blown || self.inner.failed()
    }
}
