//! A sink that fails after a number of writes, to test failures in the middle of a stream.
ghost use Rattle.std.specs.Prelude.{◌≡◌, ◌==◌, ◌||◌, ◌+◌, ◌<◌, false, length, is_err, IfOk, OnOk};
ghost use Rattle.std.specs.Io.{WritesAtMost};
ghost use Rattle.std.specs.Io.KnownBytes.{WriteAppends};

use crate::error::Fault;
use crate::sink::Sink;

/// A sink that passes a number of writes on to another, and then fails.
#[derive(Drop)]
pub struct FuseSink<W> {
    inner: W,
    calls_left: u64,
    blown: bool,
}

impl<W: Sink> FuseSink<W> {
    ghost use Rattle.byte_lines.specs.Fuse.{sink_of, writes_left, sink_blew};

    /// A sink whose bytes go to `inner` for `calls` writes.
    pub fn new(inner: W, calls: u64) -> FuseSink<W>
        ensures inner { sink_of result ≡ inner }
        ensures calls { writes_left result ≡ calls }
        ensures whole { sink_blew result ≡ false }
    {
        FuseSink {
            inner,
            calls_left: calls,
            blown: false,
        }
    }

    /// The sink inside, with what it was given.
    pub fn into_inner(self) -> W
        ensures { result ≡ sink_of self }
    {
        self.inner
    }
}

impl<W: Sink> Sink for FuseSink<W> {
    ghost use Rattle.byte_lines.specs.Fuse.{sink_of, writes_left, sink_blew};

    ghost contents = { λ fuse. W.contents (sink_of fuse) };

    ghost has_failed = { λ fuse. sink_blew fuse || W.has_failed (sink_of fuse) };

    fn write(&mut self, bytes: &[u8]) -> Result<usize, Fault>
        ensures bound { WritesAtMost result bytes.now }
        ensures progress { IfOk result (λ n. 0 < length bytes.now → 0 < n) }
        ensures appends { WriteAppends (W.contents (sink_of self.old))
            (W.contents (sink_of self.new)) result bytes.now }
        ensures fault { (sink_blew self.new || W.has_failed (sink_of self.new)) ≡ is_err result }
        ensures lasting { OnOk result
            ((sink_blew self.old || W.has_failed (sink_of self.old)) ≡ false) }

        // It blows at the write after the last one that it passes on.
        ensures blows { sink_blew self.new ≡ (sink_blew self.old || (writes_left self.old == 0)) }
        ensures counts { sink_blew self.new ≡ false
            → writes_left self.new + 1 ≡ writes_left self.old }
    {
        if self.blown || self.calls_left == 0 {
            self.blown = true;
            return Err(Fault);
        }
        self.calls_left -= 1;
        self.inner.write(bytes)
    }

    fn failed(&self) -> bool {
        self.blown || self.inner.failed()
    }
}
