//! The device that bytes are written to.
ghost use Rattle.std.specs.Prelude.{◌≡◌, ℕ, ◌<◌, ◌||◌, List, Bool, true, false, length, is_err};
ghost use Rattle.std.specs.Prelude.{Option, IfOk, OnOk, IsOk, IsErr};
ghost use Rattle.std.specs.Io.{WritesAtMost};
ghost use Rattle.std.specs.Io.KnownBytes.{Appends, WriteAppends};
ghost use Rattle.byte_lines.specs.Device.{AppendsBeginning};

use crate::error::Fault;

/// Takes bytes, piece by piece.
///
/// A sink that failed once has failed for good.
pub trait Sink {
    // The bytes that the sink holds, if it knows them.
    ghost contents: { Self → Option (List ℕ) };

    // Whether a write failed.
    ghost has_failed: { Self → Bool };

    /// Takes a beginning of `bytes`, and returns its length, which is at least 1 for bytes that are
    /// not empty. If it fails it takes nothing.
    fn write(&mut self, bytes: &[u8]) -> Result<usize, Fault>
        ensures bound { WritesAtMost result bytes.now }
        ensures progress { IfOk result (λ n. 0 < length bytes.now → 0 < n) }
        ensures appends { WriteAppends (contents self.old) (contents self.new) result bytes.now }

        ensures fault { has_failed self.new ≡ is_err result }
        ensures lasting { OnOk result (has_failed self.old ≡ false) };

    /// Whether a write failed.
    fn failed(&self) -> bool
        ensures { result ≡ has_failed self.now };
}

impl<W: Sink> Sink for &mut W {
    ghost contents = { λ sink. W.contents sink.now };

    ghost has_failed = { λ sink. W.has_failed sink.now };

    fn write(&mut self, bytes: &[u8]) -> Result<usize, Fault> {
        Sink::write(&mut **self, bytes)
    }

    fn failed(&self) -> bool {
        Sink::failed(&**self)
    }
}

/// Writes all of `bytes`, in the pieces that the sink takes. After a failure the sink has taken a
/// beginning of `bytes`. Empty bytes need no write, so they are Ok even if the sink has failed.
pub fn write_all<W: Sink>(sink: &mut W, bytes: &[u8]) -> Result<(), Fault>
    ensures ok { OnOk result (Appends (W.contents sink.old) (W.contents sink.new) bytes.now) }
    ensures beginning { AppendsBeginning (W.contents sink.old) (W.contents sink.new) bytes.now }
    ensures no_bytes { length bytes.now ≡ 0 → IsOk result }

    ensures io { IsErr result → W.has_failed sink.new ≡ true }
    ensures fault { W.has_failed sink.new ≡ (is_err result || W.has_failed sink.old) }
    ensures lasting { OnOk result (0 < length bytes.now → W.has_failed sink.old ≡ false) }
{
    let mut written = 0;
    'pieces: while written < bytes.len() {
        written += sink.write(&bytes[written..])?;
    }
    Ok(())
}
