//! Texts that are written in two parts.
ghost use Rattle.std.specs.Prelude.{◌≡◌, ◌++◌, ◌||◌, true, is_err, IsErr, OnOk};
ghost use Rattle.std.specs.Io.KnownBytes.{Appends};
ghost use Rattle.byte_lines.specs.Device.{AppendsBeginning};

use byte_lines::{Fault, Sink, write_all};

/// Writes the first part and then the second one, as [`write_all`] writes both as one text.
pub(crate) fn write_both<W: Sink>(sink: &mut W, first: &[u8], second: &[u8]) -> Result<(), Fault>
    ensures ok { OnOk result
        (Appends (W.contents sink.old) (W.contents sink.new) (first.now ++ second.now)) }
    ensures beginning { AppendsBeginning (W.contents sink.old) (W.contents sink.new)
        (first.now ++ second.now) }
    ensures io { IsErr result → W.has_failed sink.new ≡ true }
    ensures fault { W.has_failed sink.new ≡ (is_err result || W.has_failed sink.old) }
{
    byte_lines::laws::pieces();
    write_all(sink, first)?;
    write_all(sink, second)
}
