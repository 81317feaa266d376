//! Lines that say a number.
ghost use Rattle.std.specs.Prelude.{◌≡◌, ◌||◌, true, is_err, IsErr, OnOk};
ghost use Rattle.std.specs.Io.KnownBytes.{Appends};
ghost use Rattle.byte_lines.specs.Device.{AppendsBeginning};
ghost use Rattle.fedbundle.specs.Counts.{counted};

use byte_lines::{Fault, Sink, write_all};
use itoa::Buffer;

/// Writes a line of the label and the number. It takes no memory.
///
/// # Errors
/// The sink failed, and holds a beginning of the line.
pub fn write_counted<W: Sink>(label: &[u8], count: u64, sink: &mut W) -> Result<(), Fault>
    ensures ok { OnOk result
        (Appends (W.contents sink.old) (W.contents sink.new) (counted label.now count)) }
    ensures beginning { AppendsBeginning (W.contents sink.old) (W.contents sink.new)
        (counted label.now count) }
    ensures io { IsErr result → W.has_failed sink.new ≡ true }
    ensures fault { W.has_failed sink.new ≡ (is_err result || W.has_failed sink.old) }
{
    byte_lines::laws::pieces();
    let mut buffer = Buffer::new();
    write_all(sink, label)?;
    write_all(sink, buffer.format(count).as_bytes())?;
    write_all(sink, b"\n")
}
