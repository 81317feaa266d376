//! The line on standard error that reports a refusal.
ghost use Rattle.std.specs.Prelude.{◌≡◌, ◌≤◌, true, OnOk, IfErr, IsErr};
ghost use Rattle.command_exits.specs.Fault.{AppendsFault, BeginsFault, fault_line};
ghost use Rattle.command_exits.specs.declared.error.CommandError.TheVariants.{Io};
ghost use Rattle.std.specs.Io.KnownBytes.{Appends};
ghost use Rattle.byte_lines.specs.Device.{AppendsBeginning};

use crate::error::CommandError;
use byte_lines::{Fault, Sink, write_all};
use std::fmt;
use std::fmt::Write;

/// Writes `fedbundle: `, the error's text and a line feed. It takes no memory.
///
/// # Errors
/// `Io` if the sink failed, which then holds a beginning of the line.
pub fn write_fault<W: Sink>(error: &CommandError, sink: &mut W) -> Result<(), CommandError>
    ensures ok { OnOk result (AppendsFault (W.contents sink.old) (W.contents sink.new)) }
    ensures io { IfErr result (λ e. (e ≡ Io) × (W.has_failed sink.new ≡ true)
        × BeginsFault (W.contents sink.old) (W.contents sink.new)) }
{
    let text = FaultText::of(error);
    write_line(text.as_bytes(), sink)?;
    Ok(())
}

fn write_line<W: Sink>(text: &[u8], sink: &mut W) -> Result<(), Fault>
    ensures ok { OnOk result
        (Appends (W.contents sink.old) (W.contents sink.new) (fault_line text.now)) }
    ensures beginning { AppendsBeginning (W.contents sink.old) (W.contents sink.new)
        (fault_line text.now) }
    ensures io { IsErr result → W.has_failed sink.new ≡ true }
{
    byte_lines::laws::pieces();
    write_all(sink, b"fedbundle: ")?;
    write_all(sink, text)?;
    write_all(sink, b"\n")
}

/// The most bytes of an error's text.
const MAX_FAULT_BYTES: usize = 240;

/// An error's text in a fixed place, since lack of memory has to be reported too.
#[derive(Drop)]
struct FaultText {
    bytes: [u8; MAX_FAULT_BYTES],
    len: usize,
    ghost within: { len ≤ 240 },
}

impl FaultText {
    fn of(error: &CommandError) -> FaultText {
        let mut text = FaultText {
            bytes: [0; MAX_FAULT_BYTES],
            len: 0,
        };
        // A piece that does not fit is left out.
        let _ = write!(text, "{error}");
        text
    }

    fn as_bytes(&self) -> &[u8] {
        &self.bytes[..self.len]
    }
}

impl fmt::Write for FaultText {
    fn write_str(&mut self, piece: &str) -> fmt::Result {
        let start = self.len;
        if piece.len() > MAX_FAULT_BYTES - start {
            return Err(fmt::Error);
        }
        let end = start + piece.len();
        self.bytes[start..end].copy_from_slice(piece.as_bytes());
        self.len = end;
        Ok(())
    }
}
