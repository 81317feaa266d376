//! All lines of a text, written.
ghost use Rattle.std.specs.Prelude.{◌≡◌, ◌++◌, ◌||◌, true, Err, IfOk, OnOk};
ghost use Rattle.std.specs.Io.KnownBytes.{Appends};
ghost use Rattle.byte_lines.specs.Device.{AppendsBeginning, is_source_fault};
ghost use Rattle.byte_lines.specs.declared.error.DeviceError.TheVariants.{Io, NoMemory};
ghost use Rattle.text_lines.specs.TextLines.{line_with_feed, joined_lines};

use crate::text_line::TextLine;
use byte_lines::{DeviceError, Sink, write_all};
use std::alloc::{AllocError, Global};

/// Writes the lines, a line feed after each. All memory is taken before the first byte is written.
///
/// # Errors
/// - [`DeviceError::Io`]: the sink failed, and holds a beginning of the text.
/// - [`DeviceError::NoMemory`]: memory ran out. Nothing was written.
pub fn write_lines<W: Sink>(
    alloc: Global,
    lines: &[TextLine],
    sink: &mut W,
) -> Result<(), DeviceError>
    ensures ok { OnOk result
        (Appends (W.contents sink.old) (W.contents sink.new) (joined_lines lines.now)) }
    ensures io { result ≡ Err Io → (W.has_failed sink.new ≡ true)
        × AppendsBeginning (W.contents sink.old) (W.contents sink.new) (joined_lines lines.now) }
    ensures memory { result ≡ Err NoMemory → sink.new ≡ sink.old }
    ensures fault { W.has_failed sink.new ≡ (is_source_fault result || W.has_failed sink.old) }
{
    let text = render(alloc, lines)?;
    write_all(sink, text.as_slice())?;
    Ok(())
}

fn render(alloc: Global, lines: &[TextLine]) -> Result<Vec<u8>, AllocError>
    ensures { IfOk result (λ text. text.items ≡ joined_lines lines.now) }
{
    let mut text = Vec::new(alloc);
    for line in lines {
        push_ended(&mut text, line)?;
    }
    Ok(text)
}

fn push_ended(text: &mut Vec<u8>, line: &TextLine) -> Result<(), AllocError>
    ensures { OnOk result (text.new.items ≡ text.old.items ++ line_with_feed line.now) }
{
    text.extend_from_slice(line.as_slice())?;
    text.extend_from_slice(b"\n")
}
