//! Two texts, compared line by line.
ghost use Rattle.std.specs.Prelude.{◌≡◌, ◌++◌, ◌||◌, true, Err, IfOk, OnOk, flat_map};
ghost use Rattle.std.specs.Io.KnownBytes.{Appends};
ghost use Rattle.byte_lines.specs.Device.{AppendsBeginning, is_source_fault};
ghost use Rattle.byte_lines.specs.declared.error.DeviceError.TheVariants.{Io, NoMemory};
ghost use Rattle.text_lines.specs.TextLines.{difference_text, has_line, lines_lacking, marked_line};

use crate::text_line::TextLine;
use byte_lines::{DeviceError, Sink, write_all};
use std::alloc::{AllocError, Global};

/// Writes each line of `one` that `other` lacks, after `- `, and then each line of `other` that
/// `one` lacks, after `+ `. Both keep their order, and a line that is repeated is written as often.
/// All memory is taken before the first byte is written.
///
/// The work grows with the product of the numbers of lines.
///
/// # Errors
/// - [`DeviceError::Io`]: the sink failed, and holds a beginning of the text.
/// - [`DeviceError::NoMemory`]: memory ran out. Nothing was written.
pub fn write_difference<W: Sink>(
    alloc: Global,
    one: &[TextLine],
    other: &[TextLine],
    sink: &mut W,
) -> Result<(), DeviceError>
    ensures ok { OnOk result
        (Appends (W.contents sink.old) (W.contents sink.new) (difference_text one.now other.now)) }
    ensures io { result ≡ Err Io → (W.has_failed sink.new ≡ true)
        × AppendsBeginning (W.contents sink.old) (W.contents sink.new)
        (difference_text one.now other.now) }
    ensures memory { result ≡ Err NoMemory → sink.new ≡ sink.old }
    ensures fault { W.has_failed sink.new ≡ (is_source_fault result || W.has_failed sink.old) }
{
    let text = render(alloc, one, other)?;
    write_all(sink, text.as_slice())?;
    Ok(())
}

fn render(alloc: Global, one: &[TextLine], other: &[TextLine]) -> Result<Vec<u8>, AllocError>
    ensures { IfOk result (λ text. text.items ≡ difference_text one.now other.now) }
{
    let mut text = Vec::new(alloc);
    push_lacking(&mut text, b"- ", one, other)?;
    push_lacking(&mut text, b"+ ", other, one)?;
    Ok(text)
}

// Adds the lines of the one that the other lacks.
fn push_lacking(
    text: &mut Vec<u8>,
    mark: &[u8],
    one: &[TextLine],
    other: &[TextLine],
) -> Result<(), AllocError>
    ensures { OnOk result (text.new.items ≡ text.old.items
        ++ flat_map (marked_line mark.now) (lines_lacking one.now other.now)) }
{
    for line in one {
        if !holds_line(other, line) {
            push_marked(text, mark, line)?;
        }
    }
    Ok(())
}

fn push_marked(text: &mut Vec<u8>, mark: &[u8], line: &TextLine) -> Result<(), AllocError>
    ensures { OnOk result (text.new.items ≡ text.old.items ++ marked_line mark.now line.now) }
{
    text.extend_from_slice(mark)?;
    text.extend_from_slice(line.as_slice())?;
    text.extend_from_slice(b"\n")
}

fn holds_line(lines: &[TextLine], wanted: &TextLine) -> bool
    ensures { result ≡ has_line lines.now wanted.now }
{
    lines
        .iter()
        .any(|line| line.as_slice() == wanted.as_slice())
}
