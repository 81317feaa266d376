//! What is reported of a line without a receipt that fits.
ghost use Rattle.std.specs.Prelude.{◌≡◌, ◌||◌, true, OnOk, IsErr, is_err};
ghost use Rattle.std.specs.Io.KnownBytes.{Appends};
ghost use Rattle.byte_lines.specs.Device.{AppendsBeginning};
ghost use Rattle.fedbundle.specs.Stream.{line_error_text, why_text};

use byte_lines::{Fault, Sink, write_all};
use itoa::Buffer;

/// Why a line of a stream gives no receipt.
#[derive(Clone, Copy, Debug, PartialEq, Eq)]
pub(crate) enum LineFault {
    /// It is not a receipt's line.
    NotCanonical,
    /// It has more than 8,388,608 bytes.
    TooLong,
    /// The configuration has no relationship with the receipt's domain.
    UnknownDomain,
    /// That relationship has another endpoint than the receipt.
    WrongEndpoint,
    /// The receipt's document is below the floor of its domain.
    BelowFloor,
    /// No line feed ends it.
    Cut,
}

/// Writes the line that reports an error, as `line 2: not canonical`. It takes no memory.
///
/// # Errors
/// The sink failed, and holds a beginning of the line.
pub(crate) fn write_line_error<E: Sink>(
    sink: &mut E,
    number: u64,
    why: LineFault,
) -> Result<(), Fault>
    ensures ok { OnOk result
        (Appends (E.contents sink.old) (E.contents sink.new)
        (line_error_text (record { number = number; why = why }))) }
    ensures beginning { AppendsBeginning (E.contents sink.old) (E.contents sink.new)
        (line_error_text (record { number = number; why = why })) }
    ensures io { IsErr result → E.has_failed sink.new ≡ true }
    ensures fault { E.has_failed sink.new ≡ (is_err result || E.has_failed sink.old) }
{
    byte_lines::laws::pieces();
    let mut digits = Buffer::new();
    write_all(sink, b"line ")?;
    write_all(sink, digits.format(number).as_bytes())?;
    write_all(sink, text_of(why).as_bytes())
}

fn text_of(why: LineFault) -> &'static str
    ensures { result.now ≡ why_text why }
{
    match why {
        LineFault::NotCanonical => ": not canonical\n",
        LineFault::TooLong => ": too long\n",
        LineFault::UnknownDomain => ": unknown domain\n",
        LineFault::WrongEndpoint => ": wrong endpoint\n",
        LineFault::BelowFloor => ": below floor\n",
        LineFault::Cut => ": cut\n",
    }
}
