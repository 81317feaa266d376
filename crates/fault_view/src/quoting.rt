//! Bytes that a stranger chose, for a terminal: what does not print, a quotation mark and a
//! backslash are shown as digits.
ghost use Rattle.std.specs.Prelude.{◌≡◌, ◌↔◌, ◌++◌, ◌<◌, [], ◌∷◌, IsTrue, OnOk};
ghost use Rattle.fault_view.specs.Shown.{ending, front, hex_digit, is_plain};
ghost use Rattle.fault_view.specs.Shown.{quoted_text, shown, shown_byte};

use std::alloc::AllocError;

/// How many bytes of a text are shown.
const MOST_SHOWN: usize = 64;

/// Writes the first 64 bytes of a text between quotation marks, with two full stops before the last
/// one if there are more, after what is there. A byte that does not print is written as a
/// backslash, an `x` and two hexadecimal digits, and so are a quotation mark, a backslash, and each
/// byte of a character that is not ASCII.
///
/// # Errors
/// Memory ran out. Nothing is said then of what is there.
pub fn push_quoted(out: &mut Vec<u8>, text: &[u8]) -> Result<(), AllocError>
    ensures { OnOk result (out.new.items ≡ out.old.items ++ quoted_text text.now) }
{
    out.extend_from_slice(b"\"")?;
    push_shown(out, front(text))?;
    push_ending(out, text)
}

fn front(text: &[u8]) -> &[u8]
    ensures { result.now ≡ front text.now }
{
    if text.len() <= MOST_SHOWN {
        text
    } else {
        &text[..MOST_SHOWN]
    }
}

fn push_ending(out: &mut Vec<u8>, text: &[u8]) -> Result<(), AllocError>
    ensures { OnOk result (out.new.items ≡ out.old.items ++ ending text.now) }
{
    if text.len() <= MOST_SHOWN {
        out.extend_from_slice(b"\"")
    } else {
        out.extend_from_slice(b"..\"")
    }
}

/// Writes all bytes of a text as [`push_quoted`] does, without the quotation marks.
///
/// # Errors
/// Memory ran out. Nothing is said then of what is there.
pub fn push_shown(out: &mut Vec<u8>, text: &[u8]) -> Result<(), AllocError>
    ensures { OnOk result (out.new.items ≡ out.old.items ++ shown text.now) }
{
    for &byte in text {
        push_byte(out, byte)?;
    }
    Ok(())
}

fn push_byte(out: &mut Vec<u8>, byte: u8) -> Result<(), AllocError>
    ensures { OnOk result (out.new.items ≡ out.old.items ++ shown_byte byte) }
{
    if is_plain(byte) {
        out.extend_from_slice(&[byte])
    } else {
        out.extend_from_slice(&[b'\\', b'x', digit(byte / 16), digit(byte % 16)])
    }
}

fn is_plain(byte: u8) -> bool
    ensures { result ≡ is_plain byte }
{
    32 <= byte && byte <= 126 && !(byte == b'"') && !(byte == b'\\')
}

fn digit(number: u8) -> u8
    requires { number < 16 }
    ensures { result ≡ hex_digit number }
{
    if number < 10 {
        b'0' + number
    } else {
        b'a' - 10 + number
    }
}
