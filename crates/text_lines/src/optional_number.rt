//! Numbers that may be absent.
ghost use Rattle.std.specs.Prelude.{◌≡◌, ◌++◌, OnOk};
ghost use Rattle.text_lines.specs.TextLines.{number_or_none};

use byte_lines::push_number;
use std::alloc::AllocError;

/// Writes a number in decimal after what is there, or `none` if there is no number.
///
/// # Errors
/// Memory ran out. Nothing is said then of what is there.
pub fn push_number_or_none(out: &mut Vec<u8>, number: Option<u64>) -> Result<(), AllocError>
    ensures { OnOk result (out.new.items ≡ out.old.items ++ number_or_none number) }
{
    match number {
        Some(number) => push_number(out, number),
        None => out.extend_from_slice(b"none"),
    }
}
