//! Numbers and digests as digits.
ghost use Rattle.std.specs.Prelude.{◌≡◌, ◌++◌, OnOk, decimal};
ghost use Rattle.hex.specs.Hex.{encode_lower};

use itoa::Buffer;
use std::alloc::AllocError;

/// Writes a number in decimal after what is there, without a needless zero.
///
/// # Errors
/// The allocator refused memory. Nothing is said then of what is there.
pub fn push_number(out: &mut Vec<u8>, number: u64) -> Result<(), AllocError>
    ensures { OnOk result (out.new.items ≡ out.old.items ++ decimal number) }
{
    let mut buffer = Buffer::new();
    out.extend_from_slice(buffer.format(number).as_bytes())
}

/// Writes a digest after what is there, as 64 lower-case hexadecimal digits.
///
/// # Errors
/// The allocator refused memory. Nothing is said then of what is there.
pub fn push_digits(out: &mut Vec<u8>, digest: &[u8; 32]) -> Result<(), AllocError>
    ensures { OnOk result (out.new.items ≡ out.old.items ++ encode_lower digest.now) }
{
    let mut text = [0; 64];
    // The lengths agree, so it is never refused.
    let _ = hex::encode_to_slice(digest.as_slice(), &mut text);
    out.extend_from_slice(&text)
}
