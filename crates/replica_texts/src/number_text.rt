//! Numbers and digests in the lines of streams.
ghost use Rattle.std.specs.Prelude.{◌≡◌, ◌↔◌, ◌^◌, ◌<◌, ℕ, IsTrue, Some, decimal};
ghost use Rattle.jwk_set.specs.Forms.{FindsMember};
ghost use Rattle.replica_texts.specs.Snapshots.{AreDigits, is_lower_hex_digit};

use itoa::Buffer;
use std::str;

/// The number of these decimal digits: `0`, or without a leading zero, and at most 2^64 - 1.
pub(crate) fn read_number(text: &[u8]) -> Option<u64>
    ensures { FindsMember result (λ n. (n < 2 ^ 64) × (text.now ≡ decimal n)) }
{
    let number = parsed(text)?;
    if is_number(text, number) {
        Some(number)
    } else {
        None
    }
}

// The number of these digits, whatever else is read as one.
fn parsed(text: &[u8]) -> Option<u64>
    ensures { (n : ℕ) → n < 2 ^ 64 → text.now ≡ decimal n → result ≡ Some n }
{
    match str::from_utf8(text) {
        Ok(text) => text.parse::<u64>().ok(),
        Err(_) => None,
    }
}

fn is_number(text: &[u8], number: u64) -> bool
    ensures { IsTrue result ↔ (text.now ≡ decimal number) }
{
    let mut buffer = Buffer::new();
    text == buffer.format(number).as_bytes()
}

/// Whether these are 64 lower-case hexadecimal digits.
pub(crate) fn are_digits(text: &[u8]) -> bool
    ensures { IsTrue result ↔ AreDigits text.now }
{
    text.len() == 64 && text.iter().all(|b| is_hex_digit(*b))
}

fn is_hex_digit(byte: u8) -> bool
    ensures { result ≡ is_lower_hex_digit byte }
{
    (b'0' <= byte && byte <= b'9') || (b'a' <= byte && byte <= b'f')
}
