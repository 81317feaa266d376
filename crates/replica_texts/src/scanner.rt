//! The parts of a first line, guessed: right if the text has the shape, otherwise any.
ghost use Rattle.std.specs.Prelude.{◌≡◌, ◌++◌, ◌∷◌, ◌<◌, ◌^◌, ℕ, List, MatchOption, decimal, false};
ghost use Rattle.std.specs.List.{AllPass};
ghost use Rattle.std.specs.Char.{is_ascii_digit};
ghost use Rattle.hex.specs.Hex.{encode_lower};
ghost use Rattle.receipt_core.specs.Receipt.{IsDigest};
ghost use Rattle.spiffe_name.specs.Bytes.{FirstFails};

use crate::number_text::read_number;
use fed_config::ConfigId;

/// What follows the label, if the text begins with it.
pub(crate) fn after<'a>(text: &'a [u8], label: &[u8]) -> Option<&'a [u8]>
    ensures { MatchOption result ((rest : List ℕ) → text.now ≡ label.now ++ rest → ⊥)
        (λ rest. text.now ≡ label.now ++ rest.now) }
{
    text.strip_prefix(label)
}

/// What follows the label.
pub(crate) fn rest_after<'a>(text: &'a [u8], label: &[u8]) -> &'a [u8]
    ensures { (rest : List ℕ) → text.now ≡ label.now ++ rest → result.now ≡ rest }
{
    match after(text, label) {
        Some(rest) => rest,
        None => text,
    }
}

/// The number after the label, and what follows its digits.
pub(crate) fn number_after<'a>(text: &'a [u8], label: &[u8]) -> (u64, &'a [u8])
    ensures few { result.0 < 2 ^ 64 }
    ensures right { (n stop : ℕ) (more : List ℕ) → n < 2 ^ 64 → is_ascii_digit stop ≡ false
        → text.now ≡ label.now ++ (decimal n ++ (stop ∷ more))
        → (result.0 ≡ n) × (result.1.now ≡ stop ∷ more) }
{
    let (digits, rest) = split_digits(rest_after(text, label));
    (number_of(digits), rest)
}

/// The digest after the label, and what follows its digits.
pub(crate) fn digest_after<'a>(text: &'a [u8], label: &[u8]) -> ([u8; 32], &'a [u8])
    ensures { (digest rest : List ℕ) → IsDigest digest
        → text.now ≡ label.now ++ (encode_lower digest ++ rest)
        → (result.0 ≡ digest) × (result.1.now ≡ rest) }
{
    let text = rest_after(text, label);
    if text.len() < 64 {
        return (digest_of(text), text);
    }
    let (digits, rest) = text.split_at(64);
    (digest_of(digits), rest)
}

/// The id with these bytes.
pub(crate) fn id_of(digest: &[u8; 32]) -> ConfigId
    ensures form { IsDigest result.0 }
    ensures same { result.0 ≡ digest.now }
{
    config_id(*digest)
}

fn config_id(digest: [u8; 32]) -> ConfigId
    ensures { result.0 ≡ digest }
{
    ConfigId(digest)
}

// The leading decimal digits, and what follows them.
fn split_digits(text: &[u8]) -> (&[u8], &[u8])
    ensures { (digits : List ℕ) (stop : ℕ) (more : List ℕ) → AllPass is_ascii_digit digits
        → is_ascii_digit stop ≡ false → text.now ≡ digits ++ (stop ∷ more)
        → (result.0.now ≡ digits) × (result.1.now ≡ stop ∷ more) }
{
    match first_stop(text) {
        Some(place) => text.split_at(place),
        None => (text, text),
    }
}

// The place of the first byte that is not a decimal digit.
fn first_stop(text: &[u8]) -> Option<usize>
    ensures { MatchOption result (AllPass is_ascii_digit text.now)
        (FirstFails is_ascii_digit text.now) }
{
    text.iter().position(|byte| !byte.is_ascii_digit())
}

fn number_of(digits: &[u8]) -> u64
    ensures few { result < 2 ^ 64 }
    ensures right { (n : ℕ) → n < 2 ^ 64 → digits.now ≡ decimal n → result ≡ n }
{
    match read_number(digits) {
        Some(number) => number,
        None => 0,
    }
}

fn digest_of(digits: &[u8]) -> [u8; 32]
    ensures { (digest : List ℕ) → IsDigest digest → digits.now ≡ encode_lower digest
        → result ≡ digest }
{
    let mut digest = [0; 32];
    // What is refused is written otherwise, so whatever is there then is right.
    let _ = hex::decode_to_slice(digits, &mut digest);
    digest
}
