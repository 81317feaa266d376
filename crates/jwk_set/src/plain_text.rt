//! Texts that are written in a JSON string without an escape.
ghost use Rattle.std.specs.Prelude.{◌≡◌, ◌↔◌, IsTrue};
ghost use Rattle.std.specs.List.{AllPass};
ghost use Rattle.jwk_set.specs.Json.{is_unescaped};

/// Whether the text is written in a JSON string without an escape (RFC 8259, section 7): it has no
/// quotation mark, no backslash and no control character.
pub fn is_plain(text: &[u8]) -> bool
    ensures { IsTrue result ↔ AllPass is_unescaped text.now }
{
    // Each byte is tested, also after one that fails: so the processor tests many together.
    let mut passed = true;
    for byte in text {
        passed &= is_plain_byte(*byte);
    }
    passed
}

/// Whether the byte is written in a JSON string without an escape (RFC 8259, section 7).
pub fn is_plain_byte(byte: u8) -> bool
    ensures { result ≡ is_unescaped byte }
{
    (byte != b'"') & (byte != b'\\') & (byte >= b' ')
}
