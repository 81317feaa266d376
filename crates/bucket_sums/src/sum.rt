//! Sums, and their lines.
ghost use Rattle.std.specs.Prelude.{◌≡◌, ◌↔◌, IsTrue};
ghost use Rattle.hex.specs.Hex.{encode_lower};
ghost use Rattle.bucket_sums.specs.Lines.{IsSumLine, differs, is_sum_digit};

/// The sum of a part of what a replica holds: a SHA-256 (FIPS 180-4, section 6.2).
#[derive(Clone, Copy, Debug, PartialEq, Eq)]
pub struct Sum(pub [u8; 32]);

impl Sum {
    /// The line of the sum, without its line feed: 64 lower-case hexadecimal digits.
    pub fn line(&self) -> [u8; 64]
        ensures { result ≡ encode_lower self.now.0 }
    {
        let mut digits = [0; 64];
        // The lengths agree, so it is never refused.
        let _ = hex::encode_to_slice(self.0, &mut digits);
        digits
    }

    /// Whether the line is that of another sum.
    pub fn differs_from(&self, line: &[u8]) -> bool
        ensures { result ≡ differs line.now self.now.0 }
    {
        line != self.line().as_slice()
    }
}

/// Whether the text is the line of a sum, without its line feed.
pub(crate) fn is_sum_line(text: &[u8]) -> bool
    ensures { IsTrue result ↔ IsSumLine text.now }
{
    text.len() == 64 && text.iter().all(|byte| is_digit(*byte))
}

fn is_digit(byte: u8) -> bool
    ensures { result ≡ is_sum_digit byte }
{
    (b'0' <= byte && byte <= b'9') || (b'a' <= byte && byte <= b'f')
}
