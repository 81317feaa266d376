//! The one digest of equal configurations.
ghost use Rattle.std.specs.Prelude.{Some};
ghost use Rattle.hex.specs.Hex.{encode_lower};

use std::{fmt, str};

/// The id of a configuration: the SHA-256 (FIPS 180-4, section 6.2) of its canonical text. Equal
/// configurations have one id. It prints as 64 lower-case hexadecimal digits.
#[derive(Clone, Copy, Debug, PartialEq, Eq, PartialOrd, Ord, Hash)]
pub struct ConfigId(pub [u8; 32]);

impl fmt::Display for ConfigId {
    ghost output = { λ id. Some (encode_lower id.0) };

    fn fmt<W: fmt::Write>(&self, f: &mut fmt::Formatter<W>) -> fmt::Result {
        let mut digits = [0; 64];
        hex::encode_to_slice(self.0, &mut digits).map_err(|_| fmt::Error)?;
        f.write_str(str::from_utf8(&digits).map_err(|_| fmt::Error)?)
    }
}
