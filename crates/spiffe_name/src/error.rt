//! Why a text is not a name.
ghost use Rattle.std.specs.Prelude.{◌≡◌, ◌+◌, ◌<◌, ◌^◌};
ghost use Rattle.spiffe_name.specs.declared.error.NameError.TheVariants.{NoMemory};

use std::alloc::AllocError;
use thiserror::Error;

/// The first cause for which a text is not a trust domain name or not a SPIFFE ID. Places count the
/// bytes of the whole text, from 0.
#[derive(Clone, Copy, Debug, PartialEq, Eq, Error)]
pub enum NameError {
    /// The text, or the trust domain name in it, is empty.
    #[error("N1 Empty")]
    Empty,
    /// A trust domain name has more than 255 bytes, or a SPIFFE ID has more than 2,048.
    #[error("N2 TooLong")]
    TooLong,
    /// A SPIFFE ID doesn't begin with `spiffe://`.
    #[error("N3 BadScheme")]
    BadScheme,
    /// The first byte of a trust domain name that is not `a-z`, `0-9`, `.`, `-` or `_` is here.
    #[error("N4 BadDomainByte at {0}")]
    BadDomainByte(usize),
    /// A path has a byte here that no segment has, or a segment that begins here is empty, `.` or
    /// `..`.
    #[error("N5 BadPath at {0}")]
    BadPath(usize),
    /// A growth was refused. The text is a name.
    #[error("N6 NoMemory")]
    NoMemory,
}

impl NameError {
    ghost use Rattle.spiffe_name.specs.NameError.{place_of, moved};

    /// The same cause in a longer text, which has this many more bytes in front.
    pub(crate) fn behind(self, bytes: usize) -> NameError
        requires { bytes + place_of self < 2 ^ 64 }
        ensures { result ≡ moved bytes self }
    {
        match self {
            NameError::BadDomainByte(place) => NameError::BadDomainByte(bytes + place),
            NameError::BadPath(place) => NameError::BadPath(bytes + place),
            NameError::Empty | NameError::TooLong | NameError::BadScheme | NameError::NoMemory =>
                self,
        }
    }
}

impl From<AllocError> for NameError {
    ghost from_gives = { λ _ e. e ≡ NoMemory };

    fn from(_error: AllocError) -> Self {
        Self::NoMemory
    }
}
