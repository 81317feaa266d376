//! Records of distrust as a closure keeps them.
ghost use Rattle.std.specs.Prelude.{◌≡◌, ◌^◌, ◌<◌};
ghost use Rattle.receipt_core.specs.Receipt.{IsDigest};

use jwk_set::KeyId;

/// A key that is distrusted in a domain, by the domain's number in the configuration, for those who
/// implement [`crate::Closure`].
#[derive(Clone, Copy, Debug, PartialEq, Eq, PartialOrd, Ord)]
pub struct Record {
    /// The key.
    pub key: KeyId,
    /// The number of the domain among those of the configuration.
    pub domain: u32,
}

/// The record of a key and a domain's number, for those who implement [`crate::Closure`].
pub fn record_of(digest: &[u8; 32], number: usize) -> Record
    requires { number < 2 ^ 32 }
    ensures key { result.key.0 ≡ digest.now }
    ensures domain { result.domain ≡ number }
    ensures form { IsDigest digest.now }
{
    Record {
        key: key_of(*digest),
        domain: number as u32,
    }
}

fn key_of(digest: [u8; 32]) -> KeyId
    ensures { result.0 ≡ digest }
{
    KeyId(digest)
}
