//! The keys that a distrust is about.
use jwk_set::KeyId;
use spiffe_name::TrustDomain;

/// Keys of one domain that are to be distrusted there.
#[derive(Debug, Drop)]
pub struct GivenKeys {
    /// The trust domain.
    pub domain: TrustDomain,
    /// The keys.
    pub keys: Vec<KeyId>,
}
