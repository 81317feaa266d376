//! What is looked at for warnings, as values.
use jwk_set::KeyId;
use spiffe_name::TrustDomain;
use status_view::{PeerStatus, RunningStatus, Status};

/// When a replica is looked at, and how long things may take.
#[derive(Clone, Copy, Debug, PartialEq, Eq)]
pub struct WarnLimits {
    /// The Unix second at which it is looked at.
    pub moment: i64,
    /// How many days before its end a certificate is warned of.
    pub expires_within: u64,
    /// How many seconds a peer may be quiet.
    pub peer_quiet: u64,
}

/// What is known in addition to what is held.
#[derive(Clone, Copy, Debug)]
pub struct Watch<'a> {
    /// When the replica is looked at, and how long things may take.
    pub limits: WarnLimits,
    /// What a running replica says of itself; `None` if what is held was read from a state file.
    pub running: Option<&'a RunningStatus<'a>>,
    /// How the domains are fetched, sorted by domain; empty if no log of polls is known.
    pub fetches: &'a [Fetch],
}

/// What is looked at.
#[derive(Clone, Copy, Debug)]
pub struct Seen<'a> {
    /// The status of the replica.
    pub status: &'a Status,
    /// The certificates of current bundles, sorted by domain.
    pub certificates: &'a [CertificateEnd],
    /// The keys that have the public key of a distrusted one, sorted by domain.
    pub same_keys: &'a [SamePublicKey],
    /// How the domains are fetched, sorted by domain; empty if no log of polls is known.
    pub fetches: &'a [Fetch],
    /// The peers, in the order in which they are asked; empty if the replica does not run.
    pub peers: &'a [PeerStatus],
    /// The Unix second at which the replica that has these peers began.
    pub began: u64,
}

/// When a certificate of an X.509 authority of a current bundle ends.
#[derive(Debug, Drop)]
pub struct CertificateEnd {
    /// The bundle's trust domain.
    pub domain: TrustDomain,
    /// The id of the authority's key.
    pub key: KeyId,
    /// The last Unix second at which the certificate is valid (RFC 5280, section 4.1.2.5).
    pub not_after: i64,
}

/// A key of an accepted bundle that is not distrusted, though a distrusted key of the trust domain
/// has its public key.
#[derive(Debug, Drop)]
pub struct SamePublicKey {
    /// The domain.
    pub domain: TrustDomain,
    /// The id of the key.
    pub key: KeyId,
}

/// How the bundle of a trust domain is fetched.
#[derive(Debug, Drop)]
pub struct Fetch {
    /// The domain.
    pub domain: TrustDomain,
    /// The Unix second of the last poll that succeeded; `None` if none did.
    pub fetched: Option<i64>,
    /// The seconds from one poll to the next, if none fails.
    pub wait: u64,
}
