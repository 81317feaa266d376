//! What is wrong with a replica, as values.
use crate::peer_address::PeerAddress;
use jwk_set::KeyId;
use spiffe_name::TrustDomain;

/// What is wrong with a replica.
#[derive(Debug, Drop)]
pub enum Warning {
    /// The trust domain has this problem.
    Domain(DomainFault, TrustDomain),
    /// An accepted bundle of the domain has this key, which is not distrusted, though a distrusted
    /// key of the domain has its public key.
    SameKey(TrustDomain, KeyId),
    /// The certificate of this key, in the current bundle of the domain, is valid only up to this
    /// Unix second.
    Expires(TrustDomain, KeyId, i64),
    /// The last poll of the domain that succeeded was at this Unix second; `None` if none did.
    NotFetched(TrustDomain, Option<i64>),
    /// No session with the peer ended well since this Unix second.
    QuietPeer(PeerAddress, u64),
    /// This many are held, and at most this many may be.
    NearlyFull(Stock, u64, u64),
}

/// What is wrong with a trust domain.
#[derive(Clone, Copy, Debug, PartialEq, Eq)]
pub enum DomainFault {
    /// It has no current bundle.
    NoCurrent,
    /// Its current bundle has no X.509 authority, or only distrusted ones.
    LockedOut,
    /// Several of its accepted bundles have one sequence number.
    Conflict,
    /// Its current bundle has no sequence number, and another bundle is accepted.
    NoSequence,
}

/// What a replica holds a limited number of.
#[derive(Clone, Copy, Debug, PartialEq, Eq)]
pub enum Stock {
    /// Receipts.
    Receipts,
    /// Records of distrust.
    Records,
}
