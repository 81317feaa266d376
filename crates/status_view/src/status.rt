//! The status of a replica, as a value.
use bundle_doc::DocId;
use fed_config::ConfigId;
use jwk_set::KeyId;
use spiffe_name::TrustDomain;

/// The status of a replica.
#[derive(Debug, Drop)]
pub struct Status {
    /// The configuration's digest.
    pub config: ConfigId,
    /// How many receipts are held.
    pub receipts: u64,
    /// How many receipts may be held.
    pub receipt_limit: u64,
    /// How many of the held receipts no accepted document vouches for.
    pub pending: u64,
    /// How many records of distrust are held.
    pub records: u64,
    /// How many records of distrust may be held.
    pub record_limit: u64,
    /// Each trust domain of the configuration, sorted.
    pub domains: Vec<DomainStatus>,
    /// The configured documents that have no X.509 authority, in the order of the configuration: no
    /// endpoint can be authenticated by one.
    pub keyless_seeds: Vec<KeylessSeed>,
}

/// The status of a trust domain.
#[derive(Debug, Drop)]
pub struct DomainStatus {
    /// Its name.
    pub domain: TrustDomain,
    /// Its current document, if it has one.
    pub current: Option<CurrentStatus>,
    /// How many documents are accepted.
    pub accepted: u64,
    /// How many sequence numbers several accepted documents have.
    pub conflicts: u64,
}

/// The current document of a trust domain.
#[derive(Debug, Drop)]
pub struct CurrentStatus {
    /// Its id.
    pub id: DocId,
    /// Its sequence number, if it has one.
    pub sequence: Option<u64>,
    /// Its refresh hint in seconds, if it has one.
    pub refresh_hint: Option<u64>,
    /// The different keys of its X.509 authorities, sorted.
    pub keys: Vec<KeyStatus>,
}

/// A key of a current document.
#[derive(Clone, Copy, Debug, PartialEq, Eq)]
pub struct KeyStatus {
    /// Its id.
    pub key: KeyId,
    /// Whether it is distrusted in the document's trust domain.
    pub is_distrusted: bool,
}

/// A configured document that has no X.509 authority.
#[derive(Debug, Drop)]
pub struct KeylessSeed {
    /// Its trust domain.
    pub domain: TrustDomain,
    /// Its id.
    pub id: DocId,
}
