//! What a change did to what a replica holds.
use bundle_doc::DocId;
use jwk_set::KeyId;
use spiffe_name::TrustDomain;

/// What a change did to what a replica holds. It has names of the configuration, digests and
/// numbers, and nothing that a peer or a bundle spells.
#[derive(Debug, Drop)]
pub enum HeldChange {
    /// A bundle was observed.
    Observe(ObservedBundle),
    /// Keys of a trust domain were distrusted.
    Distrust(DistrustedKeys),
    /// A snapshot was merged.
    Merge(NewEntries),
    /// A peer, whose configured address this is, answered.
    Pull(String, NewEntries),
}

/// A change, and how many bytes the journal gets for it.
#[derive(Debug, Drop)]
pub struct JournalledChange {
    /// What it did.
    pub change: HeldChange,
    /// The length of its lines, one of which it has at least.
    pub bytes: usize,
}

/// A bundle that was observed, and was not before.
#[derive(Debug, Drop)]
pub struct ObservedBundle {
    /// Its trust domain.
    pub domain: TrustDomain,
    /// Its id.
    pub document: DocId,
    /// Its sequence number, if it has one.
    pub sequence: Option<u64>,
    /// The key that authenticated the endpoint.
    pub key: KeyId,
    /// The document that vouches for the endpoint by this key.
    pub voucher: DocId,
    /// Whether it is the current document of its domain now.
    pub is_current: bool,
}

/// Keys that were distrusted, and were not before.
#[derive(Debug, Drop)]
pub struct DistrustedKeys {
    /// The trust domain.
    pub domain: TrustDomain,
    /// The keys, each with a record of its own.
    pub keys: Vec<KeyId>,
    /// How many documents are not accepted any more.
    pub fell: u64,
}

/// How much is held that was not before.
#[derive(Clone, Copy, Debug, PartialEq, Eq)]
pub struct NewEntries {
    /// How many receipts.
    pub receipts: u64,
    /// How many records of distrust.
    pub records: u64,
}
