//! What is measured, each as a gauge.

/// What is measured of a replica.
#[derive(Clone, Copy, Debug, PartialEq, Eq)]
pub enum Gauge {
    Receipts,
    ReceiptLimit,
    Pending,
    Records,
    RecordLimit,
    KeylessSeeds,
    /// Whether there is a warning.
    Warning,
}

/// What is measured of each trust domain.
#[derive(Clone, Copy, Debug, PartialEq, Eq)]
pub enum DomainGauge {
    /// The current document's id, as a label.
    Current,
    Sequence,
    RefreshHint,
    Keys,
    DistrustedKeys,
    Accepted,
    Conflicts,
}
