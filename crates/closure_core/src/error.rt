//! Why a closure takes nothing.
use thiserror::Error;

/// Why a closure refuses. The first cause of this list that holds is returned; `ConfigDiffers`
/// comes before all others, and `NoMemory` only if there is no other cause.
#[derive(Clone, Copy, Debug, PartialEq, Eq, Error)]
pub enum TakeError {
    /// The configuration has no relationship with the receipt's domain, or the domain of a record
    /// of distrust is not one of the configuration.
    #[error("G1 UnknownDomain")]
    UnknownDomain,
    /// The relationship with the receipt's domain has another endpoint.
    #[error("G2 WrongEndpoint")]
    WrongEndpoint,
    /// The document of the receipt is below the floor of its domain: its sequence number is lower,
    /// or it has none.
    #[error("G6 BelowFloor")]
    BelowFloor,
    /// No more receipts, or no more records of distrust, may be held.
    #[error("G3 Full")]
    Full,
    /// Memory ran out.
    #[error("G4 NoMemory")]
    NoMemory,
    /// The configuration of the other closure has another digest.
    #[error("G5 ConfigDiffers")]
    ConfigDiffers,
}
