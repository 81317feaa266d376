//! How much may be held under a configuration.

/// The most receipts under a configuration that was read.
pub(crate) const USUAL_RECEIPTS: usize = 65_536;

/// The most records of distrust under a configuration that was read.
pub(crate) const USUAL_RECORDS: usize = 4_096;

/// How many receipts and how many records of distrust may be held under a configuration.
///
/// They are not a part of the text of the configuration: replicas whose limits differ have
/// configurations of one digest, and exchange what they hold.
#[derive(Clone, Copy, Debug, PartialEq, Eq, Drop)]
pub struct Limits {
    /// The most receipts.
    pub receipts: usize,
    /// The most records of distrust.
    pub records: usize,
}
