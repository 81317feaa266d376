//! Receipts and records of distrust, one at a time.
use receipt_core::{Distrust, Receipt};

/// A receipt or a record of distrust: what one line of a snapshot or of an answer says.
#[derive(Debug, Drop)]
pub enum Entry {
    /// A record of distrust.
    Record(Distrust),
    /// A receipt.
    Receipt(Receipt),
}
