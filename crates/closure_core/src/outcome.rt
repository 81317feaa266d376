//! What comes of a change.
use crate::error::TakeError;
use receipt_core::Receipt;

/// What came of a receipt.
#[derive(Clone, Copy, Debug, PartialEq, Eq)]
pub enum Taken {
    /// It was not held, and is held now.
    New {
        /// How many documents of domains are accepted now and were not before.
        accepted_now: usize,
    },
    /// It was held.
    Already,
}

/// What came of a record of distrust.
#[derive(Clone, Copy, Debug, PartialEq, Eq)]
pub enum Distrusted {
    /// It was not held, and is held now.
    New {
        /// How many documents of domains were accepted before and are not now.
        lost: usize,
    },
    /// It was held.
    Already,
}

/// A receipt that was not taken.
#[derive(Debug, Drop)]
pub struct Refused {
    /// Why it was not taken.
    pub why: TakeError,
    /// The receipt itself.
    pub receipt: Receipt,
}
