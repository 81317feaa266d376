//! What happens to replicas.
use receipt_core::{Distrust, Receipt};

/// What can happen in a world of replicas that have one configuration. A replica is named by its
/// number, a message by its place among all that were sent, both from 0.
#[derive(Debug, Drop)]
pub enum Event {
    /// A replica takes a receipt, if it fits the configuration.
    Take {
        replica: usize,
        receipt: Receipt,
    },
    /// A replica begins to distrust a key, if the record's domain is one of the configuration.
    Revoke {
        replica: usize,
        record: Distrust,
    },
    /// A replica asks for the receipts of a bucket, and names the ids of those that it holds.
    Ask {
        replica: usize,
        bucket: u8,
    },
    /// A replica answers a have with all its records and the bucket's receipts that the have
    /// doesn't name.
    Answer {
        replica: usize,
        have: usize,
    },
    /// A replica answers a have with the same receipts, and leaves the records out.
    AnswerReceipts {
        replica: usize,
        have: usize,
    },
    /// A replica asks which parts of what it holds differ: it sends the sums of all of them.
    AskSums {
        replica: usize,
    },
    /// A replica compares sums with those of what it holds, and answers a mark for each part.
    AnswerSums {
        replica: usize,
        sums: usize,
    },
    /// A replica takes all of an answer.
    Absorb {
        replica: usize,
        give: usize,
    },
    /// A replica takes the first records and receipts of an answer that was cut.
    Part {
        replica: usize,
        give: usize,
        count: usize,
    },
    /// A replica takes all that another holds.
    Join {
        replica: usize,
        other: usize,
    },
    /// A replica saves what it holds.
    Save {
        replica: usize,
    },
    /// A replica starts again from what it saved last.
    Restart {
        replica: usize,
    },
}
