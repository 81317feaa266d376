//! The formats of snapshots.

/// A format of snapshots.
#[derive(Clone, Copy, Debug, PartialEq, Eq)]
pub(crate) enum Format {
    /// Only receipts. It is read, and not written.
    First,
    /// Records of distrust and receipts.
    Second,
}
