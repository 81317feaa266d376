//! A snapshot, written in pieces: between two of them the closure may take more receipts and more
//! records of distrust. The pieces together are the snapshot of what has all that was held at the
//! beginning, and nothing that is not held at the end.
//!
//! `pieces` is what a caller uses. `places` finds the receipts of the next piece, and `lines` makes
//! lines of them until there are enough.
#![tactic(auto)]

mod lines;
mod pieces;
mod places;

pub use pieces::{Piece, SnapshotPieces};
