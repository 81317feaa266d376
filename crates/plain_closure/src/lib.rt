//! Which documents a replica accepts, found by rounds over all receipts: the promise of
//! `closure_core` without an index, slow and simple. It is a second opinion for tests.
//!
//! `flags` and `rounds` find which receipts an accepted document vouches for. `settling` has take,
//! distrust and growth over the parts of `closure_parts`, `sowing` the configured documents, and
//! `closure` is the public type.
#![tactic(auto)]

mod closure;
mod flags;
mod rounds;
mod settling;
mod sowing;

pub use closure::PlainClosure;
