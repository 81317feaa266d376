//! Replicas for C: each export calls one function of `replica_c_calls` or `command_c_calls`, which
//! has its contract.
//!
//! In a handle a caller keeps a replica: a pointer that is null, or a box of a replica. `handle`
//! and `loose` turn one into the other; only they have raw pointers, and they are proved by hand.
//! Each export takes the box out of the handle, makes its call, and puts it back. So what a handle
//! holds is known before and after each call, and a call on a closed one is refused.
//!
//! `include/fedbundle.h` declares the exports, and says what a caller in C has to keep.
#![tactic(auto)]

pub mod changing_c;
mod handle;
mod held_replica;
mod loose;
pub mod messaging_c;
pub mod opening_c;
pub mod showing_c;
pub mod stateless_c;

pub use handle::Handle;
pub use held_replica::Replica;
