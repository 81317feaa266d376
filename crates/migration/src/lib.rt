//! What goes with a replica to another configuration.
#![tactic(auto)]

mod carrying;
pub mod laws;
mod left_out;

pub use carrying::{Carried, Choice, carry};
