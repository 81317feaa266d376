//! An index of nodes and labels that says which nodes are reached. A node offers labels and awaits
//! at most one; a label that a reached node offers, and that is not closed, reaches each node that
//! awaits it.
#![tactic(auto)]

mod adding;
mod close;
mod edges;
mod graph;
mod label_set;
mod last_close;
pub mod laws;
mod marks;
mod node_set;
mod number;
mod reach;
mod room;

pub use number::{LabelNo, NodeNo};
pub use reach::{NoMemory, Reach};
