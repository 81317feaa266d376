//! A net of nodes and labels whose labels are keys of documents: which nodes are reached if each
//! node offers such keys and awaits at most one.
//!
//! `label` says what labels mean. `label_table` has them in an order in which those of a key are
//! one run, and finds one label or a run by binary search, whatever the keys are. `index` has the
//! net of them, and each of its calls changes one node or edge, or closes labels all together. It
//! knows neither receipts nor documents: who calls it says which node is which.
#![tactic(auto)]

mod index;
mod label;
mod label_table;

pub use index::LabelIndex;
pub use label::{Label, LabelTest};
