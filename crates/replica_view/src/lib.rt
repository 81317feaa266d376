//! What a replica holds, printed for operators: all of it, as lines, as JSON or as a graph, or what
//! one state has that another one lacks. It knows closures only by their trait.
#![tactic(auto)]

mod comparing;
mod graph_lines;
mod held_lines;
mod listing;
mod offered;
mod receipt_json;
mod receipt_status;
mod shown_vouchers;
mod trust_graph;

pub use comparing::write_held_difference;
pub use listing::{write_held, write_held_json};
pub use receipt_json::{push_receipt_members, record_json};
pub use receipt_status::ReceiptStatus;
pub use trust_graph::write_graph;
