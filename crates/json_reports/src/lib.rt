//! What documents say and what a replica accepts, as compact JSON. It knows closures only by their
//! trait.
#![tactic(auto)]

mod accepted_json;
mod chain_object;
mod conflict_json;
mod document_object;
mod report_json;

pub use chain_object::{chain_json, root_id};
pub use document_object::document_json;
pub use report_json::write_report_json;
