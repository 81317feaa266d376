//! What a configuration says, printed for operators: one of them, as lines or as JSON, or what
//! differs between two. Replicas exchange receipts only if their configurations are equal.
#![tactic(auto)]

mod config_json;
mod config_output;
mod shown_lines;

pub use config_json::write_config_json;
pub use config_output::{write_config, write_config_difference};
