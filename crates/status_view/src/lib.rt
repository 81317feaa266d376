//! The status of a replica, for operators: one value, and three texts of it. A running replica
//! gives a second value, of its files and its peers, which is in the same texts. The crate knows
//! closures only by their trait.
//!
//! `status` and `running` have the two values. `standing` makes the first, by `current_status`,
//! `domain_standing` and `keyless`. `text_writer`, `json_writer` and `metrics_writer` write it, and
//! the files that begin with `running_` write the second; at their end those that begin with
//! `previous_` write from which configuration the replica is changed, if it is. `peer_metrics` has
//! what metrics of peers share.
#![tactic(auto)]

mod current_status;
mod domain_standing;
mod json_writer;
mod keyless;
mod metric;
mod metrics_writer;
mod peer_metrics;
mod previous_json;
mod previous_lines;
mod previous_metrics;
mod running;
mod running_json;
mod running_lines;
mod running_metrics;
mod standing;
mod status;
mod status_format;
mod text_writer;

pub use json_writer::push_status_members;
pub use metric::{DomainGauge, Gauge};
pub use metrics_writer::{push_gauge_head, push_label_value, status_metrics};
pub use running::{AskedConfig, PeerFault, PeerStatus, PreviousStatus, RunningStatus, fault_code};
pub use running_json::push_running_members;
pub use running_lines::push_running_lines;
pub use running_metrics::push_running_metrics;
pub use standing::{has_warning, is_nearly_full, read_status};
pub use status::{CurrentStatus, DomainStatus, KeyStatus, KeylessSeed, Status};
pub use status_format::StatusFormat;
pub use text_writer::status_lines;
