//! What is wrong with a replica, for operators: a list of warnings, and what of it is at the end of
//! the three texts of a status. It reads no clock: the caller gives the time.
//!
//! `seen` has what is looked at: `ending_certificates` finds the certificates, `same_keys` the keys
//! of distrusted public keys, and `fetches` says how the domains are fetched. `warning_kinds` has
//! what is found, and `warning_search` finds it. `warning_lines`, `warning_json` and
//! `warning_metrics` write it, as functions of only the list. `warned_text` puts that after the
//! texts of a status, and `warned_writer` writes the whole.
#![tactic(auto)]

mod ending_certificates;
mod fetches;
mod kind;
mod peer_address;
mod same_keys;
mod seen;
mod warned_text;
mod warned_writer;
mod warning_json;
mod warning_kinds;
mod warning_lines;
mod warning_metrics;
mod warning_search;

pub use ending_certificates::certificate_ends;
pub use fetches::fetches_of;
pub use peer_address::PeerAddress;
pub use same_keys::find_same_keys;
pub use seen::{CertificateEnd, Fetch, SamePublicKey, Seen, WarnLimits, Watch};
pub use warned_writer::write_warned_status;
pub use warning_json::push_warning_member;
pub use warning_kinds::{DomainFault, Stock, Warning};
pub use warning_lines::push_warning_lines;
pub use warning_metrics::{push_certificate_metrics, push_warning_metrics};
pub use warning_search::find_warnings;
