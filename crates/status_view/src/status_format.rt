//! How the status of a replica is written.

/// How a status is written.
#[derive(Clone, Copy, Debug, PartialEq, Eq)]
pub enum StatusFormat {
    /// As lines: [`crate::status_lines`].
    Text,
    /// As compact JSON: the members of [`crate::push_status_members`].
    Json,
    /// In the text format of Prometheus: [`crate::status_metrics`].
    Prometheus,
}
