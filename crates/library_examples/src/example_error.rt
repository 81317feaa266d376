//! Why an example ends.
use bundle_view::{ObserveError, ReportError};
use byte_lines::DeviceError;
use closure_core::TakeError;
use fed_config::ConfigError;
use poll_log::PollError;
use receipt_core::LineError;
use replica_sync::{PullFault, SyncError};
use std::alloc::AllocError;
use thiserror::Error;

/// Why an example ends: an error of a call, or an input that it cannot use.
#[derive(Clone, Copy, Debug, Error)]
pub(crate) enum ExampleError {
    #[error("the input has no configuration")]
    NoConfiguration,
    #[error("the configuration has no relationship")]
    NoRelationship,
    #[error("no key vouches for the domain")]
    NoKey,
    #[error("there is no such moment")]
    NoMoment,
    #[error(transparent)]
    Memory(#[from(alloc)] AllocError),
    #[error(transparent)]
    Device(#[from] DeviceError),
    #[error(transparent)]
    Config(#[from] ConfigError),
    #[error(transparent)]
    Line(#[from] LineError),
    #[error(transparent)]
    Take(#[from] TakeError),
    #[error(transparent)]
    Report(#[from] ReportError),
    #[error(transparent)]
    Observe(#[from] ObserveError),
    #[error(transparent)]
    Poll(#[from] PollError),
    #[error(transparent)]
    Sync(#[from] SyncError),
    #[error(transparent)]
    Pull(#[from] PullFault),
}

// The errors of `jiff` own their text, and this one is to own nothing.
impl From<jiff::Error> for ExampleError {
    fn from(_error: jiff::Error) -> ExampleError {
        ExampleError::NoMoment
    }
}
