//! The sockets of a running replica, as far as they know nothing of what is said there.
//!
//! Connections come in at the `listeners`: a `socket_path` is that of one of them, and a `socket`
//! is what an accept or a connect gave. `step_fault` says at which step the system refused
//! something. No clause says anything of the system's sockets: only safety is proved here.
#![tactic(auto)]

mod listeners;
mod socket;
mod socket_path;
mod step_fault;

pub use listeners::{Arrival, ListenPlaces, Listeners, Rights};
pub use socket::{Progress, Socket};
pub use socket_path::too_long;
pub use step_fault::{at_step, file_at_step};
