//! The commands with `--at`: a running replica carries them out.
//!
//! `client` is the other side of a local request: it sends the arguments and the input, and gets
//! the reply. `at_replica` makes the request of a command. No clause says anything of the system's
//! sockets: only safety is proved here.
mod at_replica;
mod client;

pub use at_replica::ask_running;
