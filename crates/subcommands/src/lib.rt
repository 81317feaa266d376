//! The commands except `replica`, each in a process of its own: with the files and streams of that,
//! or by a running replica that is asked.
//!
//! `commands` says which file carries out a command. `state_access` is the state file as they use
//! it, `connection` a connection with another replica, `limited_reader` a reader with a limit, and
//! `open_line` the line of a stream that has not ended yet. `replica_client` asks a running replica
//! (`--at`). `process` has arguments, streams and options, and `faults` explains an error.
//! The contracts of `fedbundle`, `bucket_sums` and `local_answers` say what the commands print and
//! change: only safety is proved here.
#![tactic(auto)]

mod commands;
mod connection;
pub mod faults;
mod limited_reader;
mod open_line;
pub mod process;
pub mod replica_client;
mod state_access;

pub use commands::carry_out_here;
