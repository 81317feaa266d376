//! A replica that runs as a daemon: one thread over readiness holds the closure in memory, answers
//! requests of its own machine, gives other replicas what it holds, and takes what they hold.
//!
//! The crates below decide, without a socket, a file or a clock: this one moves bytes. No clause
//! says anything of the system's sockets and files, so proved here are safety and that each turn
//! returns if the system's calls do; runs of the program show the rest.
//!
//! `replica` begins and ends a replica, and `turn` is one round of the loop: what came is read, and
//! a few milliseconds of what waits are carried out, in the order that `fair_turns` has. Changes go
//! to the journal, and only then they are shown to anyone; a long journal goes into the snapshot.
//! `change_reports` says what the files and the events get of a change, and `replica_events` has
//! these files. `settings` are what the arguments say of a replica, and `turn_counts` has what the
//! metrics show of the loop. Connections come in at the listeners of `replica_sockets`, and
//! `replica_connections` has them.
#![tactic(auto)]

mod change_reports;
mod replica;
mod settings;
mod turn;
mod turn_counts;

pub use replica::run_replica;
pub use settings::Settings;
