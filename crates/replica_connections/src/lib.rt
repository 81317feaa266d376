//! The connections of a running replica: what is said on each, and the table of them.
//!
//! `connection_table` has them, `live_connection` is one of them, and what is said on it is a
//! `talk`: a `local_talk` is one request of this machine, a `page_talk` one request for a page, and
//! `peer_talks` has those with other replicas. `request_work` says which requests show much, and
//! which may change what is held. What is answered, and what is reported of a change, is said by
//! the contracts of `local_answers`, and whose turn it is by those of `fair_turns`: proved here is
//! safety.
#![tactic(auto)]

mod connection_table;
mod live_connection;
mod local_talk;
mod page_talk;
mod request_work;
mod talk;

pub use connection_table::ConnectionTable;
pub use live_connection::LiveConnection;
pub use local_talk::{LocalTalk, Surroundings};
pub use page_talk::PageTalk;
pub use talk::Talk;
