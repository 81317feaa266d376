//! What a replica holds, asks, answers and takes, as values, and the world of replicas: events on
//! what they hold, and what converges. No text is known here.
//!
//! A replica asks by `asking` and `have_message`, and answers by `answering` and `lent_answer`. It
//! takes by `absorbing`: `first_unwelcome`, `free_places` and then `joining`. Worlds are `world`
//! over `replicas_in_memory`, `grown_closures` and `message`.
#![tactic(auto)]

mod absorbing;
mod answering;
mod asking;
mod earlier;
mod entry;
mod error;
mod event;
mod first_unwelcome;
mod free_places;
mod give;
mod grown_closures;
mod have_message;
mod joining;
pub mod laws;
mod lent_answer;
mod message;
mod replicas_in_memory;
mod world;

pub use absorbing::absorb;
pub use answering::answer;
pub use asking::{bucket_ids, have};
pub use entry::Entry;
pub use error::{PullFault, SyncError};
pub use event::Event;
pub use give::Give;
pub use have_message::Have;
pub use joining::distrust_all;
pub use lent_answer::{Answer, Lacking};
pub use world::run_world;
