//! The place of an error in an input: a second look at what was refused, for a message to an
//! operator.
//!
//! Reading a configuration or a bundle returns only the first cause, and no place. What is found
//! here is looked for only if a message is wanted. Each contract says that the named error really
//! is at the named place; no clause says that something is found, which rows show.
#![tactic(auto)]

mod finding;
mod flaws;
mod floor_flaws;
mod ignored_keys;
mod json_place;
mod part_flaws;
mod place;
mod quoting;
mod shape_flaws;
mod url_flaws;

pub use finding::find_flaw;
pub use flaws::{Flaw, FoundFlaw};
pub use ignored_keys::is_ignored;
pub use json_place::{JsonFault, json_fault};
pub use place::FlawPlace;
pub use quoting::{push_quoted, push_shown};
pub use url_flaws::UrlFlaw;
