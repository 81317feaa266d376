//! A new start: the configuration whose seeds are the current documents, and the doubt about one of
//! them as a seed. It knows closures only by their trait.
#![tactic(auto)]

mod doubt;
pub mod laws;
mod new_floors;
mod new_start;
mod refusals;
mod seed_choice;
mod staying;

pub use doubt::SeedDoubt;
pub use new_floors::FloorChoice;
pub use new_start::{NewConfig, Reseeded, reseed};
