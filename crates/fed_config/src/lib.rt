//! The configuration of a replica: from whom it takes bundles, and which it is given out of band.
#![tactic(auto)]

mod canonical;
mod config;
mod config_id;
mod domains;
mod error;
mod floor;
pub mod laws;
mod limits;
mod names;
mod read;
mod relationship;
mod seed;
mod sets;
mod written;

pub use canonical::canonical_config;
pub use config::Config;
pub use config_id::ConfigId;
pub use error::ConfigError;
pub use floor::{Floor, unknown_floor};
pub use limits::Limits;
pub use relationship::{EndpointUrl, Relationship};
pub use seed::Seed;
