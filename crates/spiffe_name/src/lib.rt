//! Trust domain names and SPIFFE IDs, as the SPIFFE-ID standard has them.
#![tactic(auto)]

pub mod domain;
pub mod error;
pub mod id;
pub mod laws;

pub use domain::TrustDomain;
pub use error::NameError;
pub use id::SpiffeId;
