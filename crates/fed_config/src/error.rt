//! Why bytes are not a configuration.
ghost use Rattle.std.specs.Prelude.{◌≡◌};
ghost use Rattle.fed_config.specs.declared.error.ConfigError.TheVariants.{NoMemory};

use std::alloc::{AllocError, AllocFailed};
use thiserror::Error;

/// Why bytes are not a configuration. The first cause of this list that holds anywhere is returned,
/// except for lack of memory, which may come at any time.
#[derive(Clone, Copy, Debug, PartialEq, Eq, Error)]
pub enum ConfigError {
    /// The bytes are not a JSON text (RFC 8259), or they nest deeper than 127 levels.
    #[error("C1 NotJson")]
    NotJson,
    /// The value, a relationship or a seed is not an object with exactly its members, a member is
    /// of another kind, or a floor is not a whole number from 0 to 2^64 - 1.
    #[error("C2 Shape")]
    Shape,
    /// A `domain` does not name a trust domain, an `endpoint` is not a SPIFFE ID, or a name of
    /// `floors` is not a trust domain of this configuration.
    #[error("C3 BadName")]
    BadName,
    /// A `url` is not a URL, has more than 2,048 bytes, another scheme than `https`, a user name or
    /// a password.
    #[error("C4 BadUrl")]
    BadUrl,
    /// A `profile` is not `https_spiffe`.
    #[error("C5 BadProfile")]
    BadProfile,
    /// Two relationships have one trust domain.
    #[error("C6 DoubleRelationship")]
    DoubleRelationship,
    /// A `bundle` is not a document, its sequence number is below the floor of its domain, or the
    /// domain has a floor and the `bundle` has no sequence number.
    #[error("C7 BadSeed")]
    BadSeed,
    /// More than 1,024 relationships or 4,096 seeds are written, or there are more than 1,024 trust
    /// domains.
    #[error("C8 TooMany")]
    TooMany,
    /// Memory ran out.
    #[error("C9 NoMemory")]
    NoMemory,
}

impl From<AllocError> for ConfigError {
    ghost from_gives = { λ _ e. e ≡ NoMemory };

    fn from(_error: AllocError) -> ConfigError {
        ConfigError::NoMemory
    }
}

impl<T: Drop> From<AllocFailed<T>> for ConfigError {
    ghost from_gives = { λ _ e. e ≡ NoMemory };

    fn from(_error: AllocFailed<T>) -> ConfigError {
        ConfigError::NoMemory
    }
}
