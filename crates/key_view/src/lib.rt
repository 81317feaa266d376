//! The keys of X.509 authorities that a replica knows, for operators: what their certificates say,
//! which accepted documents list them, and which of them are distrusted or have the public key of a
//! distrusted one. It knows closures only by their trait.
//!
//! `met_keys` finds the different keys, `listings` which documents list each, and `known_entry`
//! what is known of one; `key_listing` puts that together. `domain_entries` has the public keys of
//! those that are distrusted; `distrusted_keys` finds these without such a listing, for who asks
//! often. `matching_keys` and `keys_writer` select and write.
#![tactic(auto)]

mod distrusted_keys;
mod domain_entries;
mod key_listing;
mod keys_writer;
mod known_entry;
mod listings;
mod matching_keys;
mod met_keys;

pub use key_listing::{DomainKeys, domain_keys};
pub use keys_writer::{KeysForm, keys_text, same_keys_text};
pub use known_entry::{KeyEntry, KeyParts};
pub use matching_keys::{keys_with, same_keys};
