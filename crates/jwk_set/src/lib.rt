#![tactic(auto)]

//! The keys of a JWK Set (RFC 7517) that a SPIFFE trust bundle can trust: elements, authorities and
//! key ids.
mod authority;
mod element;
mod forms;
mod kept_text;
pub mod laws;
mod plain_text;
mod text;

pub use authority::{Authority, KeyId, PublicKey};
pub use element::read_element;
pub use forms::{Certificate, NonEmptyText, UrlText};
pub use plain_text::{is_plain, is_plain_byte};
