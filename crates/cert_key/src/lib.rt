//! What a certificate says of its key (RFC 5280): the public key, the subject, and from when to
//! when it is valid. Nothing is verified here.
#![tactic(auto)]

mod attribute_text;
mod certificate;
mod dates;
mod der;
mod moment;
mod name;
mod object_identifier;

pub use certificate::{CertParts, read_certificate};
pub use dates::moment_text;
pub use name::name_text;
