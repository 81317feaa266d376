//! Certificates as PEM, as other programs read them (RFC 7468).
#![tactic(auto)]

mod certificates;

pub use certificates::push_certificates;
