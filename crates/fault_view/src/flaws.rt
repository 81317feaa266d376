//! What can be wrong with a part of a configuration.
use crate::place::FlawPlace;
use crate::url_flaws::UrlFlaw;
use bundle_doc::DocError;
use spiffe_name::NameError;

/// What is wrong with a part of a configuration. Texts are lent by its JSON value.
#[derive(Clone, Copy, Debug)]
pub enum Flaw<'a> {
    /// It is not an object.
    NotObject,
    /// It has a member of this name, which it may not have.
    UnknownMember(&'a str),
    /// It lacks the member of this name.
    MissingMember(&'a str),
    /// This member is not a text.
    NotText(&'a str),
    /// This member is not an array.
    NotArray(&'a str),
    /// The floor of this name is not a whole number from 0 to 2^64 - 1.
    NotNumber(&'a str),
    /// The floor of this name is not that of a trust domain.
    BadFloorName(&'a str, NameError),
    /// The floor of this name is that of a trust domain which the configuration does not have.
    UnknownDomain(&'a str),
    /// Its `domain` is this text, which names no trust domain.
    BadDomain(&'a str, NameError),
    /// Its `endpoint` is this text, which is not a SPIFFE ID.
    BadEndpoint(&'a str, NameError),
    /// Its `url` is not that of an endpoint.
    BadUrl(UrlFlaw),
    /// Its `profile` is this text, and not `https_spiffe`.
    OtherProfile(&'a str),
    /// Its `domain` is this text, as that of the relationship with this number.
    SameDomain(&'a str, usize),
    /// Its `bundle` is not a bundle.
    BadBundle(DocError),
    /// The sequence number of its `bundle` is the first, and the floor of its domain is the second,
    /// which is above it.
    BelowFloor(u64, u64),
    /// Its `bundle` has no sequence number, and its domain has this floor.
    NoSequence(u64),
}

/// A place in a configuration, and what is wrong there.
#[derive(Clone, Copy, Debug)]
pub struct FoundFlaw<'a> {
    /// Its place.
    pub place: FlawPlace,
    /// What is wrong there.
    pub flaw: Flaw<'a>,
}
