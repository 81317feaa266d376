//! Relationships with foreign trust domains.
ghost use Rattle.std.specs.Prelude.{◌≡◌, ◌↔◌, [], IsTrue, IfOk, MatchResult, codes};
ghost use Rattle.url.specs.Parts.{Parts};
ghost use Rattle.fed_config.specs.EndpointUrl.{IsEndpointUrl, IsParsed, KeepsUrl};
ghost use Rattle.fed_config.specs.Reading.{Fails};

use crate::error::ConfigError;
use spiffe_name::{SpiffeId, TrustDomain};
use std::alloc::{AllocError, Global};
use std::marker::Model;
use url::{ParseError, Url};

/// The most bytes that the URL of an endpoint has as it is written.
const MAX_URL_BYTES: usize = 2_048;

/// The URL of a bundle endpoint (SPIFFE Federation, section 5.2), as the URL Standard serializes it
/// (section 4.5): its scheme is `https`, and it has neither a user name nor a password.
#[derive(Debug, Drop)]
pub struct EndpointUrl {
    text: String,
}

impl Model for EndpointUrl {
    ghost use Rattle.std.specs.Prelude.{ℕ, List, string_bytes};
    ghost use Rattle.fed_config.specs.EndpointUrl.{IsEndpointUrl};

    ghost Value = { List ℕ };

    ghost view = { λ url. string_bytes url.text };

    ghost invariant = { λ url. IsEndpointUrl (string_bytes url.text) };
}

impl EndpointUrl {
    /// Reads a URL of at most 2,048 bytes whose scheme is `https`, with neither a user name nor a
    /// password.
    pub(crate) fn read(alloc: Global, text: &str) -> Result<EndpointUrl, ConfigError>
        ensures { MatchResult result (KeepsUrl text.now)
            (Fails ConfigError.BadUrl ((parts : Parts) × IsParsed text.now parts)) }
    {
        if text.len() > MAX_URL_BYTES {
            return Err(ConfigError::BadUrl);
        }
        let url = match Url::parse(alloc, text) {
            Ok(url) => url,
            Err(ParseError::OutOfMemory | ParseError::Overflow) => return Err(
                ConfigError::NoMemory,
            ),
            Err(_) => return Err(ConfigError::BadUrl),
        };
        if !is_plain_https(&url) {
            return Err(ConfigError::BadUrl);
        }
        Ok(EndpointUrl {
            text: String::from_str(alloc, url.as_str())?,
        })
    }

    /// The URL's text.
    pub fn as_str(&self) -> &str
        ensures text { result.now ≡ self.now }
        ensures valid { IsEndpointUrl self.now }
    {
        self.text.as_str()
    }

    /// An equal URL.
    ///
    /// # Errors
    /// Memory ran out.
    pub fn try_clone(&self, alloc: Global) -> Result<EndpointUrl, AllocError>
        ensures { IfOk result (λ url. url ≡ self.now) }
    {
        Ok(EndpointUrl {
            text: String::from_str(alloc, self.text.as_str())?,
        })
    }
}

/// The place from which the bundle of a foreign trust domain is fetched, and who answers there
/// (SPIFFE Federation, section 5.2): the profile is always `https_spiffe`.
#[derive(Debug, Drop)]
pub struct Relationship {
    /// The trust domain whose bundle is fetched.
    pub domain: TrustDomain,
    /// The SPIFFE ID with which the endpoint authenticates itself. Its trust domain may be `domain`
    /// or another.
    pub endpoint: SpiffeId,
    /// The URL at which the bundle is served.
    pub url: EndpointUrl,
}

impl Relationship {
    /// An equal relationship.
    ///
    /// # Errors
    /// Memory ran out.
    pub fn try_clone(&self, alloc: Global) -> Result<Relationship, AllocError>
        ensures { IfOk result (λ r. r ≡ self.now) }
    {
        Ok(Relationship {
            domain: self.domain.try_clone(alloc)?,
            endpoint: self.endpoint.try_clone(alloc)?,
            url: self.url.try_clone(alloc)?,
        })
    }
}

/// Whether the scheme is `https`, without a user name and without a password.
fn is_plain_https(url: &Url) -> bool
    ensures { IsTrue result
        ↔ ((url.now.scheme ≡ codes "https") × (url.now.username ≡ []) × (url.now.password ≡ [])) }
{
    if !is_https(url) {
        return false;
    }
    if !has_no_user_name(url) {
        return false;
    }
    has_no_password(url)
}

fn is_https(url: &Url) -> bool
    ensures { IsTrue result ↔ (url.now.scheme ≡ codes "https") }
{
    url.scheme() == "https"
}

fn has_no_user_name(url: &Url) -> bool
    ensures { IsTrue result ↔ (url.now.username ≡ []) }
{
    url.username() == ""
}

fn has_no_password(url: &Url) -> bool
    ensures { IsTrue result ↔ (url.now.password ≡ []) }
{
    url.password().is_none()
}
