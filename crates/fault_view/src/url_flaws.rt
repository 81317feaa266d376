//! Why a text is not a URL of an endpoint.
ghost use Rattle.std.specs.Prelude.{◌≡◌, ◌↔◌, [], IsTrue, IfSome, codes};
ghost use Rattle.fault_view.specs.Flaws.{IsUrlFlaw};

use std::alloc::Global;
use url::{ParseError, Url};

/// The most bytes that the URL of an endpoint has as it is written.
const MAX_URL_BYTES: usize = 2_048;

/// Why a text is not a URL of an endpoint.
#[derive(Clone, Copy, Debug, PartialEq, Eq)]
pub enum UrlFlaw {
    /// It has more than 2,048 bytes.
    TooLong,
    /// It is not a URL.
    NoUrl,
    /// Its scheme is not `https`.
    OtherScheme,
    /// It has a user name.
    HasUser,
    /// It has a password.
    HasPassword,
}

/// Why the text is not a URL of an endpoint, or `None` if it is one or memory ran out.
pub(crate) fn url_flaw(alloc: Global, text: &str) -> Option<UrlFlaw>
    ensures { IfSome result (IsUrlFlaw text.now) }
{
    if text.len() > MAX_URL_BYTES {
        return Some(UrlFlaw::TooLong);
    }
    let url = match Url::parse(alloc, text) {
        Ok(url) => url,
        Err(ParseError::OutOfMemory | ParseError::Overflow) => return None,
        Err(_) => return Some(UrlFlaw::NoUrl),
    };
    if !is_https(&url) {
        return Some(UrlFlaw::OtherScheme);
    }
    if !has_no_user(&url) {
        return Some(UrlFlaw::HasUser);
    }
    if !has_no_password(&url) {
        return Some(UrlFlaw::HasPassword);
    }
    None
}

fn is_https(url: &Url) -> bool
    ensures { IsTrue result ↔ (url.now.scheme ≡ codes "https") }
{
    url.scheme() == "https"
}

fn has_no_user(url: &Url) -> bool
    ensures { IsTrue result ↔ (url.now.username ≡ []) }
{
    url.username() == ""
}

fn has_no_password(url: &Url) -> bool
    ensures { IsTrue result ↔ (url.now.password ≡ []) }
{
    url.password().is_none()
}
