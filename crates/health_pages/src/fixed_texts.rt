//! Bodies that never change.
ghost use Rattle.std.specs.Prelude.{◌≡◌};
ghost use Rattle.health_pages.specs.FixedTexts.{fixed_text};
ghost use Rattle.health_pages.specs.Responses.{fault_status, fixed_type, held_type};
ghost use Rattle.health_pages.specs.Responses.{page_fault_text};

use crate::asked_page::{FixedPage, HeldPage, PageFault};
use crate::page_files::{INDEX_HTML, PAGE_CSS, PAGE_JS};
use crate::response::{ContentType, ResponseStatus};

/// The body of a page that never changes.
pub fn fixed_text<'a>(page: FixedPage) -> &'a str
    ensures { result.now ≡ fixed_text page }
{
    match page {
        FixedPage::Index => INDEX_HTML,
        FixedPage::Style => PAGE_CSS,
        FixedPage::Script => PAGE_JS,
        FixedPage::Live => "live\n",
    }
}

impl FixedPage {
    /// What the body of the page is.
    pub fn content_type(self) -> ContentType
        ensures { result ≡ fixed_type self }
    {
        match self {
            FixedPage::Index => ContentType::Html,
            FixedPage::Style => ContentType::Style,
            FixedPage::Script => ContentType::Script,
            FixedPage::Live => ContentType::Text,
        }
    }
}

impl HeldPage {
    /// What the body of the page is.
    pub fn content_type(self) -> ContentType
        ensures { result ≡ held_type self }
    {
        match self {
            HeldPage::Metrics => ContentType::Metrics,
            HeldPage::Status | HeldPage::Report | HeldPage::Keys => ContentType::Json,
            HeldPage::Graph => ContentType::Graph,
        }
    }
}

impl PageFault {
    /// How the request ends.
    pub fn status(self) -> ResponseStatus
        ensures { result ≡ fault_status self }
    {
        match self {
            PageFault::TooLong => ResponseStatus::TooLong,
            PageFault::BadMethod => ResponseStatus::NotAllowed,
            PageFault::NoPage => ResponseStatus::NotFound,
            PageFault::BadHead | PageFault::BadFields => ResponseStatus::BadRequest,
            PageFault::CrossSite | PageFault::BadHost => ResponseStatus::Forbidden,
        }
    }

    /// The body of the response.
    pub fn text<'a>(self) -> &'a str
        ensures { result.now ≡ page_fault_text self }
    {
        match self {
            PageFault::TooLong => "head too long\n",
            PageFault::BadHead => "bad head\n",
            PageFault::BadMethod => "bad method\n",
            PageFault::NoPage => "no page\n",
            PageFault::BadFields => "bad fields\n",
            PageFault::CrossSite => "request of another site\n",
            PageFault::BadHost => "host not named by --health-host\n",
        }
    }
}
