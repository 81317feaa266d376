//! The pages, and the target of a request that asks for one.
ghost use Rattle.std.specs.Prelude.{◌≡◌, IfOk, option_map};
ghost use Rattle.std.specs.List.{list_all};
ghost use Rattle.health_pages.specs.Pages.{asked_view, domain_prefix, graph_at, graph_of, is_name};
ghost use Rattle.health_pages.specs.Pages.{is_name_byte, page_at, page_of, page_path};

use std::alloc::{AllocError, Global};
use std::str;

/// A page that never changes.
#[derive(Clone, Copy, Debug, PartialEq, Eq)]
pub enum FixedPage {
    /// The page for people, its style and its script.
    Index,
    Style,
    Script,
    /// Whether the replica runs.
    Live,
}

/// A page that shows what is held.
#[derive(Clone, Copy, Debug, PartialEq, Eq)]
pub enum HeldPage {
    /// What is measured, in the text format of Prometheus.
    Metrics,
    Status,
    Report,
    Keys,
    Graph,
}

/// What can be asked for.
#[derive(Clone, Copy, Debug, PartialEq, Eq)]
pub enum Page {
    Fixed(FixedPage),
    /// Whether a peer hears it, if it has peers.
    Ready,
    Held(HeldPage),
}

static PAGES: [Page; 10] = [
    Page::Fixed(FixedPage::Index),
    Page::Fixed(FixedPage::Style),
    Page::Fixed(FixedPage::Script),
    Page::Held(HeldPage::Metrics),
    Page::Fixed(FixedPage::Live),
    Page::Ready,
    Page::Held(HeldPage::Status),
    Page::Held(HeldPage::Report),
    Page::Held(HeldPage::Keys),
    Page::Held(HeldPage::Graph),
];

/// What comes before the domain in the target of its graph.
const DOMAIN_PREFIX: &str = "/graph.dot?domain=";

impl Page {
    /// The path of the page.
    pub fn path<'a>(self) -> &'a str
        ensures { result.now ≡ page_path self }
    {
        match self {
            Page::Fixed(FixedPage::Index) => "/",
            Page::Fixed(FixedPage::Style) => "/page.css",
            Page::Fixed(FixedPage::Script) => "/page.js",
            Page::Held(HeldPage::Metrics) => "/metrics",
            Page::Fixed(FixedPage::Live) => "/live",
            Page::Ready => "/ready",
            Page::Held(HeldPage::Status) => "/status.json",
            Page::Held(HeldPage::Report) => "/report.json",
            Page::Held(HeldPage::Keys) => "/keys.json",
            Page::Held(HeldPage::Graph) => "/graph.dot",
        }
    }
}

/// A page, and what else its target says.
#[derive(Debug, Drop)]
pub struct AskedPage {
    pub page: Page,
    /// The trust domain of the graph, if one is named: lower-case letters, digits, dots, hyphens
    /// and underscores, at least one.
    pub domain: Option<String>,
}

impl AskedPage {
    ghost use Rattle.std.specs.Prelude.{string_bytes};

    /// The text of the domain.
    pub fn domain_text(&self) -> Option<&str>
        ensures { option_map (λ text. text.now) result
            ≡ option_map string_bytes self.now.domain }
    {
        match &self.domain {
            Some(domain) => Some(domain.as_str()),
            None => None,
        }
    }
}

/// Why a request asks for no page.
#[derive(Clone, Copy, Debug, PartialEq, Eq)]
pub enum PageFault {
    /// The head is longer than 8,192 bytes.
    TooLong,
    /// It is not a head of a request, of HTTP/1.0 or 1.1 with at most 64 fields.
    BadHead,
    /// The method is neither GET nor HEAD.
    BadMethod,
    /// The target is not one of the pages.
    NoPage,
    /// A body is announced, or the number of `Host` fields is wrong.
    BadFields,
    /// A browser says that a page of another site asks.
    CrossSite,
    /// The host that is asked is a name that is not let in.
    BadHost,
}

/// The page of a request's target.
pub(crate) fn page_at(alloc: Global, target: &[u8]) -> Result<Option<AskedPage>, AllocError>
    ensures { IfOk result (λ asked. option_map asked_view asked ≡ page_at target.now) }
{
    match page_of(target) {
        Some(page) => Ok(Some(AskedPage { page, domain: None })),
        None => graph_at(alloc, target),
    }
}

fn page_of(target: &[u8]) -> Option<Page>
    ensures { result ≡ page_of target.now }
{
    'pages: for &page in PAGES.as_slice() {
        if page.path().as_bytes() == target {
            return Some(page);
        }
    }
    None
}

// The graph of one domain.
fn graph_at(alloc: Global, target: &[u8]) -> Result<Option<AskedPage>, AllocError>
    ensures { IfOk result (λ asked. option_map asked_view asked ≡ graph_at target.now) }
{
    match target.strip_prefix(DOMAIN_PREFIX.as_bytes()) {
        Some(name) => graph_of(alloc, name),
        None => Ok(None),
    }
}

fn graph_of(alloc: Global, name: &[u8]) -> Result<Option<AskedPage>, AllocError>
    ensures { IfOk result (λ asked. option_map asked_view asked ≡ graph_of name.now) }
{
    if !is_name(name) {
        return Ok(None);
    }
    match str::from_utf8(name) {
        Ok(name) => Ok(Some(AskedPage {
            page: Page::Held(HeldPage::Graph),
            domain: Some(String::from_str(alloc, name)?),
        })),
        Err(_) => Ok(None),
    }
}

fn is_name(name: &[u8]) -> bool
    ensures { result ≡ is_name name.now }
{
    match name {
        [] => false,
        _ => are_name_bytes(name),
    }
}

fn are_name_bytes(bytes: &[u8]) -> bool
    ensures { result ≡ list_all is_name_byte bytes.now }
{
    bytes.iter().all(|byte| is_name_byte(*byte))
}

fn is_name_byte(byte: u8) -> bool
    ensures { result ≡ is_name_byte byte }
{
    byte.is_ascii_lowercase()
        || byte.is_ascii_digit()
        || byte == b'-'
        || byte == b'.'
        || byte == b'_'
}
