//! What a head asks for, once it has come whole.
ghost use Rattle.std.specs.Prelude.{◌≡◌, IfOk, MatchOption, length, map, option_map};
ghost use Rattle.health_pages.specs.Heads.{IsHeadAt, IsNoHead, IsVerdictOfHead, RefusesRequest};
ghost use Rattle.health_pages.specs.Heads.{SaysHead, asked_by, asked_with, field_limit, host_view};
ghost use Rattle.health_pages.specs.Heads.{is_get, is_head, result_view};
ghost use Rattle.health_pages.specs.Hosts.{asked_if, lets_in};
ghost use Rattle.health_pages.specs.Pages.{asked_view};
ghost use Rattle.health_pages.specs.declared.asked_page.PageFault.TheVariants.{BadHead};

use crate::asked_host::lets_in;
use crate::asked_page::{AskedPage, PageFault, page_at};
use crate::head_fields::{fields_fault, host_in};
use httparse::Status;
use httparse::spans::{EMPTY_HEADER_SPAN, HeaderSpan, RequestSpans, parse_request};
use std::alloc::{AllocError, Global};

/// The most fields of a head.
const MOST_FIELDS: usize = 64;

/// What a head asks for, kept without the head.
#[derive(Debug, Drop)]
pub struct HeadVerdict {
    /// Whether the method is HEAD: then the response has no body.
    pub is_head: bool,
    /// The page, or why there is no page, whichever host is asked.
    pub asked: Result<AskedPage, PageFault>,
    /// The host that is asked: the value of the first `Host` field.
    pub host: Option<Vec<u8>>,
}

impl HeadVerdict {
    /// A head that never came whole.
    pub fn unread() -> HeadVerdict
        ensures { RefusesRequest BadHead result }
    {
        refused_head(PageFault::BadHead)
    }

    /// The page, or why there is no page, if hosts of these names are let in.
    pub fn asked_of(self, names: &[&str]) -> Result<AskedPage, PageFault>
        ensures { result_view result ≡ asked_if (lets_in (map (λ n. n.now) names.now)
            (host_view self)) (result_view self.asked) }
    {
        let HeadVerdict { asked, host, .. } = self;
        match asked {
            Ok(asked) if lets_in_host(names, &host) => Ok(asked),
            Ok(_) => Err(PageFault::BadHost),
            Err(fault) => Err(fault),
        }
    }
}

fn lets_in_host(names: &[&str], host: &Option<Vec<u8>>) -> bool
    ensures { result ≡ lets_in (map (λ n. n.now) names.now)
        (option_map (λ h. h.items) host.now) }
{
    match host {
        Some(host) => lets_in(names, Some(host.as_slice())),
        None => lets_in(names, None),
    }
}

/// The verdict on a head that is not read.
pub(crate) fn refused_head(fault: PageFault) -> HeadVerdict
    ensures { RefusesRequest fault result }
{
    HeadVerdict {
        is_head: false,
        asked: Err(fault),
        host: None,
    }
}

/// The verdict on all bytes up to the empty line.
pub(crate) fn verdict_of_head(alloc: Global, head: &[u8]) -> Result<HeadVerdict, AllocError>
    ensures { IfOk result (IsVerdictOfHead head.now) }
{
    let mut fields = [EMPTY_HEADER_SPAN; MOST_FIELDS];
    match read_head(head, &mut fields) {
        Some(spans) => verdict_of_parts(alloc, head, spans, &fields),
        None => Ok(refused_head(PageFault::BadHead)),
    }
}

// The places of the parts, if all of the bytes are one head.
fn read_head(head: &[u8], fields: &mut [HeaderSpan]) -> Option<RequestSpans>
    requires { length fields.old ≡ field_limit }
    ensures { MatchOption result (IsNoHead head.now) (IsHeadAt head.now fields.new) }
{
    match parse_request(head, fields) {
        Ok(Status::Complete(spans)) if spans.len == head.len() => Some(spans),
        _ => None,
    }
}

fn verdict_of_parts(
    alloc: Global,
    head: &[u8],
    spans: RequestSpans,
    fields: &[HeaderSpan],
) -> Result<HeadVerdict, AllocError>
    requires { IsHeadAt head.now fields.now spans }
    ensures { IfOk result (SaysHead head.now) }
{
    let method = spans.method.of(head);
    let fields = &fields[..spans.headers];
    let fault = fields_fault(head, spans.version, fields);
    Ok(HeadVerdict {
        is_head: is_head(method),
        asked: asked_by(alloc, method, spans.path.of(head), fault)?,
        host: kept_host(alloc, host_in(head, fields))?,
    })
}

fn kept_host(alloc: Global, host: Option<&[u8]>) -> Result<Option<Vec<u8>>, AllocError>
    ensures { IfOk result (λ kept. option_map (λ h. h.items) kept
        ≡ option_map (λ h. h.now) host.entry) }
{
    match host {
        Some(host) => Ok(Some(Vec::from_slice(alloc, host)?)),
        None => Ok(None),
    }
}

fn asked_by(
    alloc: Global,
    method: &[u8],
    target: &[u8],
    fault: Option<PageFault>,
) -> Result<Result<AskedPage, PageFault>, AllocError>
    ensures { IfOk result (λ asked. result_view asked ≡ asked_by method.now target.now fault) }
{
    if !is_get(method) && !is_head(method) {
        return Ok(Err(PageFault::BadMethod));
    }
    let page = page_at(alloc, target)?;
    Ok(asked_with(page, fault))
}

fn asked_with(page: Option<AskedPage>, fault: Option<PageFault>) -> Result<AskedPage, PageFault>
    ensures { result_view result ≡ asked_with (option_map asked_view page) fault }
{
    match (page, fault) {
        (Some(asked), None) => Ok(asked),
        (Some(_), Some(fault)) => Err(fault),
        (None, _) => Err(PageFault::NoPage),
    }
}

fn is_get(method: &[u8]) -> bool
    ensures { result ≡ is_get method.now }
{
    method == b"GET".as_slice()
}

fn is_head(method: &[u8]) -> bool
    ensures { result ≡ is_head method.now }
{
    method == b"HEAD".as_slice()
}
