//! A response as bytes (RFC 9112). No field of its head has a byte that a request chose.
ghost use Rattle.std.specs.Prelude.{◌≡◌, ◌++◌, IfOk, OnOk};
ghost use Rattle.health_pages.specs.Responses.{allow_line, response_line, fixed_lines};
ghost use Rattle.health_pages.specs.Responses.{further_lines, response_head, length_line};
ghost use Rattle.health_pages.specs.Responses.{policy_line};
ghost use Rattle.health_pages.specs.Responses.{response_text, status_line, status_phrase};
ghost use Rattle.health_pages.specs.Responses.{content_line, type_text};

use byte_lines::push_number;
use std::alloc::{AllocError, Global};

/// How a request ended.
#[derive(Clone, Copy, Debug, PartialEq, Eq)]
pub enum ResponseStatus {
    Done,
    BadRequest,
    Forbidden,
    NotFound,
    NotAllowed,
    TooLong,
    Unavailable,
}

/// What the body is.
#[derive(Clone, Copy, Debug, PartialEq, Eq)]
pub enum ContentType {
    Html,
    Style,
    Script,
    Text,
    Metrics,
    Json,
    Graph,
}

/// A response: the head and the body are sent one after another.
#[derive(Debug, Drop)]
pub struct PageResponse {
    pub head: Vec<u8>,
    /// Empty if the method is HEAD.
    pub body: Vec<u8>,
}

/// The response with this body, which is left out if the method is HEAD.
///
/// # Errors
/// Memory ran out.
pub fn write_response(
    alloc: Global,
    status: ResponseStatus,
    content: ContentType,
    body: Vec<u8>,
    is_head: bool,
) -> Result<PageResponse, AllocError>
    ensures { IfOk result (λ response. response.head.items ++ response.body.items
        ≡ response_text status content body.items is_head) }
{
    let mut head = Vec::new(alloc);
    push_head(&mut head, status, content, body.len() as u64)?;
    let body = if is_head { Vec::new(alloc) } else { body };
    Ok(PageResponse { head, body })
}

fn push_head(
    out: &mut Vec<u8>,
    status: ResponseStatus,
    content: ContentType,
    count: u64,
) -> Result<(), AllocError>
    ensures { OnOk result (out.new.items ≡ out.old.items ++ response_head status content count) }
{
    push_status_line(out, status)?;
    push_length_line(out, count)?;
    push_type_line(out, content)?;
    push_further_lines(out, status, content)
}

fn push_status_line(out: &mut Vec<u8>, status: ResponseStatus) -> Result<(), AllocError>
    ensures { OnOk result (out.new.items ≡ out.old.items ++ status_line status) }
{
    push_line(out, "HTTP/1.1 ", status_phrase(status))
}

fn push_line(out: &mut Vec<u8>, label: &str, text: &str) -> Result<(), AllocError>
    ensures { OnOk result (out.new.items ≡ out.old.items ++ response_line label.now text.now) }
{
    push_text(out, label)?;
    push_text(out, text)?;
    out.extend_from_slice(b"\r\n")
}

fn push_length_line(out: &mut Vec<u8>, count: u64) -> Result<(), AllocError>
    ensures { OnOk result (out.new.items ≡ out.old.items ++ length_line count) }
{
    out.extend_from_slice(b"Content-Length: ")?;
    push_number(out, count)?;
    out.extend_from_slice(b"\r\n")
}

fn push_type_line(out: &mut Vec<u8>, content: ContentType) -> Result<(), AllocError>
    ensures { OnOk result (out.new.items ≡ out.old.items ++ content_line content) }
{
    push_line(out, "Content-Type: ", type_text(content))
}

fn push_further_lines(
    out: &mut Vec<u8>,
    status: ResponseStatus,
    content: ContentType,
) -> Result<(), AllocError>
    ensures { OnOk result (out.new.items ≡ out.old.items ++ further_lines status content) }
{
    push_text(out, fixed_lines())?;
    push_text(out, allow_line(status))?;
    push_text(out, policy_line(content))?;
    out.extend_from_slice(b"\r\n")
}

fn push_text(out: &mut Vec<u8>, text: &str) -> Result<(), AllocError>
    ensures { OnOk result (out.new.items ≡ out.old.items ++ text.now) }
{
    out.extend_from_slice(text.as_bytes())
}

// The fields that each response has.
fn fixed_lines<'a>() -> &'a str
    ensures { result.now ≡ fixed_lines }
{
    "Connection: close\r\nX-Content-Type-Options: nosniff\r\n\
     Cross-Origin-Resource-Policy: same-origin\r\nCache-Control: no-store\r\n"
}

fn status_phrase<'a>(status: ResponseStatus) -> &'a str
    ensures { result.now ≡ status_phrase status }
{
    match status {
        ResponseStatus::Done => "200 OK",
        ResponseStatus::BadRequest => "400 Bad Request",
        ResponseStatus::Forbidden => "403 Forbidden",
        ResponseStatus::NotFound => "404 Not Found",
        ResponseStatus::NotAllowed => "405 Method Not Allowed",
        ResponseStatus::TooLong => "431 Request Header Fields Too Large",
        ResponseStatus::Unavailable => "503 Service Unavailable",
    }
}

fn type_text<'a>(content: ContentType) -> &'a str
    ensures { result.now ≡ type_text content }
{
    match content {
        ContentType::Html => "text/html; charset=utf-8",
        ContentType::Style => "text/css; charset=utf-8",
        ContentType::Script => "text/javascript; charset=utf-8",
        ContentType::Text => "text/plain; charset=utf-8",
        ContentType::Metrics => "text/plain; version=0.0.4; charset=utf-8",
        ContentType::Json => "application/json",
        ContentType::Graph => "text/vnd.graphviz; charset=utf-8",
    }
}

// The methods that there are, after another one.
fn allow_line<'a>(status: ResponseStatus) -> &'a str
    ensures { result.now ≡ allow_line status }
{
    match status {
        ResponseStatus::NotAllowed => "Allow: GET, HEAD\r\n",
        _ => "",
    }
}

// What a browser may do with the page for people.
fn policy_line<'a>(content: ContentType) -> &'a str
    ensures { result.now ≡ policy_line content }
{
    match content {
        ContentType::Html => {
            "Content-Security-Policy: default-src 'none'; script-src 'self'; style-src 'self'; \
             connect-src 'self'; base-uri 'none'; form-action 'none'; frame-ancestors 'none'\r\n"
        }
        _ => "",
    }
}
