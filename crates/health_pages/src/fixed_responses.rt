//! Responses that take no memory.
ghost use Rattle.std.specs.Prelude.{◌≡◌, codes, false};
ghost use Rattle.health_pages.specs.Responses.{response_text};
ghost use Rattle.health_pages.specs.declared.response.ContentType.TheVariants.{Text};
ghost use Rattle.health_pages.specs.declared.response.ResponseStatus.TheVariants.{Unavailable};

/// The reply if memory ran out.
pub fn memory_response<'a>(is_head: bool) -> &'a [u8]
    ensures { result.now ≡ response_text Unavailable Text (codes "out of memory\n") is_head }
{
    if is_head {
        b"HTTP/1.1 503 Service Unavailable\r\nContent-Length: 14\r\n\
          Content-Type: text/plain; charset=utf-8\r\nConnection: close\r\n\
          X-Content-Type-Options: nosniff\r\n\
          Cross-Origin-Resource-Policy: same-origin\r\nCache-Control: no-store\r\n\r\n"
    } else {
        b"HTTP/1.1 503 Service Unavailable\r\nContent-Length: 14\r\n\
          Content-Type: text/plain; charset=utf-8\r\nConnection: close\r\n\
          X-Content-Type-Options: nosniff\r\n\
          Cross-Origin-Resource-Policy: same-origin\r\nCache-Control: no-store\r\n\r\n\
          out of memory\n"
    }
}

/// The reply if there is no room for one more request.
pub fn crowd_response<'a>() -> &'a [u8]
    ensures { result.now ≡ response_text Unavailable Text (codes "too many requests\n") false }
{
    b"HTTP/1.1 503 Service Unavailable\r\nContent-Length: 18\r\n\
      Content-Type: text/plain; charset=utf-8\r\nConnection: close\r\n\
      X-Content-Type-Options: nosniff\r\n\
      Cross-Origin-Resource-Policy: same-origin\r\nCache-Control: no-store\r\n\r\n\
      too many requests\n"
}
