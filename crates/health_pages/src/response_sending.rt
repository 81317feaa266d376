//! A response on its way.
ghost use Rattle.std.specs.Prelude.{◌≡◌, ◌↔◌, ◌<◌, ◌≤◌, ◌++◌, [], IsTrue, drop, length, vec_len};

use crate::response::PageResponse;

/// A response that is being sent: its head, and then its body.
#[derive(Drop)]
pub struct ResponseSending {
    response: PageResponse,
    head_sent: usize,
    body_sent: usize,
    ghost head: { head_sent ≤ vec_len response.head },
    ghost body: { body_sent ≤ vec_len response.body },
}

impl ResponseSending {
    ghost use Rattle.health_pages.specs.Sending.{left_of_body, left_of_response, response_due};
    ghost use Rattle.health_pages.specs.Sending.{response_unsent};

    /// Nothing of the response is sent yet.
    pub fn new(response: PageResponse) -> ResponseSending
        ensures { response_unsent result ≡ response.head.items ++ response.body.items }
    {
        ResponseSending {
            response,
            head_sent: 0,
            body_sent: 0,
        }
    }

    /// How many bytes the response has, at most 2^64 - 1.
    pub fn bytes(&self) -> u64 {
        let head = self.response.head.len() as u64;
        head.saturating_add(self.response.body.len() as u64)
    }

    /// Whether a byte of the response was sent: its head, which comes first, has some.
    pub fn has_begun(&self) -> bool
        ensures { IsTrue result ↔ (0 < self.now.head_sent) }
    {
        self.head_sent > 0
    }

    /// What is to be sent next: nothing only if all is sent.
    pub fn output(&self) -> &[u8]
        ensures { result.now ≡ response_due self.now }
    {
        let head = &self.response.head[self.head_sent..];
        if !head.is_empty() {
            return head;
        }
        &self.response.body[self.body_sent..]
    }

    /// Says that the first `count` bytes of what was to be sent were sent.
    pub fn wrote(&mut self, count: usize)
        requires { count ≤ length (response_due self.old) }
        ensures { response_unsent self.new ≡ drop count (response_unsent self.old) }
    {
        if self.head_sent < self.response.head.len() {
            self.head_sent += count;
        } else {
            self.body_sent += count;
        }
    }
}
