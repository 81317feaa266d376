//! The texts of the local requests that a running replica answers: the first line of a request,
//! which says how its input ends; its arguments, as a JSON array (RFC 8259); and the first line of
//! a reply.
#![tactic(auto)]

mod reply_head;
mod request_error;
mod request_line;
mod request_words;

pub use reply_head::{ReplyHead, read_reply_head, write_reply_head};
pub use request_error::RequestError;
pub use request_line::{InputEnd, RequestLine, read_request_line};
pub use request_words::{MOST_WORDS, read_request_words, write_request_words};
