//! The requests that a running replica answers on its own machine, without a socket, a file or a
//! clock: the bytes of a connection go in, as the pieces in which they come, and a reply comes out.
//!
//! `request_parts` joins the pieces, and gives one request after another; `request_fault` has what
//! is replied if they are not requests. `asked` has what a request asks for, and `carrying_out`
//! does it: `shown_calls` has the commands that show what is held, which are those of
//! [`fedbundle::run_shown`], and
//! `changing_calls` and `changing_replies` those that change it, the first what the arguments say,
//! and the second what is replied. `looking` answers at a socket at which nothing can be changed. A
//! change is journalled by `new_lines`. `reply` is what is sent back, and `reply_sending` says
//! when. `call_words` is for clients. `page_answers` has the pages of the address for health and
//! metrics: those that show what is held are in `held_pages`, with what `page_source` has in
//! addition to it, and `readiness` says whether a peer is heard.
#![tactic(auto)]

mod asked;
mod call_words;
mod carrying_out;
mod changing_calls;
mod changing_replies;
mod fallen_counts;
mod held_pages;
pub mod laws;
mod looking;
mod new_lines;
mod page_answers;
mod page_source;
mod readiness;
mod reply;
mod reply_sending;
mod request_fault;
mod request_parts;
mod shown_calls;

pub use call_words::request_words;
pub use carrying_out::answer_request;
pub use changing_replies::effect_of;
pub use looking::{answer_look, is_change};
pub use page_answers::answer_page;
pub use page_source::PageSource;
pub use reply::Reply;
pub use reply_sending::Sending;
pub use request_fault::RequestFault;
pub use request_parts::{MOST_INPUT, RequestParts, StreamState, WholeRequest};
