//! One address of a running replica for health, metrics and a page: the head of a request is read
//! (RFC 9112), and a response is written. No socket, no file and no clock is here.
//!
//! `asked_page` has the pages and their paths, and `asked_host` the hosts of which they are asked.
//! `head_bytes` keeps what came of a request, and says what its head asks for, by `head_verdict`
//! and `head_fields`. `response` writes a response, and `response_sending` says what of it comes
//! next; `fixed_responses` has those that take no memory.
//! `fixed_texts` has the bodies that never change, of which `page_files` is made from `web/`.
//! `loop_counts` has what the loop of a replica counts, as metrics.
#![tactic(auto)]

mod asked_host;
mod asked_page;
mod fixed_responses;
mod fixed_texts;
mod head_bytes;
mod head_fields;
mod head_verdict;
pub mod laws;
mod loop_counts;
mod page_files;
mod response;
mod response_sending;

pub use asked_page::{AskedPage, FixedPage, HeldPage, Page, PageFault};
pub use fixed_responses::{crowd_response, memory_response};
pub use fixed_texts::fixed_text;
pub use head_bytes::HeadBytes;
pub use head_verdict::HeadVerdict;
pub use loop_counts::{LoopCounts, push_loop_metrics};
pub use response::{ContentType, PageResponse, ResponseStatus, write_response};
pub use response_sending::ResponseSending;
