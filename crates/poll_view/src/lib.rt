//! When each domain is polled next, for operators: values, and two texts of them. It knows closures
//! only by their trait.
#![tactic(auto)]

mod domain_polls;
mod polls_writer;

pub use domain_polls::{DomainPoll, NextPoll, current_hint, next_polls};
pub use polls_writer::{PollsForm, polls_text};
