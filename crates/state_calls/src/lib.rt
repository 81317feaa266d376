//! The steps that change the files of a state, each done by calls of the system, in the order that
//! `state_steps` says. What does a step is a trait, so all here holds of whatever does it: a step
//! counts as done exactly if it was done.
//!
//! `calls` has the trait. `saves`, `begins`, `folds`, `shortens`, `resumes`, `appends` and
//! `carries` do the step of a machine that is due, or all of them.
#![tactic(auto)]

mod appends;
mod begins;
mod calls;
mod carries;
mod folds;
mod logs;
mod resumes;
mod saves;
mod shortens;

pub use appends::{append_lines, sync_lines};
pub use begins::begin;
pub use calls::{FoldCalls, LineCalls, ShortenCalls, StepCalls, StepFault};
pub use carries::carry_state;
pub use folds::fold;
pub use logs::{LineLog, StepLog};
pub use resumes::resume;
pub use saves::save;
pub use shortens::shorten;
