//! Sums: a SHA-256 of each part of what a replica holds, by which two replicas find out which parts
//! differ before they exchange any receipt.
#![tactic(auto)]

mod answer_part;
mod first_line;
mod held_sums;
mod kept_sums;
pub mod laws;
mod part_marks;
mod part_sums;
mod question_lines;
mod quiet_pulling;
mod quiet_serving;
mod quiet_session;
mod sum;
mod sum_lines;
mod summed_closure;
mod sums_asking;
mod sums_serving;

pub use part_marks::{Marks, PART_COUNT};
pub use part_sums::Sums;
pub use quiet_pulling::QuietPulling;
pub use quiet_serving::QuietServing;
pub use quiet_session::{pull_quietly, serve_quietly};
pub use sum::Sum;
pub use summed_closure::SummedClosure;
pub use sums_asking::{SumsAsking, sums_question};
