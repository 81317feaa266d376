//! What is reported of a change to what a replica holds, and how it is written: as an event, and as
//! a line of the audit file. It knows closures only by their trait.
//!
//! `held_change` is what is reported, and `reporting` makes the parts of it that are of a receipt,
//! of what is held after the change, or of the lines that a peer sent. `change_texts` writes it.
//! `turn_lines` has what the journal and the audit file get in a turn, in one order.
//! `audit_entries` finds out whether a line of the audit file is of a change that is held.
#![tactic(auto)]

mod audit_entries;
mod change_texts;
mod held_change;
mod reporting;
mod turn_lines;

pub use audit_entries::{AUDIT_BEGINNING, AuditLine, holds_line, read_audit_line};
pub use change_texts::{push_event, push_start_line};
pub use held_change::{DistrustedKeys, HeldChange, JournalledChange, NewEntries, ObservedBundle};
pub use reporting::{count_entries, is_now_current, observed_bundle};
pub use turn_lines::{LinesReport, TurnLines, TurnTexts, lines_of_changes, turn_texts};
