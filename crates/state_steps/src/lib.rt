//! The order in which the files of a state are changed, without a file: for each change a machine
//! that says which step comes next, and what it means that the step is done, or that it failed.
//!
//! `saving` is what a command does at its end, `beginning` what a running replica does first,
//! `appending` what it does with what comes, and `folding` when its journal is long. If lines came
//! during a fold, `shortening` is what it does after it. `resuming` is what it does if it could not
//! write the state at its beginning. A stop at any time loses no line that was on the disk.
//!
//! `carrying_over` is how a state gets another configuration: what was held under the old one is
//! kept in a file next to the state.
//!
//! `seen_file` is what others made of a file since it was left.
//!
//! With an audit file, `keeping` is the order of that file and the state's: whatever a stop leaves,
//! each change that is held has its line there. `cutting` is how a replica begins with the file
//! that it found: then it has the lines of exactly the changes that are held.
#![tactic(auto)]

mod appending;
mod beginning;
mod carrying_over;
mod cutting;
mod file_step;
mod folding;
mod keeping;
pub mod laws;
mod line_cuts;
mod new_fate;
mod resuming;
mod saving;
mod seen_file;
mod shortening;
mod since;

pub use appending::{AppendStep, Appending};
pub use beginning::{BeginStep, Beginning, FoundFiles};
pub use carrying_over::{CarrySide, CarryStep, CarryingOver};
pub use cutting::{CutStep, Cutting, LastLine};
pub use file_step::FileStep;
pub use folding::{FoldEnd, Folding};
pub use keeping::{KeepStep, Keeping, OnDisk};
pub use line_cuts::{CountedLines, EndLine, end_line, may_be_left_of};
pub use new_fate::{NewFate, fate_of_new, head_of_bytes};
pub use resuming::{ResumeStep, Resuming};
pub use saving::Saving;
pub use seen_file::{
    FileFate, FileSeen, FileTime, LostFile, fate_of_file, fate_of_written, is_of_one_config,
    lost_of,
};
pub use shortening::{ShortenStep, Shortening};
pub use since::Since;
