//! The files of a state: the state file, which has a snapshot of what a replica holds, the journal
//! of what came since, and the lock of both. Each call of the system is written here once, and
//! `state_steps` says in which order they come.
//!
//! What a file holds is outside all contracts: these calls are proved only to be safe and to
//! return. That a step does to the files what `state_steps` says of it is shown by runs of the
//! program.
//!
//! `lock` is the lock, `state` the state file, and `journal` the journal to which lines are
//! appended. `load` reads both, `save` writes what is held and removes the journal, `begin` is what
//! a replica that keeps running does first, and `fold` what it does, in pieces, when its journal is
//! long.
//! Between two configurations it begins with `begun_sides`, `carry_over` makes the state one of the
//! next configuration, and `previous_state` is the file that keeps what the previous one held.
//! `made_files` does the steps of a save, a beginning and a fold; a file that it makes is a
//! `new_file`, whose mode and owner `access` gives. Whether others changed a file that is open is
//! seen by `own_file`. `resume` continues with a journal if the state
//! cannot be written. `file_names` has the files' names, `audit` is the file with a line for each
//! change, and `named_files` what the system has under a name: what this program did not make is
//! never changed.
#![tactic(auto)]

mod access;
mod audit;
mod begin;
mod begun_sides;
mod carry_over;
mod file_names;
mod fold;
mod journal;
mod load;
mod lock;
mod made_files;
mod named_files;
mod new_file;
mod own_file;
mod previous_state;
mod resume;
mod save;
mod state;
mod std_calls;

pub use audit::AuditFile;
pub use begin::{StateBeginning, begin_again};
pub use begun_sides::{BegunSides, GivenConfigs};
pub use file_names::{has_journal, journal_path};
pub use fold::{FoldFault, FoldPiece, FoldResult, StateFold};
pub use journal::{AppendFault, Journal, StateAt};
pub use load::load_state;
pub use lock::{StateLock, is_marked, try_lock_state};
pub use named_files::stale_file;
pub use previous_state::remove_previous;
pub use save::{save_snapshot, save_state};
pub use state::{SeenState, see_state, state_bytes};
pub use state_steps::{AppendStep, FoundFiles, KeepStep, Keeping, LostFile, OnDisk};
