//! Why a command ends: the errors of its functions, its exit status, and the line that reports an
//! error. With these is what each command begins with, reading its configuration.
#![tactic(auto)]

mod config_source;
mod error;
mod exits;
mod fault;
mod file_fault;
mod run_error;

pub use config_source::read_config;
pub use error::{CommandError, status};
pub use exits::{Exit, Step, SystemFault, exit_status, write_exit};
pub use fault::write_fault;
pub use file_fault::FileFault;
pub use run_error::RunError;
