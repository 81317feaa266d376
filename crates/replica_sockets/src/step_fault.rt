//! Ends with an error of the system and the step at which it came up.
use command_exits::{Exit, FileFault, Step};
use std::io;

/// What the system gave, or the end with its error at the step.
pub fn at_step<T: Drop>(step: Step, done: io::Result<T>) -> Result<T, Exit> {
    match done {
        Ok(value) => Ok(value),
        Err(error) => Err(Exit::of_file(step, FileFault::from(error))),
    }
}

/// The same for a call on the state's files.
pub fn file_at_step<T: Drop>(step: Step, done: Result<T, FileFault>) -> Result<T, Exit> {
    match done {
        Ok(value) => Ok(value),
        Err(fault) => Err(Exit::of_file(step, fault)),
    }
}
