//! The arguments of the command line, as the system gives them.
use command_exits::{CommandError, Exit};
use std::alloc::{AllocError, Global};
use std::rt::Env;
use std::{env, io};

/// The arguments that the program was started with, without its own name.
pub fn words_of_process<R: Env + AllocGlobal>(rt: &R) -> Result<Vec<String>, Exit> {
    match env::args(rt) {
        Ok(words) => Ok(words.skip(1).collect(rt.alloc())?),
        Err(error) if error.kind() == io::ErrorKind::OutOfMemory => {
            Err(Exit::Refused(CommandError::NoMemory))
        }
        Err(_) => Err(Exit::Usage),
    }
}

/// The same arguments, lent.
pub fn texts_of(alloc: Global, words: &[String]) -> Result<Vec<&str>, AllocError> {
    words.iter().map(|word| word.as_str()).collect(alloc)
}
