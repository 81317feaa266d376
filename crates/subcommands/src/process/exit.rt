//! How the program ends before its command is done.
use crate::process::streams::line_errors;
use command_exits::{CommandError, Exit, exit_status, write_exit};

/// Prints on standard error why the program ends, and returns its exit status, or 3 if that is
/// greater and standard error failed.
pub fn print_exit(rt: &HostRuntime, exit: &Exit) -> u8 {
    let written = write_exit(exit, &mut line_errors(rt)).is_ok();
    let status = exit_status(exit);
    if written { status } else { status.max(3) }
}

/// Prints what clap says of the arguments, and returns the exit status. It prints on standard error
/// that they are not those of a command, and on standard output the help or the version that they
/// ask for.
pub fn print_clap(rt: &HostRuntime, shown: &clap::Error) -> u8 {
    match (shown.print(rt).is_ok(), shown.use_stderr()) {
        (true, true) => 2,
        (false, true) => 3,
        (true, false) => 0,
        (false, false) => print_exit(rt, &Exit::Refused(CommandError::Io)),
    }
}
