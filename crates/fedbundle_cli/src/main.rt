// The program `fedbundle`: it reads its arguments, hands its files and standard streams to the
// command's function, and ends with the exit status that the function's answer has. It is proved to
// be safe and, if the system's calls return, to return.
#![tactic(auto)]

mod dispatch;
mod replica_settings;

use command_exits::{CommandError, Exit};
use std::process::ExitCode;
use subcommands::process::{ClosedStreams, print_exit};

fn main(rt: HostRuntime) -> ExitCode {
    let ended = match run(&rt) {
        Ok(status) => status,
        Err(exit) => print_exit(&rt, &exit),
    };
    ExitCode::from(ended)
}

fn run(rt: &HostRuntime) -> Result<u8, Exit> {
    match ClosedStreams::hold(rt) {
        Ok(_held) => dispatch::run(rt),
        Err(_) => Err(Exit::Refused(CommandError::Io)),
    }
}
