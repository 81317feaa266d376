// What the arguments ask for: a running replica is asked (`--at`), this process becomes one
// (`replica`), or it carries out the command with its own files and streams (`subcommands`).
use crate::replica_settings;
use command_exits::{CommandError, Exit};
use command_line::{Call, CommandName, OptionName, WordsError, given, manner_of, read_words};
use subcommands::carry_out_here;
use subcommands::faults::{end_without_call, status_of};
use subcommands::process::options::config_of;
use subcommands::process::{print_clap, texts_of, words_of_process};
use subcommands::replica_client::ask_running;

/// What the arguments ask for, done: the exit status 0, or 1 if an input was refused and the rest
/// is done.
pub(crate) fn run(rt: &HostRuntime) -> Result<u8, Exit> {
    let words = words_of_process(rt)?;
    let texts = texts_of(rt.alloc(), words.as_slice())?;
    match read_words(rt.alloc(), texts.as_slice()) {
        Ok(call) => Ok(status_of(rt, &call, carry_out(rt, &call))),
        Err(error) => end_by_words(rt, texts.as_slice(), &error),
    }
}

// The arguments are not those of a command, ask for help or for the version, or have a flaw.
fn end_by_words(rt: &HostRuntime, words: &[&str], error: &WordsError<'_>) -> Result<u8, Exit> {
    match error {
        WordsError::Words(shown) => Ok(print_clap(rt, shown)),
        WordsError::Usage => Ok(end_without_call(rt, words)),
        WordsError::Flawed(call, flaw) => Ok(status_of(rt, call, Err(Exit::from(*flaw)))),
        WordsError::NoMemory => Err(Exit::Refused(CommandError::NoMemory)),
    }
}

fn carry_out(rt: &HostRuntime, call: &Call<'_>) -> Result<u8, Exit> {
    let manner = manner_of(call)?;
    if let Some(path) = given(call, OptionName::At) {
        return ask_running(rt, call, path, manner.wait_seconds);
    }
    match call.name {
        CommandName::Replica => replica_settings::run(rt, config_of(rt, call)?, call),
        _ => carry_out_here(rt, call),
    }
}
