//! Arguments that clap takes and that are not a call: what is missing.
use crate::process::{is_verbose_unasked, print_exit, say};
use command_exits::Exit;
use command_line::{OptionName, TakenOption, command_of};
use std::alloc::AllocError;

/// Reports that the arguments are not a call, and what is missing, and returns the exit status.
pub fn end_without_call(rt: &HostRuntime, words: &[&str]) -> u8 {
    let status = print_exit(rt, &Exit::Usage);
    if is_asked_for(words) || is_verbose_unasked(rt) {
        // That memory ran out for it changes nothing.
        let _ = say_lack(rt, words);
    }
    status
}

fn is_asked_for(words: &[&str]) -> bool {
    words.iter().any(|word| *word == "--verbose")
}

fn say_lack(rt: &HostRuntime, words: &[&str]) -> Result<(), AllocError> {
    let Some(name) = words.first().and_then(|word| command_of(word)) else {
        say(rt, "a subcommand is missing: see fedbundle --help");
        return Ok(());
    };
    let has_at = has_option(words, OptionName::At);
    'options: for &taken in name.options() {
        if let Some(line) = lack_of(words, taken, has_at) {
            let (command, option) = (name.text(), taken.name().text());
            say(
                rt,
                format!(in rt.alloc(); "{command}: --{option} {line}")?.as_str(),
            );
        }
    }
    Ok(())
}

// What is wrong with an option among the arguments.
fn lack_of<'a>(words: &[&str], taken: TakenOption, has_at: bool) -> Option<&'a str> {
    let is_there = has_option(words, taken.name());
    match taken {
        TakenOption::RequiredOverFiles(_) | TakenOption::OptionalOverFiles(_) if has_at =>
            is_there.then_some("may not stand beside --at"),
        TakenOption::OptionalAtReplica(_) if !has_at => is_there.then_some("is only for --at"),
        TakenOption::Required(_) | TakenOption::RequiredOverFiles(_) if !is_there => {
            Some("is missing")
        }
        _ => None,
    }
}

fn has_option(words: &[&str], option: OptionName) -> bool {
    words.iter().any(|word| is_option(word, option.text()))
}

// Whether the argument is the option, or begins with it and has its text after an equals sign.
fn is_option(word: &str, name: &str) -> bool {
    let Some(rest) = word.strip_prefix("--") else {
        return false;
    };
    let found = match rest.split_once('=') {
        Some((found, _)) => found,
        None => rest,
    };
    found == name
}
