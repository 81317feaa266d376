//! Runs the calls of the commands on the rows of a script, and prints what comes of each.
//!
//! The head of the script says what rows there are. A row with the arguments of a command is run
//! over both closures, with the input in pieces of several sizes, and its lines are printed once if
//! they are the same each time. Arguments that a running replica answers too are sent to one as a
//! request, and must have the same outcome, except for the lines that say what fell.
#![tactic(auto)]

mod commands;
mod devices;
mod refusals;
mod requests;
mod settings;
mod shown_forms;
mod words;

use crate::settings::{Trial, answer_asked, answer_run, answer_trial};
use row_script::{Row, Rows, Script, run};
use std::alloc::{AllocError, Global};
use std::io;

/// What is done with each row.
#[derive(Drop)]
struct CommandRows {
    alloc: Global,
}

impl Rows for CommandRows {
    fn answer(
        &mut self,
        script: &Script,
        row: &Row<'_>,
        answer: &mut String,
    ) -> Result<(), AllocError> {
        let alloc = self.alloc;
        match row.verb {
            // These are only for the built program.
            "built" => Ok(()),
            "run" | "session" => answer_run(alloc, script, row, answer),
            "asked" => answer_asked(alloc, script, row, answer),
            "full_after" => answer_trial(alloc, script, row, Trial::Full, answer),
            "broken_after" => answer_trial(alloc, script, row, Trial::Broken, answer),
            "untold_after" => answer_trial(alloc, script, row, Trial::Unprinted, answer),
            "words" => words::answer_words(alloc, script, row, answer),
            "shows" => words::answer_shown(alloc, script, row, answer),
            "refusal" => refusals::answer_refusal(alloc, row.words, answer),
            _ => answer.push_str("unknown verb\n"),
        }
    }
}

fn main(rt: HostRuntime) -> io::Result<()> {
    let mut rows = CommandRows { alloc: rt.alloc() };
    run(&rt, &mut rows)
}
