//! The program `floor_rows`: it reads rows from standard input, makes the calls that read names,
//! elements, documents and configurations, or that find what is wrong in one, and prints what came
//! of each.
#![tactic(auto)]

mod configurations;
mod documents;
mod elements;
mod errors;
mod found_flaws;
mod key_parts;
mod names;
mod words;

use row_script::{Row, Rows, Script};
use std::alloc::{AllocError, Global};
use std::{io, str};

fn main(rt: HostRuntime) -> io::Result<()> {
    row_script::run(&rt, &mut Calls { alloc: rt.alloc() })
}

// The calls, none of which needs what another left.
#[derive(Drop)]
struct Calls {
    alloc: Global,
}

impl Rows for Calls {
    fn answer(
        &mut self,
        script: &Script,
        row: &Row<'_>,
        answer: &mut String,
    ) -> Result<(), AllocError> {
        call_with_bytes(self.alloc, script, row, row.text.as_slice(), answer)
    }
}

fn call_with_bytes(
    alloc: Global,
    script: &Script,
    row: &Row<'_>,
    text: &[u8],
    answer: &mut String,
) -> Result<(), AllocError> {
    match row.verb {
        "element" => elements::read(alloc, script, text, answer),
        "document" => documents::read(alloc, script, row.words, text, answer),
        "direct" => documents::read_directly(alloc, script, row.words, text, answer),
        "value" => documents::read_value(alloc, script, row.words, text, answer),
        "same" => documents::compare(alloc, script, row.words, text, answer),
        "has_key" => documents::has_key(alloc, row.words, text, answer),
        "config" => configurations::read(alloc, text, answer),
        "relationship" => configurations::look_up(alloc, row.words, text, answer),
        "floor" => configurations::look_up_floor(alloc, row.words, text, answer),
        "flaw" => found_flaws::find(alloc, text, answer),
        "json" => found_flaws::place(alloc, text, answer),
        "ignored" => found_flaws::ignored(alloc, text, answer),
        "quoted" => found_flaws::quote(alloc, text, answer),
        "key_parts" => key_parts::read(alloc, text, answer),
        "name_text" => key_parts::read_name(alloc, text, answer),
        "errors" => errors::report_all(answer),
        _ => match str::from_utf8(text) {
            Ok(text) => call_with_text(alloc, script, row, text, answer),
            Err(_) => answer.push_str("no UTF-8 text\n"),
        },
    }
}

fn call_with_text(
    alloc: Global,
    script: &Script,
    row: &Row<'_>,
    text: &str,
    answer: &mut String,
) -> Result<(), AllocError> {
    match row.verb {
        "domain" => names::read_domain(alloc, script, text, answer),
        "id" => names::read_id(alloc, script, text, answer),
        "domains_in_sets" => names::domains_in_sets(alloc, row.words, text, answer),
        "ids_in_sets" => names::ids_in_sets(alloc, row.words, text, answer),
        "url_text" => elements::read_url_text(alloc, script, text, answer),
        "non_empty_text" => elements::read_non_empty_text(alloc, script, text, answer),
        "certificate" => elements::read_certificate(alloc, script, text, answer),
        "moment_text" => key_parts::read_moment(alloc, text, answer),
        _ => answer.push_str("unknown verb\n"),
    }
}
