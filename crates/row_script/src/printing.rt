//! Programs that read a script and print what comes of each row.
use crate::script::{Row, Script};
use std::alloc::AllocError;
use std::io;
use std::io::{BufRead, BufReader};

/// What a program does with a row.
pub trait Rows {
    /// Appends what comes of a row, in lines that each end with a line feed.
    ///
    /// # Errors
    /// Memory ran out, which is printed below the row.
    fn answer(
        &mut self,
        script: &Script,
        row: &Row<'_>,
        answer: &mut String,
    ) -> Result<(), AllocError>;
}

/// Reads a script from standard input, and prints each row with what comes of it.
///
/// # Errors
/// Standard input or output failed, or memory ran out for a line.
pub fn run<R: Input + Print + AllocGlobal, P: Rows>(rt: &R, rows: &mut P) -> io::Result<()> {
    let mut script = Script::new(rt.alloc());
    let input = BufReader::new(rt.alloc(), rt.reader())?;
    for line in input.lines(rt.alloc()) {
        let line = line?;
        take_line(rt, &mut script, rows, line.as_str())?;
    }
    Ok(())
}

fn take_line<R: Print + AllocGlobal, P: Rows>(
    rt: &R,
    script: &mut Script,
    rows: &mut P,
    line: &str,
) -> io::Result<()> {
    match script.read(line) {
        Ok(None) => Ok(()),
        Ok(Some(row)) => take_row(rt, script, rows, &row),
        Err(error) => println!(rt; "{line}\n  {error}"),
    }
}

fn take_row<R: Print + AllocGlobal, P: Rows>(
    rt: &R,
    script: &Script,
    rows: &mut P,
    row: &Row<'_>,
) -> io::Result<()> {
    let mut answer = String::new(rt.alloc());
    match rows.answer(script, row, &mut answer) {
        Ok(()) => print_block(rt, row.line, answer.as_str()),
        Err(_) => print_block(rt, row.line, "out of memory"),
    }
}

/// Prints a row's line, and after two spaces each line of what came of it.
///
/// # Errors
/// Standard output failed.
pub fn print_block(rt: &impl Print, line: &str, answer: &str) -> io::Result<()> {
    println!(rt; "{line}")?;
    for line in answer.lines() {
        println!(rt; "  {line}")?;
    }
    Ok(())
}
