//! The arguments of a command line, as a row has them, and what is made of them.
use clap::Error;
use fedbundle::{Call, WordsError, read_words};
use row_script::{Row, Script};
use std::alloc::{AllocError, Global};
use std::str;

/// The arguments in a row's head, each after a zero byte. `$` and a name in one is replaced by the
/// text of this name.
pub(crate) fn head_words(alloc: Global, script: &Script, head: &str) -> Result<String, AllocError> {
    let mut words = String::new(alloc);
    for word in head.split(' ') {
        push_word(script, word, &mut words)?;
    }
    Ok(words)
}

fn push_word(script: &Script, word: &str, words: &mut String) -> Result<(), AllocError> {
    let (literal, name) = word.split_once('$').unwrap_or((word, ""));
    let text = script.text(name).unwrap_or(b"");
    words.push_str(literal)?;
    words.push_str(str::from_utf8(text).unwrap_or("(no text)"))?;
    words.push_str("\0")
}

/// The arguments that have a zero byte after them.
pub(crate) fn split_words<'a>(alloc: Global, words: &'a str) -> Result<Vec<&'a str>, AllocError> {
    words
        .split_terminator('\0')
        .filter(|word| !word.is_empty())
        .collect(alloc)
}

/// Reports what the arguments ask for, on a line: the subcommand and the texts of its options, `-`
/// for one that is left out; or that something is missing, or that they are refused.
pub(crate) fn answer_words(
    alloc: Global,
    script: &Script,
    row: &Row<'_>,
    answer: &mut String,
) -> Result<(), AllocError> {
    let words = head_words(alloc, script, row.words)?;
    answer_split(alloc, words.as_str(), answer)
}

fn answer_split(alloc: Global, words: &str, answer: &mut String) -> Result<(), AllocError> {
    let words = split_words(alloc, words)?;
    match read_words(alloc, words.as_slice()) {
        Ok(call) => show_call(&call, answer),
        Err(WordsError::Usage) => answer.push_str("usage\n"),
        Err(WordsError::Flawed(_, _)) => answer.push_str("flawed\n"),
        Err(WordsError::Words(_)) => answer.push_str("refused\n"),
        Err(WordsError::NoMemory) => answer.push_str("no memory\n"),
    }
}

fn show_call(call: &Call<'_>, answer: &mut String) -> Result<(), AllocError> {
    answer.push_str(call.name.text())?;
    for text in call.texts.as_slice() {
        answer.push_str(" ")?;
        answer.push_str(text.unwrap_or("-"))?;
    }
    answer.push_str("\n")
}

/// Reports whether what the program prints for arguments that it does not take holds each piece of
/// the row's text, and each piece that it lacks. `|` separates the pieces.
pub(crate) fn answer_shown(
    alloc: Global,
    script: &Script,
    row: &Row<'_>,
    answer: &mut String,
) -> Result<(), AllocError> {
    let words = head_words(alloc, script, row.words)?;
    let pieces = str::from_utf8(row.text.as_slice()).unwrap_or("(no text)");
    show_refused(alloc, words.as_str(), pieces, answer)
}

fn show_refused(
    alloc: Global,
    words: &str,
    pieces: &str,
    answer: &mut String,
) -> Result<(), AllocError> {
    let words = split_words(alloc, words)?;
    match read_words(alloc, words.as_slice()) {
        Err(WordsError::Words(error)) => show_error(alloc, &error, pieces, answer),
        _ => answer.push_str("not shown\n"),
    }
}

fn show_error(
    alloc: Global,
    error: &Error,
    pieces: &str,
    answer: &mut String,
) -> Result<(), AllocError> {
    let shown = format!(in alloc; "{error}")?;
    for piece in pieces.split('|') {
        show_lacking(alloc, shown.as_str(), piece, answer)?;
    }
    answer.push_str(if error.use_stderr() {
        "error holds the rest\nstatus 2\n"
    } else {
        "output holds the rest\nstatus 0\n"
    })
}

fn show_lacking(
    alloc: Global,
    shown: &str,
    piece: &str,
    answer: &mut String,
) -> Result<(), AllocError> {
    if shown.contains(piece) {
        return Ok(());
    }
    let piece = piece.escape_debug().to_string(alloc)?;
    write!(answer, "lacks {piece}\n")
}
