//! Further lines on standard error, apart from those that report errors: whether they are wanted,
//! and how they are written. What a stranger chose is between quotation marks in them, without
//! bytes that do not print.
use crate::process::streams::error_lines;
use command_line::{Call, OptionName, given, is_flag_given};
use fault_view::{push_quoted, push_shown};
use std::alloc::{AllocError, Global};
use std::io;
use std::io::{IsTerminal, Write};
use std::rt::Env;

/// The variable of the environment that asks for more lines, if it is `1`.
const VARIABLE: &str = "FEDBUNDLE_VERBOSE";

/// Whether more is to be said: `--verbose` or the environment asks for it, or standard error is a
/// terminal.
pub fn is_verbose_for(rt: &HostRuntime, call: &Call<'_>) -> bool {
    is_flag_given(given(call, OptionName::Verbose)) || is_verbose_unasked(rt)
}

/// The same for arguments that are not a call.
pub fn is_verbose_unasked(rt: &HostRuntime) -> bool {
    rt.stderr().is_terminal() || has_variable(rt)
}

fn has_variable(rt: &HostRuntime) -> bool {
    let mut value = [0; 2];
    matches!(rt.var(VARIABLE, &mut value), Ok(1)) && value[0] == b'1'
}

/// Writes a line after two spaces.
pub fn say(rt: &HostRuntime, line: &str) {
    // That it cannot be said changes nothing.
    let _ = writeln!(error_lines(rt), "  {line}");
}

/// The text between quotation marks: no more than its first 64 bytes.
pub fn quoted(alloc: Global, text: &[u8]) -> Result<String, AllocError> {
    let mut bytes = Vec::new(alloc);
    push_quoted(&mut bytes, text)?;
    text_of(alloc, bytes.as_slice())
}

/// The whole text without quotation marks, as that of a path.
pub fn shown(alloc: Global, text: &str) -> Result<String, AllocError> {
    let mut bytes = Vec::new(alloc);
    push_shown(&mut bytes, text.as_bytes())?;
    text_of(alloc, bytes.as_slice())
}

fn text_of(alloc: Global, bytes: &[u8]) -> Result<String, AllocError> {
    String::from_str(alloc, str::from_utf8(bytes).unwrap_or(""))
}

/// What the system says of an error, without its number.
pub fn words_of(alloc: Global, error: &io::Error) -> Result<String, AllocError> {
    let text = format!(in alloc; "{error}")?;
    match text.as_str().split_once(" (os error ") {
        Some((words, _)) => String::from_str(alloc, words),
        None => Ok(text),
    }
}
