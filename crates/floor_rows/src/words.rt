//! Lines that are shown.
use row_script::Answers;
use std::alloc::{AllocError, Global};
use std::fmt::Display;

/// Yes or no.
pub(crate) fn yes(is_so: bool) -> &'static str {
    if is_so { "yes" } else { "no" }
}

/// Takes a line that came in a setting.
pub(crate) fn add_line<D: Display>(
    alloc: Global,
    setting: &str,
    line: &D,
    answers: &mut Answers,
) -> Result<(), AllocError> {
    let text = format!(in alloc; "{line}\n")?;
    answers.add(setting, text.as_str())
}

/// Reports something on a line of its own.
pub(crate) fn print_out<D: Display>(line: &D, answer: &mut String) -> Result<(), AllocError> {
    write!(answer, "{line}\n")
}
