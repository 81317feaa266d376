//! The settings in which a row is run.
use crate::commands::{Case, carry_out};
use crate::devices::{AMPLE_ROOM, Devices, Limits};
use crate::requests::ask;
use crate::words::head_words;
use closure_core::Closure;
use plain_closure::PlainClosure;
use row_script::{Answers, Row, Script};
use std::alloc::{AllocError, Global};
use trust_closure::IndexedClosure;

/// Which device fails.
#[derive(Clone, Copy)]
pub(crate) enum Trial {
    /// The output, or what a session sends, has room for this many bytes.
    Full,
    /// The input fails after this many reads of 100 bytes.
    Broken,
    /// Standard error has room for this many bytes.
    Unprinted,
}

/// A longer input does not come in small pieces.
const MAX_CUT_BYTES: usize = 100_000;

/// Runs a row's command over both closures, with its text as the input: in pieces of 1, 7 and
/// 65,536 bytes; if it is long, of 65,537; and once if the row has no text.
pub(crate) fn answer_run(
    alloc: Global,
    script: &Script,
    row: &Row<'_>,
    answer: &mut String,
) -> Result<(), AllocError> {
    let words = head_words(alloc, script, row.words)?;
    let pieces: &[usize] = match row.text.len() {
        0 => &[1],
        1..=MAX_CUT_BYTES => &[1, 7, 65_536],
        _ => &[65_537],
    };
    let case = Case {
        alloc,
        script,
        words: words.as_str(),
        input: row.text.as_slice(),
        is_report_own: false,
        is_request: false,
    };
    answer_pieces(&case, pieces, answer)
}

fn answer_pieces(case: &Case<'_>, pieces: &[usize], answer: &mut String) -> Result<(), AllocError> {
    let mut answers = Answers::new(case.alloc);
    for piece in pieces {
        add_both(case, Limits::in_pieces(*piece), &mut answers)?;
    }
    if case.words.starts_with("report\0") && case.input.len() <= MAX_CUT_BYTES {
        add_own(case, &mut answers)?;
    }
    add_requests(case, ", as a request", &mut answers)?;
    answers.write(answer)
}

/// Sends a row's command only to a running replica.
pub(crate) fn answer_asked(
    alloc: Global,
    script: &Script,
    row: &Row<'_>,
    answer: &mut String,
) -> Result<(), AllocError> {
    let words = head_words(alloc, script, row.words)?;
    let case = Case {
        alloc,
        script,
        words: words.as_str(),
        input: row.text.as_slice(),
        is_report_own: false,
        is_request: true,
    };
    let mut answers = Answers::new(alloc);
    add_requests(&case, "", &mut answers)?;
    answers.write(answer)
}

/// The same command sent to a running replica over each closure. The end of a setting's name is
/// this.
fn add_requests(case: &Case<'_>, end: &str, answers: &mut Answers) -> Result<(), AllocError> {
    let setting = format!(in case.alloc; "indexed{end}")?;
    add_request::<IndexedClosure>(case, setting.as_str(), answers)?;
    let setting = format!(in case.alloc; "plain{end}")?;
    add_request::<PlainClosure>(case, setting.as_str(), answers)
}

/// The same command sent to a running replica, if it answers such.
fn add_request<C: Closure>(
    case: &Case<'_>,
    setting: &str,
    answers: &mut Answers,
) -> Result<(), AllocError> {
    let mut devices = Devices::new(case.alloc, case.input, Limits::in_pieces(65_536), false)?;
    let mut text = String::new(case.alloc);
    match ask::<C>(case, &mut devices) {
        Ok(true) => devices.show(case.script, &mut text)?,
        Ok(false) => return Ok(()),
        Err(error) => write!(text, "{error}\n")?,
    }
    answers.add(setting, text.as_str())
}

/// A report that chooses its closure itself.
fn add_own(case: &Case<'_>, answers: &mut Answers) -> Result<(), AllocError> {
    let own = Case {
        is_report_own: true,
        ..*case
    };
    add::<PlainClosure>(&own, "own closure", Limits::in_pieces(65_536), answers)
}

/// Runs a row's command over both closures. The first argument says how far a device goes before it
/// fails.
pub(crate) fn answer_trial(
    alloc: Global,
    script: &Script,
    row: &Row<'_>,
    trial: Trial,
    answer: &mut String,
) -> Result<(), AllocError> {
    let (number, words) = row.words.split_once(' ').unwrap_or((row.words, ""));
    let Ok(number) = number.parse::<u32>() else {
        return answer.push_str("no number\n");
    };
    let words = head_words(alloc, script, words)?;
    let case = Case {
        alloc,
        script,
        words: words.as_str(),
        input: row.text.as_slice(),
        is_report_own: false,
        is_request: false,
    };
    answer_failing(&case, limits_of(trial, number), answer)
}

fn limits_of(trial: Trial, number: u32) -> Limits {
    let whole = Limits::in_pieces(100);
    match trial {
        Trial::Full => Limits {
            room: number as usize,
            ..whole
        },
        Trial::Broken => Limits {
            reads: u64::from(number),
            ..whole
        },
        Trial::Unprinted => Limits {
            error_room: number as usize,
            ..whole
        },
    }
}

fn answer_failing(case: &Case<'_>, limits: Limits, answer: &mut String) -> Result<(), AllocError> {
    let mut answers = Answers::new(case.alloc);
    add_both(case, limits, &mut answers)?;
    answers.write(answer)
}

fn add_both(case: &Case<'_>, limits: Limits, answers: &mut Answers) -> Result<(), AllocError> {
    let piece = limits.piece;
    let setting = format!(in case.alloc; "indexed, pieces of {piece}")?;
    add::<IndexedClosure>(case, setting.as_str(), limits, answers)?;
    let setting = format!(in case.alloc; "plain, pieces of {piece}")?;
    add::<PlainClosure>(case, setting.as_str(), limits, answers)
}

fn add<C: Closure>(
    case: &Case<'_>,
    setting: &str,
    limits: Limits,
    answers: &mut Answers,
) -> Result<(), AllocError> {
    let mut text = String::new(case.alloc);
    show_left::<C>(case, limits, &mut text)?;
    answers.add(setting, text.as_str())
}

fn show_left<C: Closure>(
    case: &Case<'_>,
    limits: Limits,
    answer: &mut String,
) -> Result<(), AllocError> {
    let mut devices = Devices::new(case.alloc, case.input, limits, case.is_session())?;
    carry_out::<C>(case, &mut devices);
    devices.show(case.script, answer)
}
