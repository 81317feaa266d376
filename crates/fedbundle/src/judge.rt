//! The lines of a stream, taken one after another. `specs/Stream` says what is taken of a list of
//! lines and what is reported, `specs/Report` what a run does to its devices, and
//! `specs/Inside/Judging` is for private clauses.
ghost use Rattle.std.specs.Prelude.{◌≡◌, ◌⊎◌, ℕ, [], true, IfOk, IfErr, OnOk, IfSome, IsErrOf};
ghost use Rattle.std.specs.Prelude.{MatchResult, List};
ghost use Rattle.std.specs.Io.KnownBytes.{IsAtEnd};
ghost use Rattle.fed_config.specs.Configuration.{IsConfiguration};
ghost use Rattle.byte_lines.specs.Lines.{lines_of};
ghost use Rattle.receipt_core.specs.Line.{IsLine};
ghost use Rattle.fedbundle.specs.Inside.Judging.{JudgesText, FailsText, TriesText, HasJudged};
ghost use Rattle.fedbundle.specs.Inside.Judging.{StopsJudging};
ghost use Rattle.command_exits.specs.declared.run_error.RunError.TheVariants.{Io};

use crate::line_fault::{LineFault, write_line_error};
use bundle_doc::KnownDocuments;
use byte_lines::{Line, LineBuf, Sink, Source};
use closure_core::{Closure, TakeError};
use command_exits::RunError;
use receipt_core::{LineError, Receipt};
use std::alloc::Global;

/// Takes every receipt that fits, and reports each other line, and a rest that no line feed ends.
/// Returns the number of errors.
pub(crate) fn take_lines<C: Closure, R: Source, E: Sink>(
    alloc: Global,
    closure: &mut C,
    source: &mut R,
    line_errors: &mut E,
) -> Result<u64, RunError>
    requires config { IsConfiguration (C.state closure.old).meaning.config }
    requires receipts { (C.state closure.old).meaning.held ≡ [] }
    requires records { (C.state closure.old).meaning.records ≡ [] }
    ensures ok { IfOk result (λ n. IfSome (R.remaining source.old) (λ bytes.
        HasJudged (C.state closure.old).meaning.config (lines_of bytes)
        (C.state closure.new).meaning (E.contents line_errors.old)
        (E.contents line_errors.new) n)) }
    ensures read { OnOk result (IsAtEnd (R.remaining source.new)) }
    ensures stops { IfErr result (λ e. IfSome (R.remaining source.old) (λ bytes.
        StopsJudging (C.state closure.old).meaning.config (lines_of bytes)
        (E.contents line_errors.old) (E.contents line_errors.new) e)) }
    ensures io { IsErrOf result Io
        → (R.has_failed source.new ≡ true) ⊎ (E.has_failed line_errors.new ≡ true) }
    ensures sound { (IsErrOf result Io → ⊥)
        → (R.has_failed source.new ≡ R.has_failed source.old)
        × (E.has_failed line_errors.new ≡ E.has_failed line_errors.old) }
{
    let mut lines = LineBuf::new(alloc);
    let mut known = KnownDocuments::new(alloc);
    let mut number = 0u64;
    let mut count = 0u64;
    'lines: loop {
        match lines.next_line(source)? {
            Line::Text(text) => {
                number += 1;
                count += take_text(alloc, closure, &mut known, line_errors, number, text)?;
            }
            Line::TooLong => {
                number += 1;
                write_line_error(line_errors, number, LineFault::TooLong)?;
                count += 1;
            }
            Line::Cut => {
                write_line_error(line_errors, number + 1, LineFault::Cut)?;
                return Ok(count + 1);
            }
            Line::End => return Ok(count),
        }
    }
}

/// Takes the receipt of a line, or reports the line. Returns the number of errors.
fn take_text<C: Closure, E: Sink>(
    alloc: Global,
    closure: &mut C,
    known: &mut KnownDocuments,
    line_errors: &mut E,
    number: u64,
    text: &[u8],
) -> Result<u64, RunError>
    ensures tries { TriesText (C.state closure.old) text.now number (C.state closure.new)
        (E.contents line_errors.old) (E.contents line_errors.new) (E.has_failed line_errors.new)
        result }
    ensures sound { (IsErrOf result Io → ⊥)
        → E.has_failed line_errors.new ≡ E.has_failed line_errors.old }
{
    match judge(alloc, closure, known, text)? {
        Some(why) => {
            write_line_error(line_errors, number, why)?;
            Ok(1)
        }
        None => Ok(0),
    }
}

fn judge<C: Closure>(
    alloc: Global,
    closure: &mut C,
    known: &mut KnownDocuments,
    text: &[u8],
) -> Result<Option<LineFault>, RunError>
    ensures { MatchResult result (JudgesText (C.state closure.old) text.now (C.state closure.new))
        (FailsText (C.state closure.old) text.now) }
{
    match Receipt::read_line_with(alloc, text, known) {
        Ok(receipt) => take_receipt(closure, receipt),
        Err(LineError::NotCanonical) => Ok(Some(LineFault::NotCanonical)),
        Err(LineError::TooLong) => Ok(Some(LineFault::TooLong)),
        Err(LineError::NoMemory) => Err(RunError::NoMemory),
    }
}

fn take_receipt<C: Closure>(
    closure: &mut C,
    receipt: Receipt,
) -> Result<Option<LineFault>, RunError>
    ensures { (text : List ℕ) → IsLine text receipt
        → MatchResult result (JudgesText (C.state closure.old) text (C.state closure.new))
        (FailsText (C.state closure.old) text) }
{
    let refused = match closure.take(receipt) {
        Ok(_) => return Ok(None),
        Err(refused) => refused,
    };
    match refused.why {
        TakeError::UnknownDomain => Ok(Some(LineFault::UnknownDomain)),
        TakeError::WrongEndpoint => Ok(Some(LineFault::WrongEndpoint)),
        TakeError::BelowFloor => Ok(Some(LineFault::BelowFloor)),
        TakeError::Full => Err(RunError::Full),
        TakeError::NoMemory | TakeError::ConfigDiffers => Err(RunError::NoMemory),
    }
}
