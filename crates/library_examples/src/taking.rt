//! To take receipts from lines.
use crate::example_error::ExampleError;
use byte_lines::{Line, LineBuf, MemSource, Source};
use closure_core::{Closure, Taken};
use fed_config::Config;
use receipt_core::Receipt;
use std::alloc::Global;

/// A replica of this configuration that holds the receipts of the lines.
pub(crate) fn replica_of<C: Closure>(
    alloc: Global,
    config: &Config,
    bytes: &[u8],
    out: &mut String,
) -> Result<C, ExampleError> {
    let mut closure = C::new(alloc, config)?;
    let mut source = MemSource::new(Vec::from_slice(alloc, bytes)?, Vec::new(alloc));
    let mut lines = LineBuf::new(alloc);
    for _ in 0..u64::MAX {
        if !take_next(alloc, &mut closure, &mut lines, &mut source, out)? {
            break;
        }
    }
    let (held, pending) = (closure.receipt_count(), closure.pending_count());
    writeln!(out, "holds {held} receipts, of which {pending} are pending")?;
    Ok(closure)
}

/// Takes the next line, and returns whether more may come.
fn take_next<C: Closure, R: Source>(
    alloc: Global,
    closure: &mut C,
    lines: &mut LineBuf,
    source: &mut R,
    out: &mut String,
) -> Result<bool, ExampleError> {
    match lines.next_line(source)? {
        Line::Text(line) => take_line(alloc, closure, line, out)?,
        Line::TooLong => out.push_str("a line is too long\n")?,
        Line::Cut => out.push_str("the last line is cut\n")?,
        Line::End => return Ok(false),
    }
    Ok(true)
}

/// Takes the receipt of a line, and says what came of it. A replica that serves continues after a
/// line that is refused.
fn take_line<C: Closure>(
    alloc: Global,
    closure: &mut C,
    line: &[u8],
    out: &mut String,
) -> Result<(), ExampleError> {
    match closure.take(Receipt::read_line(alloc, line)?) {
        Ok(Taken::New { accepted_now }) => writeln!(out, "taken, {accepted_now} accepted now")?,
        Ok(Taken::Already) => out.push_str("held already\n")?,
        Err(refused) => writeln!(out, "refused: {}", refused.why)?,
    }
    Ok(())
}
