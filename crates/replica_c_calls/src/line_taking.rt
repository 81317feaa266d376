//! A receipt, taken from its line.
ghost use Rattle.std.specs.Prelude.{MatchResult};
ghost use Rattle.replica_c_calls.specs.Changes.{HasRefusedLineBytes, TakesLineBytes};

use crate::call_error::CallError;
use closure_core::{Closure, Taken};
use receipt_core::Receipt;
use std::alloc::Global;

/// Takes the receipt whose line this is, without its line feed.
///
/// # Errors
/// What is held is as before. The first of these that holds:
/// - [`CallError::Line`]: the bytes are not a receipt's line,
/// - [`CallError::Take`]: the receipt is refused, as [`Closure::take`] reports it.
pub fn take_line_bytes<C: Closure>(
    alloc: Global,
    closure: &mut C,
    line: &[u8],
) -> Result<Taken, CallError>
    ensures { MatchResult result
        (TakesLineBytes (C.state closure.old) line.now (C.state closure.new))
        (HasRefusedLineBytes (C.state closure.old) line.now (C.state closure.new)) }
{
    let receipt = Receipt::read_line(alloc, line)?;
    match closure.take(receipt) {
        Ok(taken) => Ok(taken),
        Err(refused) => Err(CallError::Take(refused.why)),
    }
}
