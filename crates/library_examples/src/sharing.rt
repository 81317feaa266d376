//! To take from a replica in the same program.
use crate::example_error::ExampleError;
use closure_core::Closure;
use std::alloc::Global;

/// A replica without receipts takes all that another one holds.
pub(crate) fn show<C: Closure>(
    alloc: Global,
    closure: &C,
    out: &mut String,
) -> Result<(), ExampleError> {
    let mut other = C::new(alloc, closure.config())?;
    let count = other.merge(closure)?;
    writeln!(out, "merged {count} receipts")?;
    Ok(())
}
