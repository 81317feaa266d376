//! To keep what a replica holds, and to begin with it again.
use crate::example_error::ExampleError;
use byte_lines::{MemSink, MemSource};
use closure_core::Closure;
use replica_sync::{read_snapshot, write_snapshot};
use std::alloc::Global;

/// Writes a snapshot, and reads a replica out of it.
pub(crate) fn show<C: Closure>(
    alloc: Global,
    closure: &C,
    out: &mut String,
) -> Result<(), ExampleError> {
    let mut sink = MemSink::new(alloc, 100_000)?;
    write_snapshot(alloc, closure, &mut sink)?;
    let bytes = Vec::from_slice(alloc, sink.as_bytes())?;
    let mut source = MemSource::new(bytes, Vec::new(alloc));
    let again: C = read_snapshot(alloc, closure.config(), &mut source)?;
    let (length, count) = (sink.as_bytes().len(), again.receipt_count());
    writeln!(
        out,
        "snapshot of {length} bytes, {count} receipts read back"
    )?;
    Ok(())
}
