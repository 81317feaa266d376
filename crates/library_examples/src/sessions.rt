//! To take from a replica elsewhere, over a connection.
use crate::example_error::ExampleError;
use crate::gossip::source_of;
use byte_lines::MemSink;
use closure_core::Closure;
use replica_sync::{have, pull, serve_one, write_have};
use std::alloc::Global;

/// A session of a replica without receipts with another one. Over a connection both calls run at
/// the same time, and each reads what the other writes. In one thread the haves come first.
pub(crate) fn show<C: Closure>(
    alloc: Global,
    closure: &C,
    out: &mut String,
) -> Result<(), ExampleError> {
    let mut asker = C::new(alloc, closure.config())?;
    let mut source = source_of(alloc, haves_of(alloc, &asker)?.as_bytes())?;
    let mut answers = MemSink::new(alloc, 100_000)?;
    let answered = serve_one(alloc, closure, &mut source, &mut answers)?;
    let mut source = source_of(alloc, answers.as_bytes())?;
    let mut haves = MemSink::new(alloc, 100_000)?;
    let pulled = pull(alloc, &mut asker, &mut source, &mut haves)?;
    writeln!(out, "{answered} haves answered, {pulled} receipts pulled")?;
    Ok(())
}

/// The haves that `pull` asks: what the replica holds of each bucket.
fn haves_of<C: Closure>(alloc: Global, asker: &C) -> Result<MemSink, ExampleError> {
    let mut haves = MemSink::new(alloc, 100_000)?;
    for bucket in 0..=255 {
        write_have(alloc, &have(alloc, asker, bucket)?, &mut haves)?;
    }
    Ok(haves)
}
