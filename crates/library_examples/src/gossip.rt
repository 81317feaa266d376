//! To take from a replica elsewhere, over a protocol of your own.
use crate::example_error::ExampleError;
use byte_lines::{LineBuf, MemSink, MemSource};
use closure_core::Closure;
use replica_sync::{absorb, answer, have, read_give, read_have, write_answer, write_have};
use std::alloc::Global;

/// A replica without receipts asks another one about each bucket.
pub(crate) fn show<C: Closure>(
    alloc: Global,
    closure: &C,
    out: &mut String,
) -> Result<(), ExampleError> {
    let mut asker = C::new(alloc, closure.config())?;
    let mut count = 0usize;
    for bucket in 0..=255 {
        count = count.saturating_add(ask(alloc, &mut asker, closure, bucket)?);
    }
    writeln!(out, "absorbed {count} receipts")?;
    Ok(())
}

/// One have, its answer, and what was new in it. Each message crosses as bytes.
fn ask<C: Closure>(
    alloc: Global,
    asker: &mut C,
    answerer: &C,
    bucket: u8,
) -> Result<usize, ExampleError> {
    let mut have_bytes = MemSink::new(alloc, 100_000)?;
    write_have(alloc, &have(alloc, asker, bucket)?, &mut have_bytes)?;
    let give_bytes = answer_to(alloc, answerer, have_bytes.as_bytes())?;
    let mut source = source_of(alloc, give_bytes.as_bytes())?;
    let give = read_give(alloc, &mut LineBuf::new(alloc), &mut source)?;
    Ok(absorb(asker, give)?)
}

fn answer_to<C: Closure>(
    alloc: Global,
    answerer: &C,
    have_bytes: &[u8],
) -> Result<MemSink, ExampleError> {
    let mut source = source_of(alloc, have_bytes)?;
    let mut give_bytes = MemSink::new(alloc, 100_000)?;
    let asked = read_have(alloc, &mut LineBuf::new(alloc), &mut source)?;
    write_answer(alloc, answer(answerer, &asked), &mut give_bytes)?;
    Ok(give_bytes)
}

pub(crate) fn source_of(alloc: Global, bytes: &[u8]) -> Result<MemSource, ExampleError> {
    Ok(MemSource::new(Vec::from_slice(alloc, bytes)?, Vec::new(alloc)))
}
