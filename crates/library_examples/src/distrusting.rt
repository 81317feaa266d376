//! To distrust a key.
use crate::example_error::ExampleError;
use closure_core::{Closure, Distrusted};
use std::alloc::Global;

/// Distrusts the key of the first receipt, and says how many documents are no longer accepted.
pub(crate) fn show<C: Closure>(
    alloc: Global,
    closure: &mut C,
    out: &mut String,
) -> Result<(), ExampleError> {
    let Some(receipt) = closure.receipts().next() else {
        return Ok(());
    };
    let (domain, key) = (receipt.domain().try_clone(alloc)?, receipt.key());
    match closure.distrust(&domain, key)? {
        Distrusted::New { lost } => writeln!(out, "{key} distrusted, {lost} lost")?,
        Distrusted::Already => out.push_str("distrusted already\n")?,
    }
    Ok(())
}
