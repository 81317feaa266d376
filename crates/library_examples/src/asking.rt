//! To ask what is accepted.
use crate::example_error::ExampleError;
use bundle_view::{conflicts, current, write_report};
use byte_lines::MemSink;
use closure_core::Closure;
use spiffe_name::TrustDomain;
use std::alloc::Global;

/// The current document of each domain, its conflicts, and the length of the whole report.
pub(crate) fn show<C: Closure>(
    alloc: Global,
    closure: &C,
    out: &mut String,
) -> Result<(), ExampleError> {
    for domain in closure.config().domains() {
        let count = accepted_count(closure, domain);
        let sequence = current(closure, domain).and_then(|document| document.rank());
        let (name, sequence) = (domain.as_str(), sequence.unwrap_or(0));
        writeln!(
            out,
            "{name}: {count} accepted, the current one has sequence {sequence}"
        )?;
    }
    for conflict in &conflicts(alloc, closure)? {
        let (name, sequence) = (conflict.domain.as_str(), conflict.sequence);
        writeln!(out, "{name}: conflict at sequence {sequence}")?;
    }
    let mut report = MemSink::new(alloc, 100_000)?;
    write_report(alloc, closure, &mut report)?;
    writeln!(out, "report of {} bytes", report.as_bytes().len())?;
    Ok(())
}

fn accepted_count<C: Closure>(closure: &C, domain: &TrustDomain) -> usize {
    let mut count = 0usize;
    for _document in closure.accepted(domain) {
        count = count.saturating_add(1);
    }
    count
}
