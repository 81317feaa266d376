//! To know when to fetch a domain's bundle next.
use crate::example_error::ExampleError;
use bundle_view::current;
use closure_core::Closure;
use jiff::Timestamp;
use poll_log::PollLog;
use std::alloc::Global;

/// Which domains are to be polled twenty seconds after the first one's poll failed.
pub(crate) fn show<C: Closure>(
    alloc: Global,
    closure: &C,
    out: &mut String,
) -> Result<(), ExampleError> {
    let mut polls = PollLog::new(alloc, closure.config())?;
    let relationships = closure.config().relationships();
    if let Some(first) = relationships.first() {
        polls.record(&first.domain, Timestamp::from_second(1_000)?, false)?;
    }
    for relationship in relationships {
        let domain = &relationship.domain;
        let hint = current(closure, domain).and_then(|document| document.hint());
        let is_due = polls.due(domain, hint, Timestamp::from_second(1_020)?);
        writeln!(out, "{}: due {is_due}", domain.as_str())?;
    }
    Ok(())
}
