//! How many documents of each domain are not accepted any more.
ghost use Rattle.std.specs.Prelude.{◌≡◌, ◌++◌, IfOk, OnOk};
ghost use Rattle.local_answers.specs.Fallen.{AreAcceptedCounts, IsAcceptedCount, IsCountedDomain};
ghost use Rattle.local_answers.specs.Fallen.{SaysFell, fallen_line, fell_line};

use byte_lines::push_number;
use closure_core::Closure;
use spiffe_name::TrustDomain;
use std::alloc::{AllocError, Global};

/// A domain, and how many of its documents are accepted.
#[derive(Debug, Drop)]
pub(crate) struct DomainCount {
    pub(crate) domain: TrustDomain,
    pub(crate) accepted: u64,
}

/// How many documents each domain of the configuration accepts, in the order of the domains.
pub(crate) fn accepted_counts<C: Closure>(
    alloc: Global,
    closure: &C,
) -> Result<Vec<DomainCount>, AllocError>
    ensures { IfOk result (λ counts. AreAcceptedCounts (C.state closure.now).meaning counts.items) }
{
    let mut counts = Vec::new(alloc);
    for domain in closure.config().domains() {
        counts.push(counted(alloc, closure, domain)?)?;
    }
    Ok(counts)
}

fn counted<C: Closure>(
    alloc: Global,
    closure: &C,
    domain: &TrustDomain,
) -> Result<DomainCount, AllocError>
    ensures counted { IfOk result (IsCountedDomain (C.state closure.now).meaning) }
    ensures domain { IfOk result (λ c. c.domain ≡ domain.now) }
{
    Ok(DomainCount {
        domain: domain.try_clone(alloc)?,
        accepted: accepted_count(closure, domain),
    })
}

fn accepted_count<C: Closure>(closure: &C, domain: &TrustDomain) -> u64
    ensures { IsAcceptedCount (C.state closure.now).meaning domain.now result }
{
    let mut count = 0u64;
    for document in closure.accepted(domain) {
        let _counted = document;
        if count < u64::MAX {
            count += 1;
        }
    }
    count
}

/// A line `fell <domain> <n>` for each of these domains of which n documents were accepted before
/// and are not any more.
pub(crate) fn fell_text<C: Closure>(
    alloc: Global,
    closure: &C,
    before: &[DomainCount],
) -> Result<Vec<u8>, AllocError>
    ensures { IfOk result (λ text. SaysFell (C.state closure.now).meaning before.now text.items) }
{
    let mut text = Vec::new(alloc);
    for one in before {
        let after = accepted_count(closure, &one.domain);
        push_fallen(&mut text, one, after)?;
    }
    Ok(text)
}

fn push_fallen(text: &mut Vec<u8>, before: &DomainCount, after: u64) -> Result<(), AllocError>
    ensures { OnOk result (text.new.items
        ≡ text.old.items ++ fallen_line before.now.domain before.now.accepted after) }
{
    if before.accepted <= after {
        return Ok(());
    }
    push_count(text, &before.domain, before.accepted - after)
}

fn push_count(text: &mut Vec<u8>, domain: &TrustDomain, count: u64) -> Result<(), AllocError>
    ensures { OnOk result (text.new.items ≡ text.old.items ++ fell_line domain.now count) }
{
    text.extend_from_slice(b"fell ")?;
    text.extend_from_slice(domain.as_str().as_bytes())?;
    text.extend_from_slice(b" ")?;
    push_number(text, count)?;
    text.extend_from_slice(b"\n")?;
    Ok(())
}

/// How many documents of all these domains are not accepted any more.
pub(crate) fn fallen_count<C: Closure>(closure: &C, before: &[DomainCount]) -> u64 {
    let mut fell = 0u64;
    for one in before {
        let after = accepted_count(closure, &one.domain);
        fell = fell.saturating_add(one.accepted.saturating_sub(after));
    }
    fell
}
