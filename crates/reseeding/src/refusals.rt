//! The lines of the domains that are refused.
ghost use Rattle.std.specs.Prelude.{◌≡◌, ◌++◌, IfOk, OnOk, option_copied};
ghost use Rattle.reseeding.specs.Reseeding.{IsRefusalText, doubt_text, is_allowed};
ghost use Rattle.reseeding.specs.Reseeding.{refused_domain_line};
ghost use Rattle.reseeding.specs.Inside.Domains.{AddsRefusal};

use crate::doubt::{SeedDoubt, doubt_of};
use bundle_view::current;
use closure_core::Closure;
use spiffe_name::TrustDomain;
use std::alloc::{AllocError, Global};

/// A line for each domain that is refused, sorted.
pub(crate) fn refusal_text<C: Closure>(
    alloc: Global,
    closure: &C,
    allowed: Option<&TrustDomain>,
) -> Result<Vec<u8>, AllocError>
    ensures { IfOk result (λ text. IsRefusalText (C.state closure.now).meaning
        (option_copied allowed.entry) text.items) }
{
    let mut out = Vec::new(alloc);
    for domain in closure.config().domains() {
        push_refusal(&mut out, closure, domain, allowed)?;
    }
    Ok(out)
}

fn push_refusal<C: Closure>(
    out: &mut Vec<u8>,
    closure: &C,
    domain: &TrustDomain,
    allowed: Option<&TrustDomain>,
) -> Result<(), AllocError>
    ensures { OnOk result (AddsRefusal (C.state closure.now).meaning
        (option_copied allowed.entry) domain.now out.old.items out.new.items) }
{
    let Some(document) = current(closure, domain) else {
        return Ok(());
    };
    let Some(why) = doubt_of(closure, domain, document) else {
        return Ok(());
    };
    if may_pass(allowed, domain) {
        return Ok(());
    }
    push_refused_line(out, domain, why)?;
    Ok(())
}

fn may_pass(allowed: Option<&TrustDomain>, domain: &TrustDomain) -> bool
    ensures { result ≡ is_allowed (option_copied allowed.entry) domain.now }
{
    match allowed {
        Some(allowed) => allowed.as_str() == domain.as_str(),
        None => false,
    }
}

fn push_refused_line(
    out: &mut Vec<u8>,
    domain: &TrustDomain,
    why: SeedDoubt,
) -> Result<(), AllocError>
    ensures { OnOk result (out.new.items ≡ out.old.items ++ refused_domain_line domain.now why) }
{
    out.extend_from_slice(b"refused ")?;
    out.extend_from_slice(domain.as_str().as_bytes())?;
    out.extend_from_slice(text_of(why).as_bytes())
}

fn text_of(why: SeedDoubt) -> &'static str
    ensures { result.now ≡ doubt_text why }
{
    match why {
        SeedDoubt::DistrustedKey => ": the current bundle lists a distrusted key\n",
        SeedDoubt::Rival => ": another bundle has the current one's sequence\n",
        SeedDoubt::Unnumbered => ": another bundle has no sequence either\n",
    }
}
