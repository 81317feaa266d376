//! What changes, domain after domain.
ghost use Rattle.std.specs.Prelude.{◌≡◌, ◌++◌, IfOk, OnOk, option_copied};
ghost use Rattle.distrust_view.specs.DistrustEffect.{IsEffectText, change_line, distrust_change};
ghost use Rattle.distrust_view.specs.DistrustEffect.{document_or_none, is_concerned};
ghost use Rattle.distrust_view.specs.DistrustEffect.{is_same_current};
ghost use Rattle.distrust_view.specs.Inside.Effects.{AddsEffect, HasAllEffects};

use crate::fallen::{push_fallen, push_named};
use crate::given_keys::GivenKeys;
use crate::keys::push_keys;
use crate::warning::push_warnings;
use bundle_doc::Document;
use bundle_view::current;
use closure_core::Closure;
use spiffe_name::TrustDomain;
use std::alloc::{AllocError, Global};

/// What the records of distrust for these keys change, from what is held before they are
/// made and after. For each domain of the configuration, sorted, these lines:
///
/// | Line | When |
/// |---|---|
/// | `falls <domain> document <id> sequence <n>` | the document is accepted before and not after |
/// | `current <domain> before <id> sequence <n> after <id> sequence <n>` | the current document
/// changes, or the domain is that of the keys; `none` for no document |
/// | `gains <domain> key <key id>` | the later current document has the key, the earlier has not |
/// | `loses <domain> key <key id>` | the other way |
/// | `lists <domain> key <key id>` | the later one has the key, which is distrusted in the domain |
/// | `locked-out <domain>` | none of the later one's keys can vouch, or there is no current one |
///
/// The last four come only if the second does. Documents and keys are sorted. At the end comes a
/// line `warning` for each given key that no document of the domain that is held, configured or
/// received, has. All keys are those of X.509 authorities.
///
/// # Errors
/// Memory ran out.
pub fn distrust_effect_text<C: Closure>(
    alloc: Global,
    before: &C,
    after: &C,
    given: &GivenKeys,
) -> Result<Vec<u8>, AllocError>
    ensures { IfOk result (λ text. IsEffectText
        (distrust_change (C.state before.now).meaning (C.state after.now).meaning given.now)
        text.items) }
{
    let mut out = effects_text(alloc, before, after, given)?;
    push_warnings(&mut out, before, given)?;
    Ok(out)
}

fn effects_text<C: Closure>(
    alloc: Global,
    before: &C,
    after: &C,
    given: &GivenKeys,
) -> Result<Vec<u8>, AllocError>
    ensures { IfOk result (λ text. HasAllEffects
        (distrust_change (C.state before.now).meaning (C.state after.now).meaning given.now)
        text.items) }
{
    let mut out = Vec::new(alloc);
    for domain in before.config().domains() {
        push_effect(alloc, &mut out, before, after, given, domain)?;
    }
    Ok(out)
}

fn push_effect<C: Closure>(
    alloc: Global,
    out: &mut Vec<u8>,
    before: &C,
    after: &C,
    given: &GivenKeys,
    domain: &TrustDomain,
) -> Result<(), AllocError>
    ensures { OnOk result (AddsEffect
        (distrust_change (C.state before.now).meaning (C.state after.now).meaning given.now)
        domain.now out.old.items out.new.items) }
{
    push_fallen(out, before, after, domain)?;
    let earlier = current(before, domain);
    let later = current(after, domain);
    if is_concerned(given, domain, earlier, later) {
        push_change(out, domain, earlier, later)?;
        push_keys(alloc, out, after, domain, earlier, later)?;
    }
    Ok(())
}

fn is_concerned(
    given: &GivenKeys,
    domain: &TrustDomain,
    before: Option<&Document>,
    after: Option<&Document>,
) -> bool
    ensures { result ≡ is_concerned given.now domain.now (option_copied before.entry)
        (option_copied after.entry) }
{
    given.domain.as_str() == domain.as_str() || !is_same_current(before, after)
}

fn is_same_current(before: Option<&Document>, after: Option<&Document>) -> bool
    ensures { result
        ≡ is_same_current (option_copied before.entry) (option_copied after.entry) }
{
    match (before, after) {
        (None, None) => true,
        (Some(before), Some(after)) => before.canonical() == after.canonical(),
        _ => false,
    }
}

fn push_change(
    out: &mut Vec<u8>,
    domain: &TrustDomain,
    before: Option<&Document>,
    after: Option<&Document>,
) -> Result<(), AllocError>
    ensures { OnOk result (out.new.items ≡ out.old.items ++ change_line domain.now
        (option_copied before.entry) (option_copied after.entry)) }
{
    out.extend_from_slice(b"current ")?;
    out.extend_from_slice(domain.as_str().as_bytes())?;
    out.extend_from_slice(b" before ")?;
    push_document_or_none(out, domain, before)?;
    out.extend_from_slice(b" after ")?;
    push_document_or_none(out, domain, after)?;
    out.extend_from_slice(b"\n")
}

fn push_document_or_none(
    out: &mut Vec<u8>,
    domain: &TrustDomain,
    document: Option<&Document>,
) -> Result<(), AllocError>
    ensures { OnOk result (out.new.items ≡ out.old.items
        ++ document_or_none domain.now (option_copied document.entry)) }
{
    match document {
        Some(document) => push_named(out, domain, document),
        None => out.extend_from_slice(b"none"),
    }
}
