//! What is accepted of trust domains, as compact JSON.
ghost use Rattle.std.specs.Prelude.{◌≡◌, ◌++◌, option_copied, IfOk, OnOk};
ghost use Rattle.std.specs.List.{AllZip};
ghost use Rattle.json_reports.specs.ReportJson.{AreAcceptedTexts, IsDomainJson};
ghost use Rattle.json_reports.specs.ReportJson.{accepted_domain_json, accepted_json};
ghost use Rattle.json_reports.specs.ReportJson.{current_member, shown_current};

use bundle_doc::Document;
use bundle_view::current;
use closure_core::Closure;
use json_text::{push_array, push_digest, push_optional, push_string};
use spiffe_name::TrustDomain;
use std::alloc::{AllocError, Global};
use text_lines::TextLine;

/// The texts of these domains, each of what is accepted of it.
pub(crate) fn domain_texts<C: Closure>(
    alloc: Global,
    closure: &C,
    domains: &[TrustDomain],
) -> Result<Vec<TextLine>, AllocError>
    ensures { IfOk result (λ texts. AllZip (IsDomainJson (C.state closure.now).meaning)
        domains.now texts.items) }
{
    let mut texts = Vec::new(alloc);
    for domain in domains {
        texts.push(domain_text(alloc, closure, domain)?)?;
    }
    Ok(texts)
}

fn domain_text<C: Closure>(
    alloc: Global,
    closure: &C,
    domain: &TrustDomain,
) -> Result<TextLine, AllocError>
    ensures { IfOk result (IsDomainJson (C.state closure.now).meaning domain.now) }
{
    let accepted = accepted_texts(alloc, closure, domain)?;
    let current = current(closure, domain);
    made_domain_text(alloc, domain, current, accepted.as_slice())
}

fn made_domain_text(
    alloc: Global,
    domain: &TrustDomain,
    current: Option<&Document>,
    accepted: &[TextLine],
) -> Result<TextLine, AllocError>
    ensures { IfOk result (λ text. text
        ≡ accepted_domain_json domain.now (option_copied current.entry) accepted.now) }
{
    let mut text = Vec::new(alloc);
    push_string(alloc, &mut text, b"{\"domain\":", domain.as_str())?;
    push_current_member(&mut text, domain, current)?;
    push_array(&mut text, b",\"accepted\":", accepted)?;
    text.extend_from_slice(b"}")?;
    Ok(TextLine::new(text))
}

fn push_current_member(
    out: &mut Vec<u8>,
    domain: &TrustDomain,
    current: Option<&Document>,
) -> Result<(), AllocError>
    ensures { OnOk result (out.new.items
        ≡ out.old.items ++ current_member domain.now (option_copied current.entry)) }
{
    match current {
        Some(document) => push_shown_current(out, domain, document),
        None => out.extend_from_slice(b",\"current\":null"),
    }
}

#[tactic(auto, unfolding(crate::specs::ReportJson::shown_current))]
fn push_shown_current(
    out: &mut Vec<u8>,
    domain: &TrustDomain,
    document: &Document,
) -> Result<(), AllocError>
    ensures { OnOk result (out.new.items ≡ out.old.items ++ shown_current domain.now document.now) }
{
    push_digest(out, b",\"current\":{\"document\":", &document.id(domain).0)?;
    push_optional(out, b",\"sequence\":", document.rank())?;
    out.extend_from_slice(b"}")?;
    Ok(())
}

fn accepted_texts<C: Closure>(
    alloc: Global,
    closure: &C,
    domain: &TrustDomain,
) -> Result<Vec<TextLine>, AllocError>
    ensures { IfOk result (λ texts. AreAcceptedTexts (C.state closure.now).meaning domain.now
        texts.items) }
{
    let mut texts = Vec::new(alloc);
    for document in closure.accepted(domain) {
        texts.push(accepted_text(alloc, domain, document)?)?;
    }
    Ok(texts)
}

fn accepted_text(
    alloc: Global,
    domain: &TrustDomain,
    document: &Document,
) -> Result<TextLine, AllocError>
    ensures { IfOk result (λ text. text ≡ accepted_json domain.now document.now) }
{
    let mut text = Vec::new(alloc);
    push_digest(&mut text, b"{\"document\":", &document.id(domain).0)?;
    push_optional(&mut text, b",\"sequence\":", document.rank())?;
    let authorities = document.authorities().len() as u64;
    push_optional(&mut text, b",\"authorities\":", Some(authorities))?;
    text.extend_from_slice(b"}")?;
    Ok(TextLine::new(text))
}
