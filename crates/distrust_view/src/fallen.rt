//! The documents that fall.
ghost use Rattle.std.specs.Prelude.{◌≡◌, ◌++◌, List, OnOk, flat_map};
ghost use Rattle.bundle_doc.specs.Bundle.{Bundle};
ghost use Rattle.distrust_view.specs.DistrustEffect.{AreFallen, fall_line, named_document};

use bundle_doc::Document;
use byte_lines::push_digits;
use closure_core::Closure;
use spiffe_name::TrustDomain;
use std::alloc::AllocError;
use text_lines::push_number_or_none;

/// Adds a line for each document of the domain that is accepted before and not after.
pub(crate) fn push_fallen<C: Closure>(
    out: &mut Vec<u8>,
    before: &C,
    after: &C,
    domain: &TrustDomain,
) -> Result<(), AllocError>
    ensures { OnOk result ((documents : List Bundle)
        × AreFallen (C.state before.now).meaning (C.state after.now).meaning domain.now documents
        × (out.new.items ≡ out.old.items ++ flat_map (fall_line domain.now) documents)) }
{
    for document in before.accepted(domain) {
        if !after.is_accepted(domain, document) {
            push_fall(out, domain, document)?;
        }
    }
    Ok(())
}

fn push_fall(out: &mut Vec<u8>, domain: &TrustDomain, document: &Document) -> Result<(), AllocError>
    ensures { OnOk result (out.new.items ≡ out.old.items ++ fall_line domain.now document.now) }
{
    out.extend_from_slice(b"falls ")?;
    out.extend_from_slice(domain.as_str().as_bytes())?;
    out.extend_from_slice(b" document ")?;
    push_named(out, domain, document)?;
    out.extend_from_slice(b"\n")
}

/// Adds the document's id and its sequence number.
pub(crate) fn push_named(
    out: &mut Vec<u8>,
    domain: &TrustDomain,
    document: &Document,
) -> Result<(), AllocError>
    ensures { OnOk result (out.new.items
        ≡ out.old.items ++ named_document domain.now document.now) }
{
    push_digits(out, &document.id(domain).0)?;
    out.extend_from_slice(b" sequence ")?;
    push_number_or_none(out, document.rank())?;
    Ok(())
}
