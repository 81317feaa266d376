//! The certificates of current bundles, and when each ends.
ghost use Rattle.std.specs.Prelude.{IfOk, OnOk, option_copied};
ghost use Rattle.status_warnings.specs.CertificateEnds.{AddsPart, AreAllEnds, AreEndsOf};
ghost use Rattle.status_warnings.specs.CertificateEnds.{AreEndsOfCurrent, AreParts, IsEndOf};
ghost use Rattle.status_warnings.specs.CertificateEnds.{IsEndOfAuthority};

use crate::seen::CertificateEnd;
use bundle_doc::Document;
use bundle_view::current;
use cert_key::read_certificate;
use closure_core::Closure;
use jwk_set::{Authority, Certificate};
use spiffe_name::TrustDomain;
use std::alloc::{AllocError, Global};

/// When the certificates end that the current bundles have as X.509 authorities: sorted by domain,
/// and those of a bundle in the order of its authorities. An authority whose bytes
/// [`read_certificate`] does not read is left out.
///
/// # Errors
/// Memory ran out.
pub fn certificate_ends<C: Closure>(
    alloc: Global,
    closure: &C,
) -> Result<Vec<CertificateEnd>, AllocError>
    ensures { IfOk result (λ ends. AreAllEnds (C.state closure.now).meaning ends.items) }
{
    let mut ends = Vec::new(alloc);
    for domain in closure.config().domains() {
        push_ends(alloc, &mut ends, closure, domain)?;
    }
    Ok(ends)
}

fn push_ends<C: Closure>(
    alloc: Global,
    ends: &mut Vec<CertificateEnd>,
    closure: &C,
    domain: &TrustDomain,
) -> Result<(), AllocError>
    ensures { OnOk result (AddsPart (AreEndsOf (C.state closure.now).meaning domain.now)
        ends.old.items ends.new.items) }
{
    push_current(alloc, ends, domain, current(closure, domain))?;
    Ok(())
}

fn push_current(
    alloc: Global,
    ends: &mut Vec<CertificateEnd>,
    domain: &TrustDomain,
    document: Option<&Document>,
) -> Result<(), AllocError>
    ensures { OnOk result (AddsPart (AreEndsOfCurrent domain.now (option_copied document.entry))
        ends.old.items ends.new.items) }
{
    match document {
        Some(document) => push_authorities(alloc, ends, domain, document.authorities()),
        None => Ok(()),
    }
}

fn push_authorities(
    alloc: Global,
    ends: &mut Vec<CertificateEnd>,
    domain: &TrustDomain,
    authorities: &[Authority],
) -> Result<(), AllocError>
    ensures { OnOk result (AddsPart (AreParts (IsEndOfAuthority domain.now) authorities.now)
        ends.old.items ends.new.items) }
{
    for authority in authorities {
        push_authority(alloc, ends, domain, authority)?;
    }
    Ok(())
}

fn push_authority(
    alloc: Global,
    ends: &mut Vec<CertificateEnd>,
    domain: &TrustDomain,
    authority: &Authority,
) -> Result<(), AllocError>
    ensures { OnOk result (AddsPart (IsEndOfAuthority domain.now authority.now)
        ends.old.items ends.new.items) }
{
    match authority {
        Authority::X509 { der, .. } => push_certificate(alloc, ends, domain, der),
        Authority::Jwt { .. } => Ok(()),
    }
}

fn push_certificate(
    alloc: Global,
    ends: &mut Vec<CertificateEnd>,
    domain: &TrustDomain,
    der: &Certificate,
) -> Result<(), AllocError>
    ensures { OnOk result (AddsPart (IsEndOf domain.now der.now)
        ends.old.items ends.new.items) }
{
    if let Some(parts) = read_certificate(der.as_bytes()) {
        ends.push(CertificateEnd {
            domain: domain.try_clone(alloc)?,
            key: der.key_id(),
            not_after: parts.not_after,
        })?;
    }
    Ok(())
}
