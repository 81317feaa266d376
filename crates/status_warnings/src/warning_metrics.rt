//! Warnings, and the certificates of current bundles, in the text format of Prometheus.
ghost use Rattle.std.specs.Prelude.{◌≡◌, ◌++◌, OnOk, flat_map};
ghost use Rattle.status_warnings.specs.WarningMetrics.{certificate_gauge, certificate_sample};
ghost use Rattle.status_warnings.specs.WarningMetrics.{domain_label, key_labels, quiet_label};
ghost use Rattle.status_warnings.specs.WarningMetrics.{stock_label, warning_gauge};
ghost use Rattle.status_warnings.specs.WarningMetrics.{warning_labels, warning_sample};

use crate::kind::{kind_name, stock_name};
use crate::seen::CertificateEnd;
use crate::warning_kinds::{Stock, Warning};
use crate::warning_lines::push_second;
use byte_lines::push_digits;
use jwk_set::KeyId;
use spiffe_name::TrustDomain;
use status_view::{push_gauge_head, push_label_value};
use std::alloc::AllocError;

/// Adds the gauge `fedbundle_warning_info`: 1 for each warning, with its kind as the label `kind`,
/// and the label `domain`, with `key` for `same-key` and `expires`; `peer` for `quiet-peer`; and
/// for `nearly-full` `what`, which is `receipts` or `records`.
///
/// # Errors
/// Memory ran out. Nothing is said then of what is there.
pub fn push_warning_metrics(out: &mut Vec<u8>, warnings: &[Warning]) -> Result<(), AllocError>
    ensures { OnOk result (out.new.items ≡ out.old.items ++ warning_gauge warnings.now) }
{
    push_gauge_head(
        out,
        "fedbundle_warning_info",
        "What status warns of, by kind.",
    )?;
    push_samples(out, warnings)?;
    Ok(())
}

fn push_samples(out: &mut Vec<u8>, warnings: &[Warning]) -> Result<(), AllocError>
    ensures { OnOk result (out.new.items ≡ out.old.items ++ flat_map warning_sample warnings.now) }
{
    for warning in warnings {
        push_sample(out, warning)?;
    }
    Ok(())
}

fn push_sample(out: &mut Vec<u8>, warning: &Warning) -> Result<(), AllocError>
    ensures { OnOk result (out.new.items ≡ out.old.items ++ warning_sample warning.now) }
{
    out.extend_from_slice(b"fedbundle_warning_info{kind=\"")?;
    out.extend_from_slice(kind_name(warning).as_bytes())?;
    out.extend_from_slice(b"\",")?;
    push_labels(out, warning)?;
    out.extend_from_slice(b"} 1\n")?;
    Ok(())
}

fn push_labels(out: &mut Vec<u8>, warning: &Warning) -> Result<(), AllocError>
    ensures { OnOk result (out.new.items ≡ out.old.items ++ warning_labels warning.now) }
{
    match warning {
        Warning::Domain(_, domain) => push_domain_label(out, domain),
        Warning::SameKey(domain, key) => push_key_labels(out, domain, key),
        Warning::Expires(domain, key, _) => push_key_labels(out, domain, key),
        Warning::NotFetched(domain, _) => push_domain_label(out, domain),
        Warning::QuietPeer(peer, _) => push_quiet_label(out, peer.as_str()),
        Warning::NearlyFull(stock, _, _) => push_stock_label(out, *stock),
    }
}

fn push_domain_label(out: &mut Vec<u8>, domain: &TrustDomain) -> Result<(), AllocError>
    ensures { OnOk result (out.new.items ≡ out.old.items ++ domain_label domain.now) }
{
    out.extend_from_slice(b"domain=\"")?;
    push_label_value(out, domain.as_str())?;
    out.extend_from_slice(b"\"")?;
    Ok(())
}

fn push_key_labels(out: &mut Vec<u8>, domain: &TrustDomain, key: &KeyId) -> Result<(), AllocError>
    ensures { OnOk result (out.new.items ≡ out.old.items ++ key_labels domain.now key.now.0) }
{
    push_domain_label(out, domain)?;
    out.extend_from_slice(b",key=\"")?;
    push_digits(out, &key.0)?;
    out.extend_from_slice(b"\"")?;
    Ok(())
}

fn push_quiet_label(out: &mut Vec<u8>, peer: &str) -> Result<(), AllocError>
    ensures { OnOk result (out.new.items ≡ out.old.items ++ quiet_label peer.now) }
{
    out.extend_from_slice(b"peer=\"")?;
    push_label_value(out, peer)?;
    out.extend_from_slice(b"\"")?;
    Ok(())
}

fn push_stock_label(out: &mut Vec<u8>, stock: Stock) -> Result<(), AllocError>
    ensures { OnOk result (out.new.items ≡ out.old.items ++ stock_label stock) }
{
    out.extend_from_slice(b"what=\"")?;
    out.extend_from_slice(stock_name(stock).as_bytes())?;
    out.extend_from_slice(b"\"")?;
    Ok(())
}

/// Adds the gauge `fedbundle_certificate_not_after_timestamp_seconds` with the labels `domain` and
/// `key`: for each certificate the last Unix second at which it is valid.
///
/// # Errors
/// Memory ran out. Nothing is said then of what is there.
pub fn push_certificate_metrics(
    out: &mut Vec<u8>,
    certificates: &[CertificateEnd],
) -> Result<(), AllocError>
    ensures { OnOk result (out.new.items
        ≡ out.old.items ++ certificate_gauge certificates.now) }
{
    push_gauge_head(
        out,
        "fedbundle_certificate_not_after_timestamp_seconds",
        "The end of a certificate that the current bundle of a trust domain has.",
    )?;
    push_certificates(out, certificates)?;
    Ok(())
}

fn push_certificates(out: &mut Vec<u8>, certificates: &[CertificateEnd]) -> Result<(), AllocError>
    ensures { OnOk result (out.new.items
        ≡ out.old.items ++ flat_map certificate_sample certificates.now) }
{
    for certificate in certificates {
        push_certificate(out, certificate)?;
    }
    Ok(())
}

fn push_certificate(out: &mut Vec<u8>, certificate: &CertificateEnd) -> Result<(), AllocError>
    ensures { OnOk result (out.new.items ≡ out.old.items ++ certificate_sample certificate.now) }
{
    out.extend_from_slice(b"fedbundle_certificate_not_after_timestamp_seconds{")?;
    push_key_labels(out, &certificate.domain, &certificate.key)?;
    out.extend_from_slice(b"} ")?;
    push_second(out, certificate.not_after)?;
    out.extend_from_slice(b"\n")?;
    Ok(())
}
