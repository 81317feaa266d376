//! A status in the text format of Prometheus.
ghost use Rattle.std.specs.Prelude.{◌≡◌, ◌++◌, IfOk, OnOk, codes, filter, flat_map, length};
ghost use Rattle.status_view.specs.StatusMetrics.{all_domain_gauges, all_gauges, config_info};
ghost use Rattle.status_view.specs.StatusMetrics.{current_value, digest_info};
ghost use Rattle.status_view.specs.StatusMetrics.{domain_gauge_help};
ghost use Rattle.status_view.specs.StatusMetrics.{domain_gauge_name, domain_gauge_text};
ghost use Rattle.status_view.specs.StatusMetrics.{domain_sample, domain_value, further_label};
ghost use Rattle.status_view.specs.StatusMetrics.{gauge_head, gauge_help, gauge_name, gauge_text};
ghost use Rattle.status_view.specs.StatusMetrics.{gauge_value, help_line, id_label_of, label_byte};
ghost use Rattle.status_view.specs.StatusMetrics.{label_value, sample_line, status_metrics};
ghost use Rattle.status_view.specs.StatusMetrics.{type_line, value_of_current};

use crate::metric::{DomainGauge, Gauge};
use crate::standing::has_warning;
use crate::status::{CurrentStatus, DomainStatus, KeyStatus, Status};
use byte_lines::{push_digits, push_number};
use std::alloc::{AllocError, Global};

static GAUGES: [Gauge; 7] = [
    Gauge::Receipts,
    Gauge::ReceiptLimit,
    Gauge::Pending,
    Gauge::Records,
    Gauge::RecordLimit,
    Gauge::KeylessSeeds,
    Gauge::Warning,
];

static DOMAIN_GAUGES: [DomainGauge; 7] = [
    DomainGauge::Current,
    DomainGauge::Sequence,
    DomainGauge::RefreshHint,
    DomainGauge::Keys,
    DomainGauge::DistrustedKeys,
    DomainGauge::Accepted,
    DomainGauge::Conflicts,
];

/// The status in the text format of Prometheus: gauges, each after its lines `HELP` and `TYPE`.
/// First `fedbundle_config_info` with the configuration's digest as its label, then those of the
/// replica, and then those of trust domains with the label `domain`. A domain without a current
/// document has only `fedbundle_accepted_bundles` and `fedbundle_conflicts`.
///
/// # Errors
/// Memory ran out.
pub fn status_metrics(alloc: Global, status: &Status) -> Result<Vec<u8>, AllocError>
    ensures { IfOk result (λ text. text.items ≡ status_metrics status.now) }
{
    let mut out = Vec::new(alloc);
    push_config(&mut out, status)?;
    push_gauges(&mut out, status)?;
    push_domain_gauges(&mut out, status)?;
    Ok(out)
}

fn push_config(out: &mut Vec<u8>, status: &Status) -> Result<(), AllocError>
    ensures { OnOk result (out.new.items ≡ out.old.items ++ config_info status.now) }
{
    push_digest_info(
        out,
        "fedbundle_config_info",
        "The configuration's digest.",
        &status.config.0,
    )
}

fn push_digest_info(
    out: &mut Vec<u8>,
    name: &str,
    help: &str,
    digest: &[u8; 32],
) -> Result<(), AllocError>
    ensures { OnOk result (out.new.items
        ≡ out.old.items ++ digest_info name.now help.now digest.now) }
{
    push_gauge_head(out, name, help)?;
    out.extend_from_slice(name.as_bytes())?;
    out.extend_from_slice(b"{digest=\"")?;
    push_digits(out, digest)?;
    out.extend_from_slice(b"\"} 1")?;
    out.extend_from_slice(b"\n")
}

fn push_gauges(out: &mut Vec<u8>, status: &Status) -> Result<(), AllocError>
    ensures { OnOk result (out.new.items
        ≡ out.old.items ++ flat_map (gauge_text status.now) all_gauges) }
{
    for &gauge in all_gauges() {
        push_gauge(out, status, gauge)?;
    }
    Ok(())
}

fn all_gauges() -> &'static [Gauge]
    ensures { result.now ≡ all_gauges }
{
    GAUGES.as_slice()
}

fn push_gauge(out: &mut Vec<u8>, status: &Status, gauge: Gauge) -> Result<(), AllocError>
    ensures { OnOk result (out.new.items ≡ out.old.items ++ gauge_text status.now gauge) }
{
    push_gauge_head(out, gauge_name(gauge), gauge_help(gauge))?;
    out.extend_from_slice(gauge_name(gauge).as_bytes())?;
    out.extend_from_slice(b" ")?;
    push_number(out, gauge_value(status, gauge))?;
    out.extend_from_slice(b"\n")
}

/// Adds the lines `HELP` and `TYPE` of a gauge.
///
/// # Errors
/// Memory ran out. Nothing is said then of what is there.
pub fn push_gauge_head(out: &mut Vec<u8>, name: &str, help: &str) -> Result<(), AllocError>
    ensures { OnOk result (out.new.items ≡ out.old.items ++ gauge_head name.now help.now) }
{
    push_help(out, name, help)?;
    push_type(out, name)
}

pub(crate) fn push_help(out: &mut Vec<u8>, name: &str, help: &str) -> Result<(), AllocError>
    ensures { OnOk result (out.new.items ≡ out.old.items ++ help_line name.now help.now) }
{
    out.extend_from_slice(b"# HELP ")?;
    out.extend_from_slice(name.as_bytes())?;
    out.extend_from_slice(b" ")?;
    out.extend_from_slice(help.as_bytes())?;
    out.extend_from_slice(b"\n")
}

fn push_type(out: &mut Vec<u8>, name: &str) -> Result<(), AllocError>
    ensures { OnOk result (out.new.items ≡ out.old.items ++ type_line name.now) }
{
    out.extend_from_slice(b"# TYPE ")?;
    out.extend_from_slice(name.as_bytes())?;
    out.extend_from_slice(b" gauge")?;
    out.extend_from_slice(b"\n")
}

fn gauge_name(gauge: Gauge) -> &'static str
    ensures { result.now ≡ gauge_name gauge }
{
    match gauge {
        Gauge::Receipts => "fedbundle_receipts",
        Gauge::ReceiptLimit => "fedbundle_receipt_limit",
        Gauge::Pending => "fedbundle_pending_receipts",
        Gauge::Records => "fedbundle_distrust_records",
        Gauge::RecordLimit => "fedbundle_distrust_record_limit",
        Gauge::KeylessSeeds => "fedbundle_keyless_configured_bundles",
        Gauge::Warning => "fedbundle_warning",
    }
}

fn gauge_help(gauge: Gauge) -> &'static str
    ensures { result.now ≡ gauge_help gauge }
{
    match gauge {
        Gauge::Receipts => "Receipts that are held.",
        Gauge::ReceiptLimit => "The most receipts that are held.",
        Gauge::Pending => "Held receipts that no accepted bundle vouches for.",
        Gauge::Records => "Records of distrust that are held.",
        Gauge::RecordLimit => "The most records of distrust that are held.",
        Gauge::KeylessSeeds => "Configured bundles without an X.509 authority.",
        Gauge::Warning => "1 where status has a warning, and else 0.",
    }
}

fn gauge_value(status: &Status, gauge: Gauge) -> u64
    ensures { result ≡ gauge_value status.now gauge }
{
    match gauge {
        Gauge::Receipts => status.receipts,
        Gauge::ReceiptLimit => status.receipt_limit,
        Gauge::Pending => status.pending,
        Gauge::Records => status.records,
        Gauge::RecordLimit => status.record_limit,
        Gauge::KeylessSeeds => status.keyless_seeds.len() as u64,
        Gauge::Warning => u64::from(has_warning(status)),
    }
}

fn push_domain_gauges(out: &mut Vec<u8>, status: &Status) -> Result<(), AllocError>
    ensures { OnOk result (out.new.items
        ≡ out.old.items ++ flat_map (domain_gauge_text status.now) all_domain_gauges) }
{
    for &gauge in all_domain_gauges() {
        push_domain_gauge(out, status.domains.as_slice(), gauge)?;
    }
    Ok(())
}

fn all_domain_gauges() -> &'static [DomainGauge]
    ensures { result.now ≡ all_domain_gauges }
{
    DOMAIN_GAUGES.as_slice()
}

fn push_domain_gauge(
    out: &mut Vec<u8>,
    domains: &[DomainStatus],
    gauge: DomainGauge,
) -> Result<(), AllocError>
    ensures { OnOk result (out.new.items ≡ out.old.items
        ++ (gauge_head (domain_gauge_name gauge) (domain_gauge_help gauge)
        ++ flat_map (domain_sample gauge) domains.now)) }
{
    push_gauge_head(out, domain_gauge_name(gauge), domain_gauge_help(gauge))?;
    push_samples(out, domains, gauge)
}

fn push_samples(
    out: &mut Vec<u8>,
    domains: &[DomainStatus],
    gauge: DomainGauge,
) -> Result<(), AllocError>
    ensures { OnOk result (out.new.items
        ≡ out.old.items ++ flat_map (domain_sample gauge) domains.now) }
{
    for domain in domains {
        push_sample_of(out, domain, gauge)?;
    }
    Ok(())
}

fn push_sample_of(
    out: &mut Vec<u8>,
    status: &DomainStatus,
    gauge: DomainGauge,
) -> Result<(), AllocError>
    ensures { OnOk result (out.new.items ≡ out.old.items ++ domain_sample gauge status.now) }
{
    match domain_value(status, gauge) {
        Some(value) => push_sample(out, status, gauge, value),
        None => Ok(()),
    }
}

fn push_sample(
    out: &mut Vec<u8>,
    status: &DomainStatus,
    gauge: DomainGauge,
    value: u64,
) -> Result<(), AllocError>
    ensures { OnOk result (out.new.items ≡ out.old.items ++ sample_line gauge status.now value) }
{
    out.extend_from_slice(domain_gauge_name(gauge).as_bytes())?;
    out.extend_from_slice(b"{domain=\"")?;
    push_label_value(out, status.domain.as_str())?;
    push_further_label(out, gauge, &status.current)?;
    out.extend_from_slice(b"\"} ")?;
    push_number(out, value)?;
    out.extend_from_slice(b"\n")
}

fn push_further_label(
    out: &mut Vec<u8>,
    gauge: DomainGauge,
    current: &Option<CurrentStatus>,
) -> Result<(), AllocError>
    ensures { OnOk result (out.new.items ≡ out.old.items ++ further_label gauge current.now) }
{
    match gauge {
        DomainGauge::Current => push_id_label(out, current),
        _ => Ok(()),
    }
}

fn push_id_label(out: &mut Vec<u8>, current: &Option<CurrentStatus>) -> Result<(), AllocError>
    ensures { OnOk result (out.new.items ≡ out.old.items ++ id_label_of current.now) }
{
    match current {
        Some(current) => {
            out.extend_from_slice(b"\",id=\"")?;
            push_digits(out, &current.id.0)
        }
        None => Ok(()),
    }
}

/// Adds the value of a label, in which a backslash, a quotation mark and a line feed are escaped.
///
/// # Errors
/// Memory ran out. Nothing is said then of what is there.
pub fn push_label_value(out: &mut Vec<u8>, text: &str) -> Result<(), AllocError>
    ensures { OnOk result (out.new.items ≡ out.old.items ++ label_value text.now) }
{
    for byte in text.as_bytes() {
        push_label_byte(out, *byte)?;
    }
    Ok(())
}

fn push_label_byte(out: &mut Vec<u8>, byte: u8) -> Result<(), AllocError>
    ensures { OnOk result (out.new.items ≡ out.old.items ++ label_byte byte) }
{
    match byte {
        b'\\' => out.extend_from_slice(b"\\\\"),
        b'"' => out.extend_from_slice(b"\\\""),
        b'\n' => out.extend_from_slice(b"\\n"),
        _ => out.extend_from_slice(&[byte]),
    }
}

fn domain_gauge_name(gauge: DomainGauge) -> &'static str
    ensures { result.now ≡ domain_gauge_name gauge }
{
    match gauge {
        DomainGauge::Current => "fedbundle_current_bundle_info",
        DomainGauge::Sequence => "fedbundle_current_sequence",
        DomainGauge::RefreshHint => "fedbundle_current_refresh_hint_seconds",
        DomainGauge::Keys => "fedbundle_current_keys",
        DomainGauge::DistrustedKeys => "fedbundle_current_distrusted_keys",
        DomainGauge::Accepted => "fedbundle_accepted_bundles",
        DomainGauge::Conflicts => "fedbundle_conflicts",
    }
}

fn domain_gauge_help(gauge: DomainGauge) -> &'static str
    ensures { result.now ≡ domain_gauge_help gauge }
{
    match gauge {
        DomainGauge::Current => "The id of the current bundle of a trust domain.",
        DomainGauge::Sequence => "The sequence number of the current bundle, if it has one.",
        DomainGauge::RefreshHint => "The refresh hint of the current bundle, if it has one.",
        DomainGauge::Keys => "Different keys of X.509 authorities in the current bundle.",
        DomainGauge::DistrustedKeys => "Those of these keys that are distrusted.",
        DomainGauge::Accepted => "Accepted bundles of a trust domain.",
        DomainGauge::Conflicts => "Sequence numbers that several accepted bundles have.",
    }
}

fn domain_value(status: &DomainStatus, gauge: DomainGauge) -> Option<u64>
    ensures { result ≡ domain_value gauge status.now }
{
    match gauge {
        DomainGauge::Accepted => Some(status.accepted),
        DomainGauge::Conflicts => Some(status.conflicts),
        _ => value_of_current(&status.current, gauge),
    }
}

fn value_of_current(current: &Option<CurrentStatus>, gauge: DomainGauge) -> Option<u64>
    ensures { result ≡ value_of_current gauge current.now }
{
    match current {
        Some(current) => current_value(current, gauge),
        None => None,
    }
}

fn current_value(current: &CurrentStatus, gauge: DomainGauge) -> Option<u64>
    ensures { result ≡ current_value gauge current.now }
{
    match gauge {
        DomainGauge::Current => Some(1),
        DomainGauge::Sequence => current.sequence,
        DomainGauge::RefreshHint => current.refresh_hint,
        DomainGauge::Keys => Some(current.keys.len() as u64),
        DomainGauge::DistrustedKeys => Some(distrusted_count(current.keys.as_slice()) as u64),
        DomainGauge::Accepted => None,
        DomainGauge::Conflicts => None,
    }
}

fn distrusted_count(keys: &[KeyStatus]) -> usize
    ensures { result ≡ length (filter (λ k. k.is_distrusted) keys.now) }
{
    keys.iter().filter(|key| key.is_distrusted).count()
}
