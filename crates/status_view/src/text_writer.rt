//! A status as lines.
ghost use Rattle.std.specs.Prelude.{◌≡◌, ◌++◌, IfOk, OnOk, flat_map};
ghost use Rattle.status_view.specs.StatusLines.{current_bundle_lines, current_key_line};
ghost use Rattle.status_view.specs.StatusLines.{current_status_lines, distrusted_key_line};
ghost use Rattle.status_view.specs.StatusLines.{distrusted_lines, distrusted_lines_of};
ghost use Rattle.status_view.specs.StatusLines.{distrusted_mark, domain_status_lines};
ghost use Rattle.status_view.specs.StatusLines.{full_receipts_line, full_records_line};
ghost use Rattle.status_view.specs.StatusLines.{held_line, keyless_line, listed_key_line};
ghost use Rattle.status_view.specs.StatusLines.{status_head, status_lines};
ghost use Rattle.status_view.specs.StatusLines.{warning_lines};

use crate::standing::is_nearly_full;
use crate::status::{CurrentStatus, DomainStatus, KeyStatus, KeylessSeed, Status};
use byte_lines::{push_digits, push_number};
use jwk_set::KeyId;
use spiffe_name::TrustDomain;
use std::alloc::{AllocError, Global};
use text_lines::push_number_or_none;

/// The status as lines:
///
/// | Line | What it says |
/// |---|---|
/// | `config <digest>` | the configuration |
/// | `receipts <n> of <n> pending <n>` | the held receipts, the most, and the pending ones |
/// | `records <n> of <n>` | the held records of distrust, and the most |
/// | `domain <domain>` | a trust domain; the lines of it have two spaces before them |
/// | `current <id> sequence <n> refresh-hint <n>` | its current document; `none` for no number, and
/// `current none` for no document |
/// | `key <key id>`, `key <key id> distrusted` | a key of an X.509 authority of that |
/// | `accepted <n> conflicts <n>` | its accepted documents and their conflicts |
/// | `warning: ..` | what an operator has to do something about, at the end |
///
/// # Errors
/// Memory ran out.
pub fn status_lines(alloc: Global, status: &Status) -> Result<Vec<u8>, AllocError>
    ensures { IfOk result (λ text. text.items ≡ status_lines status.now) }
{
    let mut out = Vec::new(alloc);
    push_head(&mut out, status)?;
    push_domains(&mut out, status.domains.as_slice())?;
    push_warnings(&mut out, status)?;
    Ok(out)
}

fn push_head(out: &mut Vec<u8>, status: &Status) -> Result<(), AllocError>
    ensures { OnOk result (out.new.items ≡ out.old.items ++ status_head status.now) }
{
    out.extend_from_slice(b"config ")?;
    push_digits(out, &status.config.0)?;
    out.extend_from_slice(b"\nreceipts ")?;
    push_number(out, status.receipts)?;
    out.extend_from_slice(b" of ")?;
    push_number(out, status.receipt_limit)?;
    out.extend_from_slice(b" pending ")?;
    push_number(out, status.pending)?;
    out.extend_from_slice(b"\nrecords ")?;
    push_number(out, status.records)?;
    out.extend_from_slice(b" of ")?;
    push_number(out, status.record_limit)?;
    out.extend_from_slice(b"\n")?;
    Ok(())
}

fn push_domains(out: &mut Vec<u8>, domains: &[DomainStatus]) -> Result<(), AllocError>
    ensures { OnOk result (out.new.items
        ≡ out.old.items ++ flat_map domain_status_lines domains.now) }
{
    for domain in domains {
        push_domain(out, domain)?;
    }
    Ok(())
}

fn push_domain(out: &mut Vec<u8>, status: &DomainStatus) -> Result<(), AllocError>
    ensures { OnOk result (out.new.items ≡ out.old.items ++ domain_status_lines status.now) }
{
    out.extend_from_slice(b"domain ")?;
    out.extend_from_slice(status.domain.as_str().as_bytes())?;
    out.extend_from_slice(b"\n")?;
    push_current(out, &status.current)?;
    out.extend_from_slice(b"  accepted ")?;
    push_number(out, status.accepted)?;
    out.extend_from_slice(b" conflicts ")?;
    push_number(out, status.conflicts)?;
    out.extend_from_slice(b"\n")?;
    Ok(())
}

fn push_current(out: &mut Vec<u8>, current: &Option<CurrentStatus>) -> Result<(), AllocError>
    ensures { OnOk result (out.new.items ≡ out.old.items ++ current_status_lines current.now) }
{
    match current {
        Some(current) => push_bundle(out, current),
        None => out.extend_from_slice(b"  current none\n"),
    }
}

fn push_bundle(out: &mut Vec<u8>, current: &CurrentStatus) -> Result<(), AllocError>
    ensures { OnOk result (out.new.items ≡ out.old.items ++ current_bundle_lines current.now) }
{
    out.extend_from_slice(b"  current ")?;
    push_digits(out, &current.id.0)?;
    out.extend_from_slice(b" sequence ")?;
    push_number_or_none(out, current.sequence)?;
    out.extend_from_slice(b" refresh-hint ")?;
    push_number_or_none(out, current.refresh_hint)?;
    out.extend_from_slice(b"\n")?;
    push_keys(out, current.keys.as_slice())?;
    Ok(())
}

fn push_keys(out: &mut Vec<u8>, keys: &[KeyStatus]) -> Result<(), AllocError>
    ensures { OnOk result (out.new.items ≡ out.old.items ++ flat_map current_key_line keys.now) }
{
    for key in keys {
        push_key(out, key)?;
    }
    Ok(())
}

fn push_key(out: &mut Vec<u8>, key: &KeyStatus) -> Result<(), AllocError>
    ensures { OnOk result (out.new.items ≡ out.old.items ++ current_key_line key.now) }
{
    out.extend_from_slice(b"  key ")?;
    push_digits(out, &key.key.0)?;
    out.extend_from_slice(mark_of(key.is_distrusted).as_bytes())
}

fn mark_of(is_distrusted: bool) -> &'static str
    ensures { result.now ≡ distrusted_mark is_distrusted }
{
    if is_distrusted { " distrusted\n" } else { "\n" }
}

fn push_warnings(out: &mut Vec<u8>, status: &Status) -> Result<(), AllocError>
    ensures { OnOk result (out.new.items ≡ out.old.items ++ warning_lines status.now) }
{
    push_keyless(out, status.keyless_seeds.as_slice())?;
    push_distrusted(out, status.domains.as_slice())?;
    push_full_receipts(out, status.receipts, status.receipt_limit)?;
    push_full_records(out, status.records, status.record_limit)
}

fn push_keyless(out: &mut Vec<u8>, seeds: &[KeylessSeed]) -> Result<(), AllocError>
    ensures { OnOk result (out.new.items ≡ out.old.items ++ flat_map keyless_line seeds.now) }
{
    for seed in seeds {
        push_keyless_line(out, seed)?;
    }
    Ok(())
}

fn push_keyless_line(out: &mut Vec<u8>, seed: &KeylessSeed) -> Result<(), AllocError>
    ensures { OnOk result (out.new.items ≡ out.old.items ++ keyless_line seed.now) }
{
    out.extend_from_slice(b"warning: the configured bundle ")?;
    push_digits(out, &seed.id.0)?;
    out.extend_from_slice(b" of ")?;
    out.extend_from_slice(seed.domain.as_str().as_bytes())?;
    out.extend_from_slice(b" has no X.509 authority")?;
    out.extend_from_slice(b"\n")?;
    Ok(())
}

fn push_distrusted(out: &mut Vec<u8>, domains: &[DomainStatus]) -> Result<(), AllocError>
    ensures { OnOk result (out.new.items ≡ out.old.items ++ flat_map distrusted_lines domains.now) }
{
    for status in domains {
        push_distrusted_of(out, &status.domain, &status.current)?;
    }
    Ok(())
}

fn push_distrusted_of(
    out: &mut Vec<u8>,
    domain: &TrustDomain,
    current: &Option<CurrentStatus>,
) -> Result<(), AllocError>
    ensures { OnOk result (out.new.items
        ≡ out.old.items ++ distrusted_lines_of domain.now current.now) }
{
    match current {
        Some(current) => push_distrusted_keys(out, domain, current.keys.as_slice()),
        None => Ok(()),
    }
}

fn push_distrusted_keys(
    out: &mut Vec<u8>,
    domain: &TrustDomain,
    keys: &[KeyStatus],
) -> Result<(), AllocError>
    ensures { OnOk result (out.new.items
        ≡ out.old.items ++ flat_map (distrusted_key_line domain.now) keys.now) }
{
    for key in keys {
        push_distrusted_key(out, domain, key)?;
    }
    Ok(())
}

fn push_distrusted_key(
    out: &mut Vec<u8>,
    domain: &TrustDomain,
    key: &KeyStatus,
) -> Result<(), AllocError>
    ensures { OnOk result (out.new.items
        ≡ out.old.items ++ distrusted_key_line domain.now key.now) }
{
    if key.is_distrusted {
        push_listed_key(out, domain, &key.key)?;
    }
    Ok(())
}

fn push_listed_key(out: &mut Vec<u8>, domain: &TrustDomain, key: &KeyId) -> Result<(), AllocError>
    ensures { OnOk result (out.new.items ≡ out.old.items ++ listed_key_line domain.now key.now) }
{
    out.extend_from_slice(b"warning: the current bundle of ")?;
    out.extend_from_slice(domain.as_str().as_bytes())?;
    out.extend_from_slice(b" lists the distrusted key ")?;
    push_digits(out, &key.0)?;
    out.extend_from_slice(b"\n")?;
    Ok(())
}

fn push_full_receipts(out: &mut Vec<u8>, count: u64, limit: u64) -> Result<(), AllocError>
    ensures { OnOk result (out.new.items ≡ out.old.items ++ full_receipts_line count limit) }
{
    if is_nearly_full(count, limit) {
        push_held(out, " receipts", count, limit)?;
    }
    Ok(())
}

fn push_full_records(out: &mut Vec<u8>, count: u64, limit: u64) -> Result<(), AllocError>
    ensures { OnOk result (out.new.items ≡ out.old.items ++ full_records_line count limit) }
{
    if is_nearly_full(count, limit) {
        push_held(out, " records of distrust", count, limit)?;
    }
    Ok(())
}

fn push_held(out: &mut Vec<u8>, what: &str, count: u64, limit: u64) -> Result<(), AllocError>
    ensures { OnOk result (out.new.items ≡ out.old.items ++ held_line what.now count limit) }
{
    out.extend_from_slice(b"warning: of ")?;
    push_number(out, limit)?;
    out.extend_from_slice(what.as_bytes())?;
    out.extend_from_slice(b" held: ")?;
    push_number(out, count)?;
    out.extend_from_slice(b"\n")?;
    Ok(())
}
