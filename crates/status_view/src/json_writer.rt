//! A status as compact JSON.
ghost use Rattle.std.specs.Prelude.{◌≡◌, ◌++◌, false, OnOk};
ghost use Rattle.json_text.specs.JsonText.{parted_texts};
ghost use Rattle.status_view.specs.StatusJson.{json_reports, counts_json, current_json};
ghost use Rattle.status_view.specs.StatusJson.{domain_json, key_json, keyless_json};
ghost use Rattle.status_view.specs.StatusJson.{status_members};

use crate::standing::has_warning;
use crate::status::{CurrentStatus, DomainStatus, KeyStatus, KeylessSeed, Status};
use byte_lines::{push_digits, push_number};
use json_text::{push_bool, push_comma, push_number_or_null};
use std::alloc::{AllocError, Global};

/// Adds the members of the status as those of a compact JSON object, in this order, without the
/// braces, so that others can follow them:
///
/// | Member | What it has |
/// |---|---|
/// | `config` | the configuration's digest |
/// | `receipts`, `receipt_limit`, `pending` | the held receipts, the most, and the pending ones |
/// | `record_limit`, `records` | the most records of distrust, and the held ones |
/// | `domains` | for each trust domain `domain`, `current`, `accepted` and `conflicts` |
/// | `keyless_seeds` | `domain` and `id` of each configured document without an X.509 authority |
/// | `warning` | what [`has_warning`] returns |
///
/// `current` is `null` or has `id`, `sequence`, `refresh_hint` and `keys`, each with `id` and
/// `distrusted`. A number that is absent is `null`.
///
/// # Errors
/// Memory ran out. Nothing is said then of what is there.
pub fn push_status_members(out: &mut Vec<u8>, status: &Status) -> Result<(), AllocError>
    ensures { OnOk result (out.new.items ≡ out.old.items ++ status_members status.now) }
{
    push_counts(out, status)?;
    out.extend_from_slice(b",\"domains\":[")?;
    push_domains(out, status.domains.as_slice())?;
    out.extend_from_slice(b"],\"keyless_seeds\":[")?;
    push_keyless(out, status.keyless_seeds.as_slice())?;
    out.extend_from_slice(b"],\"warning\":")?;
    push_bool(out, has_warning(status))?;
    Ok(())
}

fn push_counts(out: &mut Vec<u8>, status: &Status) -> Result<(), AllocError>
    ensures { OnOk result (out.new.items ≡ out.old.items ++ counts_json status.now) }
{
    out.extend_from_slice(b"\"config\":\"")?;
    push_digits(out, &status.config.0)?;
    out.extend_from_slice(b"\",\"receipts\":")?;
    push_number(out, status.receipts)?;
    out.extend_from_slice(b",\"receipt_limit\":")?;
    push_number(out, status.receipt_limit)?;
    out.extend_from_slice(b",\"pending\":")?;
    push_number(out, status.pending)?;
    out.extend_from_slice(b",\"record_limit\":")?;
    push_number(out, status.record_limit)?;
    out.extend_from_slice(b",\"records\":")?;
    push_number(out, status.records)?;
    Ok(())
}

fn push_domains(out: &mut Vec<u8>, domains: &[DomainStatus]) -> Result<(), AllocError>
    ensures { OnOk result (out.new.items
        ≡ out.old.items ++ parted_texts domain_json false domains.now) }
{
    let mut later = false;
    for domain in domains {
        push_comma(out, later)?;
        push_domain(out, domain)?;
        later = true;
    }
    Ok(())
}

fn push_domain(out: &mut Vec<u8>, status: &DomainStatus) -> Result<(), AllocError>
    ensures { OnOk result (out.new.items ≡ out.old.items ++ domain_json status.now) }
{
    out.extend_from_slice(b"{\"domain\":\"")?;
    out.extend_from_slice(status.domain.as_str().as_bytes())?;
    out.extend_from_slice(b"\",\"current\":")?;
    push_current(out, &status.current)?;
    out.extend_from_slice(b",\"accepted\":")?;
    push_number(out, status.accepted)?;
    out.extend_from_slice(b",\"conflicts\":")?;
    push_number(out, status.conflicts)?;
    out.extend_from_slice(b"}")?;
    Ok(())
}

fn push_current(out: &mut Vec<u8>, current: &Option<CurrentStatus>) -> Result<(), AllocError>
    ensures { OnOk result (out.new.items ≡ out.old.items ++ current_json current.now) }
{
    match current {
        Some(current) => push_bundle(out, current),
        None => out.extend_from_slice(b"null"),
    }
}

fn push_bundle(out: &mut Vec<u8>, current: &CurrentStatus) -> Result<(), AllocError>
    ensures { OnOk result (out.new.items ≡ out.old.items ++ json_reports current.now) }
{
    out.extend_from_slice(b"{\"id\":\"")?;
    push_digits(out, &current.id.0)?;
    out.extend_from_slice(b"\",\"sequence\":")?;
    push_number_or_null(out, current.sequence)?;
    out.extend_from_slice(b",\"refresh_hint\":")?;
    push_number_or_null(out, current.refresh_hint)?;
    out.extend_from_slice(b",\"keys\":[")?;
    push_keys(out, current.keys.as_slice())?;
    out.extend_from_slice(b"]}")?;
    Ok(())
}

fn push_keys(out: &mut Vec<u8>, keys: &[KeyStatus]) -> Result<(), AllocError>
    ensures { OnOk result (out.new.items ≡ out.old.items ++ parted_texts key_json false keys.now) }
{
    let mut later = false;
    for key in keys {
        push_comma(out, later)?;
        push_key(out, key)?;
        later = true;
    }
    Ok(())
}

fn push_key(out: &mut Vec<u8>, key: &KeyStatus) -> Result<(), AllocError>
    ensures { OnOk result (out.new.items ≡ out.old.items ++ key_json key.now) }
{
    out.extend_from_slice(b"{\"id\":\"")?;
    push_digits(out, &key.key.0)?;
    out.extend_from_slice(b"\",\"distrusted\":")?;
    push_bool(out, key.is_distrusted)?;
    out.extend_from_slice(b"}")
}

fn push_keyless(out: &mut Vec<u8>, seeds: &[KeylessSeed]) -> Result<(), AllocError>
    ensures { OnOk result (out.new.items
        ≡ out.old.items ++ parted_texts keyless_json false seeds.now) }
{
    let mut later = false;
    for seed in seeds {
        push_comma(out, later)?;
        push_keyless_seed(out, seed)?;
        later = true;
    }
    Ok(())
}

fn push_keyless_seed(out: &mut Vec<u8>, seed: &KeylessSeed) -> Result<(), AllocError>
    ensures { OnOk result (out.new.items ≡ out.old.items ++ keyless_json seed.now) }
{
    out.extend_from_slice(b"{\"domain\":\"")?;
    out.extend_from_slice(seed.domain.as_str().as_bytes())?;
    out.extend_from_slice(b"\",\"id\":\"")?;
    push_digits(out, &seed.id.0)?;
    out.extend_from_slice(b"\"}")
}
