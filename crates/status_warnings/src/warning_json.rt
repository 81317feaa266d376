//! Warnings as a member of a JSON object.
ghost use Rattle.std.specs.Prelude.{◌≡◌, ◌++◌, false, OnOk};
ghost use Rattle.json_text.specs.JsonText.{parted_texts};
ghost use Rattle.status_warnings.specs.WarningJson.{domain_member, expiry_members};
ghost use Rattle.status_warnings.specs.WarningJson.{fetch_members, key_members, peer_members};
ghost use Rattle.status_warnings.specs.WarningJson.{second_or_null, stock_members};
ghost use Rattle.status_warnings.specs.WarningJson.{warning_json, warning_member};
ghost use Rattle.status_warnings.specs.WarningJson.{warning_members};

use crate::kind::{kind_name, stock_name};
use crate::warning_kinds::{Stock, Warning};
use crate::warning_lines::push_second;
use byte_lines::{push_digits, push_number};
use json_text::{push_comma, push_string};
use jwk_set::KeyId;
use spiffe_name::TrustDomain;
use std::alloc::{AllocError, Global};

/// Adds the member `warnings` after a comma: an array of objects, each with its `kind`, and then
///
/// | Kind | Members |
/// |---|---|
/// | `no-current`, `locked-out`, `conflict`, `no-sequence` | `domain` |
/// | `same-key` | `domain` and `key` |
/// | `expires` | `domain`, `key` and `not_after` |
/// | `not-fetched` | `domain`, and `fetched`, which is `null` if no poll succeeded |
/// | `quiet-peer` | `peer` and `since` |
/// | `nearly-full` | `what`, which is `receipts` or `records`, and `held` |
///
/// Times are Unix seconds.
///
/// # Errors
/// Memory ran out. Nothing is said then of what is there.
pub fn push_warning_member(
    alloc: Global,
    out: &mut Vec<u8>,
    warnings: &[Warning],
) -> Result<(), AllocError>
    ensures { OnOk result (out.new.items ≡ out.old.items ++ warning_member warnings.now) }
{
    out.extend_from_slice(b",\"warnings\":[")?;
    push_warnings(alloc, out, warnings)?;
    out.extend_from_slice(b"]")?;
    Ok(())
}

fn push_warnings(alloc: Global, out: &mut Vec<u8>, warnings: &[Warning]) -> Result<(), AllocError>
    ensures { OnOk result (out.new.items
        ≡ out.old.items ++ parted_texts warning_json false warnings.now) }
{
    let mut later = false;
    for warning in warnings {
        push_comma(out, later)?;
        push_warning(alloc, out, warning)?;
        later = true;
    }
    Ok(())
}

fn push_warning(alloc: Global, out: &mut Vec<u8>, warning: &Warning) -> Result<(), AllocError>
    ensures { OnOk result (out.new.items ≡ out.old.items ++ warning_json warning.now) }
{
    out.extend_from_slice(b"{\"kind\":\"")?;
    out.extend_from_slice(kind_name(warning).as_bytes())?;
    out.extend_from_slice(b"\"")?;
    push_members(alloc, out, warning)?;
    out.extend_from_slice(b"}")?;
    Ok(())
}

fn push_members(alloc: Global, out: &mut Vec<u8>, warning: &Warning) -> Result<(), AllocError>
    ensures { OnOk result (out.new.items ≡ out.old.items ++ warning_members warning.now) }
{
    match warning {
        Warning::Domain(_, domain) => push_domain_member(out, domain),
        Warning::SameKey(domain, key) => push_key_members(out, domain, key),
        Warning::Expires(domain, key, at) => push_expiry_members(out, domain, key, *at),
        Warning::NotFetched(domain, fetched) => push_fetch_members(out, domain, *fetched),
        Warning::QuietPeer(peer, since) => push_peer_members(alloc, out, peer.as_str(), *since),
        Warning::NearlyFull(stock, held, _) => push_stock_members(out, *stock, *held),
    }
}

fn push_domain_member(out: &mut Vec<u8>, domain: &TrustDomain) -> Result<(), AllocError>
    ensures { OnOk result (out.new.items ≡ out.old.items ++ domain_member domain.now) }
{
    out.extend_from_slice(b",\"domain\":\"")?;
    out.extend_from_slice(domain.as_str().as_bytes())?;
    out.extend_from_slice(b"\"")?;
    Ok(())
}

fn push_key_members(out: &mut Vec<u8>, domain: &TrustDomain, key: &KeyId) -> Result<(), AllocError>
    ensures { OnOk result (out.new.items ≡ out.old.items ++ key_members domain.now key.now.0) }
{
    push_domain_member(out, domain)?;
    out.extend_from_slice(b",\"key\":\"")?;
    push_digits(out, &key.0)?;
    out.extend_from_slice(b"\"")?;
    Ok(())
}

fn push_expiry_members(
    out: &mut Vec<u8>,
    domain: &TrustDomain,
    key: &KeyId,
    at: i64,
) -> Result<(), AllocError>
    ensures { OnOk result (out.new.items
        ≡ out.old.items ++ expiry_members domain.now key.now.0 at) }
{
    push_domain_member(out, domain)?;
    out.extend_from_slice(b",\"key\":\"")?;
    push_digits(out, &key.0)?;
    out.extend_from_slice(b"\",\"not_after\":")?;
    push_second(out, at)?;
    Ok(())
}

fn push_fetch_members(
    out: &mut Vec<u8>,
    domain: &TrustDomain,
    fetched: Option<i64>,
) -> Result<(), AllocError>
    ensures { OnOk result (out.new.items ≡ out.old.items ++ fetch_members domain.now fetched) }
{
    push_domain_member(out, domain)?;
    out.extend_from_slice(b",\"fetched\":")?;
    push_second_or_null(out, fetched)?;
    Ok(())
}

fn push_second_or_null(out: &mut Vec<u8>, second: Option<i64>) -> Result<(), AllocError>
    ensures { OnOk result (out.new.items ≡ out.old.items ++ second_or_null second) }
{
    match second {
        Some(second) => push_second(out, second),
        None => out.extend_from_slice(b"null"),
    }
}

fn push_peer_members(
    alloc: Global,
    out: &mut Vec<u8>,
    peer: &str,
    since: u64,
) -> Result<(), AllocError>
    ensures { OnOk result (out.new.items ≡ out.old.items ++ peer_members peer.now since) }
{
    push_string(alloc, out, b",\"peer\":", peer)?;
    out.extend_from_slice(b",\"since\":")?;
    push_number(out, since)?;
    Ok(())
}

fn push_stock_members(out: &mut Vec<u8>, stock: Stock, held: u64) -> Result<(), AllocError>
    ensures { OnOk result (out.new.items ≡ out.old.items ++ stock_members stock held) }
{
    out.extend_from_slice(b",\"what\":\"")?;
    out.extend_from_slice(stock_name(stock).as_bytes())?;
    out.extend_from_slice(b"\",\"held\":")?;
    push_number(out, held)?;
    Ok(())
}
