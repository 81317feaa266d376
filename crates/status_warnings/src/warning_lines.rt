//! Warnings as lines.
ghost use Rattle.std.specs.Prelude.{◌≡◌, ◌++◌, OnOk};
ghost use Rattle.std.specs.Fmt.{signed_decimal};
ghost use Rattle.status_warnings.specs.WarningLines.{domain_words, expiry_words, fault_words};
ghost use Rattle.status_warnings.specs.WarningLines.{fetch_words, held_words, peer_words};
ghost use Rattle.status_warnings.specs.WarningLines.{second_or_never, stock_words};
ghost use Rattle.status_warnings.specs.WarningLines.{lines_of_warnings, warning_line};
ghost use Rattle.status_warnings.specs.WarningLines.{same_key_words, warning_words};

use crate::kind::kind_name;
use crate::warning_kinds::{DomainFault, Stock, Warning};
use byte_lines::{push_digits, push_number};
use itoa::Buffer;
use jwk_set::KeyId;
use spiffe_name::TrustDomain;
use std::alloc::AllocError;

/// Adds a line for each: `warning: <kind>: `, and then what is wrong with what. Times are Unix
/// seconds. Without a warning nothing is added.
///
/// # Errors
/// Memory ran out. Nothing is said then of what is there.
pub fn push_warning_lines(out: &mut Vec<u8>, warnings: &[Warning]) -> Result<(), AllocError>
    ensures { OnOk result (out.new.items ≡ out.old.items ++ lines_of_warnings warnings.now) }
{
    for warning in warnings {
        push_warning_line(out, warning)?;
    }
    Ok(())
}

fn push_warning_line(out: &mut Vec<u8>, warning: &Warning) -> Result<(), AllocError>
    ensures { OnOk result (out.new.items ≡ out.old.items ++ warning_line warning.now) }
{
    out.extend_from_slice(b"warning: ")?;
    out.extend_from_slice(kind_name(warning).as_bytes())?;
    out.extend_from_slice(b": ")?;
    push_words(out, warning)?;
    out.extend_from_slice(b"\n")?;
    Ok(())
}

fn push_words(out: &mut Vec<u8>, warning: &Warning) -> Result<(), AllocError>
    ensures { OnOk result (out.new.items ≡ out.old.items ++ warning_words warning.now) }
{
    match warning {
        Warning::Domain(fault, domain) => push_domain_words(out, *fault, domain),
        Warning::SameKey(domain, key) => push_same_key_words(out, domain, key),
        Warning::Expires(domain, key, at) => push_expiry_words(out, domain, key, *at),
        Warning::NotFetched(domain, fetched) => push_fetch_words(out, domain, *fetched),
        Warning::QuietPeer(peer, since) => push_peer_words(out, peer.as_str(), *since),
        Warning::NearlyFull(stock, held, most) => push_stock_words(out, *stock, *held, *most),
    }
}

fn push_domain_words(
    out: &mut Vec<u8>,
    fault: DomainFault,
    domain: &TrustDomain,
) -> Result<(), AllocError>
    ensures { OnOk result (out.new.items ≡ out.old.items ++ domain_words fault domain.now) }
{
    out.extend_from_slice(domain.as_str().as_bytes())?;
    out.extend_from_slice(fault_words(fault).as_bytes())?;
    Ok(())
}

fn fault_words(fault: DomainFault) -> &'static str
    ensures { result.now ≡ fault_words fault }
{
    match fault {
        DomainFault::NoCurrent => " has no current bundle",
        DomainFault::LockedOut => " has no trusted X.509 authority in its current bundle",
        DomainFault::Conflict => " has several accepted bundles with one sequence number",
        DomainFault::NoSequence => " has several accepted bundles, and the current has no number",
    }
}

fn push_same_key_words(
    out: &mut Vec<u8>,
    domain: &TrustDomain,
    key: &KeyId,
) -> Result<(), AllocError>
    ensures { OnOk result (out.new.items ≡ out.old.items ++ same_key_words domain.now key.now.0) }
{
    out.extend_from_slice(domain.as_str().as_bytes())?;
    out.extend_from_slice(b" accepts key ")?;
    push_digits(out, &key.0)?;
    out.extend_from_slice(b", which has the public key of a distrusted key")?;
    Ok(())
}

fn push_expiry_words(
    out: &mut Vec<u8>,
    domain: &TrustDomain,
    key: &KeyId,
    at: i64,
) -> Result<(), AllocError>
    ensures { OnOk result (out.new.items
        ≡ out.old.items ++ expiry_words domain.now key.now.0 at) }
{
    out.extend_from_slice(domain.as_str().as_bytes())?;
    out.extend_from_slice(b" has a certificate that ends at ")?;
    push_second(out, at)?;
    out.extend_from_slice(b", of key ")?;
    push_digits(out, &key.0)?;
    Ok(())
}

/// Adds a Unix second.
pub(crate) fn push_second(out: &mut Vec<u8>, second: i64) -> Result<(), AllocError>
    ensures { OnOk result (out.new.items ≡ out.old.items ++ signed_decimal second) }
{
    let mut buffer = Buffer::new();
    out.extend_from_slice(buffer.format(second).as_bytes())
}

fn push_fetch_words(
    out: &mut Vec<u8>,
    domain: &TrustDomain,
    fetched: Option<i64>,
) -> Result<(), AllocError>
    ensures { OnOk result (out.new.items ≡ out.old.items ++ fetch_words domain.now fetched) }
{
    out.extend_from_slice(domain.as_str().as_bytes())?;
    out.extend_from_slice(b" was last fetched: ")?;
    push_second_or_never(out, fetched)?;
    Ok(())
}

fn push_second_or_never(out: &mut Vec<u8>, second: Option<i64>) -> Result<(), AllocError>
    ensures { OnOk result (out.new.items ≡ out.old.items ++ second_or_never second) }
{
    match second {
        Some(second) => push_second(out, second),
        None => out.extend_from_slice(b"never"),
    }
}

fn push_peer_words(out: &mut Vec<u8>, peer: &str, since: u64) -> Result<(), AllocError>
    ensures { OnOk result (out.new.items ≡ out.old.items ++ peer_words peer.now since) }
{
    out.extend_from_slice(peer.as_bytes())?;
    out.extend_from_slice(b" had no session that ended well since ")?;
    push_number(out, since)?;
    Ok(())
}

fn push_stock_words(out: &mut Vec<u8>, stock: Stock, held: u64, most: u64) -> Result<(), AllocError>
    ensures { OnOk result (out.new.items ≡ out.old.items ++ stock_words stock held most) }
{
    push_number(out, held)?;
    out.extend_from_slice(b" of ")?;
    push_number(out, most)?;
    out.extend_from_slice(held_words(stock).as_bytes())?;
    Ok(())
}

fn held_words(stock: Stock) -> &'static str
    ensures { result.now ≡ held_words stock }
{
    match stock {
        Stock::Receipts => " receipts are held",
        Stock::Records => " records of distrust are held",
    }
}
