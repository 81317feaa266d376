//! The hosts of which a page may be asked: any address, `localhost`, and names that are listed. A
//! page of another site that lets its name lead here is not one of these.
ghost use Rattle.std.specs.Prelude.{◌≡◌, ◌==◌, codes, map, nat_eq, option_map};
ghost use Rattle.std.specs.List.{list_all, list_any, position, starts_with};
ghost use Rattle.health_pages.specs.Hosts.{host_name, is_address, is_host_named, is_let_in};
ghost use Rattle.health_pages.specs.Hosts.{is_numeric_byte, lets_in};

use crate::head_fields::has_field_name;

/// Whether a request with this value of `Host` is let in, if these names are listed. One that has
/// no such value is.
pub(crate) fn lets_in(names: &[&str], host: Option<&[u8]>) -> bool
    ensures { result ≡ lets_in (map (λ n. n.now) names.now) (option_map (λ h. h.now) host.entry) }
{
    match host {
        Some(value) => is_let_in(names, value),
        None => true,
    }
}

fn is_let_in(names: &[&str], value: &[u8]) -> bool
    ensures { result ≡ is_let_in (map (λ n. n.now) names.now) value.now }
{
    is_address(value) || is_host_named(value, "localhost") || is_listed(names, value)
}

// An address of version 6 is in brackets, and one of version 4 has only digits and dots.
fn is_address(value: &[u8]) -> bool
    ensures { result ≡ is_address value.now }
{
    value.starts_with(b"[") || is_numeric(host_name(value))
}

fn is_numeric(name: &[u8]) -> bool
    ensures { result ≡ list_all is_numeric_byte name.now }
{
    name.iter().all(|byte| is_numeric_byte(*byte))
}

fn is_numeric_byte(byte: u8) -> bool
    ensures { result ≡ is_numeric_byte byte }
{
    byte.is_ascii_digit() || byte == b'.'
}

// The value without its port.
fn host_name(value: &[u8]) -> &[u8]
    ensures { result.now ≡ host_name value.now }
{
    match first_colon(value) {
        Some(place) => &value[..place],
        None => value,
    }
}

fn first_colon(value: &[u8]) -> Option<usize>
    ensures { result ≡ position (λ b. b == 58) value.now }
{
    value.iter().position(|byte| *byte == b':')
}

fn is_listed(names: &[&str], value: &[u8]) -> bool
    ensures { result ≡ list_any (is_host_named value.now) (map (λ n. n.now) names.now) }
{
    'names: for name in names {
        if is_host_named(value, name) {
            return true;
        }
    }
    false
}

fn is_host_named(value: &[u8], name: &str) -> bool
    ensures { result ≡ is_host_named value.now name.now }
{
    has_field_name(name.as_bytes(), host_name(value))
}
