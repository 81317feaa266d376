//! The fields of a head that say how it is read and who asks: they may announce no body, name one
//! host, and not say that a page of another site asks.
ghost use Rattle.std.specs.Prelude.{◌≡◌, All, count_by, codes, length, map, option_map};
ghost use Rattle.std.specs.List.{list_all, list_any};
ghost use Rattle.httparse.specs.Spans.{IsHeaderWithin, header_bytes};
ghost use Rattle.health_pages.specs.Heads.{are_fine, fields_fault, has_field_name, host_in};
ghost use Rattle.health_pages.specs.Heads.{is_bodiless, is_cross_site, is_hosted};

use crate::asked_page::PageFault;
use httparse::spans::HeaderSpan;

/// Why the fields are refused, if they are.
pub(crate) fn fields_fault(head: &[u8], minor: u8, fields: &[HeaderSpan]) -> Option<PageFault>
    requires { All (IsHeaderWithin (length head.now)) fields.now }
    ensures { result ≡ fields_fault minor (map (header_bytes head.now) fields.now) }
{
    if !are_fine(head, minor, fields) {
        Some(PageFault::BadFields)
    } else if has_cross_site(head, fields) {
        Some(PageFault::CrossSite)
    } else {
        None
    }
}

// Whether the fields announce no body, and the number of `Host` fields is right for the version.
fn are_fine(head: &[u8], minor: u8, fields: &[HeaderSpan]) -> bool
    requires { All (IsHeaderWithin (length head.now)) fields.now }
    ensures { result ≡ are_fine minor (map (header_bytes head.now) fields.now) }
{
    are_bodiless(head, fields) && is_hosted(minor, host_count(head, fields))
}

fn are_bodiless(head: &[u8], fields: &[HeaderSpan]) -> bool
    requires { All (IsHeaderWithin (length head.now)) fields.now }
    ensures { result ≡ list_all is_bodiless (map (header_bytes head.now) fields.now) }
{
    'fields: for field in fields {
        if !is_bodiless(field.name.of(head), field.value.of(head)) {
            return false;
        }
    }
    true
}

fn is_bodiless(name: &[u8], value: &[u8]) -> bool
    ensures { result ≡ is_bodiless (name.now, value.now) }
{
    if has_field_name(b"content-length", name) && value != b"0".as_slice() {
        return false;
    }
    !has_field_name(b"transfer-encoding", name)
}

fn has_cross_site(head: &[u8], fields: &[HeaderSpan]) -> bool
    requires { All (IsHeaderWithin (length head.now)) fields.now }
    ensures { result ≡ list_any is_cross_site (map (header_bytes head.now) fields.now) }
{
    'fields: for field in fields {
        if is_cross_site(field.name.of(head), field.value.of(head)) {
            return true;
        }
    }
    false
}

fn is_cross_site(name: &[u8], value: &[u8]) -> bool
    ensures { result ≡ is_cross_site (name.now, value.now) }
{
    has_field_name(b"sec-fetch-site", name) && value == b"cross-site".as_slice()
}

/// The value of the first `Host` field.
pub(crate) fn host_in<'a>(head: &'a [u8], fields: &[HeaderSpan]) -> Option<&'a [u8]>
    requires { All (IsHeaderWithin (length head.now)) fields.now }
    ensures { option_map (λ host. host.now) result
        ≡ host_in (map (header_bytes head.now) fields.now) }
{
    'fields: for field in fields {
        if has_field_name(b"host", field.name.of(head)) {
            return Some(field.value.of(head));
        }
    }
    None
}

/// Whether the name is this one, in letters of any case.
pub(crate) fn has_field_name(wanted: &[u8], name: &[u8]) -> bool
    ensures { result ≡ has_field_name wanted.now name.now }
{
    name.eq_ignore_ascii_case(wanted)
}

fn host_count(head: &[u8], fields: &[HeaderSpan]) -> usize
    requires { All (IsHeaderWithin (length head.now)) fields.now }
    ensures { result ≡ count_by (λ field. has_field_name (codes "host") field.0)
        (map (header_bytes head.now) fields.now) }
{
    let mut count: usize = 0;
    'fields: for field in fields {
        if has_field_name(b"host", field.name.of(head)) {
            count += 1;
        }
    }
    count
}

fn is_hosted(minor: u8, count: usize) -> bool
    ensures { result ≡ is_hosted minor count }
{
    if minor == 1 { count == 1 } else { count <= 1 }
}
