//! The configuration that the first bytes of a question or of a have name.
use fed_config::ConfigId;

/// How the first line of each question about sums begins. The digits of a configuration's digest
/// follow.
const QUESTION: &[u8] = b"{\"config\":\"";

/// How a have begins. The number of its bucket follows, and then `HAVE_CONFIG` and the digits.
const HAVE: &[u8] = b"{\"bucket\":";

const HAVE_CONFIG: &[u8] = b",\"config\":\"";

/// How many hexadecimal digits a digest has.
const DIGITS: usize = 64;

/// How many bytes are looked at. The first line of a question has this length, and a have has its
/// digest in them, since its bucket has at most three digits.
const HEAD_BYTES: usize = 88;

/// Whether more bytes have to come before it is known which configuration is named, if one is.
pub(crate) fn is_head_short(head: &[u8]) -> bool {
    let may_name = may_begin(head, QUESTION) || may_begin(head, HAVE);
    may_name && head.len() < HEAD_BYTES && !head.contains(&b'\n')
}

/// The digest that is named, if the bytes begin as a question or a have does.
pub(crate) fn named_config(head: &[u8]) -> Option<ConfigId> {
    let digits = digits_named(head)?;
    let mut digest = [0; 32];
    match hex::decode_to_slice(digits, &mut digest) {
        Ok(()) => Some(ConfigId(digest)),
        Err(_) => None,
    }
}

// Whether these bytes are the beginning of a line that begins so.
fn may_begin(head: &[u8], beginning: &[u8]) -> bool {
    let begun = head.len().min(beginning.len());
    head[..begun] == beginning[..begun]
}

// The digits of the digest, if all have come.
fn digits_named(head: &[u8]) -> Option<&[u8]> {
    let rest = match head.strip_prefix(QUESTION) {
        Some(rest) => rest,
        None => after_bucket(head.strip_prefix(HAVE)?)?,
    };
    if rest.len() < DIGITS {
        return None;
    }
    Some(&rest[..DIGITS])
}

// What follows the number of the bucket and the name of the digest.
fn after_bucket(rest: &[u8]) -> Option<&[u8]> {
    let count = rest.iter().position(|byte| !byte.is_ascii_digit())?;
    rest[count..].strip_prefix(HAVE_CONFIG)
}
