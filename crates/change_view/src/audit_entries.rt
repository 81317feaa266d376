//! The entry by which a line of the audit file is found to be of a change that is held.
ghost use Rattle.std.specs.Prelude.{◌≡◌};
ghost use Rattle.sha2.specs.Sha256.{sha256};
ghost use Rattle.change_view.specs.TurnTexts.{final_line};

use closure_core::Closure;
use receipt_core::Distrust;
use sha2::{Digest, Sha256};
use state_steps::end_line;
use std::alloc::{AllocError, Global};

/// How each line of the audit file begins.
pub const AUDIT_BEGINNING: &[u8] = b"{\"at\":";

/// What marks a line that says what is held at a start.
const START_PART: &[u8] = b",\"event\":\"start\",";

/// What comes before the digest at the end of a line, and after it.
const LAST_LABEL: &[u8] = b",\"last\":\"";

const LAST_END: &[u8] = b"\"}";

/// How many digits a digest has.
const DIGITS: usize = 64;

/// What a line of the audit file is.
#[derive(Clone, Copy, Debug, PartialEq, Eq)]
pub enum AuditLine {
    /// One that says what is held at a start.
    Start,
    /// One of a change, whose last line in the journal has this SHA-256.
    Change([u8; 32]),
}

/// The SHA-256 of the last line of the text, without its line feed; of nothing if it has no line.
#[tactic(auto, using(crate::proofs::TurnFacts::last_behind))]
pub(crate) fn last_line_digest(text: &[u8]) -> [u8; 32]
    ensures { result ≡ sha256 (final_line text.now) }
{
    match end_line(text) {
        Some(end) => Sha256::digest(end.line),
        None => Sha256::digest(b""),
    }
}

/// What the line is, without its line feed, or `None` if it is not one of an audit file.
pub fn read_audit_line(line: &[u8]) -> Option<AuditLine> {
    let members = line.strip_prefix(AUDIT_BEGINNING)?;
    let end = members.iter().position(|byte| !byte.is_ascii_digit())?;
    if members[end..].starts_with(START_PART) && line.ends_with(b"}") {
        return Some(AuditLine::Start);
    }
    let rest = line.strip_suffix(LAST_END)?;
    if rest.len() < DIGITS {
        return None;
    }
    let (front, digits) = rest.split_at(rest.len() - DIGITS);
    if !front.ends_with(LAST_LABEL) {
        return None;
    }
    let mut digest = [0; 32];
    hex::decode_to_slice(digits, &mut digest).ok()?;
    Some(AuditLine::Change(digest))
}

/// Whether a receipt or a record is held whose line has this SHA-256.
///
/// # Errors
/// Memory ran out.
pub fn holds_line<C: Closure>(
    alloc: Global,
    closure: &C,
    digest: &[u8; 32],
) -> Result<bool, AllocError> {
    if closure
        .receipts_of(digest[0])
        .any(|receipt| receipt.id().0 == *digest)
    {
        return Ok(true);
    }
    holds_record(alloc, closure, digest)
}

fn holds_record<C: Closure>(
    alloc: Global,
    closure: &C,
    digest: &[u8; 32],
) -> Result<bool, AllocError> {
    for (domain, key) in closure.distrusts() {
        let record = Distrust {
            domain: domain.try_clone(alloc)?,
            key: *key,
        };
        if Sha256::digest(record.write_line(alloc)?.as_slice()) == *digest {
            return Ok(true);
        }
    }
    Ok(false)
}
