//! The lines that report what is left out.
ghost use Rattle.std.specs.Prelude.{◌≡◌, IfOk};
ghost use Rattle.migration.specs.Carry.{left_out_line};

use byte_lines::push_digits;
use spiffe_name::TrustDomain;
use std::alloc::{AllocError, Global};

/// A line of what is left out, its digest, its domain and the cause, with its line feed.
pub(crate) fn left_out_line(
    alloc: Global,
    what: &[u8],
    digest: &[u8; 32],
    domain: &TrustDomain,
    cause: &[u8],
) -> Result<Vec<u8>, AllocError>
    ensures { IfOk result
        (λ text. text.items ≡ left_out_line what.now digest.now domain.now cause.now) }
{
    let mut text = Vec::from_slice(alloc, what)?;
    push_digits(&mut text, digest)?;
    text.extend_from_slice(b" of ")?;
    text.extend_from_slice(domain.as_str().as_bytes())?;
    text.extend_from_slice(cause)?;
    Ok(text)
}
