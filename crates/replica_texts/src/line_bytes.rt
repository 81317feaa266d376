//! The bytes of one line, made to be written or kept to be compared.
ghost use Rattle.std.specs.Prelude.{◌≡◌, IfOk, OnOk};
ghost use Rattle.receipt_core.specs.Receipt.{distrust_line};

use jwk_set::KeyId;
use receipt_core::Distrust;
use spiffe_name::TrustDomain;
use std::alloc::{AllocError, Global};

/// The line of the record of distrust, without a line feed.
pub(crate) fn record_line(
    alloc: Global,
    domain: &TrustDomain,
    key: &KeyId,
) -> Result<Vec<u8>, AllocError>
    ensures { IfOk result (λ text. text.items
        ≡ distrust_line (record { domain = domain.now; key = key.now })) }
{
    let record = Distrust {
        domain: domain.try_clone(alloc)?,
        key: *key,
    };
    record.write_line(alloc)
}

/// Keeps the line, with which the next one is compared.
pub(crate) fn set_last(last: &mut Vec<u8>, text: &[u8]) -> Result<(), AllocError>
    ensures { OnOk result (last.new.items ≡ text.now) }
{
    last.clear();
    last.extend_from_slice(text)
}
