//! The sums of what a closure holds.
ghost use Rattle.std.specs.Prelude.{◌≡◌, ◌++◌, IfOk, OnOk, flat_map, map};
ghost use Rattle.sha2.specs.Sha256.{sha256};
ghost use Rattle.replica_core.specs.Session.{state_of};
ghost use Rattle.replica_texts.specs.Messages.{record_text};
ghost use Rattle.bucket_sums.specs.Sums.{bucket_sum, ids_text, records_sum};

use crate::sum::Sum;
use closure_core::{Closure, Distrusts};
use jwk_set::KeyId;
use receipt_core::{Distrust, ReceiptId};
use replica_core::bucket_ids;
use sha2::{Digest, Sha256};
use spiffe_name::TrustDomain;
use std::alloc::{AllocError, Global};

pub(crate) fn sum_of_bucket<C: Closure>(
    alloc: Global,
    closure: &C,
    bucket: u8,
) -> Result<Sum, AllocError>
    ensures { IfOk result
        (λ sum. sum.0 ≡ bucket_sum (state_of (C.state closure.now).meaning) bucket) }
{
    let ids = bucket_ids(alloc, closure, bucket)?;
    let text = text_of_ids(alloc, ids.as_slice())?;
    Ok(sum_of(text.as_slice()))
}

pub(crate) fn sum_of_records<C: Closure>(alloc: Global, closure: &C) -> Result<Sum, AllocError>
    ensures { IfOk result (λ sum. sum.0 ≡ records_sum (state_of (C.state closure.now).meaning)) }
{
    let text = text_of_records(alloc, closure.distrusts())?;
    Ok(sum_of(text.as_slice()))
}

fn sum_of(text: &[u8]) -> Sum
    ensures { result.0 ≡ sha256 text.now }
{
    Sum(Sha256::digest(text))
}

fn text_of_ids(alloc: Global, ids: &[ReceiptId]) -> Result<Vec<u8>, AllocError>
    ensures { IfOk result (λ text. text.items ≡ ids_text (map (λ id. id.0) ids.now)) }
{
    let mut text = Vec::new(alloc);
    for id in ids {
        text.extend_from_slice(&id.0)?;
    }
    Ok(text)
}

fn text_of_records(alloc: Global, distrusts: Distrusts<'_>) -> Result<Vec<u8>, AllocError>
    ensures { IfOk result (λ text. text.items ≡ flat_map record_text distrusts.entry) }
{
    let mut text = Vec::new(alloc);
    for (domain, key) in distrusts {
        push_record(alloc, &mut text, domain, key)?;
    }
    Ok(text)
}

fn push_record(
    alloc: Global,
    out: &mut Vec<u8>,
    domain: &TrustDomain,
    key: &KeyId,
) -> Result<(), AllocError>
    ensures { OnOk result (out.new.items
        ≡ out.old.items ++ record_text (record { domain = domain.now; key = key.now })) }
{
    let record = Distrust {
        domain: domain.try_clone(alloc)?,
        key: *key,
    };
    let line = record.write_line(alloc)?;
    out.extend_from_slice(line.as_slice())?;
    out.extend_from_slice(b"\n")
}
