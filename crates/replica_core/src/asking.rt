//! What a replica has of a bucket.
ghost use Rattle.std.specs.Prelude.{◌≡◌, ◌↔◌, IsTrue, IfOk, IfErr, map, Contains};
ghost use Rattle.std.specs.List.Sorted.{IsStrictlySortedBy};
ghost use Rattle.receipt_core.specs.Receipt.{receipt_id_of};
ghost use Rattle.closure_core.specs.AcceptedList.{receipts_in};
ghost use Rattle.replica_core.specs.State.{id_cmp, ids_held};
ghost use Rattle.replica_core.specs.Session.{have_of, state_of};
ghost use Rattle.replica_core.specs.declared.error.SyncError.TheVariants.{NoMemory};

use crate::error::SyncError;
use crate::have_message::Have;
use closure_core::Closure;
use receipt_core::ReceiptId;
use std::alloc::{AllocError, Global};

/// The most ids that a have names: the line of more might be longer than a line may be.
const MOST_NAMED: usize = 65_536;

/// What the closure holds of the bucket: the ids of its receipts, or the first 65,536 of them if
/// it holds more. The answer then gives those that are not named again.
///
/// # Errors
/// [`SyncError::NoMemory`]: memory ran out.
pub fn have<C: Closure>(alloc: Global, closure: &C, bucket: u8) -> Result<Have, SyncError>
    ensures ok { IfOk result (λ h. h ≡ have_of (C.state closure.now).meaning bucket) }
    ensures refused { IfErr result (λ e. e ≡ NoMemory) }
{
    let mut ids = bucket_ids(alloc, closure, bucket)?;
    ids.truncate(MOST_NAMED);
    Ok(Have {
        bucket,
        config: closure.config().digest(),
        ids,
    })
}

/// The ids of all the bucket's receipts, sorted, each once.
///
/// # Errors
/// Memory ran out.
pub fn bucket_ids<C: Closure>(
    alloc: Global,
    closure: &C,
    bucket: u8,
) -> Result<Vec<ReceiptId>, AllocError>
    ensures { IfOk result (λ ids. map (λ id. id.0) ids.items
        ≡ ids_held (state_of (C.state closure.now).meaning) bucket) }
{
    let mut ids = gathered(alloc, closure, bucket)?;
    ids.sort_unstable();
    ids.dedup();
    Ok(ids)
}

// The same in the order of the receipts' lines.
fn gathered<C: Closure>(
    alloc: Global,
    closure: &C,
    bucket: u8,
) -> Result<Vec<ReceiptId>, AllocError>
    ensures { IfOk result (λ ids. map (λ id. id.0) ids.items
        ≡ map receipt_id_of (receipts_in bucket (C.state closure.now).meaning.held)) }
{
    let mut ids = Vec::new(alloc);
    for receipt in closure.receipts_of(bucket) {
        ids.push(receipt.id())?;
    }
    Ok(ids)
}

/// Whether the id is among these.
pub(crate) fn is_named(ids: &[ReceiptId], id: &ReceiptId) -> bool
    requires { IsStrictlySortedBy id_cmp (map (λ id. id.0) ids.now) }
    ensures { IsTrue result ↔ Contains (map (λ id. id.0) ids.now) id.now.0 }
{
    ids.binary_search(id).is_ok()
}
