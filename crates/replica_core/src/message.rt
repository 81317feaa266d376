//! Messages between replicas that are played in memory.
ghost use Rattle.std.specs.Prelude.{◌≡◌, IfOk, map, slice_get, take};
ghost use Rattle.std.specs.Option.{option_copied, option_map};
ghost use Rattle.receipt_core.specs.Acceptance.{IsMeaning};
ghost use Rattle.replica_core.specs.Session.{give_of};
ghost use Rattle.replica_core.specs.World.{without_records};
ghost use Rattle.replica_core.specs.Inside.ReplicasInMemory.{content_of, message_of};
ghost use Rattle.replica_core.specs.Inside.ReplicasInMemory.{give_in_message, have_in_message};
ghost use Rattle.replica_core.specs.Inside.ReplicasInMemory.{is_sums_message};

use crate::answering::answer;
use crate::have_message::Have;
use crate::lent_answer::Lacking;
use closure_core::{Closure, Distrusts, NoMemory};
use receipt_core::{Distrust, Receipt};
use std::alloc::{AllocError, Global};

/// A message, which remains once it was sent.
#[derive(Debug, Drop)]
pub(crate) enum Message {
    /// What the asker has of a bucket.
    Have {
        asker: usize,
        have: Have,
    },
    /// What the answerer answered to the have at this place.
    Give {
        answerer: usize,
        place: usize,
        content: StoredGive,
    },
    /// The asker's sums. They are not kept: nothing that is held comes of them.
    Sums {
        asker: usize,
    },
    /// The marks that the answerer made for the sums at this place, which are not kept either.
    Marks {
        answerer: usize,
        place: usize,
    },
}

/// The records and receipts of an answer, each in their order.
#[derive(Debug, Drop)]
pub(crate) struct StoredGive {
    pub(crate) records: Vec<Distrust>,
    pub(crate) receipts: Vec<Receipt>,
}

/// What the closure answers to the have, copied.
pub(crate) fn copy_give<C: Closure>(
    alloc: Global,
    closure: &C,
    have: &Have,
) -> Result<StoredGive, NoMemory>
    ensures copies { IfOk result
        (λ c. content_of c ≡ (give_of (C.state closure.now).meaning have.now).content) }
    ensures valid { IsMeaning (C.state closure.now).meaning }
{
    let _config = closure.config();
    let (records, receipts) = answer(closure, have).into_parts();
    Ok(StoredGive {
        records: copied_records(alloc, records)?,
        receipts: copied_receipts(alloc, receipts)?,
    })
}

/// What the closure answers to the have without records, copied.
pub(crate) fn copy_receipts<C: Closure>(
    alloc: Global,
    closure: &C,
    have: &Have,
) -> Result<StoredGive, NoMemory>
    ensures copies { IfOk result (λ c. content_of c
        ≡ without_records (give_of (C.state closure.now).meaning have.now).content) }
    ensures valid { IsMeaning (C.state closure.now).meaning }
{
    let _config = closure.config();
    let (_, receipts) = answer(closure, have).into_parts();
    Ok(StoredGive {
        records: Vec::new(alloc),
        receipts: copied_receipts(alloc, receipts)?,
    })
}

fn copied_records(alloc: Global, distrusts: Distrusts<'_>) -> Result<Vec<Distrust>, AllocError>
    ensures { IfOk result (λ v. v.items ≡ distrusts.entry) }
{
    let mut records = Vec::new(alloc);
    for (domain, key) in distrusts {
        records.push(Distrust {
            domain: domain.try_clone(alloc)?,
            key: *key,
        })?;
    }
    Ok(records)
}

fn copied_receipts(alloc: Global, lacking: Lacking<'_>) -> Result<Vec<Receipt>, AllocError>
    ensures { IfOk result (λ v. v.items ≡ lacking.entry) }
{
    let mut receipts = Vec::new(alloc);
    for receipt in lacking {
        receipts.push(receipt.try_clone(alloc)?)?;
    }
    Ok(receipts)
}

/// The have at the place, if one is there.
pub(crate) fn have_at(sent: &[Message], place: usize) -> Option<&Have>
    ensures { option_map (λ q. (q.now.bucket, q.now.ids)) result
        ≡ have_in_message (slice_get (map message_of sent.now) place) }
{
    match sent.get(place) {
        Some(Message::Have { have, .. }) => Some(have),
        _ => None,
    }
}

/// The content of the answer at the place, if one is there.
pub(crate) fn give_at(sent: &[Message], place: usize) -> Option<&StoredGive>
    ensures { option_map (λ c. content_of c.now) result
        ≡ give_in_message (slice_get (map message_of sent.now) place) }
{
    match sent.get(place) {
        Some(Message::Give { content, .. }) => Some(content),
        _ => None,
    }
}

/// Whether sums are at the place.
pub(crate) fn are_sums(sent: &[Message], place: usize) -> bool
    ensures { result ≡ is_sums_message (slice_get (map message_of sent.now) place) }
{
    matches!(sent.get(place), Some(Message::Sums { .. }))
}

/// The first of the items, of the number asked for, or all if there are fewer.
pub(crate) fn first<T>(items: &[T], count: usize) -> &[T]
    ensures { result.now ≡ take count items.now }
{
    if count < items.len() {
        &items[..count]
    } else {
        items
    }
}
