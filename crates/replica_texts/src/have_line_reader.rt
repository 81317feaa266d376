//! The lines of haves, read: what the line says is guessed, written again by `spelling` and
//! compared with the line. So a line is read exactly if it has the one spelling.
ghost use Rattle.std.specs.Prelude.{◌≡◌, ◌<◌, ◌^◌, ◌↔◌, IsTrue, IfOk, MatchOption, map};
ghost use Rattle.std.specs.List.Sorted.{IsStrictlySortedBy};
ghost use Rattle.receipt_core.specs.Receipt.{IsDigest};
ghost use Rattle.replica_core.specs.State.{id_cmp};
ghost use Rattle.replica_texts.specs.Messages.{AnyHave, any_have_text};
ghost use Rattle.replica_texts.specs.FirstLines.{IsAnyHaveLine};
ghost use Rattle.replica_texts.specs.Inside.HaveLines.{ArePartsOf, IsOfParts, versioned_have_says};

use crate::have_fields::{HaveFields, VersionedHave};
use crate::id_list::{list_after, read_ids};
use crate::scanner::{digest_after, id_of, number_after};
use crate::spelling::{HaveLine, push_have_line};
use receipt_core::ReceiptId;
use replica_core::Have;
use std::alloc::{AllocError, Global};

/// Reads the line of a have. Returns `None` if the line is not spelt as one, or its bucket is not
/// below the number of buckets, or its ids do not rise.
pub(crate) fn read_versioned_have(
    alloc: Global,
    text: &[u8],
) -> Result<Option<VersionedHave>, AllocError>
    ensures { IfOk result (λ found. MatchOption found ((a : AnyHave) → IsAnyHaveLine text.now a → ⊥)
        (λ a. IsAnyHaveLine text.now (versioned_have_says a))) }
{
    let parts = guess(text);
    let ids = read_ids(alloc, parts.ids)?;
    let Some(versioned) = have_of_fields(&parts, ids) else {
        return Ok(None);
    };
    if is_spelt(alloc, &versioned, text)? {
        Ok(Some(versioned))
    } else {
        Ok(None)
    }
}

// The parts of the line if it is a have's; otherwise any.
fn guess(text: &[u8]) -> HaveFields<'_>
    ensures parts { (a : AnyHave) → IsAnyHaveLine text.now a → ArePartsOf result a }
    ensures config { IsDigest result.config.0 }
    ensures few { (result.format < 2 ^ 64) × (result.buckets < 2 ^ 64) }
{
    let (bucket, rest) = number_after(text, b"{\"bucket\":");
    let (config, rest) = digest_after(rest, b",\"config\":\"");
    let (format, rest) = number_after(rest, b"\",\"format\":");
    let (ids, rest) = list_after(rest, b",\"have\":[");
    let (buckets, _) = number_after(rest, b"],\"of\":");
    HaveFields {
        bucket,
        config: id_of(&config),
        format,
        ids,
        buckets,
    }
}

fn have_of_fields(parts: &HaveFields<'_>, ids: Vec<ReceiptId>) -> Option<VersionedHave>
    ensures { MatchOption result
        (parts.now.bucket < parts.now.buckets
        → IsStrictlySortedBy id_cmp (map (λ id. id.0) ids.items) → ⊥)
        (IsOfParts parts.now (map (λ id. id.0) ids.items)) }
{
    if parts.bucket >= parts.buckets {
        return None;
    }
    // A bucket past 255 is of no have that is answered.
    let have = Have::new((parts.bucket % 256) as u8, parts.config, ids)?;
    Some(VersionedHave {
        bucket: parts.bucket,
        have,
        format: parts.format,
        buckets: parts.buckets,
    })
}

fn is_spelt(alloc: Global, versioned: &VersionedHave, text: &[u8]) -> Result<bool, AllocError>
    ensures { IfOk result (λ same. IsTrue same
        ↔ (text.now ≡ any_have_text (versioned_have_says versioned.now))) }
{
    let line = HaveLine {
        bucket: versioned.bucket,
        config: versioned.have.config(),
        format: versioned.format,
        ids: versioned.have.ids(),
        buckets: versioned.buckets,
    };
    let mut spelt = Vec::new(alloc);
    push_have_line(&mut spelt, &line)?;
    Ok(text == spelt.as_slice())
}
