//! The ids in the line of a have.
ghost use Rattle.std.specs.Prelude.{◌≡◌, ◌++◌, ◌∷◌, ◌<◌, ◌≤◌, ℕ, List, IfOk, IfSome, MatchOption};
ghost use Rattle.std.specs.Prelude.{codes, drop, map, length};
ghost use Rattle.std.specs.List.{AllByRecursion, AllPass, join_by};
ghost use Rattle.receipt_core.specs.Receipt.{IsDigest};
ghost use Rattle.spiffe_name.specs.Bytes.{FirstFails};
ghost use Rattle.replica_texts.specs.Messages.{quoted};
ghost use Rattle.replica_texts.specs.Inside.IdList.{TakesId, is_inside};

use crate::scanner::{digest_after, rest_after};
use receipt_core::ReceiptId;
use std::alloc::{AllocError, Global};

/// What comes after the label and before the first closing bracket, and what begins with that.
pub(crate) fn list_after<'a>(text: &'a [u8], label: &[u8]) -> (&'a [u8], &'a [u8])
    ensures { (inside rest : List ℕ) → AllPass is_inside inside
        → text.now ≡ label.now ++ (inside ++ (93 ∷ rest))
        → (result.0.now ≡ inside) × (result.1.now ≡ 93 ∷ rest) }
{
    let rest = rest_after(text, label);
    match bracket(rest) {
        Some(place) => rest.split_at(place),
        None => (rest, rest),
    }
}

fn bracket(text: &[u8]) -> Option<usize>
    ensures { MatchOption result (AllPass is_inside text.now) (FirstFails is_inside text.now) }
{
    text.iter().position(|byte| *byte == b']')
}

/// The ids that the text lists, each in quotation marks, with commas between. For any other text,
/// some ids.
pub(crate) fn read_ids(alloc: Global, text: &[u8]) -> Result<Vec<ReceiptId>, AllocError>
    ensures same { IfOk result
        (λ ids. (wanted : List (List ℕ)) → AllByRecursion IsDigest wanted
        → text.now ≡ join_by quoted (codes ",") wanted → map (λ id. id.0) ids.items ≡ wanted) }
    ensures form { IfOk result (λ ids. AllByRecursion IsDigest (map (λ id. id.0) ids.items)) }
{
    let mut ids = Vec::new(alloc);
    let mut rest = text;
    'ids: loop {
        let Some((id, further)) = take_id(rest) else {
            return Ok(ids);
        };
        ids.push(id)?;
        rest = further;
    }
}

// The first id, and what comes after it and its comma.
fn take_id(text: &[u8]) -> Option<(ReceiptId, &[u8])>
    ensures same { (ids : List (List ℕ)) → AllByRecursion IsDigest ids
        → text.now ≡ join_by quoted (codes ",") ids → TakesId ids result }
    ensures form { IfSome result (λ r. IsDigest r.0.0) }
    ensures falls { IfSome result (λ r. length r.1.now < length text.now) }
{
    if text.len() < 66 || text[0] != b'"' {
        return None;
    }
    let (first, rest) = text.split_at(66);
    let (digest, _) = digest_after(first, b"\"");
    Some((id_of(&digest), without_first(rest)))
}

fn id_of(digest: &[u8; 32]) -> ReceiptId
    ensures form { IsDigest result.0 }
    ensures same { result.0 ≡ digest.now }
{
    receipt_id(*digest)
}

fn receipt_id(digest: [u8; 32]) -> ReceiptId
    ensures { result.0 ≡ digest }
{
    ReceiptId(digest)
}

fn without_first(text: &[u8]) -> &[u8]
    ensures { result.now ≡ drop 1 text.now }
{
    match text.split_first() {
        Some((_, rest)) => rest,
        None => text,
    }
}
