//! What a text or a JSON value says of a document, before it is one: authorities under their texts,
//! and the numbers.
ghost use Rattle.std.specs.Prelude.{◌≤◌, MatchResult, length};
ghost use Rattle.serde_json.specs.View.{view};
ghost use Rattle.bundle_doc.specs.Bundle.{document_limit};
ghost use Rattle.bundle_doc.specs.Entries.{HasNumbers, IsContents, IsContentsOfText};
ghost use Rattle.bundle_doc.specs.Refusal.{RefusesBytes, RefusesTree};

use crate::document_numbers::read_number;
use crate::elements::{elements_of, gather, gather_taken, taken_elements};
use crate::error::DocError;
use jwk_set::Authority;
use serde_json::Value;
use std::alloc::Global;
use std::collections::BTreeMap;

/// Each authority under its text, and the two numbers.
#[derive(Drop)]
pub(crate) struct Contents {
    pub(crate) found: BTreeMap<String, Authority>,
    pub(crate) rank: Option<u64>,
    pub(crate) hint: Option<u64>,
}

impl Contents {
    /// What a text says. The tree that it is read into is freed at the end of this call.
    pub(crate) fn read(alloc: Global, bytes: &[u8]) -> Result<Contents, DocError>
        requires { length bytes.now ≤ document_limit }
        ensures { MatchResult result
            (λ p. IsContentsOfText bytes.now p.found.entries p.rank p.hint)
            (RefusesBytes bytes.now) }
    {
        match Value::from_slice(alloc, bytes) {
            Ok(value) => Contents::taken(alloc, value),
            Err(error) if error.is_memory() => Err(DocError::NoMemory),
            Err(_) => Err(DocError::NotJson),
        }
    }

    /// What a JSON value says. Each of its elements is freed once it is read, so its memory serves
    /// the next authority.
    fn taken(alloc: Global, value: Value) -> Result<Contents, DocError>
        ensures { MatchResult result
            (λ p. IsContents (view value) p.found.entries p.rank p.hint)
            (RefusesTree (view value)) }
    {
        let (rank, hint) = numbers_of(&value)?;
        let Some(elements) = taken_elements(value) else {
            return Err(DocError::NoKeys);
        };
        let found = gather_taken(alloc, elements)?;
        Ok(Contents { found, rank, hint })
    }

    /// What a JSON value says.
    pub(crate) fn of(alloc: Global, value: &Value) -> Result<Contents, DocError>
        ensures { MatchResult result
            (λ p. IsContents (view value.now) p.found.entries p.rank p.hint)
            (RefusesTree (view value.now)) }
    {
        let (rank, hint) = numbers_of(value)?;
        let Some(elements) = elements_of(value) else {
            return Err(DocError::NoKeys);
        };
        let found = gather(alloc, elements)?;
        Ok(Contents { found, rank, hint })
    }
}

/// The rank and the hint of an object that has elements.
fn numbers_of(value: &Value) -> Result<(Option<u64>, Option<u64>), DocError>
    ensures { MatchResult result (λ r. HasNumbers (view value.now) r.0 r.1)
        (RefusesTree (view value.now)) }
{
    if !value.is_object() {
        return Err(DocError::NotObject);
    }
    if elements_of(value).is_none() {
        return Err(DocError::NoKeys);
    }
    let rank = read_number(value, "spiffe_sequence", DocError::BadSequence)?;
    let hint = read_number(value, "spiffe_refresh_hint", DocError::BadRefreshHint)?;
    Ok((rank, hint))
}
