//! What is asked and made of a document's list of authorities.
ghost use Rattle.std.specs.Prelude.{◌≡◌, ◌↔◌, IsTrue, IfOk, map};
ghost use Rattle.serde_json.specs.View.{view};
ghost use Rattle.jwk_set.specs.Element.{tree_of};
ghost use Rattle.bundle_doc.specs.Bundle.{HasKeyId};

use jwk_set::{Authority, KeyId};
use serde_json::Value;
use std::alloc::{AllocError, Global};

/// Whether an X.509 authority has the key id.
pub(crate) fn has_key_id(authorities: &[Authority], key: &KeyId) -> bool
    ensures { IsTrue result ↔ HasKeyId authorities.now key.now }
{
    authorities
        .iter()
        .any(|authority| authority.key_id() == Some(*key))
}

/// The elements that say these authorities.
pub(crate) fn values_of(alloc: Global, authorities: &[Authority]) -> Result<Vec<Value>, AllocError>
    ensures { IfOk result (λ v. map view v.items ≡ map tree_of authorities.now) }
{
    let mut values = Vec::with_capacity(alloc, authorities.len())?;
    for authority in authorities {
        values.push(authority.to_value(alloc)?)?;
    }
    Ok(values)
}

/// The same authorities once more.
pub(crate) fn copies_of(
    alloc: Global,
    authorities: &[Authority],
) -> Result<Vec<Authority>, AllocError>
    ensures { IfOk result (λ v. v.items ≡ authorities.now) }
{
    let mut copies = Vec::with_capacity(alloc, authorities.len())?;
    for authority in authorities {
        copies.push(authority.try_clone()?)?;
    }
    Ok(copies)
}
