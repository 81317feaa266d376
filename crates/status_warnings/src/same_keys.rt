//! The keys of accepted bundles that have the public key of a distrusted key.
ghost use Rattle.std.specs.Prelude.{◌≡◌, ◌++◌, map, IfOk, OnOk};
ghost use Rattle.status_warnings.specs.CertificateEnds.{AddsPart};
ghost use Rattle.status_warnings.specs.SameKeys.{AreAllSameKeys, AreSameKeysIn, same_key_of};

use crate::seen::SamePublicKey;
use closure_core::Closure;
use jwk_set::KeyId;
use key_view::same_keys;
use spiffe_name::TrustDomain;
use std::alloc::{AllocError, Global};

/// The keys that [`key_view::same_keys`] finds: sorted by domain, and those of a domain in its
/// order. Only the documents of domains with a record of distrust are looked at.
///
/// # Errors
/// Memory ran out.
pub fn find_same_keys<C: Closure>(
    alloc: Global,
    closure: &C,
) -> Result<Vec<SamePublicKey>, AllocError>
    ensures { IfOk result (λ found. AreAllSameKeys (C.state closure.now).meaning found.items) }
{
    let mut found = Vec::new(alloc);
    for domain in closure.config().domains() {
        push_same_keys(alloc, &mut found, closure, domain)?;
    }
    Ok(found)
}

fn push_same_keys<C: Closure>(
    alloc: Global,
    found: &mut Vec<SamePublicKey>,
    closure: &C,
    domain: &TrustDomain,
) -> Result<(), AllocError>
    ensures { OnOk result (AddsPart (AreSameKeysIn (C.state closure.now).meaning domain.now)
        found.old.items found.new.items) }
{
    let keys = same_keys(alloc, closure, domain)?;
    push_keys(alloc, found, domain, keys.as_slice())?;
    Ok(())
}

fn push_keys(
    alloc: Global,
    found: &mut Vec<SamePublicKey>,
    domain: &TrustDomain,
    keys: &[KeyId],
) -> Result<(), AllocError>
    ensures { OnOk result (found.new.items
        ≡ found.old.items ++ map (same_key_of domain.now) keys.now) }
{
    for &key in keys {
        found.push(SamePublicKey {
            domain: domain.try_clone(alloc)?,
            key,
        })?;
    }
    Ok(())
}
