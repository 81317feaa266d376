//! The keys of a domain, with the public keys of those that are distrusted.
ghost use Rattle.std.specs.Prelude.{◌≡◌, IfOk, OnOk};
ghost use Rattle.key_view.specs.Inside.PublicKeys.{AddsPublicKey, AddsPublicKeyOf};
ghost use Rattle.key_view.specs.Inside.PublicKeys.{HasPublicKeys};

use crate::known_entry::{KeyEntry, KeyParts};
use std::alloc::{AllocError, Global};
use std::collections::BTreeSet;
use std::marker::Model;

/// The keys of a domain. The public keys of those that are distrusted are kept for look-ups.
#[derive(Drop)]
pub(crate) struct DomainEntries<'a> {
    entries: &'a [KeyEntry],
    public_keys: BTreeSet<[u8; 32]>,
}

impl<'a> Model for DomainEntries<'a> {
    ghost use Rattle.std.specs.Prelude.{List};
    ghost use Rattle.key_view.specs.declared.known_entry.KeyEntry.{KeyEntry};
    ghost use Rattle.key_view.specs.Inside.PublicKeys.{HasPublicKeys};

    ghost Value = { List KeyEntry };

    ghost view = { λ d. d.entries.now };

    ghost invariant = { λ d. HasPublicKeys d.entries.now d.public_keys };
}

impl<'a> DomainEntries<'a> {
    ghost use Rattle.key_view.specs.KeyEntries.{has_distrusted_key, has_distrusted_parts};

    /// These keys of a domain.
    pub(crate) fn new(alloc: Global, entries: &'a [KeyEntry]) -> Result<Self, AllocError>
        ensures { IfOk result (λ d. d ≡ entries.now) }
    {
        Ok(DomainEntries {
            entries,
            public_keys: public_keys_of(alloc, entries)?,
        })
    }

    /// Whether the entry is a key that is in an accepted document and is not distrusted, though its
    /// certificate has the public key of a distrusted one.
    pub(crate) fn has_distrusted_key(&self, entry: &KeyEntry) -> bool
        ensures { result ≡ has_distrusted_key self.now entry.now }
    {
        !entry.is_distrusted && !entry.bundles.is_empty() && self.has_distrusted_parts(&entry.parts)
    }

    fn has_distrusted_parts(&self, parts: &Option<KeyParts>) -> bool
        ensures { result ≡ has_distrusted_parts self.now parts.now }
    {
        match parts {
            Some(parts) => self.public_keys.contains(&parts.public_key),
            None => false,
        }
    }
}

// The public keys of those that are distrusted.
fn public_keys_of(alloc: Global, entries: &[KeyEntry]) -> Result<BTreeSet<[u8; 32]>, AllocError>
    ensures { IfOk result (HasPublicKeys entries.now) }
{
    let mut public_keys = BTreeSet::new(alloc);
    for entry in entries {
        push_public_key(&mut public_keys, entry)?;
    }
    Ok(public_keys)
}

fn push_public_key(public_keys: &mut BTreeSet<[u8; 32]>, entry: &KeyEntry) -> Result<(), AllocError>
    ensures { OnOk result (AddsPublicKey entry.now public_keys.old public_keys.new) }
{
    if entry.is_distrusted {
        push_public_key_of(public_keys, &entry.parts)?;
    }
    Ok(())
}

fn push_public_key_of(
    public_keys: &mut BTreeSet<[u8; 32]>,
    parts: &Option<KeyParts>,
) -> Result<(), AllocError>
    ensures { OnOk result (AddsPublicKeyOf parts.now public_keys.old public_keys.new) }
{
    if let Some(parts) = parts {
        public_keys.insert(parts.public_key)?;
    }
    Ok(())
}
