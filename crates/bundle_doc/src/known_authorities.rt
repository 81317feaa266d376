//! Authorities that came before, so that a text that comes again is not read again.
ghost use Rattle.std.specs.Prelude.{[], IfOk, IfSome};
ghost use Rattle.bundle_doc.specs.CanonicalReader.{ReadsAuthority};

use crate::canonical_authority::{GivesUp, after, read_authority};
use crate::text_places::Places;
use jwk_set::Authority;
use std::alloc::{AllocError, Global};
use std::marker::Model;

// The most bytes of a text that is kept.
const MOST_BYTES: usize = 4_096;

/// An authority that came before, with its text.
#[derive(Drop)]
pub(crate) struct KnownAuthority {
    text: String,
    authority: Authority,
}

impl Model for KnownAuthority {
    ghost use Rattle.std.specs.Prelude.{[], string_bytes};
    ghost use Rattle.jwk_set.specs.declared.authority.Authority.{Authority};
    ghost use Rattle.bundle_doc.specs.CanonicalReader.{ReadsAuthority};

    ghost Value = { Authority };

    ghost view = { λ known. known.authority };

    ghost invariant = { λ known. ReadsAuthority (string_bytes known.text) known.authority [] };
}

impl KnownAuthority {
    fn of(
        alloc: Global,
        own: &str,
        authority: &Authority,
    ) -> Result<Box<KnownAuthority>, AllocError>
        requires { ReadsAuthority own.now authority.now [] }
    {
        let text = String::from_str(alloc, own)?;
        let authority = authority.try_clone()?;
        Ok(Box::new(alloc, KnownAuthority { text, authority })?)
    }

    // The authority once more, and what follows its text, if that comes first.
    fn read<'a>(&self, text: &'a str) -> Result<Option<(Authority, &'a str)>, AllocError>
        ensures { IfOk result (λ o. IfSome o (λ r. ReadsAuthority text.now r.0 r.1.now)) }
    {
        match after(text, self.text.as_str()) {
            Ok(rest) => Ok(Some((self.authority.try_clone()?, rest))),
            Err(_) => Ok(None),
        }
    }
}

/// The authority whose text comes first, and what follows it. It is kept, if there is a place and
/// memory for it.
pub(crate) fn read_known<'a>(
    alloc: Global,
    text: &'a str,
    known: &mut Places<KnownAuthority>,
) -> Result<(Authority, &'a str), GivesUp>
    ensures { IfOk result (λ r. ReadsAuthority text.now r.0 r.1.now) }
{
    if let Some(kept) = known.known(text.as_bytes()) {
        if let Some(found) = kept.read(text)? {
            return Ok(found);
        }
    }
    let (authority, rest) = read_authority(alloc, text)?;
    if let Some((own, _)) = text.split_at_checked(text.len() - rest.len()) {
        keep(alloc, own, &authority, known);
    }
    Ok((authority, rest))
}

// Keeps the authority with its text, if that is not too long, and there is memory for it.
fn keep(alloc: Global, own: &str, authority: &Authority, known: &mut Places<KnownAuthority>)
    requires { ReadsAuthority own.now authority.now [] }
{
    let text = own.as_bytes();
    if text.len() <= MOST_BYTES && known.keeps(alloc, text) {
        if let Ok(kept) = KnownAuthority::of(alloc, own, authority) {
            known.keep(text, kept);
        }
    }
}
