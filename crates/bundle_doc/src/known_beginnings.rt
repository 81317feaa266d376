//! Beginnings of documents that were hashed before, so that they are not hashed again.
ghost use Rattle.std.specs.Prelude.{◌≡◌, ◌++◌, ◌≤◌, ◌↔◌, ℕ, List, [], ◌∷◌, IfOk, IsTrue};
ghost use Rattle.std.specs.Prelude.{length, take};
ghost use Rattle.sha2.specs.Hashers.{Holds256};
ghost use Rattle.sha2.specs.Sha256.{sha256};
ghost use Rattle.bundle_doc.specs.Hashed.{AreHashed, with_pieces};

use crate::text_places::Places;
use sha2::{Digest, Sha256};
use spiffe_name::TrustDomain;
use std::alloc::{AllocError, Global};
use std::marker::Model;

// The bytes of a piece.
const PIECE_BYTES: usize = 256;

// The most pieces of a beginning.
const MOST_PIECES: usize = 16;

/// The beginning of a document of a domain, in pieces, each with the hasher of all up to its end.
#[derive(Drop)]
pub(crate) struct KnownBeginning {
    domain: TrustDomain,
    pieces: Vec<HashedPiece>,
}

#[derive(Drop)]
struct HashedPiece {
    bytes: [u8; PIECE_BYTES],
    hasher: Sha256,
}

impl Model for KnownBeginning {
    ghost use Rattle.std.specs.Prelude.{ℕ, List, [], ◌∷◌, ◌++◌};
    ghost use Rattle.bundle_doc.specs.Hashed.{AreHashed};

    ghost Value = { List ℕ };

    ghost view = { λ known. known.domain };

    ghost invariant = { λ known. AreHashed (known.domain ++ 10 ∷ []) known.pieces.items };
}

impl KnownBeginning {
    // The digest of the domain's name, a line feed and the text, whose beginning is kept.
    fn digest(&mut self, text: &[u8]) -> Result<[u8; 32], AllocError>
        ensures { IfOk result (λ d. d ≡ sha256 (self.old ++ 10 ∷ [] ++ text.now)) }
    {
        let (known, rest) = known_pieces(self.pieces.as_slice(), text);
        self.pieces.truncate(known);
        let hasher = hasher_behind(&self.domain, self.pieces.as_slice())?;
        let digest = go_on(&mut self.pieces, hasher, rest)?;
        Ok(digest)
    }
}

/// The digest of the domain's name, a line feed and the text, whose beginning is kept, if there is
/// a place and memory for it.
pub(crate) fn digest_known(
    alloc: Global,
    domain: &TrustDomain,
    text: &[u8],
    known: &mut Places<KnownBeginning>,
) -> Result<[u8; 32], AllocError>
    ensures { IfOk result (λ d. d ≡ sha256 (domain.now ++ 10 ∷ [] ++ text.now)) }
{
    if let Some(kept) = known.known(text) {
        if kept.domain == *domain {
            return kept.digest(text);
        }
    }
    if text.len() < PIECE_BYTES || !known.keeps(alloc, text) {
        return Ok(digest_of(domain, text));
    }
    let mut kept = KnownBeginning {
        domain: domain.try_clone(alloc)?,
        pieces: Vec::new(alloc),
    };
    let digest = kept.digest(text)?;
    known.keep(text, Box::new(alloc, kept)?);
    Ok(digest)
}

/// The digest of the domain's name, a line feed and the text.
pub(crate) fn digest_of(domain: &TrustDomain, text: &[u8]) -> [u8; 32]
    ensures { result ≡ sha256 (domain.now ++ 10 ∷ [] ++ text.now) }
{
    let mut hasher = hasher_of(domain);
    hasher.update(text);
    hasher.finalize()
}

// The hasher of the domain's name and a line feed.
fn hasher_of(domain: &TrustDomain) -> Sha256
    ensures { Holds256 result (domain.now ++ 10 ∷ []) }
{
    let mut hasher = Sha256::new();
    hasher.update(domain.as_str());
    hasher.update(b"\n");
    hasher
}

// The hasher of the domain's name, a line feed and the pieces.
fn hasher_behind(domain: &TrustDomain, pieces: &[HashedPiece]) -> Result<Sha256, AllocError>
    requires { AreHashed (domain.now ++ 10 ∷ []) pieces.now }
    ensures { IfOk result (λ h. Holds256 h (with_pieces (domain.now ++ 10 ∷ []) pieces.now)) }
{
    match pieces.split_last() {
        Some((last, _)) => Ok(last.hasher.clone()?),
        None => Ok(hasher_of(domain)),
    }
}

// How many of the pieces the text begins with, and what follows them.
fn known_pieces<'a>(pieces: &[HashedPiece], text: &'a [u8]) -> (usize, &'a [u8])
    ensures count { result.0 ≤ length pieces.now }
    ensures rest { (m : List ℕ) → with_pieces m (take result.0 pieces.now) ++ result.1.now
        ≡ m ++ text.now }
{
    if let (Some((first, others)), Some((bytes, rest))) = (
        pieces.split_first(),
        text.split_first_chunk::<PIECE_BYTES>(),
    ) {
        if is_same(&first.bytes, bytes) {
            let (known, rest) = known_pieces(others, rest);
            return (1 + known, rest);
        }
    }
    (0, text)
}

fn is_same(piece: &[u8; PIECE_BYTES], bytes: &[u8; PIECE_BYTES]) -> bool
    ensures { IsTrue result ↔ (piece.now ≡ bytes.now) }
{
    piece == bytes
}

// The digest of what the hasher holds and the text. The pieces are those of what it holds, and the
// further ones are kept with them, up to the most that a beginning has.
fn go_on(
    pieces: &mut Vec<HashedPiece>,
    mut hasher: Sha256,
    text: &[u8],
) -> Result<[u8; 32], AllocError>
    ensures pieces { (m : List ℕ) → AreHashed m pieces.old.items
        → Holds256 hasher (with_pieces m pieces.old.items) → AreHashed m pieces.new.items }
    ensures digest { IfOk result (λ d. (m : List ℕ) → Holds256 hasher m
        → d ≡ sha256 (m ++ text.now)) }
{
    match text.split_first_chunk::<PIECE_BYTES>() {
        Some((bytes, rest)) if pieces.len() < MOST_PIECES => {
            hasher.update(bytes);
            pieces.push(HashedPiece {
                bytes: *bytes,
                hasher: hasher.clone()?,
            })?;
            let digest = go_on(pieces, hasher, rest)?;
            Ok(digest)
        }
        _ => {
            hasher.update(text);
            Ok(hasher.finalize())
        }
    }
}
