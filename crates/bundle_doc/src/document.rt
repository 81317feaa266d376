//! A bundle document: its authorities, rank and hint, and its canonical text.
ghost use Rattle.std.specs.Prelude.{◌≡◌, ◌↔◌, IsTrue, IfOk, IfSome, MatchResult};
ghost use Rattle.serde_json.specs.View.{view};
ghost use Rattle.bundle_doc.specs.Bundle.{Fits, HasKeyId, IsBundle, IsDocument, IsStoredDocument};
ghost use Rattle.bundle_doc.specs.Bundle.{Means, canonical_text, doc_id_of, document_tree};
ghost use Rattle.bundle_doc.specs.Entries.{AreEntries, FitsWord, IsBundleOf};
ghost use Rattle.bundle_doc.specs.Refusal.{IsBuildFault, RefusesBytes, RefusesTree};

use crate::authorities::{copies_of, has_key_id, values_of};
use crate::canonical_reader::read_parts;
use crate::contents::Contents;
use crate::document_numbers::{put_number, write_numbers};
use crate::elements::write_elements;
use crate::error::DocError;
use crate::known_beginnings::{digest_known, digest_of};
use crate::known_documents::KnownDocuments;
use jwk_set::{Authority, KeyId};
use serde_json::Value;
use spiffe_name::TrustDomain;
use std::alloc::{AllocError, Global};
use std::collections::BTreeMap;
use std::marker::Model;
use std::{fmt, str};

/// The most bytes of a document as it is fetched, and of its canonical text.
pub const MAX_DOCUMENT_BYTES: usize = 1_048_576;

/// The id of a document as one of a trust domain: the SHA-256 (FIPS 180-4, section 6.2) of the
/// domain's name, a line feed and the document's canonical text. Ids are ordered by their bytes,
/// and print as 64 lower-case hexadecimal digits.
#[derive(Clone, Copy, Debug, PartialEq, Eq, PartialOrd, Ord, Hash)]
pub struct DocId(pub [u8; 32]);

/// A bundle document (SPIFFE Trust Domain and Bundle, section 4): a set of authorities, a rank,
/// which is its sequence number, and a refresh hint.
///
/// A document is its meaning: two of them are equal exactly when they have the same authorities,
/// rank and hint. The order of the elements that they were read from, repeated elements and other
/// members count for nothing. So each has one canonical text, which it keeps: compact JSON with the
/// names of each object in the order of their bytes, without members that say nothing, and the
/// authorities in the order of their own texts' bytes, each once. A canonical text is read as the
/// document that it is of.
///
/// # Memory and work
/// No clause speaks of these; the figures are measured. A document keeps its authorities and its
/// canonical text, which is made with its length. The rest of what reading takes is mostly the tree
/// that `serde_json` builds of the whole text, with some allocations for each object in it. So a
/// text of 1 MiB takes some 6 MB if it is one large certificate, some 20 MB if it is many small
/// authorities, 135 MB if it is only elements `{"":0}`, and 186 MB, the most that was seen, if
/// objects nest 124 deep. Each element of a text's tree is freed once it is read. The work grows as
/// n log n in the number n of elements.
#[derive(Debug, Drop)]
pub struct Document {
    authorities: Vec<Authority>,
    rank: Option<u64>,
    hint: Option<u64>,
    canonical: String,
}

impl Model for Document {
    ghost use Rattle.bundle_doc.specs.Bundle.{Bundle, IsStoredDocument};
    ghost use Rattle.std.specs.Prelude.{string_bytes};

    ghost Value = { Bundle };

    ghost view = { λ a. record {
      authorities = a.authorities.items;
      rank = a.rank;
      hint = a.hint;
    } };

    ghost invariant = { λ a. IsStoredDocument
        (record { authorities = a.authorities.items; rank = a.rank; hint = a.hint })
        (string_bytes a.canonical) };
}

impl Document {
    /// The document that a text says, in JSON (RFC 8259): the last of members with one name counts,
    /// and arrays and objects may nest 127 levels deep.
    ///
    /// # Errors
    /// The first that holds of
    /// - [`DocError::TooLong`]: the text has more than [`MAX_DOCUMENT_BYTES`] bytes,
    /// - [`DocError::NotJson`]: it is not a JSON text, or nests deeper,
    /// - the refusals of [`Document::from_value`] for its value.
    ///
    /// If memory ran out it is [`DocError::NoMemory`], which never comes for a text that is too
    /// long.
    pub fn read(alloc: Global, bytes: &[u8]) -> Result<Document, DocError>
        ensures { MatchResult result (IsDocument bytes.now) (RefusesBytes bytes.now) }
    {
        if bytes.len() > MAX_DOCUMENT_BYTES {
            return Err(DocError::TooLong);
        }
        if let Some(document) = Document::read_canonical(alloc, bytes)? {
            return Ok(document);
        }
        build(alloc, Contents::read(alloc, bytes)?)
    }

    /// The document that a canonical text is of, read with no JSON tree between, so in a fraction
    /// of the time that the tree takes. `None` says nothing of the bytes: they may not be a
    /// canonical text, or may be one that only [`Document::read`] takes, such as one with an escape
    /// in a string.
    ///
    /// # Errors
    /// Memory ran out.
    pub fn read_canonical(alloc: Global, bytes: &[u8]) -> Result<Option<Document>, AllocError>
        ensures { IfOk result (λ o. IfSome o (λ d. IsStoredDocument d bytes.now)) }
    {
        match str::from_utf8(bytes) {
            Ok(text) => {
                Document::read_canonical_with(alloc, text, &mut KnownDocuments::none(alloc))
            }
            Err(_) => Ok(None),
        }
    }

    /// Reads a canonical text as [`Document::read_canonical`] does, with the authorities that are
    /// known: one that came twice before is not read again, and the documents share it.
    ///
    /// # Errors
    /// Memory ran out.
    pub fn read_canonical_with(
        alloc: Global,
        text: &str,
        known: &mut KnownDocuments,
    ) -> Result<Option<Document>, AllocError>
        ensures { IfOk result (λ o. IfSome o (λ d. IsStoredDocument d text.now)) }
    {
        if text.len() > MAX_DOCUMENT_BYTES {
            return Ok(None);
        }
        let Some(mut parts) = read_parts(alloc, text, &mut known.authorities)? else {
            return Ok(None);
        };
        // Many documents are kept for long, and a list of two has room for four.
        parts.authorities.shrink_to_fit();
        Ok(Some(Document {
            authorities: parts.authorities,
            rank: parts.rank,
            hint: parts.hint,
            canonical: String::from_str(alloc, text)?,
        }))
    }

    /// The document that a JSON value says: an object whose member `keys` is an array (RFC 7517,
    /// section 5.1), with a whole number as `spiffe_sequence` and as `spiffe_refresh_hint`, or
    /// `null` or nothing in their place (SPIFFE Trust Domain and Bundle, section 4.1). An element
    /// of `keys` that says no authority is passed over ([`read_element`](jwk_set::read_element)),
    /// and so is every other member.
    ///
    /// # Errors
    /// The first that holds of
    /// - [`DocError::NotObject`]: the value is not an object,
    /// - [`DocError::NoKeys`]: it has no member `keys` that is an array,
    /// - [`DocError::BadSequence`]: `spiffe_sequence` is not as above, for example -1, 1.0 or a
    ///   text,
    /// - [`DocError::BadRefreshHint`]: the same for `spiffe_refresh_hint`,
    /// - [`DocError::CanonicalTooLong`]: the canonical text would have more than
    ///   [`MAX_DOCUMENT_BYTES`] bytes. This is not expected of a value read from a text within that
    ///   limit, but no clause says so.
    ///
    /// If memory ran out it is [`DocError::NoMemory`]. That comes only for an object that has
    /// `keys` and both numbers as above.
    pub fn from_value(alloc: Global, value: &Value) -> Result<Document, DocError>
        ensures { MatchResult result (λ d. Means (view value.now) d × Fits d)
            (RefusesTree (view value.now)) }
    {
        build(alloc, Contents::of(alloc, value)?)
    }

    /// The JSON value of the canonical text: an object that says just what the document says, and
    /// that [`Document::from_value`] reads as an equal document.
    ///
    /// # Errors
    /// Memory ran out.
    pub fn to_value(&self, alloc: Global) -> Result<Value, AllocError>
        ensures tree { IfOk result (λ v. view v ≡ document_tree self.now) }
        ensures reads_back { IfOk result (λ v. Means (view v) self.now) }
    {
        let value = self.tree(alloc)?;
        Ok(value)
    }

    fn tree(&self, alloc: Global) -> Result<Value, AllocError>
        ensures tree { IfOk result (λ v. view v ≡ document_tree self.now) }
        ensures form { IsBundle self.now }
    {
        let elements = Value::Array(values_of(alloc, self.authorities.as_slice())?);
        let mut members = BTreeMap::new(alloc);
        serde_json::put(&mut members, alloc, "keys", elements)?;
        put_number(alloc, &mut members, "spiffe_refresh_hint", self.hint)?;
        put_number(alloc, &mut members, "spiffe_sequence", self.rank)?;
        Ok(Value::Object(members))
    }

    /// The canonical text, of at most [`MAX_DOCUMENT_BYTES`] bytes.
    pub fn canonical(&self) -> &[u8]
        ensures text { result.now ≡ canonical_text self.now }
        ensures form { IsBundle self.now }
        ensures fits { Fits self.now }
    {
        self.canonical.as_bytes()
    }

    /// The id of the document as one of this domain.
    pub fn id(&self, domain: &TrustDomain) -> DocId
        ensures { result.0 ≡ doc_id_of domain.now self.now }
    {
        DocId(digest_of(domain, self.canonical.as_bytes()))
    }

    /// The id of the document as one of this domain, with the beginnings of documents that are
    /// known: one that came twice before is not hashed again.
    ///
    /// # Errors
    /// Memory ran out.
    pub fn id_with(
        &self,
        alloc: Global,
        domain: &TrustDomain,
        known: &mut KnownDocuments,
    ) -> Result<DocId, AllocError>
        ensures { IfOk result (λ id. id.0 ≡ doc_id_of domain.now self.now) }
    {
        let text = self.canonical.as_bytes();
        Ok(DocId(digest_known(alloc, domain, text, &mut known.beginnings)?))
    }

    /// The sequence number, `spiffe_sequence` (SPIFFE Trust Domain and Bundle, section 4.1.1), if
    /// there is one.
    pub fn rank(&self) -> Option<u64>
        ensures { result ≡ self.now.rank }
    {
        self.rank
    }

    /// The refresh hint, `spiffe_refresh_hint` (SPIFFE Trust Domain and Bundle, section 4.1.2), in
    /// seconds, if there is one.
    pub fn hint(&self) -> Option<u64>
        ensures { result ≡ self.now.hint }
    {
        self.hint
    }

    /// The authorities, each once, in the order of their texts in the canonical text.
    pub fn authorities(&self) -> &[Authority]
        ensures { result.now ≡ self.now.authorities }
    {
        self.authorities.as_slice()
    }

    /// Whether the key is that of an X.509 authority of the document. A JWT authority has no key
    /// id, since it authenticates no endpoint (SPIFFE Federation, section 5.2).
    pub fn has_key(&self, key: &KeyId) -> bool
        ensures { IsTrue result ↔ HasKeyId self.now.authorities key.now }
    {
        has_key_id(self.authorities.as_slice(), key)
    }

    /// A document that is equal to this one.
    ///
    /// # Errors
    /// Memory ran out.
    pub fn try_clone(&self, alloc: Global) -> Result<Document, AllocError>
        ensures { IfOk result (λ d. d ≡ self.now) }
    {
        Ok(Document {
            authorities: copies_of(alloc, self.authorities.as_slice())?,
            rank: self.rank,
            hint: self.hint,
            canonical: String::from_str(alloc, self.canonical.as_str())?,
        })
    }
}

impl PartialEq for Document {
    ghost use Rattle.std.specs.Prelude.{◌≡◌, ◌↔◌, IsTrue};
    ghost use Rattle.std.specs.Cmp.{on_per, partial_equiv_from_equiv};
    ghost use Rattle.std.specs.Cmp.Lexicographic.{nat_list_eq_equiv};
    ghost use Rattle.bundle_doc.specs.Bundle.{canonical_text, same_text};

    ghost eq = { same_text };

    ghost laws = { on_per canonical_text (partial_equiv_from_equiv nat_list_eq_equiv) };

    /// Whether both mean the same, judged by their canonical texts.
    fn eq(&self, other: &Document) -> bool
        ensures text { result ≡ same_text self.now other.now }
        ensures meaning { IsTrue result ↔ (self.now ≡ other.now) }
    {
        self.canonical() == other.canonical()
    }
}

impl Eq for Document {
    ghost use Rattle.std.specs.Cmp.{on_equiv};
    ghost use Rattle.std.specs.Cmp.Lexicographic.{nat_list_eq_equiv};
    ghost use Rattle.bundle_doc.specs.Bundle.{canonical_text};

    ghost laws = { on_equiv canonical_text nat_list_eq_equiv };
}

impl fmt::Display for DocId {
    ghost use Rattle.std.specs.Prelude.{Some};
    ghost use Rattle.hex.specs.Hex.{encode_lower};

    ghost output = { λ id. Some (encode_lower id.0) };

    fn fmt<W: fmt::Write>(&self, f: &mut fmt::Formatter<W>) -> fmt::Result {
        let mut digits = [0; 64];
        hex::encode_to_slice(self.0, &mut digits).map_err(|_| fmt::Error)?;
        f.write_str(str::from_utf8(&digits).map_err(|_| fmt::Error)?)
    }
}

/// The document of these contents.
fn build(alloc: Global, contents: Contents) -> Result<Document, DocError>
    requires entries { AreEntries contents.found.entries }
    requires rank_fits { FitsWord contents.rank }
    requires hint_fits { FitsWord contents.hint }
    ensures { MatchResult result
        (λ d. IsBundleOf contents.found.entries contents.rank contents.hint d × Fits d)
        (IsBuildFault contents.found.entries contents.rank contents.hint) }
{
    let Contents { found, rank, hint } = contents;
    let (authorities, mut canonical) = write_elements(alloc, found)?;
    write_numbers(&mut canonical, rank, hint)?;
    if canonical.len() > MAX_DOCUMENT_BYTES {
        return Err(DocError::CanonicalTooLong);
    }
    Ok(Document {
        authorities,
        rank,
        hint,
        canonical,
    })
}
