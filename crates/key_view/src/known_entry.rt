//! What is known of a key.
ghost use Rattle.std.specs.Prelude.{IfOk};
ghost use Rattle.cert_key.specs.Certificate.{lent_parts};
ghost use Rattle.key_view.specs.KeyEntries.{IsKeyParts};
ghost use Rattle.key_view.specs.Inside.Listed.{IsListedEntry};
ghost use Rattle.key_view.specs.Inside.PartTexts.{IsTextsOf};

use crate::listings::{Listing, listed_ids};
use crate::met_keys::KnownKey;
use bundle_doc::DocId;
use cert_key::{CertParts, moment_text, name_text, read_certificate};
use closure_core::Closure;
use jwk_set::{Certificate, KeyId};
use sha2::{Digest, Sha256};
use spiffe_name::TrustDomain;
use std::alloc::{AllocError, Global};
use std::collections::BTreeMap;

/// What the certificate of a key says ([`cert_key::read_certificate`]).
#[derive(Debug, Drop)]
pub struct KeyParts {
    /// The SHA-256 of its public key, the whole element `subjectPublicKeyInfo`.
    pub public_key: [u8; 32],
    /// From when it is valid, in seconds since the Unix epoch.
    pub not_before: i64,
    /// Until when it is valid, in seconds since the Unix epoch.
    pub not_after: i64,
    /// From when it is valid, in UTC: `YYYY-MM-DDTHH:MM:SSZ` ([`cert_key::moment_text`]).
    pub valid_from: String,
    /// Until when it is valid, in UTC.
    pub valid_until: String,
    /// Its subject ([`cert_key::name_text`]), and `None` if that is not of the form that is read.
    /// It is empty if the subject is.
    pub subject: Option<String>,
}

/// A key that documents of a domain list.
#[derive(Debug, Drop)]
pub struct KeyEntry {
    /// The key's id.
    pub key: KeyId,
    /// What its certificate says, and `None` if that is not of the form that is read.
    pub parts: Option<KeyParts>,
    /// The ids of the domain's accepted documents that list it, in the order of the documents.
    pub bundles: Vec<DocId>,
    /// Whether it is distrusted in the domain.
    pub is_distrusted: bool,
}

/// What is known of a key that documents of the domain list. The accepted ones of these are listed.
pub(crate) fn key_entry<C: Closure>(
    alloc: Global,
    closure: &C,
    domain: &TrustDomain,
    listings: &BTreeMap<KeyId, Listing>,
    known: &KnownKey,
) -> Result<KeyEntry, AllocError>
    ensures { IfOk result (IsListedEntry domain.now (C.state closure.now).meaning.records
        listings.now known.now) }
{
    Ok(KeyEntry {
        key: known.key,
        parts: key_parts(alloc, &known.der)?,
        bundles: listed_ids(alloc, listings, &known.key)?,
        is_distrusted: closure.is_distrusted(domain, known.key),
    })
}

fn key_parts(alloc: Global, der: &Certificate) -> Result<Option<KeyParts>, AllocError>
    ensures { IfOk result (IsKeyParts der.now) }
{
    match read_certificate(der.as_bytes()) {
        Some(parts) => Ok(Some(texts_of(alloc, &parts)?)),
        None => Ok(None),
    }
}

fn texts_of(alloc: Global, parts: &CertParts<'_>) -> Result<KeyParts, AllocError>
    ensures { IfOk result (IsTextsOf (lent_parts parts.now)) }
{
    Ok(KeyParts {
        public_key: Sha256::digest(parts.public_key),
        not_before: parts.not_before,
        not_after: parts.not_after,
        valid_from: moment_text(alloc, parts.not_before)?,
        valid_until: moment_text(alloc, parts.not_after)?,
        subject: name_text(alloc, parts.subject)?,
    })
}
