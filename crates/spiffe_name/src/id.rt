//! SPIFFE IDs.
ghost use Rattle.std.specs.Prelude.{◌≡◌, ◌≢◌, ℕ, ◌+◌, ◌≤◌, List, Some, refl, IfOk, IfErr, IfSome};
ghost use Rattle.std.specs.Prelude.{MatchResult, MatchOption, IsOkUnless, bytes_eq, string_bytes};
ghost use Rattle.std.specs.Prelude.{length, drop};
ghost use Rattle.std.proofs.Common.{rules};
ghost use Rattle.std.specs.Ordering.{nat_cmp};
ghost use Rattle.std.specs.Hash as written;
ghost use Rattle.std.specs.Cmp.{on_equiv, on_total, on_po, on_per, partial_equiv_from_equiv};
ghost use Rattle.std.specs.Cmp.Lexicographic.{slice_cmp, nat_list_eq_equiv, nat_list_cmp_total};
ghost use Rattle.std.specs.Cmp.Lexicographic.{texts_ties, texts_po};
ghost use Rattle.std.specs.Cmp.Rules.{hashing};
ghost use Rattle.std.specs.List.{AllPass};
ghost use Rattle.spiffe_name.specs.Bytes.{is_segment_byte, FirstFails, EmptyOrSlash, SplitsAtSlash};
ghost use Rattle.spiffe_name.specs.SpiffeId.{Id, IsId, IsIdText, RefusesId, IsPath, IsSegment};
ghost use Rattle.spiffe_name.specs.SpiffeId.{FirstFault, FaultInSegment, is_empty_or_modifier};
ghost use Rattle.spiffe_name.specs.SpiffeId.{scheme};

use crate::domain::{TrustDomain, check_domain};
use crate::error::NameError;
use std::alloc::{AllocError, Global};
use std::cmp::Ordering;
use std::hash::{Hash, Hasher};
use std::marker::Model;

/// The most bytes that a SPIFFE ID has (SPIFFE-ID, section 2.3).
pub const MAX_ID_BYTES: usize = 2048;

/// A SPIFFE ID (SPIFFE-ID, section 2): after `spiffe://` comes the name of a trust domain, and then
/// a path, if any, in which each slash opens a segment. The whole has no more than 2,048 bytes.
/// Segments consist of letters, digits, full stops, hyphens and low lines; the empty one and the
/// relative ones `.` and `..` don't occur.
///
/// The standard lets readers take the scheme and the trust domain in any case; this one takes lower
/// case only. An ID is its bytes: by these it is compared, ordered and hashed.
#[derive(Debug, Drop)]
pub struct SpiffeId {
    text: String,
    domain: TrustDomain,
}

impl Model for SpiffeId {
    ghost Value = { Id };

    ghost view = { λ id. record {
      text = string_bytes id.text;
      domain = id.domain;
      path = drop (length scheme + length id.domain) (string_bytes id.text);
    } };

    ghost invariant = { λ id. IsIdText (string_bytes id.text) id.domain
        (drop (length scheme + length id.domain) (string_bytes id.text)) };
}

impl SpiffeId {
    /// Reads an ID, which is then the text.
    ///
    /// # Errors
    /// The first that holds of
    /// - [`NameError::Empty`]: the text is empty,
    /// - [`NameError::TooLong`]: it has more than [`MAX_ID_BYTES`] bytes,
    /// - [`NameError::BadScheme`]: it doesn't begin with `spiffe://`,
    /// - [`NameError::Empty`], [`NameError::TooLong`], [`NameError::BadDomainByte`]: the text from
    ///   there up to the next slash or the end is not a trust domain name,
    /// - [`NameError::BadPath`]: a segment, the first such from the left, has a wrong byte, or is
    ///   empty, `.` or `..`; the place is that byte, or else the segment's start.
    ///
    /// If memory ran out it is [`NameError::NoMemory`], which comes only for a text that is an ID.
    pub fn read(alloc: Global, text: &str) -> Result<SpiffeId, NameError>
        ensures answer { MatchResult result
            (λ id. (id.text ≡ text.now) × IsId id)
            (RefusesId text.now) }
        ensures complete { (domain path : List ℕ) → IsIdText text.now domain path
            → IsOkUnless result NameError.NoMemory }
    {
        let domain = check_id(text)?;
        let domain = TrustDomain::copied(alloc, domain)?;
        let text = String::from_str(alloc, text)?;
        Ok(SpiffeId { text, domain })
    }

    /// The ID's bytes, as text.
    pub fn as_str(&self) -> &str
        ensures text { result.now ≡ self.now.text }
        ensures valid { IsId self.now }
    {
        self.text.as_str()
    }

    /// Its trust domain.
    pub fn domain(&self) -> &TrustDomain
        ensures { result.now ≡ self.now.domain }
    {
        &self.domain
    }

    /// Its path: empty, or from the slash after the trust domain name on.
    pub fn path(&self) -> &str
        ensures { result.now ≡ self.now.path }
    {
        let start = SCHEME.len() + self.domain.as_str().len();
        &self.as_str()[start..]
    }

    /// An ID that is equal to this one.
    ///
    /// # Errors
    /// Memory ran out.
    pub fn try_clone(&self, alloc: Global) -> Result<SpiffeId, AllocError>
        ensures { IfOk result (λ id. id ≡ self.now) }
    {
        let text = String::from_str(alloc, self.as_str())?;
        let domain = self.domain.try_clone(alloc)?;
        Ok(SpiffeId { text, domain })
    }
}

impl PartialEq for SpiffeId {
    ghost eq = { λ a b. bytes_eq a.text b.text };

    ghost laws = { on_per (λ id. id.text) (partial_equiv_from_equiv nat_list_eq_equiv) };

    fn eq(&self, other: &SpiffeId) -> bool {
        self.as_str() == other.as_str()
    }
}

impl Eq for SpiffeId {
    ghost laws = { on_equiv (λ id. id.text) nat_list_eq_equiv };
}

impl PartialOrd for SpiffeId {
    ghost partial_cmp = { λ a b. Some (slice_cmp nat_cmp a.text b.text) };

    ghost laws = { on_po (λ id. id.text) texts_po };

    fn partial_cmp(&self, other: &SpiffeId) -> Option<Ordering> {
        Some(self.cmp(other))
    }
}

impl Ord for SpiffeId {
    ghost cmp = { λ a b. slice_cmp nat_cmp a.text b.text };

    ghost total = { on_total (λ id. id.text) nat_list_cmp_total };

    ghost matches_partial_cmp = { λ a b. refl };

    ghost matches_eq = { λ a b. texts_ties a.text b.text };

    fn cmp(&self, other: &SpiffeId) -> Ordering {
        self.as_str().cmp(other.as_str())
    }
}

impl Hash for SpiffeId {
    ghost hash_input = { λ id. written.str id.text };

    ghost respects_eq = { Prim.search (hashing, rules) };

    fn hash<H: Hasher>(&self, state: &mut H) {
        self.as_str().hash(state);
    }
}

const SCHEME: &str = "spiffe://";

/// The text up to its first slash or its end, and what follows.
fn split_at_slash(text: &str) -> (&str, &str)
    ensures { SplitsAtSlash text.now result.0.now result.1.now }
{
    match text.find('/') {
        Some(place) => text.split_at(place),
        None => (text, ""),
    }
}

/// Whether a segment of a path may have the byte.
fn is_segment_byte(byte: u8) -> bool
    ensures { result ≡ is_segment_byte byte }
{
    matches!(byte, b'a'..=b'z' | b'A'..=b'Z' | b'0'..=b'9' | b'.' | b'-' | b'_')
}

/// The place of the first byte that no segment has.
fn first_bad_byte(segment: &[u8]) -> Option<usize>
    ensures { MatchOption result (AllPass is_segment_byte segment.now)
        (FirstFails is_segment_byte segment.now) }
{
    segment.iter().position(|byte| !is_segment_byte(*byte))
}

/// Whether a segment has no name of its own.
fn is_empty_or_modifier(segment: &str) -> bool
    ensures { result ≡ is_empty_or_modifier segment.now }
{
    segment == "" || segment == "." || segment == ".."
}

/// The place of a segment's error: its first wrong byte, or its start.
fn fault_in_segment(segment: &str) -> Option<usize>
    ensures { MatchOption result (IsSegment segment.now) (FaultInSegment segment.now) }
{
    match first_bad_byte(segment.as_bytes()) {
        Some(place) => Some(place),
        None if is_empty_or_modifier(segment) => Some(0),
        None => None,
    }
}

/// The place of a path's first error.
fn fault_in_path(path: &str) -> Option<usize>
    requires { EmptyOrSlash path.now }
    ensures answer { MatchOption result (IsPath path.now) (FirstFault path.now) }
    ensures within { IfSome result (λ place. place ≤ length path.now) }
{
    let mut rest = path;
    while let Some(after) = rest.strip_prefix('/') {
        let (segment, next) = split_at_slash(after);
        if let Some(place) = fault_in_segment(segment) {
            return Some(path.len() - after.len() + place);
        }
        rest = next;
    }
    None
}

/// The trust domain name of an ID, or the first cause for which the text is not an ID.
fn check_id(text: &str) -> Result<&str, NameError>
    ensures answer { MatchResult result
        (λ domain. (path : List ℕ) × IsIdText text.now domain.now path)
        (RefusesId text.now) }
    ensures cause { IfErr result (λ error. error ≢ NameError.NoMemory) }
{
    if text.is_empty() {
        return Err(NameError::Empty);
    }
    if text.len() > MAX_ID_BYTES {
        return Err(NameError::TooLong);
    }
    match text.strip_prefix(SCHEME) {
        None => Err(NameError::BadScheme),
        Some(rest) => {
            let (domain, path) = split_at_slash(rest);
            if let Err(error) = check_domain(domain.as_bytes()) {
                return Err(error.behind(SCHEME.len()));
            }
            match fault_in_path(path) {
                Some(place) => Err(NameError::BadPath(SCHEME.len() + domain.len() + place)),
                None => Ok(domain),
            }
        }
    }
}
