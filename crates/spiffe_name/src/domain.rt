//! Trust domain names.
ghost use Rattle.std.specs.Prelude.{◌≡◌, ◌≢◌, ℕ, ◌≤◌, List, Some, refl, IfOk, IfErr, MatchResult};
ghost use Rattle.std.specs.Prelude.{IsOk, IsOkUnless, MatchOption, bytes_eq, string_bytes, length};
ghost use Rattle.std.proofs.Common.{rules};
ghost use Rattle.std.specs.Ordering.{nat_cmp};
ghost use Rattle.std.specs.Hash as written;
ghost use Rattle.std.specs.Cmp.{partial_equiv_from_equiv};
ghost use Rattle.std.specs.Cmp.Lexicographic.{slice_cmp, nat_list_eq_equiv, nat_list_cmp_total};
ghost use Rattle.std.specs.Cmp.Lexicographic.{texts_ties, texts_po};
ghost use Rattle.std.specs.Cmp.Rules.{hashing};
ghost use Rattle.std.specs.List.{AllPass};
ghost use Rattle.spiffe_name.specs.Bytes.{is_domain_byte, FirstFails};
ghost use Rattle.spiffe_name.specs.NameError.{place_of};
ghost use Rattle.spiffe_name.specs.Inside.NameText.{text_of};
ghost use Rattle.spiffe_name.specs.TrustDomain.{IsDomainText, RefusesDomain};

use crate::error::NameError;
use arrayvec::ArrayString;
use std::alloc::{AllocError, Global};
use std::cmp::Ordering;
use std::hash::{Hash, Hasher};
use std::marker::Model;

/// The most bytes that a trust domain name has (SPIFFE-ID, section 2.3).
pub const MAX_DOMAIN_BYTES: usize = 255;

/// The name of a trust domain, in lower-case letters, digits, full stops, hyphens and low lines: at
/// least one of these, and no more than 255 (SPIFFE-ID, sections 2.1 and 2.3).
///
/// A name is its bytes: by these it is compared, ordered and hashed. One of at most 24 bytes lies
/// in the value itself, and takes no other memory.
#[derive(Debug, Drop)]
pub struct TrustDomain {
    text: NameText,
}

/// The place of a name's bytes. Most names are short.
#[derive(Debug, Drop)]
enum NameText {
    Short(ArrayString<24>),
    Long(String),
}

impl Model for TrustDomain {
    ghost Value = { List ℕ };

    ghost view = { λ domain. text_of domain.text };

    ghost invariant = { λ domain. IsDomainText (text_of domain.text) };
}

impl TrustDomain {
    /// Reads a name, which is then the text.
    ///
    /// # Errors
    /// - [`NameError::Empty`]: the text is empty,
    /// - [`NameError::TooLong`]: it has more than [`MAX_DOMAIN_BYTES`] bytes,
    /// - [`NameError::BadDomainByte`]: else, with the place of its first wrong byte,
    /// - [`NameError::NoMemory`]: memory ran out, for a name of more than 24 bytes.
    pub fn read(alloc: Global, text: &str) -> Result<TrustDomain, NameError>
        ensures answer { MatchResult result
            (λ domain. (domain ≡ text.now) × IsDomainText text.now)
            (λ error. RefusesDomain text.now error) }
        ensures complete { IsDomainText text.now → IsOkUnless result NameError.NoMemory }
        ensures short { IsDomainText text.now → length text.now ≤ 24 → IsOk result }
    {
        check_domain(text.as_bytes())?;
        Ok(TrustDomain::copied(alloc, text)?)
    }

    /// The name's bytes, as text.
    pub fn as_str(&self) -> &str
        ensures text { result.now ≡ self.now }
        ensures valid { IsDomainText self.now }
    {
        match &self.text {
            NameText::Short(text) => text.as_str(),
            NameText::Long(text) => text.as_str(),
        }
    }

    /// A name that is equal to this one.
    ///
    /// # Errors
    /// Memory ran out.
    pub fn try_clone(&self, alloc: Global) -> Result<TrustDomain, AllocError>
        ensures { IfOk result (λ domain. domain ≡ self.now) }
    {
        TrustDomain::copied(alloc, self.as_str())
    }

    /// Copies a text that is known to be a name.
    pub(crate) fn copied(alloc: Global, text: &str) -> Result<TrustDomain, AllocError>
        requires { IsDomainText text.now }
        ensures text { IfOk result (λ domain. domain ≡ text.now) }
        ensures short { length text.now ≤ 24 → IsOk result }
    {
        let text = match ArrayString::from(text) {
            Ok(short) => NameText::Short(short),
            Err(_) => NameText::Long(String::from_str(alloc, text)?),
        };
        Ok(TrustDomain { text })
    }
}

impl PartialEq for TrustDomain {
    ghost eq = { λ a b. bytes_eq a b };

    ghost laws = { partial_equiv_from_equiv nat_list_eq_equiv };

    fn eq(&self, other: &TrustDomain) -> bool {
        self.as_str() == other.as_str()
    }
}

impl Eq for TrustDomain {
    ghost laws = { nat_list_eq_equiv };
}

impl PartialOrd for TrustDomain {
    ghost partial_cmp = { λ a b. Some (slice_cmp nat_cmp a b) };

    ghost laws = { texts_po };

    fn partial_cmp(&self, other: &TrustDomain) -> Option<Ordering> {
        Some(self.cmp(other))
    }
}

impl Ord for TrustDomain {
    ghost cmp = { λ a b. slice_cmp nat_cmp a b };

    ghost total = { nat_list_cmp_total };

    ghost matches_partial_cmp = { λ a b. refl };

    ghost matches_eq = { λ a b. texts_ties a b };

    fn cmp(&self, other: &TrustDomain) -> Ordering {
        self.as_str().cmp(other.as_str())
    }
}

impl Hash for TrustDomain {
    ghost hash_input = { λ domain. written.str domain };

    ghost respects_eq = { Prim.search (hashing, rules) };

    fn hash<H: Hasher>(&self, state: &mut H) {
        self.as_str().hash(state);
    }
}

/// Whether a trust domain name may have the byte.
fn is_domain_byte(byte: u8) -> bool
    ensures { result ≡ is_domain_byte byte }
{
    matches!(byte, b'a'..=b'z' | b'0'..=b'9' | b'.' | b'-' | b'_')
}

/// The place of the first byte that a trust domain name doesn't have.
fn first_bad_byte(text: &[u8]) -> Option<usize>
    ensures { MatchOption result (AllPass is_domain_byte text.now)
        (FirstFails is_domain_byte text.now) }
{
    text.iter().position(|byte| !is_domain_byte(*byte))
}

/// The first cause for which the text is not a trust domain name.
pub(crate) fn check_domain(text: &[u8]) -> Result<(), NameError>
    ensures answer { MatchResult result (λ _. IsDomainText text.now) (RefusesDomain text.now) }
    ensures cause { IfErr result (λ error. error ≢ NameError.NoMemory) }
    ensures within { IfErr result (λ error. place_of error ≤ length text.now) }
{
    if text.is_empty() {
        return Err(NameError::Empty);
    }
    if text.len() > MAX_DOMAIN_BYTES {
        return Err(NameError::TooLong);
    }
    match first_bad_byte(text) {
        Some(place) => Err(NameError::BadDomainByte(place)),
        None => Ok(()),
    }
}
