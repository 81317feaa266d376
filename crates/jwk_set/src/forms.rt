//! The forms of an authority's members, each a type of its own: a value that exists is in its form.
ghost use Rattle.std.specs.Prelude.{◌≡◌, ◌++◌, ℕ, List, ◌↔◌, IsTrue, IfOk, OnOk, nat_eq};
ghost use Rattle.std.specs.Prelude.{string_bytes};
ghost use Rattle.std.specs.List.{AllPass};
ghost use Rattle.std.specs.Cmp.{partial_equiv_from_equiv};
ghost use Rattle.std.specs.Cmp.Lexicographic.{pointwise, nat_list_eq_equiv};
ghost use Rattle.base64.specs.Engines.{standard};
ghost use Rattle.base64.specs.GeneralPurpose.{encode_of};
ghost use Rattle.jwk_set.specs.Inside.KeptText.{bytes_of};
ghost use Rattle.jwk_set.specs.Forms.{FindsMember, IsUrlText, IsNonEmptyText, IsCertificate};
ghost use Rattle.jwk_set.specs.Forms.{is_url_symbol as url_symbol};
ghost use Rattle.sha2.specs.Sha256.{sha256};

use crate::authority::KeyId;
use crate::kept_text::KeptText;
use base64::DecodeAllocError;
use base64::engine::general_purpose::STANDARD;
use sha2::{Digest, Sha256};
use std::alloc::{AllocError, Global};
use std::marker::Model;
use std::sync::Arc;

/// A text in the form of base64url without padding, as `n`, `e`, `x` and `y` are written (RFC 7518,
/// sections 6.2.1 and 6.3.1; RFC 4648, section 5): some letters, digits, hyphens and low lines,
/// whose number is not one more than a multiple of four. It is kept as it was written, and nothing
/// is decoded, so texts are equal exactly when their bytes are.
#[derive(Debug, Drop)]
pub struct UrlText {
    text: KeptText,
}

impl Model for UrlText {
    ghost Value = { List ℕ };

    ghost view = { λ a. bytes_of a.text };

    ghost invariant = { λ a. IsUrlText (bytes_of a.text) };
}

impl UrlText {
    /// The text, if it has the form of this type, and else `None`.
    ///
    /// # Errors
    /// Memory ran out.
    pub fn read(alloc: Global, text: &str) -> Result<Option<UrlText>, AllocError>
        ensures { IfOk result (λ o. FindsMember o (λ t. (t ≡ text.now) × IsUrlText t)) }
    {
        if !is_url_text(text.as_bytes()) {
            return Ok(None);
        }
        Ok(Some(UrlText {
            text: KeptText::copied(alloc, text)?,
        }))
    }

    /// The text as it was written.
    pub fn as_str(&self) -> &str
        ensures text { result.now ≡ self.now }
        ensures form { IsUrlText self.now }
    {
        self.text.as_str()
    }

    /// A text that is equal to this one. Both share their bytes, so it takes no memory.
    ///
    /// # Errors
    /// Too many texts share the bytes to count one more, and no memory can hold that many.
    pub fn try_clone(&self) -> Result<UrlText, AllocError>
        ensures { IfOk result (λ t. t ≡ self.now) }
    {
        Ok(UrlText {
            text: self.text.shared()?,
        })
    }
}

impl PartialEq for UrlText {
    ghost eq = { pointwise nat_eq };

    ghost laws = { partial_equiv_from_equiv nat_list_eq_equiv };

    fn eq(&self, other: &UrlText) -> bool {
        self.as_str() == other.as_str()
    }
}

impl Eq for UrlText {
    ghost laws = { nat_list_eq_equiv };
}

/// A text that is not empty: a curve's name (`crv`, RFC 7518, section 6.2.1.1) or a key identifier
/// (`kid`, RFC 7517, section 4.5). Texts are equal exactly when their bytes are.
#[derive(Debug, Drop)]
pub struct NonEmptyText {
    text: KeptText,
}

impl Model for NonEmptyText {
    ghost Value = { List ℕ };

    ghost view = { λ a. bytes_of a.text };

    ghost invariant = { λ a. IsNonEmptyText (bytes_of a.text) };
}

impl NonEmptyText {
    /// The text, if it is not empty, and else `None`.
    ///
    /// # Errors
    /// Memory ran out.
    pub fn read(alloc: Global, text: &str) -> Result<Option<NonEmptyText>, AllocError>
        ensures { IfOk result (λ o. FindsMember o (λ t. (t ≡ text.now) × IsNonEmptyText t)) }
    {
        if text.is_empty() {
            return Ok(None);
        }
        Ok(Some(NonEmptyText {
            text: KeptText::copied(alloc, text)?,
        }))
    }

    /// The text as it was written.
    pub fn as_str(&self) -> &str
        ensures text { result.now ≡ self.now }
        ensures form { IsNonEmptyText self.now }
    {
        self.text.as_str()
    }

    /// A text that is equal to this one. Both share their bytes, so it takes no memory.
    ///
    /// # Errors
    /// Too many texts share the bytes to count one more, and no memory can hold that many.
    pub fn try_clone(&self) -> Result<NonEmptyText, AllocError>
        ensures { IfOk result (λ t. t ≡ self.now) }
    {
        Ok(NonEmptyText {
            text: self.text.shared()?,
        })
    }
}

impl PartialEq for NonEmptyText {
    ghost eq = { pointwise nat_eq };

    ghost laws = { partial_equiv_from_equiv nat_list_eq_equiv };

    fn eq(&self, other: &NonEmptyText) -> bool {
        self.as_str() == other.as_str()
    }
}

impl Eq for NonEmptyText {
    ghost laws = { nat_list_eq_equiv };
}

/// The DER bytes of a certificate (RFC 7517, section 4.7), at least one. They are opaque here:
/// nothing in them is looked at, and certificates are equal exactly when their bytes are. They are
/// hashed once, when the certificate is decoded.
#[derive(Debug, Drop)]
pub struct Certificate {
    der: Arc<Vec<u8>, Global>,
    key: KeyId,
}

impl Model for Certificate {
    ghost Value = { List ℕ };

    ghost view = { λ a. a.der.value.items };

    ghost invariant = { λ a. IsCertificate a.der.value.items
        × (a.key ≡ record { 0 = sha256 a.der.value.items }) };
}

impl Certificate {
    /// The certificate that the text is the base64 of (RFC 4648, section 4), or else `None`. Such a
    /// text has the padding that is due, its unused bits are zero, and it encodes at least one
    /// byte.
    ///
    /// # Errors
    /// Memory ran out.
    pub fn decode(alloc: Global, text: &str) -> Result<Option<Certificate>, AllocError>
        ensures { IfOk result (λ o. FindsMember o (λ der. (text.now ≡ encode_of standard der)
            × IsCertificate der)) }
    {
        match STANDARD.decode(alloc, text.as_bytes()) {
            Ok(der) if der.is_empty() => Ok(None),
            Ok(der) => Ok(Some(Certificate {
                key: KeyId(Sha256::digest(der.as_slice())),
                der: Arc::new(alloc, der)?,
            })),
            Err(DecodeAllocError::OutOfMemory) => Err(AllocError),
            Err(DecodeAllocError::DecodeError(_)) => Ok(None),
        }
    }

    /// The base64 of the certificate (RFC 4648, section 4, padded).
    ///
    /// # Errors
    /// Memory ran out.
    pub fn encode(&self, alloc: Global) -> Result<String, AllocError>
        ensures text { IfOk result (λ t. string_bytes t ≡ encode_of standard self.now) }
        ensures form { IsCertificate self.now }
    {
        STANDARD.encode(alloc, self.der.as_slice())
    }

    /// Adds the base64 of the certificate.
    pub(crate) fn push_base64(&self, out: &mut String) -> Result<(), AllocError>
        ensures text { OnOk result (string_bytes out.new ≡ string_bytes out.old
            ++ encode_of standard self.now) }
        ensures form { IsCertificate self.now }
    {
        STANDARD.encode_string(self.der.as_slice(), out)
    }

    /// The bytes of the certificate.
    pub fn as_bytes(&self) -> &[u8]
        ensures bytes { result.now ≡ self.now }
        ensures form { IsCertificate self.now }
    {
        self.der.as_slice()
    }

    /// The id of its key: the SHA-256 of its bytes (FIPS 180-4, section 6.2).
    pub fn key_id(&self) -> KeyId
        ensures { result ≡ record { 0 = sha256 self.now } }
    {
        self.key
    }

    /// A certificate that is equal to this one. Both share their bytes, so it takes no memory.
    ///
    /// # Errors
    /// Too many certificates share the bytes to count one more, and no memory can hold that many.
    pub fn try_clone(&self) -> Result<Certificate, AllocError>
        ensures { IfOk result (λ t. t ≡ self.now) }
    {
        Ok(Certificate {
            der: Arc::try_clone(&self.der)?,
            key: self.key,
        })
    }
}

impl PartialEq for Certificate {
    ghost eq = { pointwise nat_eq };

    ghost laws = { partial_equiv_from_equiv nat_list_eq_equiv };

    fn eq(&self, other: &Certificate) -> bool {
        self.as_bytes() == other.as_bytes()
    }
}

impl Eq for Certificate {
    ghost laws = { nat_list_eq_equiv };
}

fn is_url_text(text: &[u8]) -> bool
    ensures { IsTrue result ↔ IsUrlText text.now }
{
    !text.is_empty() && text.len() % 4 != 1 && are_url_symbols(text)
}

// Each byte is tested, also after one that is not a symbol: so the processor tests many together.
fn are_url_symbols(text: &[u8]) -> bool
    ensures { IsTrue result ↔ AllPass url_symbol text.now }
{
    let mut passed = true;
    for b in text {
        passed &= is_url_symbol(*b);
    }
    passed
}

fn is_url_symbol(b: u8) -> bool
    ensures { result ≡ url_symbol b }
{
    // Each test is made, since a processor guesses badly which of them a random symbol passes.
    let upper = (b >= b'A') & (b <= b'Z');
    let lower = (b >= b'a') & (b <= b'z');
    let digit = (b >= b'0') & (b <= b'9');
    upper | lower | digit | (b == b'-') | (b == b'_')
}
