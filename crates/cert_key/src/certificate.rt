//! A certificate, as far as it is read.
ghost use Rattle.std.specs.Prelude.{◌≡◌, IfSome, IsSomeAnd};
ghost use Rattle.cert_key.specs.Certificate.{Certificate, IsSpelled, lent_parts, parts_of};
ghost use Rattle.cert_key.specs.Inside.Reading.{IsReadAs};
ghost use Rattle.cert_key.specs.Inside.Whole.{after_version, certificate_at, fields_at};

use crate::der::field_at;
use crate::moment::times_at;

/// The tag of an INTEGER.
const INTEGER: u8 = 2;

/// The tag of a SEQUENCE.
const SEQUENCE: u8 = 48;

/// The tag of the version, `[0]`.
const VERSION: u8 = 160;

/// What a certificate says of its key.
#[derive(Clone, Copy, Debug)]
pub struct CertParts<'a> {
    /// The whole element `subjectPublicKeyInfo`: algorithm and public key.
    pub public_key: &'a [u8],
    /// The whole element `subject`, a `Name`.
    pub subject: &'a [u8],
    /// From when it is valid, in seconds since the Unix epoch.
    pub not_before: i64,
    /// Until when it is valid, in seconds since the Unix epoch.
    pub not_after: i64,
}

/// What a certificate in DER says of its key, and `None` if the bytes are not of this form (RFC
/// 5280, section 4.1; X.690).
///
/// The bytes are one SEQUENCE. It begins with the SEQUENCE `tbsCertificate`, and that with these:
/// the version `[0]`, which may be left out, the INTEGER `serialNumber`, and the SEQUENCEs
/// `signature`, `issuer`, `validity`, `subject` and `subjectPublicKeyInfo`. A validity is two times
/// and nothing else: a UTCTime `YYMMDDHHMMSSZ`, whose year is from 1950 to 2049, or a
/// GeneralizedTime `YYYYMMDDHHMMSSZ`. Each is a real date and time, and no minute has a second 60.
/// Lengths are definite, in the fewest bytes and below 2^24, and no element that is read passes the
/// end of the one that it is in.
///
/// What is after `subjectPublicKeyInfo` and after `tbsCertificate` is not read, nor is what is in
/// the other fields. No signature is verified.
pub fn read_certificate(der: &[u8]) -> Option<CertParts<'_>>
    ensures found { IfSome result (λ p. (c : Certificate) × IsSpelled c der.now
        × (lent_parts p ≡ parts_of c)) }
    ensures only { (c : Certificate) → IsSpelled c der.now
        → IsSomeAnd result (λ p. lent_parts p ≡ parts_of c) }
{
    certificate_at(der)
}

#[tactic(auto, unfolding(crate::specs::Inside::Whole::certificate_at))]
fn certificate_at(bytes: &[u8]) -> Option<CertParts<'_>>
    ensures { IsReadAs lent_parts result (certificate_at bytes.now) }
{
    let certificate = field_at(SEQUENCE, bytes)?;
    let signed = field_at(SEQUENCE, certificate.content)?;
    if !certificate.after.is_empty() {
        return None;
    }
    fields_at(signed.content)
}

#[tactic(auto, unfolding(crate::specs::Inside::Whole::fields_at))]
fn fields_at(bytes: &[u8]) -> Option<CertParts<'_>>
    ensures { IsReadAs lent_parts result (fields_at bytes.now) }
{
    let serial_number = field_at(INTEGER, after_version(bytes))?;
    let signature = field_at(SEQUENCE, serial_number.after)?;
    let issuer = field_at(SEQUENCE, signature.after)?;
    let validity = field_at(SEQUENCE, issuer.after)?;
    let (not_before, not_after) = times_at(validity.content)?;
    let subject = field_at(SEQUENCE, validity.after)?;
    let public_key = field_at(SEQUENCE, subject.after)?;
    Some(CertParts {
        public_key: public_key.whole,
        subject: subject.whole,
        not_before,
        not_after,
    })
}

#[tactic(auto, unfolding(crate::specs::Inside::Whole::after_version))]
fn after_version(bytes: &[u8]) -> &[u8]
    ensures { result.now ≡ after_version bytes.now }
{
    match field_at(VERSION, bytes) {
        Some(version) => version.after,
        None => bytes,
    }
}
