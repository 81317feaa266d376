//! What one element of a JWK Set says: a public key in the role that SPIFFE gives it.
ghost use Rattle.std.specs.Prelude.{◌≡◌, IfOk, OnOk, codes, map, string_bytes};
ghost use Rattle.serde_json.specs.Data.{string, array, item, no_items, put, no_members};
ghost use Rattle.serde_json.specs.View.{view, members_view};
ghost use Rattle.base64.specs.Engines.{standard};
ghost use Rattle.base64.specs.GeneralPurpose.{encode_of};
ghost use Rattle.jwk_set.specs.Element.{IsElement, IsKey, IsAuthority, key_id_of, element_text};
ghost use Rattle.jwk_set.specs.Element.{tree_of, with_authority, with_key};
ghost use Rattle.jwk_set.specs.Forms.{IsCertificate};

use crate::forms::{Certificate, NonEmptyText, UrlText};
use crate::text::write_text;
use serde_json::{Map, Value};
use std::alloc::{AllocError, Global};
use std::collections::BTreeMap;
use std::{fmt, str};

/// The public key of an authority (RFC 7517, section 4.1), each member as it was written. Nothing
/// is decoded: keys are equal exactly when their members are equal texts.
#[derive(Debug, PartialEq, Eq, Drop)]
pub enum PublicKey {
    /// `kty` is `RSA`: the modulus `n` and the exponent `e` (RFC 7518, section 6.3.1).
    Rsa {
        n: UrlText,
        e: UrlText,
    },
    /// `kty` is `EC`: the name of the curve, `crv`, and the coordinates `x` and `y` (RFC 7518,
    /// section 6.2.1). Any name counts as a curve's.
    Ec {
        crv: NonEmptyText,
        x: UrlText,
        y: UrlText,
    },
}

/// A key that a trust domain vouches with (SPIFFE Trust Domain and Bundle, section 4.2).
/// Authorities are equal exactly when they have one role, equal keys and the same certificate or
/// key identifier.
#[derive(Debug, PartialEq, Eq, Drop)]
pub enum Authority {
    /// `use` is `x509-svid`: it signs X.509-SVIDs, and `der` is its certificate, the one text of
    /// `x5c` (RFC 7517, section 4.7).
    X509 { key: PublicKey, der: Certificate },
    /// `use` is `jwt-svid`: it signs JWT-SVIDs under the key identifier `kid` (RFC 7517, section
    /// 4.5).
    Jwt { kid: NonEmptyText, key: PublicKey },
}

/// The SHA-256 of an X.509 authority's certificate, of its DER bytes as they are (FIPS 180-4,
/// section 6.2). Key ids are ordered by their bytes, and print as 64 lower-case hexadecimal digits.
#[derive(Clone, Copy, Debug, PartialEq, Eq, PartialOrd, Ord, Hash)]
pub struct KeyId(pub [u8; 32]);

impl PublicKey {
    /// A key that is equal to this one. Both share their texts, so it takes no memory.
    ///
    /// # Errors
    /// Too many keys share the texts to count one more, and no memory can hold that many.
    pub fn try_clone(&self) -> Result<PublicKey, AllocError>
        ensures { IfOk result (λ key. key ≡ self.now) }
    {
        match self {
            PublicKey::Rsa { n, e } => Ok(PublicKey::Rsa {
                n: n.try_clone()?,
                e: e.try_clone()?,
            }),
            PublicKey::Ec { crv, x, y } => Ok(PublicKey::Ec {
                crv: crv.try_clone()?,
                x: x.try_clone()?,
                y: y.try_clone()?,
            }),
        }
    }
}

impl Authority {
    /// The element that says just this authority: `use`, `kty`, the members of its key, and `x5c`
    /// or `kid`. It has no other member, and what [`read_element`](crate::read_element) reads from
    /// it is this authority.
    ///
    /// # Errors
    /// Memory ran out.
    pub fn to_value(&self, alloc: Global) -> Result<Value, AllocError>
        ensures tree { IfOk result (λ v. view v ≡ tree_of self.now) }
        ensures reads_back { IfOk result (λ v. IsElement (view v) self.now) }
    {
        Ok(Value::Object(members_of(alloc, self)?))
    }

    /// The compact text of [`to_value`](Authority::to_value)'s element, written without that value.
    ///
    /// # Errors
    /// Memory ran out.
    pub fn to_text(&self, alloc: Global) -> Result<String, AllocError>
        ensures { IfOk result (λ t. string_bytes t ≡ element_text self.now) }
    {
        write_text(alloc, self)
    }

    /// The id of an X.509 authority's key, with which an endpoint can be authenticated. A JWT
    /// authority has none.
    pub fn key_id(&self) -> Option<KeyId>
        ensures { result ≡ key_id_of self.now }
    {
        match self {
            Authority::X509 { der, .. } => Some(der.key_id()),
            Authority::Jwt { .. } => None,
        }
    }

    /// An authority that is equal to this one. Both share their texts and their certificate, so it
    /// takes no memory.
    ///
    /// # Errors
    /// Too many authorities share these to count one more, and no memory can hold that many.
    pub fn try_clone(&self) -> Result<Authority, AllocError>
        ensures { IfOk result (λ authority. authority ≡ self.now) }
    {
        match self {
            Authority::X509 { key, der } => Ok(Authority::X509 {
                key: key.try_clone()?,
                der: der.try_clone()?,
            }),
            Authority::Jwt { kid, key } => Ok(Authority::Jwt {
                kid: kid.try_clone()?,
                key: key.try_clone()?,
            }),
        }
    }
}

impl fmt::Display for KeyId {
    ghost use Rattle.std.specs.Prelude.{Some};
    ghost use Rattle.hex.specs.Hex.{encode_lower};

    ghost output = { λ id. Some (encode_lower id.0) };

    fn fmt<W: fmt::Write>(&self, f: &mut fmt::Formatter<W>) -> fmt::Result {
        let mut digits = [0; 64];
        hex::encode_to_slice(self.0, &mut digits).map_err(|_| fmt::Error)?;
        f.write_str(str::from_utf8(&digits).map_err(|_| fmt::Error)?)
    }
}

fn members_of(alloc: Global, authority: &Authority) -> Result<Map<String, Value>, AllocError>
    ensures members { IfOk result (λ m. members_view m.entries
        ≡ with_authority authority.now no_members) }
    ensures form { OnOk result (IsAuthority authority.now) }
{
    let mut members = BTreeMap::new(alloc);
    match authority {
        Authority::X509 { key, der } => {
            put_key(alloc, &mut members, key)?;
            put_text(alloc, &mut members, "use", "x509-svid")?;
            put_certificate(alloc, &mut members, der)?;
            Ok(members)
        }
        Authority::Jwt { kid, key } => {
            put_key(alloc, &mut members, key)?;
            put_text(alloc, &mut members, "use", "jwt-svid")?;
            put_text(alloc, &mut members, "kid", kid.as_str())?;
            Ok(members)
        }
    }
}

fn put_key(
    alloc: Global,
    members: &mut Map<String, Value>,
    key: &PublicKey,
) -> Result<(), AllocError>
    ensures members { OnOk result (members_view members.new.entries
        ≡ with_key key.now (members_view members.old.entries)) }
    ensures form { OnOk result (IsKey key.now) }
{
    match key {
        PublicKey::Rsa { n, e } => {
            put_text(alloc, members, "kty", "RSA")?;
            put_text(alloc, members, "n", n.as_str())?;
            put_text(alloc, members, "e", e.as_str())
        }
        PublicKey::Ec { crv, x, y } => {
            put_text(alloc, members, "kty", "EC")?;
            put_text(alloc, members, "crv", crv.as_str())?;
            put_text(alloc, members, "x", x.as_str())?;
            put_text(alloc, members, "y", y.as_str())
        }
    }
}

fn put_certificate(
    alloc: Global,
    members: &mut Map<String, Value>,
    der: &Certificate,
) -> Result<(), AllocError>
    ensures members { OnOk result (members_view members.new.entries
        ≡ put (codes "x5c") (array (item (string (encode_of standard der.now)) no_items))
        (members_view members.old.entries)) }
    ensures form { OnOk result (IsCertificate der.now) }
{
    let text = Value::String(der.encode(alloc)?);
    let chain = Value::Array(vec![in alloc; text]?);
    serde_json::put(members, alloc, "x5c", chain)
}

fn put_text(
    alloc: Global,
    members: &mut Map<String, Value>,
    name: &str,
    text: &str,
) -> Result<(), AllocError>
    ensures { OnOk result (members_view members.new.entries
        ≡ put name.now (string text.now) (members_view members.old.entries)) }
{
    let text = Value::String(String::from_str(alloc, text)?);
    serde_json::put(members, alloc, name, text)
}
