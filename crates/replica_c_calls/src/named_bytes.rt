//! Names and keys, read from bytes.
ghost use Rattle.std.specs.Prelude.{◌≡◌, ◌↔◌, ℕ, List, IsTrue, MatchResult, Some};
ghost use Rattle.hex.specs.Hex.{encode_lower};
ghost use Rattle.receipt_core.specs.Receipt.{IsDigest};
ghost use Rattle.spiffe_name.specs.TrustDomain.{IsDomainText};
ghost use Rattle.spiffe_name.specs.SpiffeId.{IsId};
ghost use Rattle.replica_c_calls.specs.CallErrors.{IsKeyDigits, IsNoKey, RefusesDomainBytes};
ghost use Rattle.replica_c_calls.specs.CallErrors.{RefusesIdBytes};
ghost use Rattle.replica_c_calls.specs.declared.call_error.CallError.TheVariants.{Usage};

use crate::call_error::CallError;
use jwk_set::KeyId;
use spiffe_name::{SpiffeId, TrustDomain};
use std::alloc::Global;
use std::str;

/// The trust domain with this name.
///
/// # Errors
/// `Usage` if the bytes are not UTF-8; otherwise what [`TrustDomain::read`] reports.
pub fn domain_of(alloc: Global, bytes: &[u8]) -> Result<TrustDomain, CallError>
    ensures { MatchResult result
        (λ domain. (domain ≡ bytes.now) × IsDomainText bytes.now)
        (RefusesDomainBytes bytes.now) }
{
    let Ok(text) = str::from_utf8(bytes) else {
        return Err(CallError::Usage);
    };
    Ok(TrustDomain::read(alloc, text)?)
}

/// The SPIFFE ID that the bytes spell.
///
/// # Errors
/// `Usage` if the bytes are not UTF-8; otherwise what [`SpiffeId::read`] reports.
pub(crate) fn endpoint_of(alloc: Global, bytes: &[u8]) -> Result<SpiffeId, CallError>
    ensures { MatchResult result
        (λ id. (id.text ≡ bytes.now) × IsId id)
        (RefusesIdBytes bytes.now) }
{
    let Ok(text) = str::from_utf8(bytes) else {
        return Err(CallError::Usage);
    };
    match SpiffeId::read(alloc, text) {
        Ok(id) => Ok(id),
        Err(why) => Err(CallError::Name(why)),
    }
}

/// The key id of 64 lower-case hexadecimal digits.
///
/// # Errors
/// `Usage` for any other bytes.
pub(crate) fn key_of(bytes: &[u8]) -> Result<KeyId, CallError>
    ensures { MatchResult result (IsKeyDigits bytes.now) (λ e. (e ≡ Usage) × IsNoKey bytes.now) }
{
    let Some(id) = decoded(bytes) else {
        return Err(CallError::Usage);
    };
    // Upper-case digits are decoded too.
    if is_digits(&id, bytes) {
        Ok(KeyId(id))
    } else {
        Err(CallError::Usage)
    }
}

// The key id of these digits, of whatever case.
fn decoded(bytes: &[u8]) -> Option<[u8; 32]>
    ensures { (id : List ℕ) → encode_lower id ≡ bytes.now → IsDigest id → result ≡ Some id }
{
    let mut id = [0; 32];
    match hex::decode_to_slice(bytes, &mut id) {
        Ok(()) => Some(id),
        Err(_) => None,
    }
}

fn is_digits(id: &[u8; 32], bytes: &[u8]) -> bool
    ensures same { IsTrue result ↔ (encode_lower id.now ≡ bytes.now) }
    ensures form { IsDigest id.now }
{
    let mut digits = [0; 64];
    hex::encode_to_slice(*id, &mut digits).unwrap();
    digits.as_slice() == bytes
}
