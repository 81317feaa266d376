//! The one spelling of a receipt, and its id, hashed piece by piece.
ghost use Rattle.std.specs.Prelude.{◌≡◌, IfOk};
ghost use Rattle.hex.specs.Hex.{encode_lower};
ghost use Rattle.receipt_core.specs.Receipt.{IsDigest, IsReceipt, line, receipt_id_of};

use crate::receipt::Receipt;
use crate::receipt_id::ReceiptId;
use bundle_doc::{DocId, Document};
use jwk_set::KeyId;
use sha2::{Digest, Sha256};
use spiffe_name::{SpiffeId, TrustDomain};
use std::alloc::{AllocError, Global};

// The id of the receipt of these parts. The line is hashed piece by piece and not made.
pub(crate) fn id_of(
    domain: &TrustDomain,
    endpoint: &SpiffeId,
    document: &Document,
    voucher: DocId,
    key: KeyId,
) -> ReceiptId
    ensures { result.0 ≡ receipt_id_of
        (record {
          domain = domain.now;
          endpoint = endpoint.now;
          document = document.now;
          voucher = voucher;
          key = key;
        }) }
{
    let mut hasher = Sha256::new();
    hasher.update("{\"doc\":");
    hasher.update(document.canonical());
    hasher.update(",\"domain\":\"");
    hasher.update(domain.as_str());
    hasher.update("\",\"endpoint\":\"");
    hasher.update(endpoint.as_str());
    hasher.update("\",\"key\":\"");
    hasher.update(digits(&key.0));
    hasher.update("\",\"voucher\":\"");
    hasher.update(digits(&voucher.0));
    hasher.update("\"}");
    ReceiptId(hasher.finalize())
}

// The parts of a receipt are well formed, by their types. It does nothing.
pub(crate) fn form_of_parts(
    domain: &TrustDomain,
    endpoint: &SpiffeId,
    document: &Document,
    voucher: DocId,
    key: KeyId,
)
    ensures { IsReceipt
        (record {
          domain = domain.now;
          endpoint = endpoint.now;
          document = document.now;
          voucher = voucher;
          key = key;
        }) }
{
    let _domain = domain.as_str();
    let _endpoint = endpoint.as_str();
    let _document = document.canonical();
    is_digest(&voucher.0);
    is_digest(&key.0);
}

// An array of bytes has a length of 32 and only bytes in it: the copy shows the prover both.
fn is_digest(digest: &[u8; 32])
    ensures { IsDigest digest.now }
{
    let _copy = copy_of(*digest);
}

fn copy_of(digest: [u8; 32]) -> [u8; 32]
    ensures { result ≡ digest }
{
    digest
}

// The bytes of a line except the document, the domain and the endpoint: the two digests and what
// is between all, and a line feed, which most callers add.
const OTHER_BYTES: usize = 185;

// The line of a receipt.
pub(crate) fn write_receipt(alloc: Global, receipt: &Receipt) -> Result<Vec<u8>, AllocError>
    ensures { IfOk result (λ text. text.items ≡ line receipt.now) }
{
    let mut text = Vec::with_capacity(alloc, room_of_line(receipt))?;
    text.extend_from_slice(b"{\"doc\":")?;
    text.extend_from_slice(receipt.document().canonical())?;
    text.extend_from_slice(b",\"domain\":\"")?;
    text.extend_from_slice(receipt.domain().as_str().as_bytes())?;
    text.extend_from_slice(b"\",\"endpoint\":\"")?;
    text.extend_from_slice(receipt.endpoint().as_str().as_bytes())?;
    text.extend_from_slice(b"\",\"key\":\"")?;
    text.extend_from_slice(&digits(&receipt.key().0))?;
    text.extend_from_slice(b"\",\"voucher\":\"")?;
    text.extend_from_slice(&digits(&receipt.voucher().0))?;
    text.extend_from_slice(b"\"}")?;
    Ok(text)
}

// Room for the line and a line feed, so that the text never grows.
fn room_of_line(receipt: &Receipt) -> usize {
    let domain = receipt.domain().as_str().len();
    let endpoint = receipt.endpoint().as_str().len();
    let document = receipt.document().canonical().len();
    document
        .saturating_add(domain)
        .saturating_add(endpoint)
        .saturating_add(OTHER_BYTES)
}

// The digest as 64 lower-case hexadecimal digits.
pub(crate) fn digits(digest: &[u8; 32]) -> [u8; 64]
    ensures text { result ≡ encode_lower digest.now }
    ensures form { IsDigest digest.now }
{
    let mut digits = [0; 64];
    hex::encode_to_slice(*digest, &mut digits).unwrap();
    digits
}
