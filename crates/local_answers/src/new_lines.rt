//! The lines of what is not held yet, as a journal has them.
ghost use Rattle.std.specs.Prelude.{◌≡◌, ◌++◌, [], IfOk, OnOk};
ghost use Rattle.receipt_core.specs.Receipt.{IsDigest, distrust_line};
ghost use Rattle.replica_core.specs.declared.entry.Entry.TheVariants.{Receipt as AReceipt};
ghost use Rattle.replica_texts.specs.Snapshots.{ended};
ghost use Rattle.local_answers.specs.Journalling.{AreLinesOfKeys, AreLinesOfOther, IsLineIfNew};
ghost use Rattle.local_answers.specs.Inside.NewLineSteps.{AreReceiptLines, AreRecordLines};
ghost use Rattle.local_answers.specs.Inside.NewLineSteps.{SiftsKeys, keys_left};

use closure_core::Closure;
use fedbundle::GivenKeys;
use jwk_set::KeyId;
use receipt_core::{Distrust, Receipt};
use spiffe_name::TrustDomain;
use std::alloc::{AllocError, Global};

/// The lines of what one replica holds and another does not.
#[derive(Drop)]
pub(crate) struct NewLines {
    pub(crate) text: Vec<u8>,
    /// How many are lines of receipts.
    pub(crate) receipts: u64,
}

/// The lines of records that are not held, and the keys that they distrust.
#[derive(Drop)]
pub(crate) struct NewKeys {
    pub(crate) text: Vec<u8>,
    pub(crate) keys: Vec<KeyId>,
}

// The line of a receipt, if it is not held.
pub(crate) fn line_of_receipt<C: Closure>(
    alloc: Global,
    closure: &C,
    receipt: &Receipt,
) -> Result<Vec<u8>, AllocError>
    ensures { IfOk result (λ text.
        IsLineIfNew (C.state closure.now).meaning (AReceipt receipt.now) text.items) }
{
    // What these lend shows the form of the receipt and of what is held.
    let _domain = receipt.domain();
    let _config = closure.config();
    if closure.holds(receipt) {
        return Ok(Vec::new(alloc));
    }
    let line = end_line(receipt.write_line(alloc)?)?;
    Ok(line)
}

// The lines of the records for those of the keys that are not distrusted.
pub(crate) fn lines_of_keys<C: Closure>(
    alloc: Global,
    closure: &C,
    given: &GivenKeys,
) -> Result<NewKeys, AllocError>
    ensures { IfOk result (λ new. AreLinesOfKeys (C.state closure.now).meaning given.now
        new.text.items new.keys.items) }
{
    new_keys_of(alloc, closure, &given.domain, given.keys.as_slice())
}

fn new_keys_of<C: Closure>(
    alloc: Global,
    closure: &C,
    of: &TrustDomain,
    given: &[KeyId],
) -> Result<NewKeys, AllocError>
    ensures { IfOk result (λ new. SiftsKeys (C.state closure.now).meaning
        (keys_left of.now given.now []) new.text.items new.keys.items) }
{
    // What these lend shows the form of the domain and of what is held.
    let _domain = of.as_str();
    let _config = closure.config();
    let mut text = Vec::new(alloc);
    let mut keys = Vec::new(alloc);
    for key in given {
        if closure.is_distrusted(of, *key) {
            continue;
        }
        let _form = key_of(&key.0);
        push_line(&mut text, record_line(alloc, of, *key)?)?;
        keys.push(*key)?;
    }
    Ok(NewKeys { text, keys })
}

// What is read of a key shows its form.
fn key_of(digest: &[u8; 32]) -> KeyId
    ensures { IsDigest digest.now }
{
    key_id(*digest)
}

fn key_id(digest: [u8; 32]) -> KeyId {
    KeyId(digest)
}

// The lines of all that the other holds and this one does not.
pub(crate) fn lines_of_other<C: Closure>(
    alloc: Global,
    closure: &C,
    other: &C,
) -> Result<NewLines, AllocError>
    ensures { IfOk result (λ new. AreLinesOfOther (C.state closure.now).meaning
        (C.state other.now).meaning new.text.items new.receipts) }
{
    let mut lines = receipt_lines(alloc, closure, other)?;
    let records = record_lines(alloc, closure, other)?;
    lines.text.extend_from_slice(records.as_slice())?;
    Ok(lines)
}

fn receipt_lines<C: Closure>(alloc: Global, closure: &C, other: &C) -> Result<NewLines, AllocError>
    ensures { IfOk result (λ new. AreReceiptLines (C.state closure.now).meaning
        (C.state other.now).meaning new.text.items new.receipts) }
{
    let _valid = closure.config();
    let _other_valid = other.config();
    let mut text = Vec::new(alloc);
    let mut receipts = 0u64;
    for receipt in other.receipts() {
        if closure.holds(receipt) {
            continue;
        }
        push_line(&mut text, receipt.write_line(alloc)?)?;
        receipts += 1;
    }
    Ok(NewLines { text, receipts })
}

fn record_lines<C: Closure>(alloc: Global, closure: &C, other: &C) -> Result<Vec<u8>, AllocError>
    ensures { IfOk result (λ text. AreRecordLines (C.state closure.now).meaning
        (C.state other.now).meaning text.items) }
{
    let _valid = closure.config();
    let _other_valid = other.config();
    let mut text = Vec::new(alloc);
    for (domain, key) in other.distrusts() {
        if closure.is_distrusted(domain, *key) {
            continue;
        }
        push_line(&mut text, record_line(alloc, domain, *key)?)?;
    }
    Ok(text)
}

fn record_line(alloc: Global, domain: &TrustDomain, key: KeyId) -> Result<Vec<u8>, AllocError>
    ensures { IfOk result
        (λ line. line.items ≡ distrust_line (record { domain = domain.now; key = key })) }
{
    let record = Distrust {
        domain: domain.try_clone(alloc)?,
        key,
    };
    record.write_line(alloc)
}

fn end_line(mut line: Vec<u8>) -> Result<Vec<u8>, AllocError>
    ensures { IfOk result (λ text. text.items ≡ ended line.items) }
{
    line.push(b'\n')?;
    Ok(line)
}

fn push_line(text: &mut Vec<u8>, line: Vec<u8>) -> Result<(), AllocError>
    ensures { OnOk result (text.new.items ≡ text.old.items ++ ended line.items) }
{
    text.extend_from_slice(line.as_slice())?;
    text.push(b'\n')?;
    Ok(())
}
