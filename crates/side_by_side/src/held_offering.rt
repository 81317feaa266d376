//! All that one closure holds, offered to a closure of another configuration.
ghost use Rattle.std.specs.Prelude.{◌≡◌, ◌≤◌, IfOk, OnErr, MatchResult, map};
ghost use Rattle.receipt_core.specs.Limits.{most_records};
ghost use Rattle.receipt_core.specs.Receipt.{distrust_line, line};
ghost use Rattle.replica_core.specs.declared.entry.Entry.TheVariants.{Record};
ghost use Rattle.replica_core.specs.declared.entry.Entry.TheVariants.{Receipt as AReceipt};
ghost use Rattle.replica_texts.specs.Snapshots.{held_lines};
ghost use Rattle.side_by_side.specs.Offering.{HasOffered, HasOfferedPart, OffersEntry};
ghost use Rattle.side_by_side.specs.Offering.{OffersLines, as_kept};
ghost use Rattle.side_by_side.specs.Promise.{AddsOnlyFitting, LinesSay, TakesFitting};
ghost use Rattle.side_by_side.specs.Inside.Steps.{offered_count};

use crate::fate::Fate;
use crate::offer_counts::{Offered, count_line, no_lines};
use crate::offering::offer_entry;
use closure_core::Closure;
use jwk_set::KeyId;
use receipt_core::{Distrust, Receipt};
use replica_core::Entry;
use spiffe_name::TrustDomain;
use std::alloc::{AllocError, Global};

/// Offers all that one closure holds to another, whatever configuration it has: first the records
/// of distrust, then the receipts, each in the order of their lines. It does what
/// [`offer_lines`](crate::offer_lines) does with these lines, but writes a line only to try a take.
///
/// # Errors
/// Memory ran out at a record or a receipt. Those before it were offered, and all may be offered
/// again.
pub fn offer_held<C: Closure>(
    alloc: Global,
    from: &C,
    to: &mut C,
    journal: &mut Vec<u8>,
) -> Result<Offered, AllocError>
    ensures offers { IfOk result (HasOffered
        (as_kept (C.state to.old).meaning journal.old.items) (held_lines (C.state from.now).meaning)
        (as_kept (C.state to.new).meaning journal.new.items)) }
    ensures begun { OnErr result (HasOfferedPart
        (as_kept (C.state to.old).meaning journal.old.items) (held_lines (C.state from.now).meaning)
        (as_kept (C.state to.new).meaning journal.new.items)) }
    ensures adds { AddsOnlyFitting (C.state to.old).meaning
        (LinesSay (held_lines (C.state from.now).meaning)) (C.state to.new).meaning }
    ensures takes { IfOk result (λ offered. TakesFitting (C.state to.old).meaning
        (LinesSay (held_lines (C.state from.now).meaning)) (C.state to.new).meaning) }
{
    receipt_core::laws::sets();
    let _old = to.config();
    let records = offer_records(alloc, from, to, journal)?;
    let all = offer_receipts(alloc, from, records, to, journal)?;
    Ok(all)
}

// Offers the records in their order.
fn offer_records<C: Closure>(
    alloc: Global,
    from: &C,
    to: &mut C,
    journal: &mut Vec<u8>,
) -> Result<Offered, AllocError>
    ensures offers { IfOk result (HasOffered
        (as_kept (C.state to.old).meaning journal.old.items)
        (map distrust_line (C.state from.now).meaning.records)
        (as_kept (C.state to.new).meaning journal.new.items)) }
    ensures few { IfOk result (λ offered. offered_count offered ≤ most_records) }
    ensures begun { OnErr result (HasOfferedPart
        (as_kept (C.state to.old).meaning journal.old.items)
        (map distrust_line (C.state from.now).meaning.records)
        (as_kept (C.state to.new).meaning journal.new.items)) }
{
    let _valid = from.config();
    let mut offered = no_lines();
    'records: for (domain, key) in from.distrusts() {
        offered = count_line(offered, offer_record(alloc, domain, *key, to, journal)?);
    }
    Ok(offered)
}

// Offers the receipts in their order, after the records.
fn offer_receipts<C: Closure>(
    alloc: Global,
    from: &C,
    before: Offered,
    to: &mut C,
    journal: &mut Vec<u8>,
) -> Result<Offered, AllocError>
    requires { offered_count before ≤ most_records }
    ensures offers { IfOk result (OffersLines
        (as_kept (C.state to.old).meaning journal.old.items)
        (map line (C.state from.now).meaning.held)
        (as_kept (C.state to.new).meaning journal.new.items) before) }
    ensures begun { OnErr result (HasOfferedPart
        (as_kept (C.state to.old).meaning journal.old.items)
        (map line (C.state from.now).meaning.held)
        (as_kept (C.state to.new).meaning journal.new.items)) }
{
    let _valid = from.config();
    let mut offered = before;
    'receipts: for receipt in from.receipts() {
        offered = count_line(offered, offer_receipt(alloc, receipt, to, journal)?);
    }
    Ok(offered)
}

fn offer_record<C: Closure>(
    alloc: Global,
    domain: &TrustDomain,
    key: KeyId,
    to: &mut C,
    journal: &mut Vec<u8>,
) -> Result<Fate, AllocError>
    ensures { MatchResult result
        (OffersEntry (as_kept (C.state to.old).meaning journal.old.items)
        (Record (record { domain = domain.now; key = key }))
        (as_kept (C.state to.new).meaning journal.new.items))
        (λ why. as_kept (C.state to.new).meaning journal.new.items
        ≡ as_kept (C.state to.old).meaning journal.old.items) }
{
    let domain = domain.try_clone(alloc)?;
    offer_entry(alloc, Entry::Record(Distrust { domain, key }), to, journal)
}

fn offer_receipt<C: Closure>(
    alloc: Global,
    receipt: &Receipt,
    to: &mut C,
    journal: &mut Vec<u8>,
) -> Result<Fate, AllocError>
    ensures { MatchResult result
        (OffersEntry (as_kept (C.state to.old).meaning journal.old.items) (AReceipt receipt.now)
        (as_kept (C.state to.new).meaning journal.new.items))
        (λ why. as_kept (C.state to.new).meaning journal.new.items
        ≡ as_kept (C.state to.old).meaning journal.old.items) }
{
    let receipt = receipt.try_clone(alloc)?;
    offer_entry(alloc, Entry::Receipt(receipt), to, journal)
}
