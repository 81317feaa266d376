//! Closures that gain what others hold, are copied, or are made of lists.
ghost use Rattle.std.specs.Prelude.{◌≡◌, ◌≢◌, ◌++◌, ◌∷◌, [], false, List, IfOk, OnOk};
ghost use Rattle.receipt_core.specs.declared.distrust.Distrust.{Distrust};
ghost use Rattle.receipt_core.specs.Receipt.{Receipt};
ghost use Rattle.replica_core.specs.State.{limits_of, meaning_of_state};
ghost use Rattle.replica_core.specs.Session.{state_of};
ghost use Rattle.replica_core.specs.World.{is_fitting, is_known};
ghost use Rattle.replica_core.specs.Inside.ReplicasInMemory.{grown, CanHold, CanHoldRecords};

use closure_core::{Closure, NoMemory, TakeError};
use fed_config::Config;
use receipt_core::{Distrust, Receipt};
use std::alloc::{AllocError, Global};

/// The closure gains all that the other one of its configuration holds, or nothing if it would be
/// too much.
///
/// # Errors
/// Memory ran out.
pub(crate) fn grow<C: Closure>(closure: &mut C, more: &C) -> Result<(), NoMemory>
    ensures { (C.state closure.old).meaning.config ≡ (C.state more.now).meaning.config
        → OnOk result ((C.state closure.new).meaning
        ≡ meaning_of_state (C.state closure.old).meaning.config
        (grown (limits_of (C.state closure.old).meaning.config)
        (state_of (C.state closure.old).meaning) (state_of (C.state more.now).meaning))) }
{
    let _domains = more.config().domains();
    match closure.merge(more) {
        Ok(_) => Ok(()),
        Err(why) => settle(why),
    }
}

/// A closure that holds what this one holds.
///
/// # Errors
/// Memory ran out.
pub(crate) fn copied<C: Closure>(alloc: Global, closure: &C) -> Result<C, NoMemory>
    ensures { IfOk result (λ c. (C.state c).meaning ≡ (C.state closure.now).meaning) }
{
    let mut copy = C::new(alloc, closure.config())?;
    grow(&mut copy, closure)?;
    Ok(copy)
}

/// A closure that holds these records and receipts, which are what a closure of this configuration
/// can hold.
///
/// # Errors
/// Memory ran out.
pub(crate) fn gathered<C: Closure>(
    alloc: Global,
    config: &Config,
    records: &[Distrust],
    receipts: &[Receipt],
) -> Result<C, NoMemory>
    ensures { CanHold config.now receipts.now → CanHoldRecords config.now records.now
        → IfOk result (λ c. (C.state c).meaning
        ≡ record { config = config.now; held = receipts.now; records = records.now }) }
{
    let mut closure = C::new(alloc, config)?;
    offer_records(&mut closure, records);
    offer_receipts(alloc, &mut closure, receipts)?;
    Ok(closure)
}

fn offer_records<C: Closure>(closure: &mut C, records: &[Distrust])
    ensures { (C.state closure.old).meaning.records ≡ []
        → CanHoldRecords (C.state closure.old).meaning.config records.now
        → (C.state closure.new).meaning
        ≡ record (C.state closure.old).meaning { records = records.now } }
{
    for record in records {
        offer_record(closure, record);
    }
}

fn offer_receipts<C: Closure>(
    alloc: Global,
    closure: &mut C,
    receipts: &[Receipt],
) -> Result<(), NoMemory>
    ensures { (C.state closure.old).meaning.held ≡ []
        → CanHold (C.state closure.old).meaning.config receipts.now
        → OnOk result ((C.state closure.new).meaning
        ≡ record (C.state closure.old).meaning { held = receipts.now }) }
{
    for receipt in receipts {
        offer_receipt(alloc, closure, receipt)?;
    }
    Ok(())
}

/// The closure takes the receipt if it fits.
///
/// # Errors
/// Memory ran out.
pub(crate) fn offer_receipt<C: Closure>(
    alloc: Global,
    closure: &mut C,
    receipt: &Receipt,
) -> Result<(), NoMemory>
    ensures unfit { is_fitting (C.state closure.old).meaning.config receipt.now ≡ false
        → OnOk result ((C.state closure.new).meaning ≡ (C.state closure.old).meaning) }
    ensures next { (later : List Receipt)
        → let m = (C.state closure.old).meaning in CanHold m.config (m.held ++ receipt.now ∷ later)
        → OnOk result ((C.state closure.new).meaning
        ≡ record m { held = m.held ++ receipt.now ∷ [] }) }
{
    let _domains = closure.config().domains();
    match closure.take(receipt.try_clone(alloc)?) {
        Ok(_) => Ok(()),
        Err(refused) => settle(refused.why),
    }
}

/// The closure takes the record if its domain is one of the configuration.
pub(crate) fn offer_record<C: Closure>(closure: &mut C, distrust: &Distrust)
    ensures unfit { is_known (C.state closure.old).meaning.config distrust.now.domain ≡ false
        → (C.state closure.new).meaning ≡ (C.state closure.old).meaning }
    ensures next { (later : List Distrust)
        → let m = (C.state closure.old).meaning in CanHoldRecords m.config
        (m.records ++ distrust.now ∷ later)
        → (C.state closure.new).meaning ≡ record m { records = m.records ++ distrust.now ∷ [] } }
{
    // What is refused is not part of what the replica gathers.
    let _refusal = closure.distrust(&distrust.domain, distrust.key);
}

// A closure that refuses is as it was. Only lack of memory ends the play.
fn settle(why: TakeError) -> Result<(), NoMemory>
    ensures { OnOk result (why ≢ TakeError.NoMemory) }
{
    match why {
        TakeError::NoMemory => Err(AllocError),
        _ => Ok(()),
    }
}
