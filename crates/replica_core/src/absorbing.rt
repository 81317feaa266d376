//! What a replica takes of an answer.
ghost use Rattle.std.specs.Prelude.{◌≡◌, ◌+◌, ◌^◌, ◌<◌, ◌≤◌, ◌↔◌, IsTrue, MatchOption, MatchResult};
ghost use Rattle.std.specs.Prelude.{OnOk};
ghost use Rattle.std.specs.Prelude.{length};
ghost use Rattle.closure_core.specs.Refusals.{IsRoomier};
ghost use Rattle.replica_core.specs.State.{joined, meaning_of_state};
ghost use Rattle.replica_core.specs.Session.{state_of};
ghost use Rattle.replica_core.specs.Absorbing.{AreWelcome, HasAbsorbed, HasRefusedAbsorbing};
ghost use Rattle.replica_core.specs.Absorbing.{IsFirstRefused, entries_of, room_for, IsBeyondRoom};
ghost use Rattle.replica_core.specs.Inside.FreePlaces.{CountsNew};

use crate::earlier::Earlier;
use crate::error::SyncError;
use crate::first_unwelcome::{first_receipt, first_record};
use crate::free_places::is_receipt_among;
use crate::give::Give;
use crate::joining::{distrust_all, take_all};
use closure_core::{Closure, TakeError};
use receipt_core::Receipt;
use std::alloc::{AllocError, Global};

/// Takes all of an answer, or nothing, and returns how many receipts were not held. Apart from its
/// takes, it looks up each receipt among those held and those before it, and each record too if the
/// records may pass their limit. For n lines it does of the order of n log n comparisons; once
/// there is no memory for their numbers, it compares each line with all before it.
///
/// # Errors
/// What is held is as before. The first of these that holds:
/// - [`SyncError::ConfigDiffers`]: the answer is of a configuration with another digest,
/// - [`SyncError::Refused`]: a record or a receipt is not of the configuration, or is one too many.
///   Lines are counted from 1, the answer's first line: records come before receipts, and the first
///   such line is reported,
/// - [`SyncError::NoMemory`]: memory ran out. Never if the receipts that are not held, each counted
///   once, and their offers are within [`Closure::room`]; so never if none is new.
pub fn absorb<C: Closure>(closure: &mut C, give: Give) -> Result<usize, SyncError>
    ensures { MatchResult result
        (HasAbsorbed (C.state closure.old).meaning give (C.state closure.new).meaning)
        (HasRefusedAbsorbing (C.state closure.old) give (C.state closure.new).meaning) }
{
    if closure.config().digest() != give.config {
        return Err(SyncError::ConfigDiffers);
    }
    let mut give = give;
    try_number(&mut give)?;
    if let Some((number, why)) = first_refused(closure, &give) {
        return Err(SyncError::Refused(number, why));
    }
    make_room(closure, &mut give)?;
    Ok(take_whole(closure, give))
}

// The lines are to have numbers of 64 bits: past that it asks for a growth that is always refused.
fn try_number(give: &mut Give) -> Result<(), AllocError>
    ensures same { give.new ≡ give.old }
    ensures numbers { MatchResult result
        (λ _. length (entries_of give.old.content) + 2 < 2 ^ 64)
        (λ _. 2 ^ 64 ≤ length (entries_of give.old.content) + 2) }
{
    if are_numbered(give) {
        Ok(())
    } else {
        ask_too_much(give)
    }
}

// Whether the lines have numbers of 64 bits.
fn are_numbered(give: &Give) -> bool
    ensures { IsTrue result ↔ (length (entries_of give.now.content) + 2 < 2 ^ 64) }
{
    match give.distrusts.len().checked_add(give.receipts.len()) {
        Some(entries) => entries.checked_add(2).is_some(),
        None => false,
    }
}

// The number of the first line that is not welcome, and why it is not.
fn first_refused<C: Closure>(closure: &C, give: &Give) -> Option<(u64, TakeError)>
    requires { length (entries_of give.now.content) + 2 < 2 ^ 64 }
    ensures { MatchOption result
        (AreWelcome (C.state closure.now).meaning (entries_of give.now.content))
        (λ p. IsFirstRefused (C.state closure.now).meaning (entries_of give.now.content) p.0 p.1) }
{
    let alloc = *give.receipts.allocator();
    let records = give.distrusts().len() as u64;
    match first_record(alloc, closure, give.distrusts()) {
        Some(first) => Some(first),
        None => match first_receipt(alloc, closure, give.receipts()) {
            Some((number, why)) => Some((records + number, why)),
            None => None,
        },
    }
}

// Makes room for the receipts that are not held, and their offers. If these offers have no number
// of 64 bits, it asks for a growth that is always refused.
fn make_room<C: Closure>(closure: &mut C, give: &mut Give) -> Result<(), AllocError>
    ensures same { give.new ≡ give.old }
    ensures meaning { (C.state closure.new).meaning ≡ (C.state closure.old).meaning }
    ensures room { MatchResult result
        (λ _. IsRoomier (room_for (C.state closure.old).meaning give.old.content.held)
        (C.state closure.new).room)
        (λ _. IsBeyondRoom (C.state closure.old) give.old.content.held) }
{
    let _room = offers_room(closure);
    let alloc = *give.receipts.allocator();
    match new_receipts(alloc, closure, give.receipts()) {
        Some((receipts, offers)) => closure.try_reserve(receipts, offers),
        None => ask_too_much(give),
    }
}

// For how many offers there is room.
fn offers_room<C: Closure>(closure: &C) -> usize
    ensures { result ≡ (C.state closure.now).room.offers }
{
    closure.room().1
}

// Asks for a growth that is always refused.
fn ask_too_much(give: &mut Give) -> Result<(), AllocError>
    ensures same { give.new ≡ give.old }
    ensures refused { OnOk result ⊥ }
{
    give.receipts.try_reserve(usize::MAX)
}

// How many receipts are not held, each counted once, and how many offers these have together, if
// that is a number of 64 bits.
fn new_receipts<C: Closure>(
    alloc: Global,
    closure: &C,
    receipts: &[Receipt],
) -> Option<(usize, usize)>
    ensures { CountsNew (C.state closure.now).meaning receipts.now result }
{
    receipt_core::laws::sets();
    let _valid = closure.config();
    let mut before = Earlier::new(alloc, receipts);
    let mut count: usize = 0;
    let mut offers: usize = 0;
    for receipt in receipts {
        let _form = receipt.domain();
        if !is_receipt_among(closure, &mut before, receipt) {
            count += 1;
            offers = offers.checked_add(receipt.offers().len())?;
        }
    }
    Some((count, offers))
}

// Takes all of what is welcome, for which there is room, and returns how many receipts were not
// held.
fn take_whole<C: Closure>(closure: &mut C, give: Give) -> usize
    requires welcome { AreWelcome (C.state closure.old).meaning (entries_of give.content) }
    requires room { IsRoomier (room_for (C.state closure.old).meaning give.content.held)
        (C.state closure.old).room }
    ensures meaning { (C.state closure.new).meaning
        ≡ meaning_of_state (C.state closure.old).meaning.config
        (joined (state_of (C.state closure.old).meaning) give.content) }
    ensures count { length (C.state closure.new).meaning.held
        ≡ length (C.state closure.old).meaning.held + result }
{
    let held = closure.receipt_count();
    let alloc = *give.receipts.allocator();
    distrust_all(alloc, closure, give.distrusts());
    take_all(closure, give.receipts);
    closure.receipt_count() - held
}
