//! Copies of what another closure holds and this one does not: first the causes of refusal, in
//! their order, then copies of the receipts, and how many offers these have.
ghost use Rattle.std.specs.Prelude.{◌≡◌, ◌+◌, ◌<◌, length, Contains, MatchBool, MatchOption};
ghost use Rattle.std.specs.Prelude.{MatchResult};
ghost use Rattle.fed_config.specs.Configuration.{HasDomain};
ghost use Rattle.receipt_core.specs.declared.distrust.Distrust.{Distrust};
ghost use Rattle.receipt_core.specs.Receipt.{Receipt};
ghost use Rattle.receipt_core.specs.Acceptance.{IsFitting};
ghost use Rattle.closure_parts.specs.Held.{meaning_of};
ghost use Rattle.closure_core.specs.Refusals.{RefusesMerge, all_receipts, all_records};
ghost use Rattle.closure_core.specs.Refusals.{offers_count};
ghost use Rattle.closure_parts.specs.Merge.{IsMergeable, HasNew, AreCopies, IsMergePlan};
ghost use Rattle.closure_parts.specs.Merge.{RefusesFitOfOne, first_cause_of};

use crate::held::Held;
use closure_core::{Distrusts, NoMemory, Receipts, TakeError, check_fit};
use fed_config::Config;
use receipt_core::Receipt;

/// What is to be taken in: copies of the receipts that are not held, and how many offers they have
/// together.
#[derive(Drop)]
pub(crate) struct MergePlan {
    pub(crate) copies: Vec<Receipt>,
    pub(crate) offers: usize,
}

/// Copies the receipts that the other one holds and this one does not.
///
/// # Errors
/// As [`closure_core::Closure::merge`] says. No receipt is copied before all causes but lack of
/// memory are ruled out.
pub(crate) fn plan_merge(held: &Held, other: &Held) -> Result<MergePlan, TakeError>
    ensures { MatchResult result (IsMergePlan (meaning_of held.now) (meaning_of other.now))
        (RefusesMerge (meaning_of held.now) (meaning_of other.now)) }
{
    judge(held, other)?;
    match copy_share(held, other) {
        Ok(share) => Ok(share),
        Err(_) => Err(TakeError::NoMemory),
    }
}

/// Whether all may be taken in, except for memory.
fn judge(held: &Held, other: &Held) -> Result<(), TakeError>
    ensures { MatchResult result (λ _. IsMergeable (meaning_of held.now) (meaning_of other.now))
        (RefusesMerge (meaning_of held.now) (meaning_of other.now)) }
{
    let config = held.config();
    if config.digest() != other.config().digest() {
        return Err(TakeError::ConfigDiffers);
    }
    if !knows_all(config, other.distrusts()) {
        return Err(TakeError::UnknownDomain);
    }
    fit_all(config, other.receipts())?;
    if new_receipts(held, other) > held.receipts_left() {
        return Err(TakeError::Full);
    }
    if new_records(held, other) > held.records_left() {
        return Err(TakeError::Full);
    }
    Ok(())
}

/// Whether the domain of each record is one of the configuration.
fn knows_all(config: &Config, records: Distrusts<'_>) -> bool
    ensures { MatchBool result
        ((x : Distrust) → Contains records.entry x → HasDomain config.now x.domain)
        ((x : Distrust) × Contains records.entry x × (HasDomain config.now x.domain → ⊥)) }
{
    for (domain, _) in records {
        if config.domain_no(domain).is_none() {
            return false;
        }
    }
    true
}

/// Whether each receipt fits. If some do not, the cause that comes first is reported, whichever
/// receipt has it.
fn fit_all(config: &Config, receipts: Receipts<'_>) -> Result<(), TakeError>
    ensures { MatchResult result
        (λ _. (r : Receipt) → Contains receipts.entry r → IsFitting config.now r)
        (RefusesFitOfOne config.now receipts.entry) }
{
    // This call says that the configuration is well formed.
    let _ = config.domains();
    let mut cause = None;
    for receipt in receipts {
        if let Err(why) = check_fit(config, receipt) {
            if why == TakeError::UnknownDomain {
                return Err(TakeError::UnknownDomain);
            }
            cause = Some(first_cause(cause, why));
        }
    }
    match cause {
        Some(why) => Err(why),
        None => Ok(()),
    }
}

/// The cause that comes first of one that was found before and another: a wrong endpoint, or else
/// the other.
fn first_cause(before: Option<TakeError>, why: TakeError) -> TakeError
    ensures { result ≡ first_cause_of before why }
{
    match before {
        Some(TakeError::WrongEndpoint) => TakeError::WrongEndpoint,
        _ => why,
    }
}

/// How many receipts of the other are not held.
fn new_receipts(held: &Held, other: &Held) -> usize
    ensures { length (all_receipts (meaning_of held.now) (meaning_of other.now))
        ≡ length held.now.held + result }
{
    let _valid = held.config();
    let _other_valid = other.config();
    let mut count = 0;
    for receipt in other.receipts() {
        if !held.holds(receipt) {
            count += 1;
        }
    }
    count
}

/// How many records of distrust of the other are not held.
fn new_records(held: &Held, other: &Held) -> usize
    ensures { length (all_records (meaning_of held.now) (meaning_of other.now))
        ≡ length held.now.records + result }
{
    let _valid = held.config();
    let _other_valid = other.config();
    let mut count = 0;
    for (domain, key) in other.distrusts() {
        if !held.is_distrusted(domain, *key) {
            count += 1;
        }
    }
    count
}

fn copy_share(held: &Held, other: &Held) -> Result<MergePlan, NoMemory>
    requires { IsMergeable (meaning_of held.now) (meaning_of other.now) }
    ensures { MatchResult result (IsMergePlan (meaning_of held.now) (meaning_of other.now))
        (λ _. HasNew (meaning_of held.now) (meaning_of other.now)) }
{
    let mut copies = copies_of_new(held, other)?;
    match offers_of_all(&copies) {
        Some(offers) => Ok(MergePlan { copies, offers }),
        None => {
            // There is no room for this many: it asks for a growth that is always refused.
            copies.try_reserve(usize::MAX)?;
            Ok(MergePlan { copies, offers: 0 })
        }
    }
}

/// Copies of the receipts of the other that are not held.
fn copies_of_new(held: &Held, other: &Held) -> Result<Vec<Receipt>, NoMemory>
    ensures { MatchResult result
        (λ v. AreCopies (meaning_of held.now) (meaning_of other.now) v.items)
        (λ _. HasNew (meaning_of held.now) (meaning_of other.now)) }
{
    let _valid = held.config();
    let _other_valid = other.config();
    let alloc = held.alloc();
    let mut copies = Vec::new(alloc);
    for receipt in other.receipts() {
        if !held.holds(receipt) {
            copies.push(receipt.try_clone(alloc)?)?;
        }
    }
    Ok(copies)
}

/// How many offers the receipts have together, if that is a number of 64 bits.
fn offers_of_all(receipts: &[Receipt]) -> Option<usize>
    ensures { MatchOption result (0 < length receipts.now)
        (λ offers. offers_count receipts.now ≡ offers) }
{
    let mut offers: usize = 0;
    for receipt in receipts {
        offers = offers.checked_add(receipt.offers().len())?;
    }
    Some(offers)
}
