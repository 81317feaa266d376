//! Which records and receipts a closure would refuse, were it given one after another: the first
//! one is found without any change.
ghost use Rattle.std.specs.Prelude.{◌≡◌, ◌+◌, ◌^◌, ◌<◌, List, MatchOption, length};
ghost use Rattle.receipt_core.specs.declared.distrust.Distrust.{Distrust};
ghost use Rattle.replica_core.specs.Absorbing.{AreWelcome, IsFirstRefused, of_records, of_receipts};

use crate::earlier::Earlier;
use crate::free_places::{place_for_receipt, place_for_record};
use closure_core::{Closure, TakeError, check_fit};
use receipt_core::{Distrust, Receipt, receipt_limit, record_limit};
use std::alloc::Global;

/// The number of the first record that is not welcome, and why it is not. The first record has
/// number 2.
pub(crate) fn first_record<C: Closure>(
    alloc: Global,
    closure: &C,
    records: &[Distrust],
) -> Option<(u64, TakeError)>
    requires { length records.now + 2 < 2 ^ 64 }
    ensures { MatchOption result (AreWelcome (C.state closure.now).meaning (of_records records.now))
        (λ p. IsFirstRefused (C.state closure.now).meaning (of_records records.now) p.0 p.1) }
{
    receipt_core::laws::sets();
    let config = closure.config();
    let _form = config.domains();
    let mut free = record_limit(config) - closure.distrusts().count();
    let mut before = Earlier::new(alloc, records);
    let mut place: usize = 0;
    for record in records {
        if config.domain_no(&record.domain).is_none() {
            return Some((place as u64 + 2, TakeError::UnknownDomain));
        }
        let left = records.len() - place;
        match place_for_record(closure, &mut before, free, left, record) {
            Some(more) => free = more,
            None => return Some((place as u64 + 2, TakeError::Full)),
        }
        place += 1;
    }
    None
}

/// The number of the first receipt that is not welcome, and why it is not. The first receipt has
/// number 2. Records make no difference.
pub(crate) fn first_receipt<C: Closure>(
    alloc: Global,
    closure: &C,
    receipts: &[Receipt],
) -> Option<(u64, TakeError)>
    requires { length receipts.now + 2 < 2 ^ 64 }
    ensures { (records : List Distrust)
        → MatchOption result (AreWelcome
        (record (C.state closure.now).meaning { records = records }) (of_receipts receipts.now))
        (λ p. IsFirstRefused (record (C.state closure.now).meaning { records = records })
        (of_receipts receipts.now) p.0 p.1) }
{
    receipt_core::laws::sets();
    let config = closure.config();
    let _form = config.domains();
    let mut free = receipt_limit(config) - closure.receipt_count();
    let mut before = Earlier::new(alloc, receipts);
    let mut place: usize = 0;
    for receipt in receipts {
        if let Err(why) = check_fit(config, receipt) {
            return Some((place as u64 + 2, why));
        }
        let left = receipts.len() - place;
        match place_for_receipt(closure, &mut before, free, left, receipt) {
            Some(more) => free = more,
            None => return Some((place as u64 + 2, TakeError::Full)),
        }
        place += 1;
    }
    None
}
