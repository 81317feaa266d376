//! Exports: what changes a replica.
ghost use Rattle.std.specs.Prelude.{◌≡◌, ◌≤◌, codes};
ghost use Rattle.std.specs.declared.option.Option.TheVariants.{None};
ghost use Rattle.fedbundle_c.specs.Exports.{DistrustsByHandle, MergesByHandle};
ghost use Rattle.fedbundle_c.specs.Exports.{ObservesByHandle, TakesByHandle};
ghost use Rattle.replica_c_calls.specs.Outcomes.{ReportsFault, fault_text};

use crate::handle::Handle;
use closure_core::{Distrusted, Taken};
use replica_c_calls::{
    ALREADY, CallError, CallOutcome, FetchedBytes, ObservedBytes, distrust_bytes, merge_bytes,
    observe_bytes, take_line_bytes,
};
use std::alloc::Global;

/// Takes the receipt of a line, without its line feed. It counts the bundles that are accepted now
/// and were not, and returns [`ALREADY`] if the receipt was held.
#[unsafe(no_mangle)]
pub extern "C" fn fedbundle_raw_take(
    alloc: Global,
    handle: &mut Handle,
    line: &[u8],
    outcome: &mut CallOutcome,
) -> i64
    ensures does { TakesByHandle (record {
      old = handle.old.value;
      new = handle.new.value;
      said = outcome.new.count;
      returned = result;
    }) line.now }
    ensures length { outcome.new.length ≡ 0 }
    ensures fault { outcome.new.fault_length ≤ 240 }
    ensures stated { ReportsFault result outcome.new.fault_length }
    ensures closed { handle.old.value ≡ None → fault_text outcome.new ≡ codes "usage" }
{
    outcome.clear();
    let Some(mut replica) = handle.take_out(alloc) else {
        return outcome.refuse(&CallError::Usage);
    };
    let taken = take_line_bytes(alloc, &mut replica.closure, line);
    handle.put(replica);
    match taken {
        Ok(Taken::New { accepted_now }) => outcome.count(Ok(accepted_now as u64)),
        Ok(Taken::Already) => ALREADY,
        Err(error) => outcome.refuse(&error),
    }
}

/// Distrusts a key of 64 lower-case hexadecimal digits in a domain. It counts the bundles that are
/// accepted no longer, and returns [`ALREADY`] if the record was held.
#[unsafe(no_mangle)]
pub extern "C" fn fedbundle_raw_distrust(
    alloc: Global,
    handle: &mut Handle,
    domain: &[u8],
    key: &[u8],
    outcome: &mut CallOutcome,
) -> i64
    ensures does { DistrustsByHandle (record {
      old = handle.old.value;
      new = handle.new.value;
      said = outcome.new.count;
      returned = result;
    }) domain.now key.now }
    ensures length { outcome.new.length ≡ 0 }
    ensures fault { outcome.new.fault_length ≤ 240 }
    ensures stated { ReportsFault result outcome.new.fault_length }
    ensures closed { handle.old.value ≡ None → fault_text outcome.new ≡ codes "usage" }
{
    outcome.clear();
    let Some(mut replica) = handle.take_out(alloc) else {
        return outcome.refuse(&CallError::Usage);
    };
    let distrusted = distrust_bytes(alloc, &mut replica.closure, domain, key);
    handle.put(replica);
    match distrusted {
        Ok(Distrusted::New { lost }) => outcome.count(Ok(lost as u64)),
        Ok(Distrusted::Already) => ALREADY,
        Err(error) => outcome.refuse(&error),
    }
}

/// Takes all of a snapshot, or nothing. It counts the receipts that were not held.
#[unsafe(no_mangle)]
pub extern "C" fn fedbundle_raw_merge(
    alloc: Global,
    handle: &mut Handle,
    snapshot: &[u8],
    outcome: &mut CallOutcome,
) -> i64
    ensures does { MergesByHandle (record {
      old = handle.old.value;
      new = handle.new.value;
      said = outcome.new.count;
      returned = result;
    }) snapshot.now }
    ensures length { outcome.new.length ≡ 0 }
    ensures fault { outcome.new.fault_length ≤ 240 }
    ensures stated { ReportsFault result outcome.new.fault_length }
    ensures closed { handle.old.value ≡ None → fault_text outcome.new ≡ codes "usage" }
{
    outcome.clear();
    let Some(mut replica) = handle.take_out(alloc) else {
        return outcome.refuse(&CallError::Usage);
    };
    let merged = merge_bytes(alloc, &mut replica.closure, snapshot);
    handle.put(replica);
    match merged {
        Ok(count) => outcome.count(Ok(count as u64)),
        Err(error) => outcome.refuse(&error),
    }
}

/// Observes a bundle that was fetched, and writes the line of its receipt, with a line feed. If
/// there is no room for the line, nothing is taken.
#[unsafe(no_mangle)]
pub extern "C" fn fedbundle_raw_observe(
    alloc: Global,
    handle: &mut Handle,
    domain: &[u8],
    endpoint: &[u8],
    key: &[u8],
    document: &[u8],
    out: &mut [u8],
    outcome: &mut CallOutcome,
) -> i64
    ensures does { ObservesByHandle
        (record {
          domain = domain.entry;
          endpoint = endpoint.entry;
          key = key.entry;
          document = document.entry;
        })
        (record { before = out.old; after = out.new })
        (record {
          old = handle.old.value;
          new = handle.new.value;
          said = outcome.new.length;
          returned = result;
        }) }
    ensures count { outcome.new.count ≡ 0 }
    ensures fault { outcome.new.fault_length ≤ 240 }
    ensures stated { ReportsFault result outcome.new.fault_length }
    ensures closed { handle.old.value ≡ None → fault_text outcome.new ≡ codes "usage" }
{
    outcome.clear();
    let Some(mut replica) = handle.take_out(alloc) else {
        return outcome.refuse(&CallError::Usage);
    };
    let fetched = FetchedBytes {
        domain,
        endpoint,
        key,
        document,
    };
    let observed = observe_bytes(alloc, &mut replica.closure, &fetched, out.len());
    handle.put(replica);
    match observed {
        Ok(ObservedBytes::Held(text)) => outcome.put(text.as_slice(), out),
        Ok(ObservedBytes::NeedsRoom(length)) => outcome.need(length),
        Err(error) => outcome.refuse(&error),
    }
}
