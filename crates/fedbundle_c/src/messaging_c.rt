//! Exports: the messages between replicas.
ghost use Rattle.std.specs.Prelude.{◌≡◌, ◌≤◌, codes};
ghost use Rattle.std.specs.declared.option.Option.TheVariants.{None};
ghost use Rattle.fedbundle_c.specs.Exports.{AbsorbsByHandle, AnswersByHandle, HavesByHandle};
ghost use Rattle.replica_c_calls.specs.Outcomes.{ReportsFault, fault_text};

use crate::handle::Handle;
use replica_c_calls::{CallError, CallOutcome, absorb_bytes, answer_bytes, have_bytes};
use std::alloc::Global;

/// Writes the have of a bucket: what the replica holds of it.
#[unsafe(no_mangle)]
pub extern "C" fn fedbundle_raw_have(
    alloc: Global,
    handle: &mut Handle,
    bucket: u8,
    out: &mut [u8],
    outcome: &mut CallOutcome,
) -> i64
    ensures does { HavesByHandle bucket (record { before = out.old; after = out.new })
        (record {
          old = handle.old.value;
          new = handle.new.value;
          said = outcome.new.length;
          returned = result;
        }) }
    ensures count { outcome.new.count ≡ 0 }
    ensures fault { outcome.new.fault_length ≤ 240 }
    ensures stated { ReportsFault result outcome.new.fault_length }
    ensures closed { handle.old.value ≡ None → fault_text outcome.new ≡ codes "usage" }
{
    outcome.clear();
    let Some(replica) = handle.take_out(alloc) else {
        return outcome.refuse(&CallError::Usage);
    };
    let made = have_bytes(alloc, &replica.closure, bucket);
    handle.put(replica);
    outcome.put_result(made, out)
}

/// Writes the answer to another replica's have.
#[unsafe(no_mangle)]
pub extern "C" fn fedbundle_raw_answer(
    alloc: Global,
    handle: &mut Handle,
    asked: &[u8],
    out: &mut [u8],
    outcome: &mut CallOutcome,
) -> i64
    ensures does { AnswersByHandle asked.now (record { before = out.old; after = out.new })
        (record {
          old = handle.old.value;
          new = handle.new.value;
          said = outcome.new.length;
          returned = result;
        }) }
    ensures count { outcome.new.count ≡ 0 }
    ensures fault { outcome.new.fault_length ≤ 240 }
    ensures stated { ReportsFault result outcome.new.fault_length }
    ensures closed { handle.old.value ≡ None → fault_text outcome.new ≡ codes "usage" }
{
    outcome.clear();
    let Some(replica) = handle.take_out(alloc) else {
        return outcome.refuse(&CallError::Usage);
    };
    let made = answer_bytes(alloc, &replica.closure, asked);
    handle.put(replica);
    outcome.put_result(made, out)
}

/// Takes all of an answer, or nothing. It counts the receipts that were not held.
#[unsafe(no_mangle)]
pub extern "C" fn fedbundle_raw_absorb(
    alloc: Global,
    handle: &mut Handle,
    answered: &[u8],
    outcome: &mut CallOutcome,
) -> i64
    ensures does { AbsorbsByHandle (record {
      old = handle.old.value;
      new = handle.new.value;
      said = outcome.new.count;
      returned = result;
    }) answered.now }
    ensures length { outcome.new.length ≡ 0 }
    ensures fault { outcome.new.fault_length ≤ 240 }
    ensures stated { ReportsFault result outcome.new.fault_length }
    ensures closed { handle.old.value ≡ None → fault_text outcome.new ≡ codes "usage" }
{
    outcome.clear();
    let Some(mut replica) = handle.take_out(alloc) else {
        return outcome.refuse(&CallError::Usage);
    };
    let absorbed = absorb_bytes(alloc, &mut replica.closure, answered);
    handle.put(replica);
    match absorbed {
        Ok(count) => outcome.count(Ok(count as u64)),
        Err(error) => outcome.refuse(&error),
    }
}
