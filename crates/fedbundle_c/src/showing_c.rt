//! Exports: what a replica holds and accepts, as texts. They change nothing.
ghost use Rattle.std.specs.Prelude.{◌≡◌, ◌≤◌, codes};
ghost use Rattle.std.specs.declared.option.Option.TheVariants.{None};
ghost use Rattle.fedbundle_c.specs.Exports.{CurrentByHandle, ExplainsByHandle, ReportsByHandle};
ghost use Rattle.fedbundle_c.specs.Exports.{SnapshotsByHandle};
ghost use Rattle.replica_c_calls.specs.Outcomes.{ReportsFault, fault_text};

use crate::handle::Handle;
use replica_c_calls::{
    CallError, CallOutcome, current_bytes, explain_bytes, report_bytes, snapshot_bytes,
};
use std::alloc::Global;

/// Writes the report of what is accepted.
#[unsafe(no_mangle)]
pub extern "C" fn fedbundle_raw_replica_report(
    alloc: Global,
    handle: &mut Handle,
    out: &mut [u8],
    outcome: &mut CallOutcome,
) -> i64
    ensures does { ReportsByHandle (record { before = out.old; after = out.new })
        (record {
          old = handle.old.value;
          new = handle.new.value;
          said = outcome.new.length;
          returned = result;
        }) }
    ensures count { outcome.new.count ≡ 0 }
    ensures fault { outcome.new.fault_length ≤ 240 }
    ensures stated { ReportsFault result outcome.new.fault_length }
    ensures closed { handle.old.value ≡ None → fault_text outcome.new ≡ codes "usage" }
{
    outcome.clear();
    let Some(replica) = handle.take_out(alloc) else {
        return outcome.refuse(&CallError::Usage);
    };
    let made = report_bytes(alloc, &replica.closure);
    handle.put(replica);
    outcome.put_result(made, out)
}

/// Writes the snapshot of what is held.
#[unsafe(no_mangle)]
pub extern "C" fn fedbundle_raw_snapshot(
    alloc: Global,
    handle: &mut Handle,
    out: &mut [u8],
    outcome: &mut CallOutcome,
) -> i64
    ensures does { SnapshotsByHandle (record { before = out.old; after = out.new })
        (record {
          old = handle.old.value;
          new = handle.new.value;
          said = outcome.new.length;
          returned = result;
        }) }
    ensures count { outcome.new.count ≡ 0 }
    ensures fault { outcome.new.fault_length ≤ 240 }
    ensures stated { ReportsFault result outcome.new.fault_length }
    ensures closed { handle.old.value ≡ None → fault_text outcome.new ≡ codes "usage" }
{
    outcome.clear();
    let Some(replica) = handle.take_out(alloc) else {
        return outcome.refuse(&CallError::Usage);
    };
    let made = snapshot_bytes(alloc, &replica.closure);
    handle.put(replica);
    outcome.put_result(made, out)
}

/// Writes the current bundle of a domain in its canonical form, with a line feed, or returns
/// [`NONE`](replica_c_calls::NONE) if the domain has none.
#[unsafe(no_mangle)]
pub extern "C" fn fedbundle_raw_current(
    alloc: Global,
    handle: &mut Handle,
    domain: &[u8],
    out: &mut [u8],
    outcome: &mut CallOutcome,
) -> i64
    ensures does { CurrentByHandle domain.now (record { before = out.old; after = out.new })
        (record {
          old = handle.old.value;
          new = handle.new.value;
          said = outcome.new.length;
          returned = result;
        }) }
    ensures count { outcome.new.count ≡ 0 }
    ensures fault { outcome.new.fault_length ≤ 240 }
    ensures stated { ReportsFault result outcome.new.fault_length }
    ensures closed { handle.old.value ≡ None → fault_text outcome.new ≡ codes "usage" }
{
    outcome.clear();
    let Some(replica) = handle.take_out(alloc) else {
        return outcome.refuse(&CallError::Usage);
    };
    let made = current_bytes(alloc, &replica.closure, domain);
    handle.put(replica);
    outcome.put_option(made, out)
}

/// Writes the lines of a shortest chain of receipts to a document of a domain, or returns
/// [`NONE`](replica_c_calls::NONE) if the document is not accepted.
#[unsafe(no_mangle)]
pub extern "C" fn fedbundle_raw_explain(
    alloc: Global,
    handle: &mut Handle,
    domain: &[u8],
    document: &[u8],
    out: &mut [u8],
    outcome: &mut CallOutcome,
) -> i64
    ensures does { ExplainsByHandle domain.now document.now
        (record { before = out.old; after = out.new })
        (record {
          old = handle.old.value;
          new = handle.new.value;
          said = outcome.new.length;
          returned = result;
        }) }
    ensures count { outcome.new.count ≡ 0 }
    ensures fault { outcome.new.fault_length ≤ 240 }
    ensures stated { ReportsFault result outcome.new.fault_length }
    ensures closed { handle.old.value ≡ None → fault_text outcome.new ≡ codes "usage" }
{
    outcome.clear();
    let Some(replica) = handle.take_out(alloc) else {
        return outcome.refuse(&CallError::Usage);
    };
    let made = explain_bytes(alloc, &replica.closure, domain, document);
    handle.put(replica);
    outcome.put_option(made, out)
}
