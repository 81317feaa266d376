//! Exports: the version, and a handle opened and closed.
ghost use Rattle.std.specs.Prelude.{◌≡◌, ◌≤◌, codes, MatchResult};
ghost use Rattle.std.specs.declared.option.Option.TheVariants.{None};
ghost use Rattle.fedbundle_c.specs.Exports.{OpensHandle, meaning_in};
ghost use Rattle.replica_c_calls.specs.Opening.{OpensBytes, RefusesOpening};
ghost use Rattle.replica_c_calls.specs.Outcomes.{ReportsFault, WritesOut, out_run};

use crate::handle::Handle;
use crate::held_replica::Replica;
use replica_c_calls::{CallError, CallOutcome, DONE, open_bytes};
use std::alloc::Global;
use trust_closure::ExchangeClosure;

/// Writes the version of the library, without a line feed.
#[unsafe(no_mangle)]
pub extern "C" fn fedbundle_raw_version(out: &mut [u8], outcome: &mut CallOutcome) -> i64
    ensures does { WritesOut (codes "0.15.0") (out_run out.old out.new outcome.new.length result) }
    ensures count { outcome.new.count ≡ 0 }
    ensures fault { outcome.new.fault_length ≤ 240 }
    ensures stated { ReportsFault result outcome.new.fault_length }
{
    outcome.put(b"0.15.0", out)
}

/// Opens a closed handle: it holds a replica of the configuration then, with what the snapshot
/// holds, or with nothing if there are no bytes of a snapshot. If it is refused, the handle is
/// unchanged.
#[unsafe(no_mangle)]
pub extern "C" fn fedbundle_raw_open(
    alloc: Global,
    handle: &mut Handle,
    config: &[u8],
    snapshot: &[u8],
    outcome: &mut CallOutcome,
) -> i64
    ensures does { OpensHandle handle.old.value config.now snapshot.now handle.new.value result }
    ensures count { outcome.new.count ≡ 0 }
    ensures length { outcome.new.length ≡ 0 }
    ensures fault { outcome.new.fault_length ≤ 240 }
    ensures stated { ReportsFault result outcome.new.fault_length }
{
    outcome.clear();
    if let Some(before) = handle.take_out(alloc) {
        handle.put(before);
        return outcome.refuse(&CallError::Usage);
    }
    match opened(alloc, config, snapshot) {
        Ok(replica) => {
            handle.put(replica);
            DONE
        }
        Err(error) => outcome.refuse(&error),
    }
}

fn opened(alloc: Global, config: &[u8], snapshot: &[u8]) -> Result<Box<Replica>, CallError>
    ensures { MatchResult result
        (λ b. OpensBytes config.now snapshot.now (meaning_in b.value))
        (RefusesOpening config.now snapshot.now) }
{
    let closure: ExchangeClosure = open_bytes(alloc, config, snapshot)?;
    match Box::new(alloc, Replica { closure }) {
        Ok(replica) => Ok(replica),
        Err(_) => Err(CallError::NoMemory),
    }
}

/// Frees the replica of a handle. A closed handle remains closed. That its memory is given back is
/// only tested, under valgrind: no contract counts memory.
#[unsafe(no_mangle)]
pub extern "C" fn fedbundle_raw_close(alloc: Global, handle: &mut Handle)
    ensures { handle.new.value ≡ None }
{
    if let Some(replica) = handle.take_out(alloc) {
        drop(replica);
    }
}
