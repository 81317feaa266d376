//! Exports: the calls that hold no replica.
ghost use Rattle.std.specs.Prelude.{◌≤◌};
ghost use Rattle.fedbundle_c.specs.Stateless.{CanonsByBytes, ReportsByBytes};
ghost use Rattle.replica_c_calls.specs.Outcomes.{ReportsFault};

use command_c_calls::{canon_bytes, report_lines};
use replica_c_calls::CallOutcome;
use std::alloc::Global;

/// Writes the report of what is accepted from the receipts of these lines. It counts the lines
/// without a receipt that fits.
#[unsafe(no_mangle)]
pub extern "C" fn fedbundle_raw_report(
    alloc: Global,
    config: &[u8],
    lines: &[u8],
    out: &mut [u8],
    outcome: &mut CallOutcome,
) -> i64
    ensures does { ReportsByBytes config.now lines.now
        (record { before = out.old; after = out.new })
        (record {
          count = outcome.new.count;
          length = outcome.new.length;
          returned = result;
        }) }
    ensures fault { outcome.new.fault_length ≤ 240 }
    ensures stated { ReportsFault result outcome.new.fault_length }
{
    match report_lines(alloc, config, lines) {
        Ok(reported) => {
            let returned = outcome.put(reported.report.as_slice(), out);
            outcome.count = reported.refused;
            returned
        }
        Err(error) => {
            outcome.clear();
            outcome.refuse(&error)
        }
    }
}

/// Writes the canonical text of a document of a domain, its id and the ids of its keys.
#[unsafe(no_mangle)]
pub extern "C" fn fedbundle_raw_canon(
    alloc: Global,
    domain: &[u8],
    document: &[u8],
    out: &mut [u8],
    outcome: &mut CallOutcome,
) -> i64
    ensures does { CanonsByBytes domain.now document.now
        (record { before = out.old; after = out.new })
        (record {
          count = outcome.new.count;
          length = outcome.new.length;
          returned = result;
        }) }
    ensures fault { outcome.new.fault_length ≤ 240 }
    ensures stated { ReportsFault result outcome.new.fault_length }
{
    let made = canon_bytes(alloc, domain, document);
    outcome.put_result(made, out)
}
