//! `observe`: a bundle as it was fetched, taken with what TLS said.
ghost use Rattle.std.specs.Prelude.{◌≡◌, IfErr, IfOk};
ghost use Rattle.fedbundle.specs.CommandRun.{run_of, state_run};
ghost use Rattle.command_exits.specs.DeviceRuns.{device_run};
ghost use Rattle.fedbundle.specs.Explain.{receipt_line};
ghost use Rattle.fedbundle.specs.Observe.{MakesReceipt, RefusesToMake, RunsObserve};

use bundle_doc::MAX_DOCUMENT_BYTES;
use bundle_view::{Verdict, observed_receipt, take_observed};
use byte_lines::{Sink, Source, read_up_to, write_all};
use closure_core::Closure;
use command_exits::CommandError;
use receipt_core::Receipt;
use spiffe_name::TrustDomain;
use std::alloc::{AllocError, Global};

/// Reads a bundle document of the domain as it was fetched, takes the receipt that the verdict on
/// its endpoint makes of it, and writes the receipt's line. It reads at most one byte more than a
/// document may have.
///
/// # Errors
/// `Observe` if nothing is observed: then what is held is as it was, and nothing was written.
/// `NoMemory` if memory ran out for the bytes or for the receipt's line: then nothing was observed
/// or written. `Io` if the source failed, and nothing was observed or written, or if the sink
/// failed: then the receipt is held, and a beginning of its line was written.
pub fn run_observe<C: Closure, R: Source, W: Sink>(
    alloc: Global,
    closure: &mut C,
    domain: &TrustDomain,
    verdict: &Verdict,
    source: &mut R,
    sink: &mut W,
) -> Result<(), CommandError>
    ensures { RunsObserve
        (run_of (device_run R.remaining R.has_failed source.old source.new)
        (device_run W.contents W.has_failed sink.old sink.new))
        (state_run (C.state closure.old) (C.state closure.new))
        (record { domain = domain.now; verdict = verdict.now }) result }
{
    let observed = prepare_observe(alloc, closure, domain, verdict, source)?;
    take_observed(closure, observed.receipt)?;
    write_all(sink, observed.line.as_slice())?;
    Ok(())
}

/// A receipt that a bundle makes, before it is taken.
#[derive(Debug, Drop)]
pub struct Observed {
    pub receipt: Receipt,
    /// The receipt's line, with its line feed.
    pub line: Vec<u8>,
}

/// The first half of [`run_observe`], which takes all its memory except for the receipt's place in
/// what is held. Nothing is taken or written.
///
/// # Errors
/// Those of [`run_observe`] before anything is taken.
pub fn prepare_observe<C: Closure, R: Source>(
    alloc: Global,
    closure: &C,
    domain: &TrustDomain,
    verdict: &Verdict,
    source: &mut R,
) -> Result<Observed, CommandError>
    ensures receipt { IfOk result (λ observed. MakesReceipt
        (device_run R.remaining R.has_failed source.old source.new) (C.state closure.now).meaning
        (record { domain = domain.now; verdict = verdict.now }) observed.receipt) }
    ensures line { IfOk result (λ observed. observed.line.items ≡ receipt_line observed.receipt) }
    ensures refused { IfErr result (RefusesToMake
        (device_run R.remaining R.has_failed source.old source.new) (C.state closure.now).meaning
        (record { domain = domain.now; verdict = verdict.now })) }
{
    let bytes = read_up_to(alloc, source, MAX_DOCUMENT_BYTES + 1)?;
    let receipt = observed_receipt(alloc, closure, domain, bytes.as_slice(), verdict)?;
    let line = render(alloc, &receipt)?;
    Ok(Observed { receipt, line })
}

fn render(alloc: Global, receipt: &Receipt) -> Result<Vec<u8>, AllocError>
    ensures { IfOk result (λ text. text.items ≡ receipt_line receipt.now) }
{
    let mut text = receipt.write_line(alloc)?;
    text.push(b'\n')?;
    Ok(text)
}
