//! `explain`: the receipts by which a document is accepted.
ghost use Rattle.fedbundle.specs.CommandRun.{run_of};
ghost use Rattle.command_exits.specs.DeviceRuns.{device_run};
ghost use Rattle.fedbundle.specs.Explain.{RunsExplain, explanation_call};

use crate::chain_text::explanation_text;
use bundle_doc::{Document, MAX_DOCUMENT_BYTES};
use bundle_view::explain;
use byte_lines::{Sink, Source, read_up_to, write_all};
use closure_core::Closure;
use command_exits::CommandError;
use command_line::ExplanationForm;
use spiffe_name::TrustDomain;
use std::alloc::Global;

/// Reads a bundle document and writes why it is accepted as one of the domain: a shortest chain of
/// receipts from a configured document to it, in this form. Returns whether it is accepted; if it
/// is not, nothing is written. It reads at most one byte more than a document may have, and nothing
/// is written before the whole text is made.
///
/// # Errors
/// `Document` if the bytes are not a document, `NoMemory` if memory ran out: then nothing was
/// written. `Io` if the source failed, and nothing was written, or if the sink failed, which then
/// holds a beginning of the text.
pub fn run_explain<C: Closure, R: Source, W: Sink>(
    alloc: Global,
    closure: &C,
    domain: &TrustDomain,
    form: ExplanationForm,
    source: &mut R,
    sink: &mut W,
) -> Result<bool, CommandError>
    ensures { RunsExplain
        (run_of (device_run R.remaining R.has_failed source.old source.new)
        (device_run W.contents W.has_failed sink.old sink.new))
        (C.state closure.now).meaning (explanation_call domain.now form) result }
{
    let bytes = read_up_to(alloc, source, MAX_DOCUMENT_BYTES + 1)?;
    let document = Document::read(alloc, bytes.as_slice())?;
    let Some(chain) = explain(alloc, closure, domain, &document)? else {
        return Ok(false);
    };
    let text = explanation_text(alloc, form, domain, &document, chain.as_slice())?;
    write_all(sink, text.as_slice())?;
    Ok(true)
}
