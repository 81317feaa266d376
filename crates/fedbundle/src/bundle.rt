//! `bundle`: the current document of a domain.
ghost use Rattle.std.specs.Prelude.{◌≡◌, true, IfOk, OnOk, IsErr};
ghost use Rattle.std.specs.Io.KnownBytes.{Appends};
ghost use Rattle.byte_lines.specs.Device.{AppendsBeginning};
ghost use Rattle.command_exits.specs.DeviceRuns.{device_run};
ghost use Rattle.fedbundle.specs.CurrentBundle.{RunsBundle, RunsBundlePem, bundle_text};
ghost use Rattle.pem_text.specs.Pem.{certificates_pem};

use crate::two_parts::write_both;
use bundle_doc::Document;
use bundle_view::current;
use byte_lines::{Fault, Sink, write_all};
use closure_core::Closure;
use command_exits::CommandError;
use pem_text::push_certificates;
use spiffe_name::TrustDomain;
use std::alloc::{AllocError, Global};

/// Writes the canonical text of the domain's current document as a line, and returns whether there
/// is one. Without one, as for a domain that the configuration does not have, nothing is written.
/// It takes no memory.
///
/// # Errors
/// `Io` if the sink failed, which then holds a beginning of the line.
pub fn run_bundle<C: Closure, W: Sink>(
    closure: &C,
    domain: &TrustDomain,
    sink: &mut W,
) -> Result<bool, CommandError>
    ensures { RunsBundle (device_run W.contents W.has_failed sink.old sink.new)
        (C.state closure.now).meaning domain.now result }
{
    match current(closure, domain) {
        Some(document) => {
            write_document(document, sink)?;
            Ok(true)
        }
        None => Ok(false),
    }
}

/// Writes the certificates of the X.509 authorities of the domain's current document as PEM, in the
/// order of its canonical text, and returns whether there is such a document. One without an X.509
/// authority writes nothing. All memory is taken before the first byte is written.
///
/// # Errors
/// `NoMemory` if memory ran out, and nothing was written. `Io` if the sink failed, which then holds
/// a beginning of the text.
pub fn run_bundle_pem<C: Closure, W: Sink>(
    alloc: Global,
    closure: &C,
    domain: &TrustDomain,
    sink: &mut W,
) -> Result<bool, CommandError>
    ensures { RunsBundlePem (device_run W.contents W.has_failed sink.old sink.new)
        (C.state closure.now).meaning domain.now result }
{
    let Some(document) = current(closure, domain) else {
        return Ok(false);
    };
    let text = pem_of(alloc, document)?;
    write_all(sink, text.as_slice())?;
    Ok(true)
}

fn pem_of(alloc: Global, document: &Document) -> Result<Vec<u8>, AllocError>
    ensures { IfOk result (λ text. text.items ≡ certificates_pem document.now.authorities) }
{
    let mut text = Vec::new(alloc);
    push_certificates(alloc, &mut text, document.authorities())?;
    Ok(text)
}

fn write_document<W: Sink>(document: &Document, sink: &mut W) -> Result<(), Fault>
    ensures ok { OnOk result
        (Appends (W.contents sink.old) (W.contents sink.new) (bundle_text document.now)) }
    ensures beginning { AppendsBeginning (W.contents sink.old) (W.contents sink.new)
        (bundle_text document.now) }
    ensures io { IsErr result → W.has_failed sink.new ≡ true }
{
    write_both(sink, document.canonical(), b"\n")
}
