//! `canon`: a bundle document as it was fetched, printed in its canonical form with its ids.
ghost use Rattle.std.specs.Prelude.{◌≡◌, ◌++◌, IfOk, IsErrOf, OnOk};
ghost use Rattle.fedbundle.specs.Canon.{RunsCanon, RunsCanonOn, canon_call, canon_in, canon_text};
ghost use Rattle.fedbundle.specs.Canon.{digest_line, key_line, key_lines};
ghost use Rattle.fedbundle.specs.CommandRun.{run_of};
ghost use Rattle.command_exits.specs.DeviceRuns.{device_run};
ghost use Rattle.command_exits.specs.declared.error.CommandError.TheVariants.{Io};
ghost use Rattle.bundle_doc.specs.Bundle.{canonical_text};
ghost use Rattle.jwk_set.specs.Element.{key_id_of};

use crate::two_parts::write_both;
use bundle_doc::{Document, MAX_DOCUMENT_BYTES};
use byte_lines::{Sink, Source, push_digits, read_up_to};
use command_exits::CommandError;
use command_line::OutputForm;
use json_reports::document_json;
use jwk_set::Authority;
use spiffe_name::TrustDomain;
use std::alloc::{AllocError, Global};

/// Reads a bundle document of the domain and writes its canonical text, a line `id` with its
/// document id, and for each X.509 authority a line `key` with its key id, in the order of the
/// canonical text; or the same as JSON ([`json_reports::document_json`]).
///
/// It reads at most one byte more than a document may have. Nothing is written before the whole
/// text is made.
///
/// # Errors
/// `Document` if the bytes are not a document, `NoMemory` if memory ran out: then nothing was
/// written. `Io` if the source failed, and nothing was written, or if the sink failed, which then
/// holds a beginning of the text.
pub fn run_canon<R: Source, W: Sink>(
    alloc: Global,
    domain: &TrustDomain,
    form: OutputForm,
    source: &mut R,
    sink: &mut W,
) -> Result<(), CommandError>
    ensures runs { RunsCanon
        (run_of (device_run R.remaining R.has_failed source.old source.new)
        (device_run W.contents W.has_failed sink.old sink.new))
        domain.now form result }

    // No error of a device is passed over, or reported as another one.
    ensures sound { (IsErrOf result Io → ⊥) → (R.has_failed source.new ≡ R.has_failed source.old)
        × (W.has_failed sink.new ≡ W.has_failed sink.old) }
{
    let bytes = read_up_to(alloc, source, MAX_DOCUMENT_BYTES + 1)?;
    run_canon_bytes(alloc, domain, form, bytes.as_slice(), sink)
}

/// Writes what [`run_canon`] writes, of bytes that were read already.
///
/// # Errors
/// `Document` if the bytes are not a document, `NoMemory` if memory ran out: then nothing was
/// written. `Io` if the sink failed, which then holds a beginning of the text.
pub fn run_canon_bytes<W: Sink>(
    alloc: Global,
    domain: &TrustDomain,
    form: OutputForm,
    bytes: &[u8],
    sink: &mut W,
) -> Result<(), CommandError>
    ensures runs { RunsCanonOn bytes.now (device_run W.contents W.has_failed sink.old sink.new)
        (canon_call domain.now form) result }

    // An error of the sink is not passed over, or reported as another one.
    ensures sound { (IsErrOf result Io → ⊥) → (W.has_failed sink.new ≡ W.has_failed sink.old) }
{
    let document = Document::read(alloc, bytes)?;
    let (canonical, rest) = parts_in(alloc, form, domain, &document)?;
    write_both(sink, canonical, rest.as_slice())?;
    Ok(())
}

// The text in two parts. In a text the first one is the document's own, so it is not copied.
fn parts_in<'a>(
    alloc: Global,
    form: OutputForm,
    domain: &TrustDomain,
    document: &'a Document,
) -> Result<(&'a [u8], Vec<u8>), AllocError>
    ensures { IfOk result (λ r. r.0.now ++ r.1.items ≡ canon_in form domain.now document.now) }
{
    match form {
        OutputForm::Text => {
            let ids = ids_of(alloc, domain, document)?;
            Ok((document.canonical(), ids))
        }
        OutputForm::Json => {
            let json = document_json(alloc, domain, document)?;
            Ok((&[], json))
        }
    }
}

// What follows the canonical text.
fn ids_of(alloc: Global, domain: &TrustDomain, document: &Document) -> Result<Vec<u8>, AllocError>
    ensures { IfOk result (λ text. canonical_text document.now ++ text.items
        ≡ canon_text domain.now document.now) }
{
    let mut out = Vec::new(alloc);
    out.push(b'\n')?;
    push_digest(&mut out, b"id ", &document.id(domain).0)?;
    push_keys(&mut out, document.authorities())?;
    Ok(out)
}

fn push_keys(out: &mut Vec<u8>, authorities: &[Authority]) -> Result<(), AllocError>
    ensures { OnOk result (out.new.items ≡ out.old.items ++ key_lines authorities.now) }
{
    for authority in authorities {
        push_key(out, authority)?;
    }
    Ok(())
}

fn push_key(out: &mut Vec<u8>, authority: &Authority) -> Result<(), AllocError>
    ensures { OnOk result (out.new.items ≡ out.old.items ++ key_line (key_id_of authority.now)) }
{
    match authority.key_id() {
        Some(key) => push_digest(out, b"key ", &key.0),
        None => Ok(()),
    }
}

fn push_digest(out: &mut Vec<u8>, label: &[u8], digest: &[u8; 32]) -> Result<(), AllocError>
    ensures { OnOk result (out.new.items ≡ out.old.items ++ digest_line label.now digest.now) }
{
    out.extend_from_slice(label)?;
    push_digits(out, digest)?;
    out.push(b'\n')?;
    Ok(())
}
