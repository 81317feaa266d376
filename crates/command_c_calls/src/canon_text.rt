//! The canonical form of a document, with its ids.
ghost use Rattle.std.specs.Prelude.{MatchResult};
ghost use Rattle.command_c_calls.specs.Canonical.{RefusesCanon, RefusesCanonBytes};
ghost use Rattle.command_c_calls.specs.Canonical.{WritesCanon, WritesCanonBytes};

use fedbundle::{CommandError, OutputForm, run_canon};
use replica_c_calls::{CallError, GrowingSink, domain_of, source_of};
use spiffe_name::TrustDomain;
use std::alloc::Global;

/// The canonical text of the document of the domain with this name, a line `id` with its document
/// id, and for each X.509 authority a line `key` with its key id, as [`run_canon`] writes them.
///
/// # Errors
/// The first of these that holds:
/// - [`CallError::Usage`], [`CallError::Name`]: the bytes are not a domain's name,
/// - [`CallError::Document`]: they are not a document,
/// - [`CallError::NoMemory`]: memory ran out.
pub fn canon_bytes(alloc: Global, domain: &[u8], document: &[u8]) -> Result<Vec<u8>, CallError>
    ensures { MatchResult result (λ text. WritesCanonBytes domain.now document.now text.items)
        (RefusesCanonBytes domain.now document.now) }
{
    let domain = domain_of(alloc, domain)?;
    canon_of(alloc, &domain, document)
}

fn canon_of(alloc: Global, domain: &TrustDomain, document: &[u8]) -> Result<Vec<u8>, CallError>
    ensures { MatchResult result (λ text. WritesCanon domain.now document.now text.items)
        (RefusesCanon document.now) }
{
    let mut source = source_of(alloc, document)?;
    let mut sink = GrowingSink::new(alloc);
    match run_canon(alloc, domain, OutputForm::Text, &mut source, &mut sink) {
        Ok(()) => Ok(sink.into_text()),
        Err(CommandError::Document(why)) => Err(CallError::Document(why)),
        // Bytes in memory do not fail, and the sink fails only for lack of memory.
        Err(_) => Err(CallError::NoMemory),
    }
}
