//! Why a document is accepted.
ghost use Rattle.std.specs.Prelude.{◌≡◌, ◌↔◌, IsTrue, IfOk, OnErr, MatchOption, Any, Contains};
ghost use Rattle.fed_config.specs.declared.seed.Seed.{Seed};
ghost use Rattle.receipt_core.specs.Acceptance.{IsMember, pair_of_seed};
ghost use Rattle.closure_core.specs.AcceptedList.{document_of};
ghost use Rattle.bundle_view.specs.Explain.{IsShortest};

use crate::steps::{chain_to, search};
use crate::trusted_receipts::list_waiting;
use bundle_doc::Document;
use closure_core::{Closure, NoMemory};
use fed_config::Seed;
use receipt_core::Receipt;
use spiffe_name::TrustDomain;
use std::alloc::Global;

/// Why the document is accepted as one of this domain: a chain of held receipts that leads to it
/// from a configured document, each vouched for by the document before it (SPIFFE Federation,
/// section 5.2, profile `https_spiffe`). No chain of held receipts that leads to it is shorter; it
/// may be any of the shortest ones. It is empty for a configured document, and `None` for one that
/// is not accepted. One that is not empty is a chain to [`check_chain`](receipt_core::check_chain)
/// with the closure's configuration and records of distrust.
///
/// # Memory and work
/// No clause speaks of these. The work grows with the receipts and with what their documents offer,
/// times the logarithm of how many receipts there are, and not with the length of the chain times
/// these. A configured document takes no memory; any other some 50 bytes for each receipt that is
/// held, 16 bytes for each record of distrust, what one configured document offers, and a copy of
/// each receipt of the chain.
///
/// # Errors
/// Memory ran out, which is never answered for a configured document.
pub fn explain<C: Closure>(
    alloc: Global,
    closure: &C,
    domain: &TrustDomain,
    document: &Document,
) -> Result<Option<Vec<Receipt>>, NoMemory>
    ensures ok { IfOk result
        (λ explained. MatchOption explained
        (IsMember (C.state closure.now).meaning (document_of domain.now document.now) → ⊥)
        (λ chain. IsShortest (C.state closure.now).meaning (document_of domain.now document.now)
        chain.items)) }
    ensures memory { OnErr result
        ((s : Seed) → Contains (C.state closure.now).meaning.config.seeds s
        → pair_of_seed s ≡ document_of domain.now document.now → ⊥) }
{
    let seeds = closure.config().seeds();
    if is_configured(seeds, domain, document) {
        return Ok(Some(Vec::new(alloc)));
    }
    let waiting = list_waiting(alloc, closure)?;
    let mut steps = Vec::with_capacity(alloc, waiting.len())?;
    match search(
        alloc,
        seeds,
        waiting.as_slice(),
        &mut steps,
        domain,
        document,
    )? {
        Some(last) => Ok(Some(chain_to(alloc, steps.as_slice(), last)?)),
        None => Ok(None),
    }
}

/// Whether the document is configured for the domain.
fn is_configured(seeds: &[Seed], domain: &TrustDomain, document: &Document) -> bool
    ensures { IsTrue result
        ↔ Any (λ s. pair_of_seed s ≡ document_of domain.now document.now) seeds.now }
{
    seeds.iter().any(|seed| is_seed_of(seed, domain, document))
}

fn is_seed_of(seed: &Seed, domain: &TrustDomain, document: &Document) -> bool
    ensures { IsTrue result ↔ (pair_of_seed seed.now ≡ document_of domain.now document.now) }
{
    seed.domain == *domain && seed.document == *document
}
