//! Whether a document reaches the floor of its domain.
ghost use Rattle.std.specs.Prelude.{◌↔◌, IsTrue, MatchBool};
ghost use Rattle.fed_config.specs.Configuration.{Reaches, ReachesFloor};
ghost use Rattle.receipt_core.specs.Acceptance.{MissesFloor};

use bundle_doc::Document;
use fed_config::Config;
use spiffe_name::TrustDomain;

/// Whether the document reaches the floor that the configuration has for the domain: it has a
/// sequence number (SPIFFE Trust Domain and Bundle, section 4.1.1) that is not lower. If the domain
/// has no floor, each document does. The floor is found by binary search.
pub fn reaches_floor(config: &Config, domain: &TrustDomain, document: &Document) -> bool
    ensures { MatchBool result (ReachesFloor config.now domain.now document.now)
        (MissesFloor config.now domain.now document.now) }
{
    match config.floor(domain) {
        Some(floor) => reaches(document, floor),
        None => true,
    }
}

fn reaches(document: &Document, floor: u64) -> bool
    ensures { IsTrue result ↔ Reaches floor document.now }
{
    match document.rank() {
        Some(sequence) => floor <= sequence,
        None => false,
    }
}
