//! The current document of a domain.
ghost use Rattle.std.specs.Prelude.{option_copied};
ghost use Rattle.bundle_view.specs.Current.{IsCurrent};

use bundle_doc::Document;
use closure_core::Closure;
use spiffe_name::TrustDomain;

/// The current document of the domain: the accepted one with the greatest rank (an absent rank is
/// below 0), and among those of one rank the one with the greatest canonical text, by its bytes.
/// `None` exactly if none of the domain is accepted, so also for a domain that the configuration
/// does not have.
///
/// It takes no memory. The domain's documents are searched for among all, and looked at from the
/// greatest down: the current one is the only accepted one that is looked at.
pub fn current<'a, C: Closure>(closure: &'a C, domain: &TrustDomain) -> Option<&'a Document>
    ensures { IsCurrent (C.state closure.now).meaning domain.now (option_copied result) }
{
    closure.accepted(domain).into_last()
}
