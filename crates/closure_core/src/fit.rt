//! Whether a receipt fits the configuration, for all who take receipts or look ahead at them.
ghost use Rattle.std.specs.Prelude.{MatchResult};
ghost use Rattle.receipt_core.specs.Receipt.{IsReceipt};
ghost use Rattle.receipt_core.specs.Acceptance.{IsFitting};
ghost use Rattle.closure_core.specs.Refusals.{RefusesFit};

use crate::error::TakeError;
use fed_config::Config;
use receipt_core::{Receipt, reaches_floor};

/// Whether the configuration has a relationship with the receipt's domain, the receipt's endpoint
/// in it, and no floor of that domain above the receipt's document. The relationship and the floor
/// are found by binary search.
///
/// # Errors
/// The first that holds of
/// - [`TakeError::UnknownDomain`]: the configuration has no relationship with the receipt's domain,
/// - [`TakeError::WrongEndpoint`]: that relationship has another endpoint,
/// - [`TakeError::BelowFloor`]: the sequence number of the document is lower than the floor of the
///   domain, or the domain has a floor and the document has no sequence number.
pub fn check_fit(config: &Config, receipt: &Receipt) -> Result<(), TakeError>
    ensures fits { MatchResult result (λ _. IsFitting config.now receipt.now)
        (RefusesFit config.now receipt.now) }
    ensures form { IsReceipt receipt.now }
{
    let Some(relationship) = config.relationship(receipt.domain()) else {
        return Err(TakeError::UnknownDomain);
    };
    if relationship.endpoint.as_str() != receipt.endpoint().as_str() {
        return Err(TakeError::WrongEndpoint);
    }
    if reaches_floor(config, receipt.domain(), receipt.document()) {
        Ok(())
    } else {
        Err(TakeError::BelowFloor)
    }
}
