//! What a handle holds.
use trust_closure::ExchangeClosure;

/// A replica that exchanges receipts, over the index.
#[derive(Drop)]
pub struct Replica {
    pub(crate) closure: ExchangeClosure,
}
