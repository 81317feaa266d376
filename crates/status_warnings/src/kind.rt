//! The names of what is warned of.
ghost use Rattle.std.specs.Prelude.{◌≡◌};
ghost use Rattle.status_warnings.specs.WarningLines.{kind_of_fault, kind_name, stock_name};

use crate::warning_kinds::{DomainFault, Stock, Warning};

/// The name of a warning's kind.
pub(crate) fn kind_name(warning: &Warning) -> &'static str
    ensures { result.now ≡ kind_name warning.now }
{
    match warning {
        Warning::Domain(fault, _) => kind_of_fault(*fault),
        Warning::SameKey(..) => "same-key",
        Warning::Expires(..) => "expires",
        Warning::NotFetched(..) => "not-fetched",
        Warning::QuietPeer(..) => "quiet-peer",
        Warning::NearlyFull(..) => "nearly-full",
    }
}

fn kind_of_fault(fault: DomainFault) -> &'static str
    ensures { result.now ≡ kind_of_fault fault }
{
    match fault {
        DomainFault::NoCurrent => "no-current",
        DomainFault::LockedOut => "locked-out",
        DomainFault::Conflict => "conflict",
        DomainFault::NoSequence => "no-sequence",
    }
}

/// The name of what is held.
pub(crate) fn stock_name(stock: Stock) -> &'static str
    ensures { result.now ≡ stock_name stock }
{
    match stock {
        Stock::Receipts => "receipts",
        Stock::Records => "records",
    }
}
