//! What came of what was offered.
ghost use Rattle.std.specs.Prelude.{◌≡◌};
ghost use Rattle.side_by_side.specs.Inside.Steps.{fate_when};

use closure_core::TakeError;

/// What came of a line that was offered to a closure.
#[derive(Clone, Copy, Debug, PartialEq, Eq)]
pub enum Fate {
    /// It is held now, and was not.
    Taken,
    /// It was held.
    Held,
    /// It does not fit the configuration.
    Unfit,
    /// It fits, but had no place.
    NoPlace,
    /// The line is not that of a receipt or a record of distrust.
    Unread,
}

/// What came of a receipt or a record that was refused. `None` if memory ran out.
pub(crate) fn fate_of(why: TakeError) -> Option<Fate>
    ensures { result ≡ fate_when why }
{
    match why {
        TakeError::UnknownDomain => Some(Fate::Unfit),
        TakeError::WrongEndpoint => Some(Fate::Unfit),
        TakeError::BelowFloor => Some(Fate::Unfit),
        TakeError::Full => Some(Fate::NoPlace),
        TakeError::NoMemory => None,
        TakeError::ConfigDiffers => None,
    }
}
