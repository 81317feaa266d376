//! How much was offered, and what came of it.
ghost use Rattle.std.specs.Prelude.{◌≡◌, ◌+◌, ◌<◌, ◌^◌};
ghost use Rattle.side_by_side.specs.Offering.{counted_fate, none_offered};
ghost use Rattle.side_by_side.specs.Inside.Steps.{offered_count};

use crate::fate::Fate;

/// How many lines were offered, by what came of them.
#[derive(Clone, Copy, Debug, PartialEq, Eq)]
pub struct Offered {
    /// What they say is held now, and was not.
    pub taken: u64,
    /// It was held.
    pub held: u64,
    /// It does not fit the configuration.
    pub unfit: u64,
    /// It fits, but had no place.
    pub no_place: u64,
    /// They are not lines of receipts or records of distrust.
    pub unread: u64,
}

/// No line.
pub(crate) fn no_lines() -> Offered
    ensures { result ≡ none_offered }
{
    Offered {
        taken: 0,
        held: 0,
        unfit: 0,
        no_place: 0,
        unread: 0,
    }
}

/// One line more.
pub(crate) fn count_line(offered: Offered, fate: Fate) -> Offered
    requires { offered_count offered + 1 < 2 ^ 64 }
    ensures { result ≡ counted_fate fate offered }
{
    let mut more = offered;
    match fate {
        Fate::Taken => more.taken += 1,
        Fate::Held => more.held += 1,
        Fate::Unfit => more.unfit += 1,
        Fate::NoPlace => more.no_place += 1,
        Fate::Unread => more.unread += 1,
    }
    more
}
