//! Which connection makes room if a table is full.
ghost use Rattle.std.specs.Prelude.{◌≡◌, ◌⊎◌};
ghost use Rattle.fair_turns.specs.GivingWay.{GoesFirst};

/// A connection that may make room.
#[derive(Clone, Copy, Debug)]
pub struct Candidate {
    /// Its number: one that came earlier has a lower one.
    pub serial: usize,
    /// For how many milliseconds it has asked nothing whole.
    pub quiet: u64,
}

/// Which of two makes room: the one that has asked nothing whole for longer, or, if it is the same
/// for both, the one that came earlier.
pub fn first_to_go(one: Candidate, other: Candidate) -> Candidate
    ensures among { (result ≡ one) ⊎ (result ≡ other) }
    ensures before_one { GoesFirst result one }
    ensures before_other { GoesFirst result other }
{
    if one.quiet > other.quiet || (one.quiet == other.quiet && one.serial <= other.serial) {
        one
    } else {
        other
    }
}
