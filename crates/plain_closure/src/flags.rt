//! Flags of receipts that an accepted document vouches for.
ghost use Rattle.std.specs.Prelude.{◌≡◌, ℕ, false, length};
ghost use Rattle.closure_core.specs.Inside.Nodes.{is_raised};
ghost use Rattle.closure_core.specs.Inside.Flags.{raised_count};

/// Lowers all flags, and returns how many were raised.
pub(crate) fn lower_all(flags: &mut [bool]) -> usize
    ensures size { length flags.new ≡ length flags.old }
    ensures lowered { (number : ℕ) → is_raised flags.new number ≡ false }
    ensures count { result ≡ raised_count flags.old }
{
    let count = flags.iter().filter(|flag| **flag).count();
    flags.fill(false);
    count
}
