//! The sums of all parts of what a replica holds.
ghost use Rattle.std.specs.Prelude.{◌≡◌, ◌<◌, ◌++◌, length, map, OnOk, [], slice_index_or};
ghost use Rattle.bucket_sums.specs.Lines.{part_count, differs, sum_line, sums_text};

use crate::sum::Sum;
use byte_lines::push_digits;
use std::alloc::AllocError;
use std::marker::Model;

/// The sums of what a replica holds: one of its records of distrust, and then one of the receipts
/// of each bucket.
#[derive(Debug, Drop)]
pub struct Sums {
    sums: Vec<Sum>,
}

impl Model for Sums {
    ghost use Rattle.std.specs.Prelude.{List, ℕ, ◌≡◌, length, map};
    ghost use Rattle.bucket_sums.specs.Lines.{part_count};

    ghost Value = { List (List ℕ) };

    ghost view = { λ s. map (λ sum. sum.0) s.sums.items };

    ghost invariant = { λ s. length s.sums.items ≡ part_count };
}

impl Sums {
    /// The sums of all parts.
    pub(crate) fn of_all(sums: Vec<Sum>) -> Sums
        requires { length sums.items ≡ part_count }
        ensures { result ≡ map (λ sum. sum.0) sums.items }
    {
        Sums { sums }
    }

    /// There is a sum for each part.
    pub(crate) fn all(&self)
        ensures { length self.now ≡ part_count }
    {
        // The look at the field shows the prover what holds of it.
        let _ = &self.sums;
    }

    /// Whether the line is that of another sum than the one of the part.
    pub(crate) fn differs_at(&self, part: usize, line: &[u8]) -> bool
        requires { part < part_count }
        ensures { result ≡ differs line.now (slice_index_or self.now part []) }
    {
        self.sums[part].differs_from(line)
    }

    /// Appends the lines of the sums.
    pub(crate) fn push_lines(&self, out: &mut Vec<u8>) -> Result<(), AllocError>
        ensures { OnOk result (out.new.items ≡ out.old.items ++ sums_text self.now) }
    {
        for sum in &self.sums {
            push_line(out, sum)?;
        }
        Ok(())
    }
}

fn push_line(out: &mut Vec<u8>, sum: &Sum) -> Result<(), AllocError>
    ensures { OnOk result (out.new.items ≡ out.old.items ++ sum_line sum.now.0) }
{
    push_digits(out, &sum.0)?;
    out.extend_from_slice(b"\n")
}
