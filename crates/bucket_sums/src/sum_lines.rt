//! The sums of a question, compared with own ones as their lines come.
ghost use Rattle.std.specs.Prelude.{◌≡◌, ◌<◌, ◌≤◌, ◌++◌, ◌∷◌, [], true, false, IfOk, OnErr, length};
ghost use Rattle.std.specs.Prelude.{slice_index_or, vec_len};
ghost use Rattle.bucket_sums.specs.Lines.{IsSumLine, differs, part_count};

use crate::part_sums::Sums;
use crate::sum::is_sum_line;
use std::alloc::{AllocError, Global};

/// Own sums, and for each line of a sum that came whether it is another one.
#[derive(Drop)]
pub(crate) struct SumLines {
    own: Sums,
    marks: Vec<bool>,
    ghost few: { vec_len marks ≤ part_count },
}

impl SumLines {
    ghost use Rattle.bucket_sums.specs.Inside.Comparing.{ComparesLine, marks_so_far, own_sums};

    /// Before the first line.
    pub(crate) fn new(alloc: Global, own: Sums) -> SumLines
        ensures none { marks_so_far result ≡ [] }
        ensures own { own_sums result ≡ own }
    {
        SumLines {
            own,
            marks: Vec::new(alloc),
        }
    }

    /// How many lines came. There is a sum for each part.
    pub(crate) fn count(&self) -> usize
        ensures count { result ≡ length (marks_so_far self.now) }
        ensures all { length (own_sums self.now) ≡ part_count }
    {
        self.own.all();
        self.marks.len()
    }

    /// Compares the next line with the sum in its place. Returns whether it is the line of a sum.
    pub(crate) fn compare(&mut self, line: &[u8]) -> Result<bool, AllocError>
        requires { length (marks_so_far self.old) < part_count }
        ensures ok { IfOk result (ComparesLine self.old line.now self.new) }
        ensures refused { OnErr result ((marks_so_far self.new ≡ marks_so_far self.old)
            × (own_sums self.new ≡ own_sums self.old)) }
    {
        if !is_sum_line(line) {
            return Ok(false);
        }
        let differs = self.own.differs_at(self.marks.len(), line);
        self.marks.push(differs)?;
        Ok(true)
    }

    /// The marks of all lines.
    pub(crate) fn marks(&self) -> &[bool]
        ensures { result.now ≡ marks_so_far self.now }
    {
        self.marks.as_slice()
    }
}
