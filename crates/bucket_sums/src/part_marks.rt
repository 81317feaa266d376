//! Which parts differ: marks, and their line.
ghost use Rattle.std.specs.Prelude.{◌≡◌, ◌↔◌, ◌+◌, Bool, List, length, IfOk, MatchOption};
ghost use Rattle.std.specs.Prelude.{IsTrue, drop, slice_index_or, true, map, nat_eq};
ghost use Rattle.std.specs.List.{AllPass};
ghost use Rattle.bucket_sums.specs.Lines.{IsMarksLine, is_part_mark, mark_of, marks_line};
ghost use Rattle.bucket_sums.specs.Lines.{part_count};
ghost use Rattle.bucket_sums.specs.Sessions.{buckets_asked, marked_from};

use std::alloc::{AllocError, Global};
use std::marker::Model;

/// How many parts have a sum: the records of distrust, and the receipts of each of 256 buckets.
pub const PART_COUNT: usize = 257;

/// Which parts of what two replicas hold differ: a mark for the records of distrust, and then one
/// for each bucket.
#[derive(Debug, Drop)]
pub struct Marks {
    marks: Vec<bool>,
}

impl Model for Marks {
    ghost use Rattle.std.specs.Prelude.{Bool, List, ◌≡◌, length};
    ghost use Rattle.bucket_sums.specs.Lines.{part_count};

    ghost Value = { List Bool };

    ghost view = { λ m. m.marks.items };

    ghost invariant = { λ m. length m.marks.items ≡ part_count };
}

impl Marks {
    /// The marks, if they are those of all parts.
    pub(crate) fn new(marks: Vec<bool>) -> Option<Marks>
        ensures { MatchOption result (length marks.items ≡ part_count → ⊥)
            (λ m. (m ≡ marks.items) × (length m ≡ part_count)) }
    {
        if marks.len() == PART_COUNT {
            Some(Marks { marks })
        } else {
            None
        }
    }

    /// Whether the records of distrust differ.
    pub fn records(&self) -> bool
        ensures { result ≡ slice_index_or self.now 0 true }
    {
        self.marks[0]
    }

    /// Whether the receipts of the bucket differ.
    pub fn bucket(&self, bucket: u8) -> bool
        ensures { result ≡ slice_index_or self.now (bucket + 1) true }
    {
        self.marks[usize::from(bucket) + 1]
    }

    /// About which buckets haves are asked: those that differ, in order; or bucket 0, if only the
    /// records of distrust differ.
    ///
    /// # Errors
    /// Memory ran out.
    pub fn asked(&self, alloc: Global) -> Result<Vec<u8>, AllocError>
        ensures { IfOk result (λ buckets. buckets.items ≡ buckets_asked self.now) }
    {
        let mut buckets = self.marked(alloc)?;
        if buckets.is_empty() && self.records() {
            buckets.push(0)?;
        }
        Ok(buckets)
    }

    // The buckets that differ, in order.
    fn marked(&self, alloc: Global) -> Result<Vec<u8>, AllocError>
        ensures buckets { IfOk result (λ buckets. buckets.items ≡ marked_from 0 (drop 1 self.now)) }
        ensures all { length self.now ≡ part_count }
    {
        // The look at the field shows the prover what holds of it.
        let _ = &self.marks;
        let mut buckets = Vec::new(alloc);
        'buckets: for bucket in 0..256u16 {
            if self.bucket(bucket as u8) {
                buckets.push(bucket as u8)?;
            }
        }
        Ok(buckets)
    }

    /// Reads the line of marks, without its line feed: 257 bytes, `1` for a part that differs and
    /// `0` for one that does not. `None` if it is not such a line.
    ///
    /// # Errors
    /// Memory ran out.
    pub(crate) fn read(alloc: Global, text: &[u8]) -> Result<Option<Marks>, AllocError>
        ensures { IfOk result (λ found. MatchOption found
            ((marks : List Bool) → IsMarksLine text.now marks → ⊥) (IsMarksLine text.now)) }
    {
        if !are_marks(text) {
            return Ok(None);
        }
        let marks = marks_in(alloc, text)?;
        Ok(Marks::new(marks))
    }

    /// The line of the marks, without its line feed.
    pub(crate) fn line(&self, alloc: Global) -> Result<Vec<u8>, AllocError>
        ensures { IfOk result (λ text. text.items ≡ marks_line self.now) }
    {
        marks_text(alloc, self.marks.as_slice())
    }
}

/// The line of the marks, without its line feed.
pub(crate) fn marks_text(alloc: Global, marks: &[bool]) -> Result<Vec<u8>, AllocError>
    ensures { IfOk result (λ text. text.items ≡ marks_line marks.now) }
{
    marks.iter().map(|mark| byte_of(*mark)).collect(alloc)
}

fn are_marks(text: &[u8]) -> bool
    ensures { IsTrue result ↔ AllPass is_part_mark text.now }
{
    text.iter().all(|byte| is_mark_byte(*byte))
}

fn is_mark_byte(byte: u8) -> bool
    ensures { result ≡ is_part_mark byte }
{
    b'0' <= byte && byte <= b'1'
}

// The mark of each byte.
fn marks_in(alloc: Global, text: &[u8]) -> Result<Vec<bool>, AllocError>
    ensures { IfOk result (λ marks. marks.items ≡ map (λ b. nat_eq b 49) text.now) }
{
    text.iter().map(|byte| *byte == b'1').collect(alloc)
}

fn byte_of(mark: bool) -> u8
    ensures { result ≡ mark_of mark }
{
    if mark { b'1' } else { b'0' }
}
