//! The pieces of a snapshot.
ghost use Rattle.std.specs.Prelude.{◌≡◌, ◌++◌, ◌+◌, ◌<◌, ◌≤◌, IfOk, OnOk, List, ℕ, length};
ghost use Rattle.std.specs.Prelude.{[], false, option_copied, true};
ghost use Rattle.receipt_core.specs.Acceptance.{Meaning};
ghost use Rattle.snapshot_pieces.specs.Pieces.{Grows, HasWritten, IsSnapshotBetween, piece_rest};
ghost use Rattle.snapshot_pieces.specs.Pieces.{IsNextPiece, end_of, receipts_after, with_written};
ghost use Rattle.snapshot_pieces.specs.Pieces.{written_beginning};
ghost use Rattle.snapshot_pieces.specs.Inside.Steps.{AreLent};

use crate::lines::{lines_until, push_line, push_records};
use crate::places::{Behind, all_receipts, receipts_behind};
use closure_core::Closure;
use receipt_core::Receipt;
use replica_texts::{first_snapshot_line, last_snapshot_line};
use std::alloc::{AllocError, Global};

/// A snapshot that is being written while the closure may take more: how much of it there is. It
/// keeps one receipt, the last that was written.
#[derive(Drop)]
pub struct SnapshotPieces {
    // How many records of distrust the first piece has.
    records: u64,
    // How many receipts the pieces have.
    receipts: usize,
    // The last of these.
    last: Option<Receipt>,
}

/// A piece of a snapshot's text.
#[derive(Drop)]
pub struct Piece {
    /// Lines, each with its line feed.
    pub text: Vec<u8>,
    /// Whether the snapshot ends with it.
    pub is_last: bool,
}

impl SnapshotPieces {
    /// Begins a snapshot, and returns its first piece: the first line, and the lines of all records
    /// of distrust that are held now. It is never the last piece.
    ///
    /// # Errors
    /// Memory ran out.
    pub fn begin<C: Closure>(
        alloc: Global,
        closure: &C,
    ) -> Result<(SnapshotPieces, Vec<u8>), AllocError>
        ensures text { IfOk result (λ begun. begun.1.items
            ≡ written_beginning (with_written (C.state closure.now).meaning [])) }
        ensures begins { IfOk result (λ begun. HasWritten (C.state closure.now).meaning begun.0
            begun.1.items (C.state closure.now).meaning) }
    {
        let header = first_snapshot_line(alloc, closure.config())?;
        let mut text = Vec::new(alloc);
        push_line(&mut text, header.as_slice())?;
        let records = push_records(alloc, closure, &mut text)?;
        let pieces = SnapshotPieces {
            records,
            receipts: 0,
            last: None,
        };
        Ok((pieces, text))
    }

    /// The next piece: the lines of the receipts behind the last one that was written, in their
    /// order, until it has at least `size` bytes or no receipt is left. It has one line at least,
    /// and at most 1,051,128 bytes more than `size`. If no receipt is left, the last line follows,
    /// with the numbers of the lines in all pieces, and the snapshot ends.
    ///
    /// The closure may have taken receipts and records since the piece before, but is to be the one
    /// with which the snapshot was begun. A receipt that came since then is in the snapshot if it
    /// is behind the last one that was written, and a record that came is not.
    ///
    /// # Errors
    /// Memory ran out. What was written is not known then, so the snapshot is to be given up.
    pub fn next<C: Closure>(
        &mut self,
        alloc: Global,
        closure: &C,
        size: usize,
    ) -> Result<Piece, AllocError>
        ensures piece { IfOk result
            (IsNextPiece self.old (C.state closure.now).meaning.held self.new) }
        ensures continues { (m earlier : Meaning) (before : List ℕ)
            → HasWritten m self.old before earlier → Grows earlier (C.state closure.now).meaning
            → IfOk result (λ piece. piece.is_last ≡ false → HasWritten m self.new
            (before ++ piece.text.items) (C.state closure.now).meaning) }
        ensures whole { (m earlier : Meaning) (before : List ℕ)
            → HasWritten m self.old before earlier → Grows earlier (C.state closure.now).meaning
            → IfOk result (λ piece. piece.is_last ≡ true
            → IsSnapshotBetween m (C.state closure.now).meaning (before ++ piece.text.items)) }
        ensures moves { (m earlier : Meaning) (before : List ℕ)
            → HasWritten m self.old before earlier → Grows earlier (C.state closure.now).meaning
            → IfOk result (λ piece. piece.is_last ≡ false
            → self.old.receipts < self.new.receipts) }
        ensures size { IfOk result (λ piece. piece.is_last ≡ false
            → size ≤ length piece.text.items) }
        ensures few { IfOk result (λ piece. length piece.text.items ≤ size + piece_rest) }
    {
        let _config = closure.config();
        self.write_next(alloc, closure, size)
    }

    // The next piece, by what it does.
    fn write_next<C: Closure>(
        &mut self,
        alloc: Global,
        closure: &C,
        size: usize,
    ) -> Result<Piece, AllocError>
        ensures next { IfOk result
            (IsNextPiece self.old (C.state closure.now).meaning.held self.new) }
        ensures size { IfOk result (λ piece. piece.is_last ≡ false
            → size ≤ length piece.text.items) }
        ensures few { IfOk result (λ piece. length piece.text.items ≤ size + piece_rest) }
    {
        let _config = closure.config();
        let receipts = self.receipts_left(closure);
        let run = lines_until(alloc, receipts, self.last.as_ref(), size)?;
        let last = copy_of(alloc, run.last)?;
        let count = run.count;
        let is_last = run.is_all;
        let mut text = run.text;
        self.receipts = self.receipts.saturating_add(count);
        self.last = last;
        self.push_end(alloc, is_last, &mut text)?;
        Ok(Piece { text, is_last })
    }

    // The receipts behind the last one that was written.
    fn receipts_left<'a, C: Closure>(&self, closure: &'a C) -> Behind<'a>
        ensures { AreLent (receipts_after self.now.last (C.state closure.now).meaning.held)
            result }
    {
        match &self.last {
            Some(last) => receipts_behind(closure, last, self.receipts),
            None => all_receipts(closure),
        }
    }

    // Appends the last line, if this is the end.
    fn push_end(&self, alloc: Global, is_last: bool, text: &mut Vec<u8>) -> Result<(), AllocError>
        ensures text { OnOk result (text.new.items ≡ text.old.items ++ end_of is_last self.now) }
        ensures few { OnOk result (length text.new.items ≤ length text.old.items + 64) }
    {
        if is_last {
            let line = last_snapshot_line(alloc, self.receipts as u64, self.records)?;
            push_line(text, line.as_slice())?;
        }
        Ok(())
    }
}

fn copy_of(alloc: Global, receipt: Option<&Receipt>) -> Result<Option<Receipt>, AllocError>
    ensures { IfOk result (λ copy. copy ≡ option_copied receipt.entry) }
{
    match receipt {
        Some(receipt) => Ok(Some(receipt.try_clone(alloc)?)),
        None => Ok(None),
    }
}
