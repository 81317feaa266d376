//! What came of a request's head, from the pieces in which its bytes come.
ghost use Rattle.std.specs.Prelude.{◌≡◌, ◌≤◌, ◌++◌, IfOk, OnErr, OnOk, length, take};
ghost use Rattle.std.specs.Option.{ForNone, ForSome};
ghost use Rattle.health_pages.specs.HeadEnds.{EndsAt, EndsFirstAt, HasNoEnd, head_limit};
ghost use Rattle.health_pages.specs.Heads.{AnswersWhole};

use crate::asked_page::PageFault;
use crate::head_verdict::{HeadVerdict, refused_head, verdict_of_head};
use memchr::memmem;
use std::alloc::{AllocError, Global};

/// The most bytes of a head, with the empty line that ends it.
const MOST_HEAD: usize = 8_192;

/// The end of a line, and the empty line that ends a head.
const HEAD_END: &[u8] = b"\r\n\r\n";

/// The bytes of a request that came, as far as its head may reach. How they are cut into pieces
/// means nothing, and each byte is searched once.
#[derive(Drop)]
pub struct HeadBytes {
    bytes: Vec<u8>,
    // The place at which the end of the head begins, if it came.
    end: Option<usize>,
    ghost short: { length bytes.items ≤ head_limit },
    ghost awaited: { ForNone end (HasNoEnd bytes.items) },
    ghost ended: { ForSome end (EndsFirstAt bytes.items) },
}

impl HeadBytes {
    ghost use Rattle.std.specs.Prelude.{◌≡◌, [], IfOk, OnErr, OnOk};
    ghost use Rattle.health_pages.specs.HeadParts.{head_bytes_come};
    ghost use Rattle.health_pages.specs.Heads.{IsVerdict, with_piece};

    /// Nothing came yet.
    pub fn new(alloc: Global) -> HeadBytes
        ensures { head_bytes_come result ≡ [] }
    {
        HeadBytes {
            bytes: Vec::new(alloc),
            end: None,
        }
    }

    /// Takes the next bytes of the stream. Those beyond the first 8,192 are not kept.
    ///
    /// # Errors
    /// Memory ran out. Nothing was taken.
    pub fn take(&mut self, piece: &[u8]) -> Result<(), AllocError>
        ensures taken { OnOk result
            (head_bytes_come self.new ≡ with_piece (head_bytes_come self.old) piece.now) }
        ensures left { OnErr result (head_bytes_come self.new ≡ head_bytes_come self.old) }
    {
        let room = MOST_HEAD - self.bytes.len();
        keep(
            &mut self.bytes,
            &mut self.end,
            &piece[..piece.len().min(room)],
        )
    }

    /// What the head asks for: `None` as long as it has not come whole, and more of it may come.
    /// Only a head that has come whole is read.
    ///
    /// # Errors
    /// Memory ran out.
    pub fn verdict(&self, alloc: Global) -> Result<Option<HeadVerdict>, AllocError>
        ensures { IfOk result (IsVerdict (head_bytes_come self.now)) }
    {
        match self.end {
            Some(end) => {
                let verdict = verdict_to(alloc, self.bytes.as_slice(), end)?;
                Ok(Some(verdict))
            }
            None if self.bytes.len() < MOST_HEAD => Ok(None),
            None => Ok(Some(refused_head(PageFault::TooLong))),
        }
    }
}

// The verdict on the bytes up to the end of the head, which begins at this place.
fn verdict_to(alloc: Global, bytes: &[u8], end: usize) -> Result<HeadVerdict, AllocError>
    requires { EndsFirstAt bytes.now end }
    ensures { IfOk result (AnswersWhole bytes.now) }
{
    verdict_of_head(alloc, &bytes[..end + HEAD_END.len()])
}

// Both parts of what is kept change together, or neither.
fn keep(bytes: &mut Vec<u8>, end: &mut Option<usize>, piece: &[u8]) -> Result<(), AllocError>
    requires { EndsAt bytes.old.items end.old }
    ensures kept { OnOk result
        ((bytes.new.items ≡ bytes.old.items ++ piece.now) × EndsAt bytes.new.items end.new) }
    ensures left { OnErr result ((bytes.new.items ≡ bytes.old.items) × (end.new ≡ end.old)) }
{
    let seen = bytes.len();
    bytes.extend_from_slice(piece)?;
    *end = end_with(bytes.as_slice(), seen, *end);
    Ok(())
}

// The place at which the end of a head begins, if it is known for this many of the bytes.
fn end_with(bytes: &[u8], seen: usize, known: Option<usize>) -> Option<usize>
    requires seen { seen ≤ length bytes.now }
    requires known { EndsAt (take seen bytes.now) known }
    ensures { EndsAt bytes.now result }
{
    match known {
        Some(end) => Some(end),
        None => end_after(bytes, seen),
    }
}

// The same, if it did not come with them.
fn end_after(bytes: &[u8], seen: usize) -> Option<usize>
    requires seen { seen ≤ length bytes.now }
    requires awaited { HasNoEnd (take seen bytes.now) }
    ensures { EndsAt bytes.now result }
{
    let from = seen.saturating_sub(HEAD_END.len() - 1);
    match memmem::find(&bytes[from..], HEAD_END) {
        Some(place) => Some(from + place),
        None => None,
    }
}
