//! A chunk of the bytes of a source, read ahead of what is made of them.
ghost use Rattle.std.specs.Prelude.{◌≡◌, ◌+◌, ◌<◌, ◌≤◌, ◌||◌, ℕ, List, true, false, [], length};
ghost use Rattle.std.specs.Prelude.{take, drop, is_err, IfOk, OnOk, OnErr, vec_len};
ghost use Rattle.std.specs.Io.KnownBytes.{Keeps, Consumes, IsAtEnd, prepend_known};
ghost use Rattle.byte_lines.specs.Lines.{HasLine, HasNoLine, HasNoFeed};

use crate::error::Fault;
use crate::source::Source;
use memchr::memchr;
use std::alloc::{AllocError, Global};

/// The bytes of one read at most.
const CHUNK_SIZE: usize = 65_536;

/// Bytes of a source that were read and not yet passed: those of one read at most.
#[derive(Drop)]
pub struct ReadAhead {
    // The bytes are those from `start` to `end`. There is no room until it is reserved.
    bytes: Vec<u8>,
    start: usize,
    end: usize,
    ghost ordered: { start ≤ end },
    ghost in_bounds: { end ≤ vec_len bytes },
}

impl ReadAhead {
    ghost use Rattle.byte_lines.specs.Ahead.{ahead_of, chunk_room, AtFeed};

    /// No bytes, and no room for any.
    pub fn new(alloc: Global) -> ReadAhead
        ensures { ahead_of result ≡ [] }
    {
        ReadAhead {
            bytes: Vec::new(alloc),
            start: 0,
            end: 0,
        }
    }

    /// Takes memory for 65,536 bytes, if that was not done.
    ///
    /// # Errors
    /// Memory ran out.
    pub fn reserve(&mut self) -> Result<(), AllocError>
        ensures kept { ahead_of self.new ≡ ahead_of self.old }
        ensures room { OnOk result (0 < chunk_room self.new) }
    {
        if self.bytes.len() == 0 {
            self.bytes.resize(CHUNK_SIZE, 0)?;
        }
        Ok(())
    }

    /// Reads once if no bytes are held, and returns whether any are held then. If not, the source
    /// is at its end.
    ///
    /// # Errors
    /// The source failed. No bytes are held.
    pub fn fill<R: Source>(&mut self, source: &mut R) -> Result<bool, Fault>
        requires { 0 < chunk_room self.old }
        ensures room { chunk_room self.new ≡ chunk_room self.old }
        ensures bytes { OnOk result
            (Keeps (prepend_known (ahead_of self.old) (R.remaining source.old))
            (prepend_known (ahead_of self.new) (R.remaining source.new))) }
        ensures some { IfOk result (λ any. any ≡ true → 0 < length (ahead_of self.new)) }
        ensures none { IfOk result
            (λ any. any ≡ false → (ahead_of self.new ≡ []) × IsAtEnd (R.remaining source.new)) }
        ensures held { 0 < length (ahead_of self.old) → ahead_of self.new ≡ ahead_of self.old }
        ensures empty { OnErr result (ahead_of self.old ≡ []) }
        ensures spends { length (ahead_of self.new) + R.budget source.new
            ≤ length (ahead_of self.old) + R.budget source.old }
        ensures fault { R.has_failed source.new ≡ (is_err result || R.has_failed source.old) }
    {
        if self.start < self.end {
            return Ok(true);
        }
        self.start = 0;
        self.end = 0;
        self.end = read_over(source, &mut self.bytes)?;
        Ok(self.end > 0)
    }

    /// The bytes that are held.
    pub fn as_slice(&self) -> &[u8]
        ensures { result.now ≡ ahead_of self.now }
    {
        let (start, end) = (self.start, self.end);
        let all = self.bytes.as_slice();
        &all[start..end]
    }

    // The place of the first line feed.
    pub(crate) fn line_feed(&self) -> Option<usize>
        ensures { AtFeed (ahead_of self.now) result }
    {
        memchr(b'\n', self.as_slice())
    }

    /// Passes the first bytes.
    pub fn pass(&mut self, count: usize)
        requires { count ≤ length (ahead_of self.old) }
        ensures bytes { ahead_of self.new ≡ drop count (ahead_of self.old) }
        ensures room { chunk_room self.new ≡ chunk_room self.old }
    {
        self.start += count;
    }

    // Passes all.
    pub(crate) fn pass_all(&mut self)
        ensures bytes { ahead_of self.new ≡ [] }
        ensures room { chunk_room self.new ≡ chunk_room self.old }
    {
        self.start = self.end;
    }

    // Passes the rest of a line. Returns whether a line feed ended it, which is passed too.
    pub(crate) fn skip_line<R: Source>(&mut self, source: &mut R) -> Result<bool, Fault>
        requires { 0 < chunk_room self.old }
        ensures line { IfOk result (λ ended. ended ≡ true → ((text : List ℕ) × HasLine
            (prepend_known (ahead_of self.old) (R.remaining source.old))
            (prepend_known (ahead_of self.new) (R.remaining source.new)) text)) }
        ensures rest { IfOk result (λ ended. ended ≡ false
            → HasNoLine (prepend_known (ahead_of self.old) (R.remaining source.old))
            × IsAtEnd (prepend_known (ahead_of self.new) (R.remaining source.new))) }
        ensures lines_first { OnErr result (HasNoFeed (ahead_of self.old)) }
        ensures spends { length (ahead_of self.new) + R.budget source.new
            ≤ length (ahead_of self.old) + R.budget source.old }
        ensures fault { R.has_failed source.new ≡ (is_err result || R.has_failed source.old) }
    {
        'pieces: while self.fill(source)? {
            if let Some(place) = self.line_feed() {
                self.pass(place + 1);
                return Ok(true);
            }
            self.pass_all();
        }
        Ok(false)
    }
}

fn read_over<R: Source>(source: &mut R, bytes: &mut Vec<u8>) -> Result<usize, Fault>
    ensures len { vec_len bytes.new ≡ vec_len bytes.old }
    ensures bound { IfOk result (λ n. n ≤ vec_len bytes.new) }
    ensures consumes { IfOk result
        (λ n. Consumes (R.remaining source.old) (R.remaining source.new) (take n bytes.new.items)) }
    ensures end { IfOk result
        (λ n. n ≡ 0 → 0 < vec_len bytes.old → IsAtEnd (R.remaining source.new)) }
    ensures spends { IfOk result (λ n. R.budget source.new + n ≤ R.budget source.old) }
    ensures budget_falls { R.budget source.new ≤ R.budget source.old }
    ensures fault { R.has_failed source.new ≡ is_err result }
    ensures lasting { OnOk result (R.has_failed source.old ≡ false) }
{
    source.read(bytes.as_mut_slice())
}
