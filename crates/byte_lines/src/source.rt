//! The device that bytes are read from.
ghost use Rattle.std.specs.Prelude.{◌≡◌, ℕ, ◌+◌, ◌^◌, ◌<◌, ◌≤◌, ◌||◌, ◌++◌, List, Bool, true};
ghost use Rattle.std.specs.Prelude.{false, length, take, is_err, Option, IfOk, OnOk, vec_len};
ghost use Rattle.std.specs.Io.{ReadsAtMost};
ghost use Rattle.std.specs.Io.KnownBytes.{Consumes, IsAtEnd};
ghost use Rattle.byte_lines.specs.Device.{TakesUpTo, is_source_fault};

use crate::error::{DeviceError, Fault};
use std::alloc::Global;

/// Gives bytes, piece by piece. How they are cut into pieces means nothing.
///
/// A source that failed once has failed for good.
pub trait Source {
    // The bytes that are still to come, if the source knows them.
    ghost remaining: { Self → Option (List ℕ) };

    // At most this many bytes still come.
    ghost budget: { Self → ℕ };

    // Whether a read failed.
    ghost has_failed: { Self → Bool };

    /// Puts the next bytes at the start of `buffer`, and returns how many. If the buffer is not
    /// empty, 0 means that the source is at its end. After a failure nothing is said of what
    /// remains.
    fn read(&mut self, buffer: &mut [u8]) -> Result<usize, Fault>
        ensures bound { ReadsAtMost result buffer.new }
        ensures consumes { IfOk result
            (λ n. Consumes (remaining self.old) (remaining self.new) (take n buffer.new)) }
        ensures end { IfOk result
            (λ n. n ≡ 0 → 0 < length buffer.old → IsAtEnd (remaining self.new)) }

        ensures spends { IfOk result (λ n. budget self.new + n ≤ budget self.old) }
        ensures budget_falls { budget self.new ≤ budget self.old }

        ensures fault { has_failed self.new ≡ is_err result }
        ensures lasting { OnOk result (has_failed self.old ≡ false) };

    /// Whether a read failed.
    fn failed(&self) -> bool
        ensures { result ≡ has_failed self.now };

    // How many bytes are still to come is a number below 2^64.
    ghost bounded: { (source : Self) → budget source < 2 ^ 64 };
}

impl<S: Source> Source for &mut S {
    ghost remaining = { λ source. S.remaining source.now };

    ghost budget = { λ source. S.budget source.now };

    ghost has_failed = { λ source. S.has_failed source.now };

    ghost bounded = { λ source. S.bounded source.now };

    fn read(&mut self, buffer: &mut [u8]) -> Result<usize, Fault> {
        Source::read(&mut **self, buffer)
    }

    fn failed(&self) -> bool {
        Source::failed(&**self)
    }
}

/// The most bytes that one read asks for.
const CHUNK_SIZE: usize = 65_536;

/// Reads until `limit` bytes are held or the source is at its end, whichever comes first. Fewer
/// than `limit` bytes mean that the end was reached; `limit` bytes say nothing of the end.
///
/// It takes memory for one chunk of at most 65,536 bytes, and for the bytes themselves, whose room
/// grows as a `Vec` does when it is extended: by the source's bytes, and never because of `limit`.
///
/// `Io` if the source failed, and `NoMemory` if the allocator refused. After either the bytes that
/// were read are lost, and nothing is said of what remains.
pub fn read_up_to<R: Source>(
    alloc: Global,
    source: &mut R,
    limit: usize,
) -> Result<Vec<u8>, DeviceError>
    ensures bytes { IfOk result
        (λ taken. TakesUpTo (R.remaining source.old) (R.remaining source.new) limit taken.items) }
    ensures spends { IfOk result
        (λ taken. R.budget source.new + vec_len taken ≤ R.budget source.old) }
    ensures fault { R.has_failed source.new ≡ (is_source_fault result || R.has_failed source.old) }
    ensures lasting { OnOk result (0 < limit → R.has_failed source.old ≡ false) }
{
    let mut taken = Vec::new(alloc);
    let mut chunk = vec![in alloc; 0u8; limit.min(CHUNK_SIZE)]?;
    'pieces: while taken.len() < limit {
        if take_piece(source, chunk.as_mut_slice(), &mut taken, limit)? == 0 {
            return Ok(taken);
        }
    }
    Ok(taken)
}

// One read, by way of `chunk`, onto the end of `taken`, which is still within `limit`. Returns how
// many bytes came.
fn take_piece<R: Source>(
    source: &mut R,
    chunk: &mut [u8],
    taken: &mut Vec<u8>,
    limit: usize,
) -> Result<usize, DeviceError>
    requires wanted { vec_len taken.old < limit }
    requires room { 0 < length chunk.old }
    ensures within { vec_len taken.new ≤ limit }
    ensures grows { IfOk result (λ n. vec_len taken.new ≡ vec_len taken.old + n) }
    ensures bytes { IfOk result
        (λ n. ((piece : List ℕ) × (taken.new.items ≡ taken.old.items ++ piece)
        × Consumes (R.remaining source.old) (R.remaining source.new) piece)) }
    ensures end { IfOk result (λ n. n ≡ 0 → IsAtEnd (R.remaining source.new)) }
    ensures spends { IfOk result (λ n. R.budget source.new + n ≤ R.budget source.old) }
    ensures fault { R.has_failed source.new ≡ is_source_fault result }
    ensures lasting { is_source_fault result ≡ false → R.has_failed source.old ≡ false }
{
    let wanted = chunk.len().min(limit - taken.len());
    let piece = &mut chunk[..wanted];
    let count = source.read(piece)?;
    taken.extend_from_slice(&piece[..count])?;
    Ok(count)
}
