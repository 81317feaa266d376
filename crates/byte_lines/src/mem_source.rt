//! A source over bytes in memory.
ghost use Rattle.std.specs.Prelude.{◌≡◌, ◌<◌, ◌≤◌, ◌++◌, min, length, take, drop, false, vec_len};
ghost use Rattle.std.specs.Prelude.{Some};
ghost use Rattle.std.proofs.Common.{rules};

use crate::error::Fault;
use crate::source::Source;

/// A source of bytes in memory, which come in pieces. It never fails.
#[derive(Drop)]
pub struct MemSource {
    bytes: Vec<u8>,
    position: usize,
    cuts: Vec<usize>,
    ghost inside: { position ≤ vec_len bytes },
}

impl MemSource {
    ghost use Rattle.byte_lines.specs.Memory.{unread_bytes};

    /// A source of `bytes` in which no read passes a cut. The cuts are places in the bytes, sorted;
    /// without any a read gives all that fits.
    pub fn new(bytes: Vec<u8>, cuts: Vec<usize>) -> MemSource
        ensures { unread_bytes result ≡ bytes.items }
    {
        MemSource {
            bytes,
            position: 0,
            cuts,
        }
    }

    // The end of the piece that the next byte is in.
    fn piece_end(&self) -> usize
        ensures after { self.now.position < vec_len self.now.bytes → self.now.position < result }
        ensures at_least { self.now.position ≤ result }
        ensures within { result ≤ vec_len self.now.bytes }
    {
        let position = self.position;
        let next = self.cuts.partition_point(|cut| *cut <= position);
        match self.cuts.get(next) {
            Some(cut) if position < *cut && *cut < self.bytes.len() => *cut,
            _ => self.bytes.len(),
        }
    }
}

impl Source for MemSource {
    ghost use Rattle.byte_lines.specs.Memory.{unread_bytes, unread_limit};

    ghost remaining = { λ source. Some (unread_bytes source) };

    ghost budget = { unread_limit };

    ghost has_failed = { λ _. false };

    ghost bounded = { Prim.search rules };

    fn read(&mut self, buffer: &mut [u8]) -> Result<usize, Fault> {
        let end = self.piece_end();
        let count = copy_beginning(&self.bytes[self.position..end], buffer);
        self.position += count;
        Ok(count)
    }

    fn failed(&self) -> bool {
        false
    }
}

// Copies the bytes that both have room for, and returns how many.
fn copy_beginning(from: &[u8], to: &mut [u8]) -> usize
    ensures count { result ≡ min (length from.now) (length to.old) }
    ensures copied { to.new ≡ take result from.now ++ drop result to.old }
{
    let count = from.len().min(to.len());
    to[..count].copy_from_slice(&from[..count]);
    count
}
