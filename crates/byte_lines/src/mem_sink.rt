//! A sink into memory.
ghost use Rattle.std.specs.Prelude.{◌≡◌, [], ◌-◌, ◌<◌, ◌≤◌, min, length, false, is_err, IfOk, OnOk};
ghost use Rattle.std.specs.Prelude.{OnErr, vec_len, vec_capacity, Some};
ghost use Rattle.std.specs.Io.{WritesAtMost};
ghost use Rattle.std.specs.Io.KnownBytes.{WriteAppends};

use crate::error::Fault;
use crate::sink::Sink;
use std::alloc::{AllocError, Global};

/// A sink in memory with room for this many bytes, made at the start. If more bytes come than fit,
/// it takes what fits, and a write into a full one fails.
#[derive(Drop)]
pub struct MemSink {
    bytes: Vec<u8>,
    room: usize,
    failed: bool,
    ghost inside: { vec_len bytes ≤ room },
    ghost reserved: { room ≤ vec_capacity bytes },
}

impl MemSink {
    ghost use Rattle.byte_lines.specs.Memory.{written_bytes, sink_room, overran};

    /// An empty sink that takes `room` bytes in all. The allocator may refuse the room.
    pub fn new(alloc: Global, room: usize) -> Result<MemSink, AllocError>
        ensures empty { IfOk result (λ sink. written_bytes sink ≡ []) }
        ensures room { IfOk result (λ sink. sink_room sink ≡ room) }
        ensures sound { IfOk result (λ sink. overran sink ≡ false) }
    {
        let bytes = Vec::with_capacity(alloc, room)?;
        Ok(MemSink {
            bytes,
            room,
            failed: false,
        })
    }

    /// What was written.
    pub fn as_bytes(&self) -> &[u8]
        ensures { result.now ≡ written_bytes self.now }
    {
        self.bytes.as_slice()
    }
}

impl Sink for MemSink {
    ghost use Rattle.byte_lines.specs.Memory.{written_bytes, sink_room, overran};

    ghost contents = { λ sink. Some (written_bytes sink) };

    ghost has_failed = { overran };

    fn write(&mut self, bytes: &[u8]) -> Result<usize, Fault>
        ensures bound { WritesAtMost result bytes.now }
        ensures progress { IfOk result (λ n. 0 < length bytes.now → 0 < n) }
        ensures appends { WriteAppends (Some (written_bytes self.old))
            (Some (written_bytes self.new)) result bytes.now }
        ensures fault { overran self.new ≡ is_err result }
        ensures lasting { OnOk result (overran self.old ≡ false) }

        // It takes what fits, and fails only if it was full and there were bytes to write.
        ensures fitting { IfOk result
            (λ n. n ≡ min (length bytes.now)
            (sink_room self.old - length (written_bytes self.old))) }
        ensures full { OnErr result (overran self.old ≡ false →
            (0 < length bytes.now) × (length (written_bytes self.old) ≡ sink_room self.old)) }
        ensures room { sink_room self.new ≡ sink_room self.old }
    {
        let count = bytes.len().min(self.room - self.bytes.len());
        if self.failed || (count == 0 && !bytes.is_empty()) {
            self.failed = true;
            return Err(Fault);
        }
        self.bytes.extend_from_slice(&bytes[..count]).unwrap();
        Ok(count)
    }

    fn failed(&self) -> bool {
        self.failed
    }
}
