//! Devices over memory: a source of bytes that were given, and a sink for a text of any length.
ghost use Rattle.std.specs.Prelude.{◌≡◌, ◌+◌, ◌<◌, false, length, is_err, IfOk, OnErr};
ghost use Rattle.std.specs.Prelude.{OnOk};
ghost use Rattle.std.specs.Io.{WritesAtMost};
ghost use Rattle.std.specs.Io.KnownBytes.{WriteAppends};
ghost use Rattle.byte_lines.specs.Memory.{unread_bytes};

use byte_lines::{Fault, MemSource, Sink};
use std::alloc::{AllocError, Global};

/// A source of these bytes. It has a copy of them, and never fails.
///
/// # Errors
/// Memory ran out.
pub fn source_of(alloc: Global, bytes: &[u8]) -> Result<MemSource, AllocError>
    ensures { IfOk result (λ source. unread_bytes source ≡ bytes.now) }
{
    Ok(MemSource::new(Vec::from_slice(alloc, bytes)?, Vec::new(alloc)))
}

/// Takes all bytes that it is given, as long as there is memory for them. A growth that is refused
/// is an error, and there is no other: what fits into the memory that it has is taken.
#[derive(Drop)]
pub struct GrowingSink {
    text: Vec<u8>,
    failed: bool,
}

impl GrowingSink {
    ghost use Rattle.std.specs.Prelude.{◌≡◌, [], false};
    ghost use Rattle.replica_c_calls.specs.Texts.{gathered_text, has_overrun};

    /// A sink that has taken nothing.
    pub fn new(alloc: Global) -> GrowingSink
        ensures empty { gathered_text result ≡ [] }
        ensures sound { has_overrun result ≡ false }
    {
        GrowingSink {
            text: Vec::new(alloc),
            failed: false,
        }
    }

    /// All that it was given, in order.
    pub fn into_text(self) -> Vec<u8>
        ensures { result.items ≡ gathered_text self }
    {
        self.text
    }
}

impl Sink for GrowingSink {
    ghost use Rattle.std.specs.Prelude.{Some};
    ghost use Rattle.replica_c_calls.specs.Texts.{gathered_room, gathered_text, has_overrun};

    ghost contents = { λ sink. Some (gathered_text sink) };

    ghost has_failed = { has_overrun };

    fn write(&mut self, bytes: &[u8]) -> Result<usize, Fault>
        ensures bound { WritesAtMost result bytes.now }
        ensures progress { IfOk result (λ n. 0 < length bytes.now → 0 < n) }
        ensures appends { WriteAppends (Some (gathered_text self.old))
            (Some (gathered_text self.new)) result bytes.now }
        ensures fault { has_overrun self.new ≡ is_err result }
        ensures lasting { OnOk result (has_overrun self.old ≡ false) }

        // It takes all, and fails only if it failed before or had to grow.
        ensures all { IfOk result (λ n. n ≡ length bytes.now) }
        ensures full { OnErr result (has_overrun self.old ≡ false → gathered_room self.old
            < length (gathered_text self.old) + length bytes.now) }
    {
        if self.failed || self.text.extend_from_slice(bytes).is_err() {
            self.failed = true;
            return Err(Fault);
        }
        Ok(bytes.len())
    }

    fn failed(&self) -> bool {
        self.failed
    }
}
