//! The text of a refusal, in a fixed place, since lack of memory has to be reported too.
ghost use Rattle.std.specs.Prelude.{◌≡◌, ◌<◌, ◌≤◌, codes, take};
ghost use Rattle.replica_c_calls.specs.declared.call_error.CallError.TheVariants.{Usage};

use crate::call_error::CallError;
use std::fmt;
use std::fmt::Write;

/// The most bytes of a refusal's text.
pub(crate) const MAX_TEXT_BYTES: usize = 240;

/// The text of a refusal.
#[derive(Drop)]
pub(crate) struct FaultBytes {
    pub(crate) bytes: [u8; MAX_TEXT_BYTES],
    pub(crate) len: usize,
    ghost within: { len ≤ 240 },
}

impl FaultBytes {
    /// The text of this refusal, as the command prints it. It takes no memory.
    pub(crate) fn of(error: &CallError) -> FaultBytes
        ensures some { 0 < result.len }
        ensures usage { error.now ≡ Usage → take result.len result.bytes ≡ codes "usage" }
    {
        match error {
            CallError::Usage => FaultBytes::usage(),
            error => FaultBytes::printed(error),
        }
    }

    fn empty() -> FaultBytes
        ensures { result.len ≡ 0 }
    {
        FaultBytes {
            bytes: [0; MAX_TEXT_BYTES],
            len: 0,
        }
    }

    // The text of a call that may not be made so.
    fn usage() -> FaultBytes
        ensures { take result.len result.bytes ≡ codes "usage" }
    {
        let mut bytes = [0; MAX_TEXT_BYTES];
        bytes[0] = b'u';
        bytes[1] = b's';
        bytes[2] = b'a';
        bytes[3] = b'g';
        bytes[4] = b'e';
        FaultBytes { bytes, len: 5 }
    }

    // No clause says what an error prints. Each prints its code; the text of one that did not would
    // be a question mark.
    fn printed(error: &CallError) -> FaultBytes
        ensures { 0 < result.len }
    {
        let mut text = FaultBytes::empty();
        // A piece that does not fit is left out.
        let _ = write!(text, "{error}");
        if text.len == 0 {
            text.bytes[0] = b'?';
            text.len = 1;
        }
        text
    }
}

impl fmt::Write for FaultBytes {
    fn write_str(&mut self, piece: &str) -> fmt::Result {
        let start = self.len;
        if piece.len() > MAX_TEXT_BYTES - start {
            return Err(fmt::Error);
        }
        let end = start + piece.len();
        self.bytes[start..end].copy_from_slice(piece.as_bytes());
        self.len = end;
        Ok(())
    }
}
