//! A sink into memory that grows.
use byte_lines::{Fault, Sink};
use std::alloc::Global;

/// Takes all bytes that it is given, as long as there is memory for them. A growth that is refused
/// is an error.
#[derive(Drop)]
pub(crate) struct TextSink {
    text: Vec<u8>,
    failed: bool,
}

impl TextSink {
    ghost use Rattle.std.specs.Prelude.{◌≡◌, [], false};
    ghost use Rattle.replica_sync.specs.Inside.ServingSteps.{text_in};

    pub(crate) fn new(alloc: Global) -> TextSink
        ensures text { text_in result ≡ [] }
        ensures works { result.failed ≡ false }
    {
        TextSink {
            text: Vec::new(alloc),
            failed: false,
        }
    }

    pub(crate) fn into_text(self) -> Vec<u8>
        ensures { result.items ≡ text_in self }
    {
        self.text
    }
}

impl Sink for TextSink {
    ghost use Rattle.std.specs.Prelude.{Some};
    ghost use Rattle.replica_sync.specs.Inside.ServingSteps.{text_in};

    ghost contents = { λ sink. Some (text_in sink) };

    ghost has_failed = { λ sink. sink.failed };

    fn write(&mut self, bytes: &[u8]) -> Result<usize, Fault> {
        if self.failed || self.text.extend_from_slice(bytes).is_err() {
            self.failed = true;
            return Err(Fault);
        }
        Ok(bytes.len())
    }

    fn failed(&self) -> bool {
        self.failed
    }
}
