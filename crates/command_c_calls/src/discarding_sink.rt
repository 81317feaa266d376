//! A sink for what nobody reads.
ghost use Rattle.std.specs.Prelude.{false};
ghost use Rattle.std.specs.declared.option.Option.TheVariants.{None};

use byte_lines::{Fault, Sink};

/// Takes all bytes, and keeps none.
#[derive(Drop)]
pub(crate) struct DiscardingSink;

impl Sink for DiscardingSink {
    ghost contents = { λ _. None };

    ghost has_failed = { λ _. false };

    fn write(&mut self, bytes: &[u8]) -> Result<usize, Fault> {
        Ok(bytes.len())
    }

    fn failed(&self) -> bool {
        false
    }
}
