//! The place at which bytes stop being JSON.
ghost use Rattle.std.specs.Prelude.{IfSome};
ghost use Rattle.serde_json.specs.Data.{Data};
ghost use Rattle.jwk_set.specs.Json.{IsJson};

use serde_json::Value;
use std::alloc::Global;

/// The place at which bytes stop being a JSON text, as `serde_json` says it.
#[derive(Clone, Copy, Debug, PartialEq, Eq)]
pub struct JsonFault {
    /// The line, counted from 1.
    pub line: usize,
    /// The byte in that line, counted from 1, or the number of bytes of the last line if the text
    /// ends too early.
    pub column: usize,
}

/// The place at which the bytes stop being a JSON text, or `None` if they are one or memory ran
/// out.
pub fn json_fault(alloc: Global, bytes: &[u8]) -> Option<JsonFault>
    ensures { IfSome result (λ _. (tree : Data) → IsJson bytes.now tree → ⊥) }
{
    match Value::from_slice(alloc, bytes) {
        Ok(_) => None,
        Err(error) if error.is_memory() => None,
        Err(error) => Some(JsonFault {
            line: error.line(),
            column: error.column(),
        }),
    }
}
