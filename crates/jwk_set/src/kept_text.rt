//! Texts as authorities keep them.
ghost use Rattle.std.specs.Prelude.{◌≡◌, ◌≤◌, IsOk, IfOk, length};
ghost use Rattle.jwk_set.specs.Inside.KeptText.{bytes_of};

use arrayvec::ArrayString;
use std::alloc::{AllocError, Global};
use std::sync::Arc;

/// A text that is kept. One of at most 8 bytes, as most exponents and names of curves are, lies in
/// the value itself, and any other behind a pointer, shared by its copies. So each value takes 24
/// bytes.
#[derive(Debug, Drop)]
pub(crate) enum KeptText {
    Short(ArrayString<8>),
    Long(Arc<String, Global>),
}

impl KeptText {
    /// A copy of the text.
    ///
    /// # Errors
    /// Memory ran out, for a text of more than 8 bytes.
    pub(crate) fn copied(alloc: Global, text: &str) -> Result<KeptText, AllocError>
        ensures text { IfOk result (λ kept. bytes_of kept ≡ text.now) }
        ensures short { length text.now ≤ 8 → IsOk result }
    {
        match ArrayString::from(text) {
            Ok(short) => Ok(KeptText::Short(short)),
            Err(_) => {
                let long = String::from_str(alloc, text)?;
                Ok(KeptText::Long(Arc::new(alloc, long)?))
            }
        }
    }

    /// The same text once more, which takes no memory.
    ///
    /// # Errors
    /// Too many values share the text to count one more, and no memory can hold that many.
    pub(crate) fn shared(&self) -> Result<KeptText, AllocError>
        ensures { IfOk result (λ kept. bytes_of kept ≡ bytes_of self.now) }
    {
        match self {
            KeptText::Short(text) => Ok(KeptText::Short(text.clone()?)),
            KeptText::Long(text) => Ok(KeptText::Long(Arc::try_clone(text)?)),
        }
    }

    pub(crate) fn as_str(&self) -> &str
        ensures { result.now ≡ bytes_of self.now }
    {
        match self {
            KeptText::Short(text) => text.as_str(),
            KeptText::Long(text) => text.as_str(),
        }
    }
}
