//! A line of a text that is made.
ghost use Rattle.std.specs.Prelude.{◌≡◌};

use std::marker::Model;

/// The bytes of a line without its line feed.
#[derive(Debug, Drop)]
pub struct TextLine {
    bytes: Vec<u8>,
}

impl Model for TextLine {
    ghost use Rattle.std.specs.Prelude.{ℕ, List};

    ghost Value = { List ℕ };

    ghost view = { λ line. line.bytes.items };
}

impl TextLine {
    /// The line of these bytes.
    pub fn new(bytes: Vec<u8>) -> TextLine
        ensures { result ≡ bytes.items }
    {
        TextLine { bytes }
    }

    /// Its bytes.
    pub fn as_slice(&self) -> &[u8]
        ensures { result.now ≡ self.now }
    {
        self.bytes.as_slice()
    }
}
