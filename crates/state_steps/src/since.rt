//! What was appended to a journal since a fold began.
ghost use Rattle.std.specs.Prelude.{◌≡◌, ◌++◌, [], ◌↔◌, IfSome, IsTrue, List, ℕ};
ghost use Rattle.state_steps.specs.Since.{CameSince};

use std::alloc::Global;

/// What was appended to a journal since a fold began: its text, unless that is too long. A fold
/// after which the journal may be emptied, or shortened to this text, asks here what came.
#[derive(Drop)]
pub struct Since {
    // None if something came and was forgotten.
    text: Option<Vec<u8>>,
    // How many bytes the text has at most.
    most: usize,
}

impl Since {
    /// Nothing came yet. A text of more than this many bytes will be forgotten.
    pub fn begin(alloc: Global, most: usize) -> Since
        ensures came { CameSince result [] }
        ensures most { result.most ≡ most }
    {
        Since {
            text: Some(Vec::new(alloc)),
            most,
        }
    }

    /// These lines were appended. The text is forgotten if it gets too long, or memory runs out.
    ///
    /// - `came`: they came behind what came before.
    pub fn note(&mut self, lines: &[u8])
        ensures came { (came : List ℕ) → CameSince self.old came
            → CameSince self.new (came ++ lines.now) }
        ensures most { self.new.most ≡ self.old.most }
    {
        if lines.is_empty() {
            return;
        }
        let is_held = match &mut self.text {
            Some(text) => {
                lines.len() <= self.most.saturating_sub(text.len())
                    && text.extend_from_slice(lines).is_ok()
            }
            None => false,
        };
        if !is_held {
            self.text = None;
        }
    }

    /// Whether nothing came.
    pub fn is_empty(&self) -> bool
        ensures { (came : List ℕ) → CameSince self.now came → (IsTrue result ↔ (came ≡ [])) }
    {
        matches!(&self.text, Some(text) if text.is_empty())
    }

    /// All that came, if it was not forgotten.
    pub fn into_text(self) -> Option<Vec<u8>>
        ensures { (came : List ℕ) → CameSince self came
            → IfSome result (λ text. text.items ≡ came) }
    {
        self.text
    }
}
