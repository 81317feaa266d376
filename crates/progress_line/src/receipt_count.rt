//! How many receipts there are among lines that come in pieces.
ghost use Rattle.std.specs.Prelude.{◌≡◌};

use memchr::memchr;

/// With what the line of a receipt begins, and no other line of a state file, a journal or an
/// answer.
const BEGINNING: [u8; 7] = *b"{\"doc\":";

/// Counts the lines that begin as that of a receipt.
#[derive(Clone, Copy, Debug)]
pub(crate) struct ReceiptCount {
    count: u64,
    // How many bytes of the beginning the line has by now; none if it has others.
    matched: Option<usize>,
}

impl ReceiptCount {
    /// No line has begun.
    pub(crate) fn new() -> ReceiptCount {
        ReceiptCount {
            count: 0,
            matched: Some(0),
        }
    }

    /// How many such lines there are.
    pub(crate) fn count(&self) -> u64
        ensures { result ≡ self.now.count }
    {
        self.count
    }

    /// These bytes come next.
    pub(crate) fn note(&mut self, bytes: &[u8]) {
        let mut rest = bytes;
        // Each turn takes a byte or more.
        for _ in 0..bytes.len() {
            rest = match (self.matched, rest) {
                (_, []) => break,
                (Some(place), [first, behind @ ..]) => {
                    self.match_byte(place, *first);
                    behind
                }
                (None, _) => self.next_line(rest),
            };
        }
    }

    fn match_byte(&mut self, place: usize, byte: u8) {
        let is_next = BEGINNING.get(place) == Some(&byte);
        self.matched = if byte == b'\n' {
            Some(0)
        } else if is_next && place + 1 < BEGINNING.len() {
            Some(place + 1)
        } else {
            None
        };
        if is_next && self.matched.is_none() {
            self.count = self.count.saturating_add(1);
        }
    }

    // What is behind the line that the bytes begin in.
    fn next_line<'a>(&mut self, bytes: &'a [u8]) -> &'a [u8] {
        match memchr(b'\n', bytes) {
            Some(place) => {
                self.matched = Some(0);
                &bytes[place + 1..]
            }
            None => &[],
        }
    }
}
