//! Bytes, line by line.
ghost use Rattle.std.specs.Prelude.{MatchOption};
ghost use Rattle.byte_lines.specs.Lines.{HasNoFeed};
ghost use Rattle.byte_lines.specs.Ahead.{AtFeed};
ghost use Rattle.side_by_side.specs.Inside.Steps.{IsFirstLine};

use memchr::memchr;

/// The first line of bytes.
#[derive(Clone, Copy)]
pub(crate) struct FirstLine<'a> {
    /// Its bytes, without its line feed.
    pub(crate) text: &'a [u8],
    /// What follows its line feed.
    pub(crate) after: &'a [u8],
}

/// The first line. `None` if no byte is a line feed.
pub(crate) fn first_line(bytes: &[u8]) -> Option<FirstLine<'_>>
    ensures { MatchOption result (HasNoFeed bytes.now)
        (λ line. IsFirstLine bytes.now line.text.now line.after.now) }
{
    match line_feed(bytes) {
        Some(end) => Some(FirstLine {
            text: &bytes[..end],
            after: &bytes[end + 1..],
        }),
        None => None,
    }
}

// The place of the first line feed.
fn line_feed(bytes: &[u8]) -> Option<usize>
    ensures { AtFeed bytes.now result }
{
    memchr(b'\n', bytes)
}
