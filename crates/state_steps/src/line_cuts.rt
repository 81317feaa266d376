//! Lines that are cut from the bytes of a file at a start.
ghost use Rattle.std.specs.Prelude.{◌≡◌, ◌-◌, ◌<◌, ◌≤◌, ◌^◌, ◌↔◌, ◌++◌, [], IfSome};
ghost use Rattle.std.specs.Prelude.{IsNone, IsTrue, List, drop, length, replicate, take, ℕ};
ghost use Rattle.state_steps.specs.LineCuts.{AreCounted, IsEndLine, IsLineStart, MayBeLeftOf};
ghost use Rattle.state_steps.specs.Resumes.{IsCutAtLine};

use memchr::memrchr;

/// How many bytes of a text were read, and how many of them its whole lines have. The text comes in
/// pieces of any size.
#[derive(Clone, Copy, Debug)]
pub struct CountedLines {
    read: u64,
    whole: u64,
}

/// The last line of a text.
#[derive(Clone, Copy, Debug)]
pub struct EndLine<'a> {
    /// At which byte of the text it begins.
    pub begin: usize,
    /// Its bytes, without the line feed.
    pub line: &'a [u8],
    /// Whether a line feed ends it.
    pub is_whole: bool,
}

impl CountedLines {
    /// Nothing was read yet.
    pub fn begin() -> CountedLines
        ensures { AreCounted result [] }
    {
        CountedLines { read: 0, whole: 0 }
    }

    /// This piece comes next.
    ///
    /// - `counted`: its bytes are counted behind those before, if all of them can be counted.
    pub fn add(&mut self, piece: &[u8])
        ensures counted { (text : List ℕ) → length (text ++ piece.now) < 2 ^ 64
            → AreCounted self.old text → AreCounted self.new (text ++ piece.now) }
    {
        let start = line_start(piece);
        if start > 0 {
            self.whole = self.read.saturating_add(start as u64);
        }
        self.read = self.read.saturating_add(piece.len() as u64);
    }

    /// How many bytes were read.
    pub fn read(&self) -> u64
        ensures { result ≡ self.now.read }
    {
        self.read
    }

    /// How many bytes the whole lines have.
    ///
    /// - `cut`: that number of bytes are all of the text but the part of a line at its end.
    pub fn whole(&self) -> u64
        ensures value { result ≡ self.now.whole }
        ensures cut { (text : List ℕ) → AreCounted self.now text
            → IsCutAtLine (record { found = text; cut = take result text }) }
    {
        self.whole
    }
}

/// The last line of the text, whole or a part of one; none if the text has no byte.
pub fn end_line(text: &[u8]) -> Option<EndLine<'_>>
    ensures none { IsNone result ↔ (text.now ≡ []) }
    ensures line { IfSome result (λ end. IsEndLine text.now end) }
{
    let (last, front) = text.split_last()?;
    let is_whole = *last == b'\n';
    let body = if is_whole { front } else { text };
    let begin = line_start(body);
    Some(EndLine {
        begin,
        line: rest_from(body, begin),
        is_whole,
    })
}

fn rest_from(bytes: &[u8], start: usize) -> &[u8]
    requires { start ≤ length bytes.now }
    ensures { result.now ≡ drop start bytes.now }
{
    &bytes[start..]
}

// The place at which the part behind the last line feed begins.
fn line_start(bytes: &[u8]) -> usize
    ensures { IsLineStart bytes.now result }
{
    match memrchr(b'\n', bytes) {
        Some(feed) => feed + 1,
        None => 0,
    }
}

/// Whether a stop may have left these bytes of a line that begins so and was being written: its
/// first bytes, and zeros in the place of others.
pub fn may_be_left_of(beginning: &[u8], bytes: &[u8]) -> bool
    ensures { IsTrue result ↔ MayBeLeftOf beginning.now bytes.now }
{
    bytes.starts_with(beginning) || beginning.starts_with(without_zeros(bytes))
}

// The bytes without the zeros at their end.
fn without_zeros(bytes: &[u8]) -> &[u8]
    ensures zeros { bytes.now
        ≡ result.now ++ replicate (length bytes.now - length result.now) 0 }
    ensures least { (front : List ℕ) (zeros : ℕ) → bytes.now ≡ front ++ replicate zeros 0
        → length result.now ≤ length front }
{
    let mut end = bytes.len();
    while end > 0 && bytes[end - 1] == 0 {
        end -= 1;
    }
    &bytes[..end]
}
