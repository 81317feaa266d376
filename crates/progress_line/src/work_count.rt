//! What long work has read or written so far, and the line that says it.
ghost use Rattle.std.specs.Prelude.{◌≡◌, ◌<◌, ◌≤◌, ◌+◌, ◌^◌, ◌++◌, IfOk, ℕ};
ghost use Rattle.std.specs.Prelude.{MatchOption, OnOk, decimal, length, string_bytes};
ghost use Rattle.progress_line.specs.ProgressTexts.{megabytes_text, progress_text, receipts_text};

use crate::long_work::LongWork;
use crate::receipt_count::ReceiptCount;
use itoa::Buffer;
use std::alloc::{AllocError, Global};

/// After how many seconds the first line is due.
const FIRST_SECONDS: u64 = 1;

/// How many seconds after a line the next one is due.
const EVERY_SECONDS: u64 = 5;

/// The bytes of a megabyte.
const MEGABYTE: u64 = 1_000_000;

/// What a piece of work has read or written so far, and when its next line is due.
#[derive(Clone, Copy, Debug)]
pub(crate) struct WorkCount {
    work: LongWork,
    // After how many seconds the next line is due.
    next: u64,
    bytes: u64,
    receipts: ReceiptCount,
}

impl WorkCount {
    /// Nothing was read or written yet: the first line is due after one second.
    pub(crate) fn begin(work: LongWork) -> WorkCount
        ensures work { result.work ≡ work }
        ensures next { result.next ≡ 1 }
        ensures bytes { result.bytes ≡ 0 }
    {
        WorkCount {
            work,
            next: FIRST_SECONDS,
            bytes: 0,
            receipts: ReceiptCount::new(),
        }
    }

    /// These bytes were read or written next.
    ///
    /// - `bytes`: each of them is counted, up to the greatest number of 64 bits.
    /// - `rest`: nothing of when a line is due changes.
    pub(crate) fn add(&mut self, bytes: &[u8])
        ensures bytes { self.old.bytes + length bytes.now < 2 ^ 64
            → self.new.bytes ≡ self.old.bytes + length bytes.now }
        ensures work { self.new.work ≡ self.old.work }
        ensures next { self.new.next ≡ self.old.next }
    {
        self.bytes = self.bytes.saturating_add(bytes.len() as u64);
        self.receipts.note(bytes);
    }

    /// The line that is due after this many seconds, with its line feed; none before its time. The
    /// next one is due five seconds later.
    ///
    /// - `line`: there is one if and only if it is due, and it says what was counted.
    /// - `waits`: until then nothing changes.
    /// - `next`: the next one is due five seconds after this one, if 64 bits can count that.
    ///
    /// # Errors
    /// Memory ran out.
    pub(crate) fn line_at(
        &mut self,
        alloc: Global,
        seconds: u64,
    ) -> Result<Option<String>, AllocError>
        ensures line { IfOk result (λ found. MatchOption found (seconds < self.old.next)
            (λ line. (self.old.next ≤ seconds) × (string_bytes line
            ≡ progress_text self.old.work self.old.receipts.count self.old.bytes))) }
        ensures waits { seconds < self.old.next → self.new ≡ self.old }
        ensures next { self.old.next ≤ seconds → seconds + 5 < 2 ^ 64
            → self.new ≡ record self.old { next = seconds + 5 } }
    {
        if seconds < self.next {
            return Ok(None);
        }
        self.next = seconds.saturating_add(EVERY_SECONDS);
        Ok(Some(progress_text(alloc, self.work, self.receipts.count(), self.bytes)?))
    }
}

#[tactic(auto, unfolding(crate::specs::ProgressTexts::progress_text))]
fn progress_text(
    alloc: Global,
    work: LongWork,
    receipts: u64,
    bytes: u64,
) -> Result<String, AllocError>
    ensures { IfOk result (λ line. string_bytes line ≡ progress_text work receipts bytes) }
{
    let mut line = String::from_str(alloc, "fedbundle: ")?;
    line.push_str(work.text())?;
    line.push_str(": ")?;
    push_receipts(&mut line, receipts)?;
    push_megabytes(&mut line, bytes)?;
    Ok(line)
}

#[tactic(auto, unfolding(crate::specs::ProgressTexts::receipts_text))]
fn push_receipts(line: &mut String, receipts: u64) -> Result<(), AllocError>
    ensures { OnOk result (string_bytes line.new
        ≡ string_bytes line.old ++ receipts_text receipts) }
{
    push_decimal(line, receipts)?;
    line.push_str(" receipts, ")?;
    Ok(())
}

#[tactic(auto, unfolding(crate::specs::ProgressTexts::megabytes_text))]
fn push_megabytes(line: &mut String, bytes: u64) -> Result<(), AllocError>
    ensures { OnOk result (string_bytes line.new
        ≡ string_bytes line.old ++ megabytes_text bytes) }
{
    push_decimal(line, bytes / MEGABYTE)?;
    line.push_str(" MB so far\n")?;
    Ok(())
}

fn push_decimal(line: &mut String, number: u64) -> Result<(), AllocError>
    ensures { OnOk result (string_bytes line.new ≡ string_bytes line.old ++ decimal number) }
{
    let mut buffer = Buffer::new();
    line.push_str(buffer.format(number))
}
