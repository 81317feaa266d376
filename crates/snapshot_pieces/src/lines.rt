//! Lines, each with its line feed.
ghost use Rattle.std.specs.Prelude.{◌≡◌, ◌++◌, ◌≤◌, IfOk, OnOk, length, map, option_copied};
ghost use Rattle.std.specs.List.{AllByRecursion};
ghost use Rattle.receipt_core.specs.Receipt.{IsReceipt, distrust_line};
ghost use Rattle.receipt_core.specs.Limits.{most_receipts};
ghost use Rattle.replica_texts.specs.Snapshots.{ended, text_of_lines};
ghost use Rattle.snapshot_pieces.specs.Inside.Steps.{AreLent, IsRun, lent_list};

use crate::places::Behind;
use closure_core::Closure;
use receipt_core::{Distrust, Receipt};
use std::alloc::{AllocError, Global};

/// Lines of receipts, one after another.
#[derive(Drop)]
pub(crate) struct Run<'a> {
    pub text: Vec<u8>,
    // How many lines these are.
    pub count: usize,
    // The receipt of the last of them; without a line, the one that came before.
    pub last: Option<&'a Receipt>,
    // Whether no receipt is left.
    pub is_all: bool,
}

/// Appends a line and its line feed.
pub(crate) fn push_line(text: &mut Vec<u8>, line: &[u8]) -> Result<(), AllocError>
    ensures { OnOk result (text.new.items ≡ text.old.items ++ ended line.now) }
{
    text.extend_from_slice(line)?;
    text.extend_from_slice(b"\n")
}

/// Appends the lines of the records of distrust, and returns how many there are.
pub(crate) fn push_records<C: Closure>(
    alloc: Global,
    closure: &C,
    text: &mut Vec<u8>,
) -> Result<u64, AllocError>
    ensures text { OnOk result (text.new.items ≡ text.old.items
        ++ text_of_lines (map distrust_line (C.state closure.now).meaning.records)) }
    ensures count { IfOk result (λ count. count ≡ length (C.state closure.now).meaning.records) }
{
    let _config = closure.config();
    let mut count = 0u64;
    'records: for (domain, key) in closure.distrusts() {
        let record = Distrust {
            domain: domain.try_clone(alloc)?,
            key: *key,
        };
        push_line(text, record.write_line(alloc)?.as_slice())?;
        count += 1;
    }
    Ok(count)
}

/// The lines of the first of these receipts, until the text has `size` bytes or more, or all of
/// them. There is one at least, if there is a receipt. `before` is the receipt before these.
pub(crate) fn lines_until<'a>(
    alloc: Global,
    receipts: Behind<'a>,
    before: Option<&'a Receipt>,
    size: usize,
) -> Result<Run<'a>, AllocError>
    requires lent { AreLent (lent_list receipts) receipts }
    requires form { AllByRecursion IsReceipt (lent_list receipts) }
    requires few { length (lent_list receipts) ≤ most_receipts }
    ensures { IfOk result (IsRun (option_copied before.entry) (lent_list receipts.entry) size) }
{
    let mut text = Vec::new(alloc);
    let mut count = 0;
    let mut last = before;
    let mut rest = receipts.rest;
    let mut next = receipts.first;
    'receipts: while let Some(receipt) = next {
        push_line(&mut text, receipt.write_line(alloc)?.as_slice())?;
        count += 1;
        last = Some(receipt);
        if text.len() >= size {
            return Ok(Run {
                text,
                count,
                last,
                is_all: false,
            });
        }
        next = rest.next();
    }
    Ok(Run {
        text,
        count,
        last,
        is_all: true,
    })
}
