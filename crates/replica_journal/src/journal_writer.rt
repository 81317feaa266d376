//! Journals, written.
ghost use Rattle.std.specs.Prelude.{◌≡◌, ◌++◌, OnOk, OnErr};
ghost use Rattle.replica_core.specs.declared.entry.Entry.TheVariants.{Record};
ghost use Rattle.replica_texts.specs.Snapshots.{ended};
ghost use Rattle.replica_texts.specs.SoleLines.{written_header};
ghost use Rattle.replica_journal.specs.Journal.{entry_text};

use fed_config::Config;
use receipt_core::Distrust;
use replica_core::Entry;
use replica_texts::write_first_line;
use std::alloc::{AllocError, Global};

/// Appends the first line of a journal of this configuration, with its line feed.
///
/// # Errors
/// Memory ran out. Nothing is appended.
pub fn begin_journal(alloc: Global, config: &Config, out: &mut Vec<u8>) -> Result<(), AllocError>
    ensures ok { OnOk result (out.new.items ≡ out.old.items ++ ended (written_header config.now)) }
    ensures refused { OnErr result (out.new.items ≡ out.old.items) }
{
    let text = write_first_line(alloc, config)?;
    push_ended(out, text)
}

/// Appends the line of a receipt or a record of distrust, with its line feed.
///
/// # Errors
/// Memory ran out. Nothing is appended.
pub fn push_entry(alloc: Global, entry: &Entry, out: &mut Vec<u8>) -> Result<(), AllocError>
    ensures ok { OnOk result (out.new.items ≡ out.old.items ++ entry_text entry.now) }
    ensures refused { OnErr result (out.new.items ≡ out.old.items) }
{
    match entry {
        Entry::Record(distrust) => push_record(alloc, distrust, out),
        Entry::Receipt(receipt) => push_ended(out, receipt.write_line(alloc)?),
    }
}

/// Appends the line of a record of distrust, with its line feed.
///
/// # Errors
/// Memory ran out. Nothing is appended.
pub fn push_record(alloc: Global, distrust: &Distrust, out: &mut Vec<u8>) -> Result<(), AllocError>
    ensures ok { OnOk result (out.new.items ≡ out.old.items ++ entry_text (Record distrust.now)) }
    ensures refused { OnErr result (out.new.items ≡ out.old.items) }
{
    push_ended(out, distrust.write_line(alloc)?)
}

// Appends the text and a line feed, or nothing.
fn push_ended(out: &mut Vec<u8>, mut text: Vec<u8>) -> Result<(), AllocError>
    ensures ok { OnOk result (out.new.items ≡ out.old.items ++ ended text.items) }
    ensures refused { OnErr result (out.new.items ≡ out.old.items) }
{
    text.push(b'\n')?;
    out.extend_from_slice(text.as_slice())
}
