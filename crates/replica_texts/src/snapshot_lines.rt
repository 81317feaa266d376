//! The first and the last line of a snapshot, for those who write its lines piece by piece.
ghost use Rattle.std.specs.Prelude.{◌≡◌, IfOk};
ghost use Rattle.replica_texts.specs.Snapshots.{count_of, header_line};
ghost use Rattle.replica_texts.specs.declared.format.Format.TheVariants.{Second};

use crate::format::Format;
use crate::header::{write_count, write_header};
use fed_config::Config;
use std::alloc::{AllocError, Global};

/// The first line of the snapshots of this configuration, without a line feed.
///
/// # Errors
/// Memory ran out.
pub fn first_snapshot_line(alloc: Global, config: &Config) -> Result<Vec<u8>, AllocError>
    ensures { IfOk result (λ text. text.items ≡ header_line Second config.now) }
{
    write_header(alloc, config, Format::Second)
}

/// The last line of a snapshot that has as many receipts and records of distrust as this, without a
/// line feed.
///
/// # Errors
/// Memory ran out.
pub fn last_snapshot_line(alloc: Global, receipts: u64, records: u64) -> Result<Vec<u8>, AllocError>
    ensures { IfOk result (λ text. text.items ≡ count_of Second receipts records) }
{
    write_count(alloc, Format::Second, receipts, records)
}
