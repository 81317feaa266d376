//! Haves, written.
ghost use Rattle.std.specs.Prelude.{◌≡◌, ◌≢◌, ◌||◌, IfOk, IfErr, OnOk, Err, true};
ghost use Rattle.std.specs.Io.KnownBytes.{Appends};
ghost use Rattle.byte_lines.specs.Device.{AppendsBeginning};
ghost use Rattle.replica_texts.specs.Messages.{have_text};
ghost use Rattle.replica_texts.specs.Snapshots.{is_io};
ghost use Rattle.replica_core.specs.declared.error.SyncError.TheVariants.{Io, NoMemory};

use crate::spelling::{HaveLine, push_have_line};
use byte_lines::{Sink, write_all};
use replica_core::{Have, SyncError};
use std::alloc::{AllocError, Global};

/// Writes the have: one line of compact JSON with the members `bucket`, `config`, `format`,
/// which is 2, `have`, the ids as lower-case hexadecimal, and `of`, which is 256. All memory is
/// taken before the first byte is written.
///
/// # Errors
/// - [`SyncError::Io`]: the sink failed, and holds a beginning of the have.
/// - [`SyncError::NoMemory`]: memory ran out. Nothing was written.
pub fn write_have<W: Sink>(alloc: Global, have: &Have, sink: &mut W) -> Result<(), SyncError>
    ensures ok { OnOk result
        (Appends (W.contents sink.old) (W.contents sink.new) (have_text have.now)) }
    ensures io { result ≡ Err Io
        → (W.has_failed sink.new ≡ true)
        × AppendsBeginning (W.contents sink.old) (W.contents sink.new) (have_text have.now) }
    ensures memory { result ≡ Err NoMemory → sink.new ≡ sink.old }
    ensures fault { W.has_failed sink.new ≡ (is_io result || W.has_failed sink.old) }
    ensures refused { IfErr result (λ e. e ≢ Io → e ≡ NoMemory) }
{
    let text = render(alloc, have)?;
    write_all(sink, text.as_slice())?;
    Ok(())
}

fn render(alloc: Global, have: &Have) -> Result<Vec<u8>, AllocError>
    ensures { IfOk result (λ text. text.items ≡ have_text have.now) }
{
    let mut text = Vec::new(alloc);
    let line = HaveLine {
        bucket: u64::from(have.bucket()),
        config: have.config(),
        format: 2,
        ids: have.ids(),
        buckets: 256,
    };
    push_have_line(&mut text, &line)?;
    text.extend_from_slice(b"\n")?;
    Ok(text)
}
