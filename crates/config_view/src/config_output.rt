//! Configurations, written as lines.
ghost use Rattle.std.specs.Prelude.{◌≡◌, ◌↔◌, ◌||◌, true, Err, IsTrue, IfOk, OnOk};
ghost use Rattle.byte_lines.specs.Device.{is_source_fault};
ghost use Rattle.byte_lines.specs.declared.error.DeviceError.TheVariants.{Io, NoMemory};
ghost use Rattle.fed_config.specs.Configuration.{config_id_of};
ghost use Rattle.config_view.specs.ConfigText.{IsConfigDifference, IsConfigText};
ghost use Rattle.text_lines.specs.TextLines.{BeginsSome, WritesSome};

use crate::shown_lines::config_lines;
use byte_lines::{DeviceError, Sink};
use fed_config::Config;
use std::alloc::Global;
use text_lines::{write_difference, write_lines};

/// Writes what the configuration says: a line `config` with its digest, a line `relationship` for
/// each relationship, a line `domain` for each trust domain that it speaks of, and a line `seed`
/// for each seed, with the id and the sequence number of its document, and a line `floor` for each
/// floor. Each of these lists is sorted. So equal configurations have one text.
///
/// All memory is taken before the first byte is written.
///
/// # Errors
/// - [`DeviceError::Io`]: the sink failed, and holds a beginning of the text.
/// - [`DeviceError::NoMemory`]: memory ran out. Nothing was written.
pub fn write_config<W: Sink>(
    alloc: Global,
    config: &Config,
    sink: &mut W,
) -> Result<(), DeviceError>
    ensures ok { OnOk result
        (WritesSome (IsConfigText config.now) (W.contents sink.old) (W.contents sink.new)) }
    ensures io { result ≡ Err Io → (W.has_failed sink.new ≡ true)
        × BeginsSome (IsConfigText config.now) (W.contents sink.old) (W.contents sink.new) }
    ensures memory { result ≡ Err NoMemory → sink.new ≡ sink.old }
    ensures fault { W.has_failed sink.new ≡ (is_source_fault result || W.has_failed sink.old) }
{
    let lines = config_lines(alloc, config)?;
    write_lines(alloc, lines.as_slice(), sink)
}

/// Writes what differs between two configurations: each line that [`write_config`] would write only
/// of `one`, after `- `, and then each that it would write only of `other`, after `+ `. For equal
/// configurations that is nothing. Returns whether they have one digest.
///
/// All memory is taken before the first byte is written.
///
/// # Errors
/// - [`DeviceError::Io`]: the sink failed, and holds a beginning of the text.
/// - [`DeviceError::NoMemory`]: memory ran out. Nothing was written.
pub fn write_config_difference<W: Sink>(
    alloc: Global,
    one: &Config,
    other: &Config,
    sink: &mut W,
) -> Result<bool, DeviceError>
    ensures same { IfOk result (λ same. IsTrue same
        ↔ (config_id_of one.now ≡ config_id_of other.now)) }
    ensures ok { OnOk result (WritesSome (IsConfigDifference one.now other.now)
        (W.contents sink.old) (W.contents sink.new)) }
    ensures io { result ≡ Err Io → (W.has_failed sink.new ≡ true)
        × BeginsSome (IsConfigDifference one.now other.now) (W.contents sink.old)
        (W.contents sink.new) }
    ensures memory { result ≡ Err NoMemory → sink.new ≡ sink.old }
    ensures fault { W.has_failed sink.new ≡ (is_source_fault result || W.has_failed sink.old) }
{
    let lines = config_lines(alloc, one)?;
    let others = config_lines(alloc, other)?;
    write_difference(alloc, lines.as_slice(), others.as_slice(), sink)?;
    Ok(one.digest() == other.digest())
}
