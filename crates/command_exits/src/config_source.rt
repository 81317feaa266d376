//! A configuration, out of the bytes of a source.
ghost use Rattle.command_exits.specs.DeviceRuns.{device_run};
ghost use Rattle.command_exits.specs.ConfigSource.{ReadsConfig};

use crate::error::CommandError;
use byte_lines::{Source, read_up_to};
use fed_config::Config;
use std::alloc::Global;

/// The configuration that the source has, which is read to its end.
///
/// # Errors
/// - `Config`: the bytes are not a configuration, or memory ran out for what they say,
/// - `Io`: the source failed,
/// - `NoMemory`: memory ran out for the bytes.
pub fn read_config<R: Source>(alloc: Global, source: &mut R) -> Result<Config, CommandError>
    ensures { ReadsConfig (device_run R.remaining R.has_failed source.old source.new) result }
{
    let bytes = read_up_to(alloc, source, usize::MAX)?;
    Ok(Config::read(alloc, bytes.as_slice())?)
}
