//! What a configuration says, or what differs between two, by what the arguments of `config` say.
ghost use Rattle.std.specs.Prelude.{◌≡◌, ◌↔◌, IfOk, IsTrue, Ok};
ghost use Rattle.config_view.specs.ConfigText.{IsConfigDifference, IsConfigText};
ghost use Rattle.config_view.specs.ConfigJson.{IsConfigJson};
ghost use Rattle.fed_config.specs.Configuration.{config_id_of};
ghost use Rattle.fedbundle.specs.CommandRun.{run_of};
ghost use Rattle.command_exits.specs.DeviceRuns.{device_run};
ghost use Rattle.fedbundle.specs.SaidValues.{texts_of_call};
ghost use Rattle.fedbundle.specs.Shown.{RunsWriter};
ghost use Rattle.fedbundle.specs.ShownCommands.{ComparesConfigs, ComparesConfigsIn, IsConfigIn};
ghost use Rattle.fedbundle.specs.ShownCommands.{ShowsConfig, ShowsOneConfig, config_call};
ghost use Rattle.fedbundle.specs.ShownCommands.{exit_if_same};

use byte_lines::{Sink, Source};
use command_exits::{CommandError, Exit, read_config};
use command_line::{Call, OptionName, OutputForm, given, read_output_form};
use config_view::{write_config, write_config_difference, write_config_json};
use fed_config::Config;
use std::alloc::Global;

/// Writes what the configuration says; with `--with` what differs from the one that the source has,
/// which is read to its end. Returns the exit status: 1 if two have two digests.
///
/// # Errors
/// - [`Exit::Usage`]: the format is neither `text` nor `json`, or it is `json` together with
///   `--with`. Nothing was read or written.
/// - [`Exit::Refused`]: the error of [`read_config`], and nothing was written; or `Io` if the sink
///   failed after a beginning of the text, and `NoMemory` if memory ran out before it.
pub fn run_config<R: Source, W: Sink>(
    alloc: Global,
    config: &Config,
    call: &Call<'_>,
    source: &mut R,
    sink: &mut W,
) -> Result<u8, Exit>
    ensures { ShowsConfig (config_call call.now.name (texts_of_call call.now) config.now)
        (run_of (device_run R.remaining R.has_failed source.old source.new)
        (device_run W.contents W.has_failed sink.old sink.new)) result }
{
    let form = read_output_form(given(call, OptionName::Format))?;
    match given(call, OptionName::With) {
        Some(_) => compare_in(alloc, config, form, source, sink),
        None => show(alloc, config, form, sink),
    }
}

fn show<W: Sink>(alloc: Global, config: &Config, form: OutputForm, sink: &mut W) -> Result<u8, Exit>
    ensures { ShowsOneConfig form config.now
        (device_run W.contents W.has_failed sink.old sink.new) result }
{
    config_in(alloc, config, form, sink)?;
    Ok(0)
}

fn config_in<W: Sink>(
    alloc: Global,
    config: &Config,
    form: OutputForm,
    sink: &mut W,
) -> Result<(), CommandError>
    ensures { RunsWriter (IsConfigIn form config.now)
        (device_run W.contents W.has_failed sink.old sink.new) result }
{
    match form {
        OutputForm::Text => config_text(alloc, config, sink),
        OutputForm::Json => config_json(alloc, config, sink),
    }
}

fn config_text<W: Sink>(alloc: Global, config: &Config, sink: &mut W) -> Result<(), CommandError>
    ensures { RunsWriter (IsConfigText config.now)
        (device_run W.contents W.has_failed sink.old sink.new) result }
{
    write_config(alloc, config, sink)?;
    Ok(())
}

fn config_json<W: Sink>(alloc: Global, config: &Config, sink: &mut W) -> Result<(), CommandError>
    ensures { RunsWriter (IsConfigJson config.now)
        (device_run W.contents W.has_failed sink.old sink.new) result }
{
    write_config_json(alloc, config, sink)?;
    Ok(())
}

// There is no JSON of two configurations.
fn compare_in<R: Source, W: Sink>(
    alloc: Global,
    config: &Config,
    form: OutputForm,
    source: &mut R,
    sink: &mut W,
) -> Result<u8, Exit>
    ensures { ComparesConfigsIn form config.now
        (run_of (device_run R.remaining R.has_failed source.old source.new)
        (device_run W.contents W.has_failed sink.old sink.new)) result }
{
    match form {
        OutputForm::Text => compare(alloc, config, source, sink),
        OutputForm::Json => Err(Exit::Usage),
    }
}

// The source has the other configuration.
fn compare<R: Source, W: Sink>(
    alloc: Global,
    config: &Config,
    source: &mut R,
    sink: &mut W,
) -> Result<u8, Exit>
    ensures { ComparesConfigs config.now
        (run_of (device_run R.remaining R.has_failed source.old source.new)
        (device_run W.contents W.has_failed sink.old sink.new)) result }
{
    let with = read_config(alloc, source)?;
    let is_same = difference(alloc, config, &with, sink)?;
    Ok(status_of_same(is_same))
}

fn difference<W: Sink>(
    alloc: Global,
    config: &Config,
    with: &Config,
    sink: &mut W,
) -> Result<bool, CommandError>
    ensures runs { RunsWriter (IsConfigDifference config.now with.now)
        (device_run W.contents W.has_failed sink.old sink.new) result }
    ensures same { IfOk result (λ same. IsTrue same
        ↔ (config_id_of config.now ≡ config_id_of with.now)) }
{
    Ok(write_config_difference(alloc, config, with, sink)?)
}

/// The exit status of a comparison: 1 if something differs.
pub(crate) fn status_of_same(is_same: bool) -> u8
    ensures { Ok result ≡ exit_if_same (Ok is_same) }
{
    if is_same { 0 } else { 1 }
}
