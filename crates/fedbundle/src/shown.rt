//! The commands that show what is held or its configuration, by what their arguments say: `config`,
//! `report`, `list`, `diff`, `graph`, `bundle`, `explain`, `migrate`, `reseed`, `polls`, `status`,
//! and `distrust` if it only shows what would change.
ghost use Rattle.std.specs.Prelude.{◌≡◌, Ok, option_map};
ghost use Rattle.json_reports.specs.ReportJson.{IsReportJson};
ghost use Rattle.bundle_view.specs.Report.{IsReport};
ghost use Rattle.fedbundle.specs.CommandRun.{run_of};
ghost use Rattle.command_exits.specs.DeviceRuns.{device_run};
ghost use Rattle.fedbundle.specs.CurrentBundle.{RunsBundle, RunsBundlePem};
ghost use Rattle.fedbundle.specs.Shown.{IsReportIn, RunsWriter, ShowsBy};
ghost use Rattle.fedbundle.specs.Shown.{ShowsBundle, ShowsEffect, ShowsExplanation, ShowsPolls};
ghost use Rattle.fedbundle.specs.Shown.{ShowsReport, exit_if_written, keeper_of, polls_form};
ghost use Rattle.fedbundle.specs.Shown.{shown_call};
ghost use Rattle.fedbundle.specs.ShownCommands.{RunsShown};
ghost use Rattle.command_line.specs.declared.option_texts.BundleFormat.TheVariants.{Json, Pem};

use crate::bundle::{run_bundle, run_bundle_pem};
use crate::distrust::show_distrust;
use crate::explain::run_explain;
use crate::option_values::read_moment;
use crate::polls::run_polls_in;
use crate::said_keys::{Keeper, read_given_keys};
use crate::said_values::read_domain;
use crate::shown_config::run_config;
use crate::shown_difference::diff;
use crate::shown_held::{graph, list};
use crate::shown_moves::{migrate, reseed_of};
use crate::shown_status::status;
use bundle_view::write_report;
use byte_lines::{Sink, Source};
use closure_core::Closure;
use command_exits::{CommandError, Exit};
use command_line::{
    BundleFormat, Call, CommandName, OptionName, OutputForm, given, read_bundle_format,
    read_explanation_form, read_output_form, wanted,
};
use json_reports::write_report_json;
use poll_view::PollsForm;
use spiffe_name::TrustDomain;
use status_view::RunningStatus;
use std::alloc::Global;

/// What is to be shown.
#[derive(Clone, Copy, Debug)]
pub struct Shown<'call, 'words, 'a> {
    /// The arguments, whose texts are lent.
    pub call: &'call Call<'words>,
    /// What a running replica says of itself, which `status` then shows, too; `None` if what is
    /// held was read from a state file.
    pub running: Option<&'a RunningStatus<'a>>,
    /// The Unix second, by which `status` warns; 0 if the clock had none.
    pub moment: i64,
}

/// Writes what the arguments ask for, of what is held, and returns the exit status: 1 for a
/// `status` with a warning, for a `config` or a `diff` that found a difference, and for a `migrate`
/// or a `reseed` that leaves out or refuses something, which they say on `line_errors`; and
/// otherwise 0. Only those two write there; a `reseed` with `--floors` also says there how many
/// receipts fit.
///
/// `explain` and `polls`, and `status` with `--polls`, read the source, to its end or as far as
/// [`run_explain`] and [`run_polls_in`] say. It has the other configuration for `config` with
/// `--with` and `migrate` with `--to`, and a snapshot of the other side for `diff`, which all read
/// it to its end. The others leave it. `distrust` only shows what would change, as
/// [`crate::show_distrust`] does, whether or not the arguments have `--dry-run`.
///
/// # Errors
/// If the arguments are refused, no device was touched.
/// - [`Exit::Usage`]: an option is missing or has no form that the command has, or the command is
///   another one,
/// - [`Exit::BadKey`], [`Exit::BadMoment`], [`Exit::BadNumber`]: the text of `--key` or
///   `--public-key`, of `--now`, or of `--expires-within` or `--peer-quiet` is not one,
/// - [`Exit::NoKnownKey`]: `distrust`, as [`crate::read_given_keys`] says,
/// - [`Exit::NoBundle`]: `bundle`, of a domain that has no current document. Nothing was written.
/// - [`Exit::NotAccepted`]: `explain`, of a document that is not accepted. Nothing was written.
/// - [`Exit::Refused`]: `--domain` is not a domain's name, or the error of the command's function.
pub fn run_shown<C: Closure, R: Source, W: Sink, E: Sink>(
    alloc: Global,
    closure: &C,
    shown: Shown<'_, '_, '_>,
    source: &mut R,
    sink: &mut W,
    line_errors: &mut E,
) -> Result<u8, Exit>
    ensures { RunsShown (shown_call shown.entry (C.state closure.now).meaning)
        (run_of (device_run R.remaining R.has_failed source.old source.new)
        (device_run W.contents W.has_failed sink.old sink.new))
        (device_run E.contents E.has_failed line_errors.old line_errors.new) result }
{
    match shown.call.name {
        CommandName::Config => run_config(alloc, closure.config(), shown.call, source, sink),
        CommandName::Diff => diff(alloc, closure, shown, source, sink),
        CommandName::Migrate => migrate(alloc, closure, shown, source, sink, line_errors),
        CommandName::Reseed => reseed_of(alloc, closure, shown, sink, line_errors),
        _ => show_alone(alloc, closure, shown, source, sink),
    }
}

// The commands that write on one sink.
fn show_alone<C: Closure, R: Source, W: Sink>(
    alloc: Global,
    closure: &C,
    shown: Shown<'_, '_, '_>,
    source: &mut R,
    sink: &mut W,
) -> Result<u8, Exit>
    ensures { ShowsBy shown.entry.call.now.name
        (shown_call shown.entry (C.state closure.now).meaning)
        (run_of (device_run R.remaining R.has_failed source.old source.new)
        (device_run W.contents W.has_failed sink.old sink.new)) result }
{
    match shown.call.name {
        CommandName::Report => report(alloc, closure, shown, sink),
        CommandName::List => list(alloc, closure, shown, sink),
        CommandName::Graph => graph(alloc, closure, shown, sink),
        CommandName::Bundle => bundle(alloc, closure, shown, sink),
        CommandName::Explain => explain(alloc, closure, shown, source, sink),
        CommandName::Polls => polls(alloc, closure, shown, source, sink),
        CommandName::Status => status(alloc, closure, shown, source, sink),
        CommandName::Distrust => distrust_effect(alloc, closure, shown, sink),
        _ => Err(Exit::Usage),
    }
}

fn report<C: Closure, W: Sink>(
    alloc: Global,
    closure: &C,
    shown: Shown<'_, '_, '_>,
    sink: &mut W,
) -> Result<u8, Exit>
    ensures { ShowsReport (shown_call shown.entry (C.state closure.now).meaning)
        (device_run W.contents W.has_failed sink.old sink.new) result }
{
    let form = read_output_form(given(shown.call, OptionName::Format))?;
    report_in(alloc, closure, form, sink)?;
    Ok(0)
}

fn report_in<C: Closure, W: Sink>(
    alloc: Global,
    closure: &C,
    form: OutputForm,
    sink: &mut W,
) -> Result<(), CommandError>
    ensures { RunsWriter (IsReportIn form (C.state closure.now).meaning)
        (device_run W.contents W.has_failed sink.old sink.new) result }
{
    match form {
        OutputForm::Text => report_text(alloc, closure, sink),
        OutputForm::Json => report_json(alloc, closure, sink),
    }
}

fn report_text<C: Closure, W: Sink>(
    alloc: Global,
    closure: &C,
    sink: &mut W,
) -> Result<(), CommandError>
    ensures { RunsWriter (IsReport (C.state closure.now).meaning)
        (device_run W.contents W.has_failed sink.old sink.new) result }
{
    write_report(alloc, closure, sink)?;
    Ok(())
}

fn report_json<C: Closure, W: Sink>(
    alloc: Global,
    closure: &C,
    sink: &mut W,
) -> Result<(), CommandError>
    ensures { RunsWriter (IsReportJson (C.state closure.now).meaning)
        (device_run W.contents W.has_failed sink.old sink.new) result }
{
    write_report_json(alloc, closure, sink)?;
    Ok(())
}

fn bundle<C: Closure, W: Sink>(
    alloc: Global,
    closure: &C,
    shown: Shown<'_, '_, '_>,
    sink: &mut W,
) -> Result<u8, Exit>
    ensures { ShowsBundle (shown_call shown.entry (C.state closure.now).meaning)
        (device_run W.contents W.has_failed sink.old sink.new) result }
{
    let domain = read_domain(alloc, wanted(shown.call, OptionName::Domain)?)?;
    let format = read_bundle_format(given(shown.call, OptionName::Format))?;
    let is_written = bundle_in(alloc, closure, &domain, format, sink)?;
    written_or(Exit::NoBundle, is_written)
}

// The exit of a command, by whether there was something to write.
fn written_or(nothing: Exit, is_written: bool) -> Result<u8, Exit>
    ensures { result ≡ exit_if_written nothing (Ok is_written) }
{
    if is_written { Ok(0) } else { Err(nothing) }
}

fn bundle_in<C: Closure, W: Sink>(
    alloc: Global,
    closure: &C,
    domain: &TrustDomain,
    format: BundleFormat,
    sink: &mut W,
) -> Result<bool, CommandError>
    ensures json { format ≡ Json → RunsBundle
        (device_run W.contents W.has_failed sink.old sink.new)
        (C.state closure.now).meaning domain.now result }
    ensures pem { format ≡ Pem → RunsBundlePem
        (device_run W.contents W.has_failed sink.old sink.new)
        (C.state closure.now).meaning domain.now result }
{
    match format {
        BundleFormat::Json => run_bundle(closure, domain, sink),
        BundleFormat::Pem => run_bundle_pem(alloc, closure, domain, sink),
    }
}

fn explain<C: Closure, R: Source, W: Sink>(
    alloc: Global,
    closure: &C,
    shown: Shown<'_, '_, '_>,
    source: &mut R,
    sink: &mut W,
) -> Result<u8, Exit>
    ensures { ShowsExplanation (shown_call shown.entry (C.state closure.now).meaning)
        (run_of (device_run R.remaining R.has_failed source.old source.new)
        (device_run W.contents W.has_failed sink.old sink.new)) result }
{
    let domain = read_domain(alloc, wanted(shown.call, OptionName::Domain)?)?;
    let form = read_explanation_form(
        given(shown.call, OptionName::Short),
        given(shown.call, OptionName::Format),
    )?;
    let is_written = run_explain(alloc, closure, &domain, form, source, sink)?;
    written_or(Exit::NotAccepted, is_written)
}

fn polls<C: Closure, R: Source, W: Sink>(
    alloc: Global,
    closure: &C,
    shown: Shown<'_, '_, '_>,
    source: &mut R,
    sink: &mut W,
) -> Result<u8, Exit>
    ensures { ShowsPolls (shown_call shown.entry (C.state closure.now).meaning)
        (run_of (device_run R.remaining R.has_failed source.old source.new)
        (device_run W.contents W.has_failed sink.old sink.new)) result }
{
    let form = read_output_form(given(shown.call, OptionName::Format))?;
    let now = read_moment(wanted(shown.call, OptionName::Now)?)?;
    run_polls_in(alloc, closure, polls_form(form), now, source, sink)?;
    Ok(0)
}

fn polls_form(form: OutputForm) -> PollsForm
    ensures { result ≡ polls_form form }
{
    match form {
        OutputForm::Text => PollsForm::Lines,
        OutputForm::Json => PollsForm::Json,
    }
}

fn distrust_effect<C: Closure, W: Sink>(
    alloc: Global,
    closure: &C,
    shown: Shown<'_, '_, '_>,
    sink: &mut W,
) -> Result<u8, Exit>
    ensures { ShowsEffect (shown_call shown.entry (C.state closure.now).meaning)
        (device_run W.contents W.has_failed sink.old sink.new) result }
{
    let given = read_given_keys(alloc, closure, shown.call, keeper_of(shown.running))?;
    show_distrust(alloc, closure, &given, sink)?;
    Ok(0)
}

// A running replica says something of itself.
fn keeper_of(running: Option<&RunningStatus<'_>>) -> Keeper
    ensures { result ≡ keeper_of (option_map (λ r. r.now) running.entry) }
{
    match running {
        Some(_) => Keeper::Replica,
        None => Keeper::Files,
    }
}
