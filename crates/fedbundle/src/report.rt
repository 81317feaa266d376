//! `report`: what a replica accepts, from the bytes of a stream of receipts.
ghost use Rattle.std.specs.Prelude.{◌≡◌, ◌||◌, [], true, Err, OnOk};
ghost use Rattle.bundle_view.specs.Report.{is_report_fault};
ghost use Rattle.bundle_view.specs.declared.error.ReportError.TheVariants.{Io, NoMemory};
ghost use Rattle.command_line.specs.declared.option_texts.OutputForm.TheVariants.{Text};
ghost use Rattle.fedbundle.specs.CommandRun.{run_of};
ghost use Rattle.command_exits.specs.DeviceRuns.{device_run};
ghost use Rattle.fedbundle.specs.Report.{BeginsReportIn, RunsReport, WritesReportIn, report_asked};
ghost use Rattle.json_reports.specs.ReportJson.{IsReportJson};
ghost use Rattle.text_lines.specs.TextLines.{BeginsSome, WritesSome};

use crate::judge::take_lines;
use bundle_view::{ReportError, write_report};
use byte_lines::{DeviceError, Sink, Source};
use closure_core::Closure;
use command_exits::RunError;
use command_line::OutputForm;
use fed_config::Config;
use json_reports::write_report_json;
use std::alloc::Global;
use trust_closure::IndexedClosure;

/// Takes every receipt of the source's lines that fits the configuration, and then writes the
/// report of what is accepted with these receipts and no record of distrust
/// (`bundle_view::write_report`). It reports each other line on `line_errors` by a line of its own,
/// as `line 2: not canonical`, in order and as they come; lines are counted from 1. Returns how
/// many it reported.
///
/// | After the number | What is in the stream |
/// |---|---|
/// | `not canonical` | a line of at most 8,388,608 bytes, without its line feed, which is not
/// a receipt's line |
/// | `too long` | a longer line |
/// | `unknown domain` | a receipt with whose domain the configuration has no relationship |
/// | `wrong endpoint` | a receipt whose endpoint is another than that of the relationship |
/// | `below floor` | a receipt whose document is below the floor of its domain |
/// | `cut` | after the last line, bytes that no line feed ends, whatever they are |
///
/// The report depends only on the configuration and on the set of receipts that fit: neither on the
/// order of the lines, nor on repeated ones, nor on the pieces in which the bytes come. A receipt
/// that is repeated needs no place.
///
/// # Errors
/// After each the source may have been read in part, and `line_errors` holds a beginning of what
/// there was to report.
/// - [`RunError::Full`]: more different receipts fit than may be held. Nothing was written on
///   `sink`.
/// - [`RunError::NoMemory`]: memory ran out. Nothing was written on `sink`.
/// - [`RunError::Io`]: the source or `line_errors` failed, and nothing was written on `sink`; or
///   `sink` failed after a beginning of the report.
pub fn run_report<R: Source, W: Sink, E: Sink>(
    alloc: Global,
    config: &Config,
    source: &mut R,
    sink: &mut W,
    line_errors: &mut E,
) -> Result<u64, RunError>
    ensures { RunsReport
        (run_of (device_run R.remaining R.has_failed source.old source.new)
        (device_run W.contents W.has_failed sink.old sink.new))
        (device_run E.contents E.has_failed line_errors.old line_errors.new)
        (report_asked Text config.now) result }
{
    run_report_with::<IndexedClosure, R, W, E>(alloc, config, source, sink, line_errors)
}

/// The same as [`run_report`], over a closure of the caller's choice.
///
/// # Errors
/// Those of [`run_report`].
pub fn run_report_with<C: Closure, R: Source, W: Sink, E: Sink>(
    alloc: Global,
    config: &Config,
    source: &mut R,
    sink: &mut W,
    line_errors: &mut E,
) -> Result<u64, RunError>
    ensures { RunsReport
        (run_of (device_run R.remaining R.has_failed source.old source.new)
        (device_run W.contents W.has_failed sink.old sink.new))
        (device_run E.contents E.has_failed line_errors.old line_errors.new)
        (report_asked Text config.now) result }
{
    let mut closure = C::new(alloc, config)?;
    run_report_into(
        alloc,
        &mut closure,
        OutputForm::Text,
        source,
        sink,
        line_errors,
    )
}

/// The same as [`run_report`], in either form, into a closure that holds nothing yet, by the
/// configuration of that. What it took is the caller's afterwards: a program that ends with its
/// report need not give the memory back piece by piece. As JSON the report is the object of
/// [`write_report_json`].
///
/// # Errors
/// Those of [`run_report`].
pub fn run_report_into<C: Closure, R: Source, W: Sink, E: Sink>(
    alloc: Global,
    closure: &mut C,
    form: OutputForm,
    source: &mut R,
    sink: &mut W,
    line_errors: &mut E,
) -> Result<u64, RunError>
    requires receipts { (C.state closure.old).meaning.held ≡ [] }
    requires records { (C.state closure.old).meaning.records ≡ [] }
    ensures { RunsReport
        (run_of (device_run R.remaining R.has_failed source.old source.new)
        (device_run W.contents W.has_failed sink.old sink.new))
        (device_run E.contents E.has_failed line_errors.old line_errors.new)
        (report_asked form (C.state closure.old).meaning.config) result }
{
    // The prover learns here that each domain has one relationship.
    let _domains = closure.config().domains();
    let count = take_lines(alloc, closure, source, line_errors)?;
    report_to(alloc, closure, form, sink)?;
    Ok(count)
}

fn report_to<C: Closure, W: Sink>(
    alloc: Global,
    closure: &C,
    form: OutputForm,
    sink: &mut W,
) -> Result<(), ReportError>
    ensures ok { OnOk result (WritesReportIn form (C.state closure.now).meaning
        (W.contents sink.old) (W.contents sink.new)) }
    ensures io { result ≡ Err Io → (W.has_failed sink.new ≡ true)
        × BeginsReportIn form (C.state closure.now).meaning (W.contents sink.old)
        (W.contents sink.new) }
    ensures memory { result ≡ Err NoMemory → sink.new ≡ sink.old }
    ensures fault { W.has_failed sink.new ≡ (is_report_fault result || W.has_failed sink.old) }
{
    match form {
        OutputForm::Text => write_report(alloc, closure, sink),
        OutputForm::Json => json_to(alloc, closure, sink),
    }
}

fn json_to<C: Closure, W: Sink>(alloc: Global, closure: &C, sink: &mut W) -> Result<(), ReportError>
    ensures ok { OnOk result (WritesSome (IsReportJson (C.state closure.now).meaning)
        (W.contents sink.old) (W.contents sink.new)) }
    ensures io { result ≡ Err Io → (W.has_failed sink.new ≡ true)
        × BeginsSome (IsReportJson (C.state closure.now).meaning) (W.contents sink.old)
        (W.contents sink.new) }
    ensures memory { result ≡ Err NoMemory → sink.new ≡ sink.old }
    ensures fault { W.has_failed sink.new ≡ (is_report_fault result || W.has_failed sink.old) }
{
    match write_report_json(alloc, closure, sink) {
        Ok(()) => Ok(()),
        Err(DeviceError::Io) => Err(ReportError::Io),
        Err(DeviceError::NoMemory) => Err(ReportError::NoMemory),
    }
}
