//! The report of what is accepted from lines of receipts.
ghost use Rattle.std.specs.Prelude.{MatchResult};
ghost use Rattle.command_c_calls.specs.Reporting.{RefusesLineText, RefusesReportBytes};
ghost use Rattle.command_c_calls.specs.Reporting.{ReportsBytes, ReportsLineText};

use crate::discarding_sink::DiscardingSink;
use fed_config::Config;
use fedbundle::{RunError, run_report};
use replica_c_calls::{CallError, GrowingSink, source_of};
use std::alloc::Global;

/// A report, and how many lines there were without a receipt that fits.
#[derive(Drop)]
pub struct ReportedLines {
    /// The report of what is accepted.
    pub report: Vec<u8>,
    /// How many lines have no receipt that fits, and one more if bytes follow the last line.
    pub refused: u64,
}

/// Takes the receipt of each line that fits the configuration, and reports what is accepted, as
/// [`run_report`] does.
///
/// # Errors
/// The first of these that holds:
/// - [`CallError::Config`]: the bytes are not a configuration,
/// - [`CallError::Full`]: more different receipts fit than may be held,
/// - [`CallError::NoMemory`]: memory ran out.
pub fn report_lines(alloc: Global, config: &[u8], lines: &[u8]) -> Result<ReportedLines, CallError>
    ensures { MatchResult result (ReportsBytes config.now lines.now)
        (RefusesReportBytes config.now lines.now) }
{
    let config = Config::read(alloc, config)?;
    report_text(alloc, &config, lines)
}

fn report_text(alloc: Global, config: &Config, lines: &[u8]) -> Result<ReportedLines, CallError>
    ensures { MatchResult result (ReportsLineText config.now lines.now)
        (RefusesLineText config.now lines.now) }
{
    let mut source = source_of(alloc, lines)?;
    let mut sink = GrowingSink::new(alloc);
    let mut line_errors = DiscardingSink;
    match run_report(alloc, config, &mut source, &mut sink, &mut line_errors) {
        Ok(refused) => Ok(ReportedLines {
            report: sink.into_text(),
            refused,
        }),
        Err(RunError::Full) => Err(CallError::Full),
        // Bytes in memory do not fail, and the sink fails only for lack of memory.
        Err(RunError::NoMemory) => Err(CallError::NoMemory),
        Err(RunError::Io) => Err(CallError::NoMemory),
    }
}
