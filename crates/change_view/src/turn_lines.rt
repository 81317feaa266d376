//! What the journal and the audit file get in a turn, in one order.
ghost use Rattle.std.specs.Prelude.{◌≡◌, ◌++◌, ◌↔◌, [], IfOk, IfSome, IsNone, MatchOption, OnOk};
ghost use Rattle.std.specs.Prelude.{map};
ghost use Rattle.byte_lines.specs.Lines.{lines_of};
ghost use Rattle.change_view.specs.TurnTexts.{AreReportedAt, ComesInOrder, IsReportOf};
ghost use Rattle.change_view.specs.TurnTexts.{IsReportedAt, audit_at, line_at, part_journal};
ghost use Rattle.change_view.specs.TurnTexts.{turn_journal};
ghost use Rattle.change_view.specs.declared.turn_lines.LinesReport.TheVariants.{Lost};

use crate::audit_entries::last_line_digest;
use crate::change_texts::push_audit_line;
use crate::held_change::{HeldChange, JournalledChange};
use std::alloc::{AllocError, Global};

/// What reports lines of the journal.
#[derive(Clone, Copy, Debug)]
pub enum LinesReport<'a> {
    /// The line of this change in the audit file. The lines are all that the journal gets for it.
    Change(&'a HeldChange),
    /// The line of the start there: they were held when the replica began.
    Start,
    /// Nothing: memory ran out when they were made.
    Lost,
}

/// Lines that the journal gets in a turn, and what reports them.
#[derive(Clone, Copy, Debug)]
pub struct TurnLines<'a> {
    /// The lines, each with its line feed.
    pub lines: &'a [u8],
    /// What reports them.
    pub report: LinesReport<'a>,
}

impl<'a> TurnLines<'a> {
    /// The lines of a request and its change, which may be missing for lack of memory; none if
    /// there are no lines.
    pub fn of_request(lines: &'a [u8], change: Option<&'a HeldChange>) -> Option<TurnLines<'a>>
        ensures none { IsNone result ↔ (lines.now ≡ []) }
        ensures lines { IfSome result (λ part. part.lines.now ≡ lines.now) }
        ensures report { IfSome result (λ part. MatchOption change.entry (part.report ≡ Lost)
            (λ made. IsReportOf made.now part.report)) }
    {
        if lines.is_empty() {
            return None;
        }
        let report = match change {
            Some(change) => LinesReport::Change(change),
            None => LinesReport::Lost,
        };
        Some(TurnLines { lines, report })
    }
}

/// The lines of what was held at the start, which are this many bytes, and those of these changes,
/// which follow them. Whatever is behind those has no report.
///
/// # Errors
/// Memory ran out.
pub fn lines_of_changes<'a>(
    alloc: Global,
    text: &'a [u8],
    start: usize,
    changes: &'a [JournalledChange],
) -> Result<Vec<TurnLines<'a>>, AllocError>
    ensures { IfOk result (λ turn. turn_journal turn.items ≡ text.now) }
{
    let mut turn = Vec::new(alloc);
    let mut rest = push_lines(&mut turn, text, start, LinesReport::Start)?;
    for made in changes {
        rest = push_lines(
            &mut turn,
            rest,
            made.bytes,
            LinesReport::Change(&made.change),
        )?;
    }
    push_all(&mut turn, rest, LinesReport::Lost)?;
    Ok(turn)
}

// Adds the first bytes, if there are any, with what reports them. Returns the others.
fn push_lines<'a>(
    turn: &mut Vec<TurnLines<'a>>,
    bytes: &'a [u8],
    count: usize,
    report: LinesReport<'a>,
) -> Result<&'a [u8], AllocError>
    ensures { IfOk result (λ rest.
        turn_journal turn.new.items ++ rest.now ≡ turn_journal turn.old.items ++ bytes.now) }
{
    let (lines, rest) = bytes.split_at(count.min(bytes.len()));
    push_all(turn, lines, report)?;
    Ok(rest)
}

// Adds the lines, if there are any, with what reports them.
#[tactic(auto, using(crate::proofs::TurnFacts::journal_with))]
fn push_all<'a>(
    turn: &mut Vec<TurnLines<'a>>,
    lines: &'a [u8],
    report: LinesReport<'a>,
) -> Result<(), AllocError>
    ensures { OnOk result
        (turn_journal turn.new.items ≡ turn_journal turn.old.items ++ lines.now) }
{
    if !lines.is_empty() {
        turn.push(TurnLines { lines, report })?;
    }
    Ok(())
}

/// What the two files get in a turn.
#[derive(Debug, Drop)]
pub struct TurnTexts<'a> {
    /// The lines of the audit file.
    pub audit: Vec<u8>,
    /// What the journal gets, one after another.
    pub journal: Vec<&'a [u8]>,
}

/// What the two files get for the lines of a turn, in their order. Without a Unix second there is
/// no audit file, and no text for it.
///
/// - `journal`, `audit`: each part is there once, and each change has one line.
/// - `reported`: no line gets into the journal without a report in the audit file.
/// - `whole`, `in_order`: of the audit file a stop leaves what [`state_steps::laws::audits`] wants.
///
/// # Errors
/// Memory ran out, now or when a change was made that the audit file is to have.
pub fn turn_texts<'a>(
    alloc: Global,
    moment: Option<u64>,
    turn: &[TurnLines<'a>],
) -> Result<TurnTexts<'a>, AllocError>
    ensures journal { IfOk result
        (λ texts. map (λ l. l.now) texts.journal.items ≡ map part_journal turn.now) }
    ensures audit { IfOk result (λ texts. texts.audit.items ≡ audit_at moment turn.now) }
    ensures reported { IfOk result (λ texts. AreReportedAt moment turn.now) }
    ensures whole { IfOk result (λ texts. (lines_of texts.audit.items).rest ≡ []) }
    ensures in_order { IfOk result (λ texts. ComesInOrder moment turn.now texts.audit.items) }
{
    let mut audit = Vec::new(alloc);
    let mut journal = Vec::new(alloc);
    for part in turn {
        push_report(alloc, &mut audit, moment, part)?;
        journal.push(part.lines)?;
    }
    Ok(TurnTexts { audit, journal })
}

// Adds the line of the part, if it is to have one.
fn push_report(
    alloc: Global,
    out: &mut Vec<u8>,
    moment: Option<u64>,
    part: &TurnLines<'_>,
) -> Result<(), AllocError>
    ensures line { OnOk result (out.new.items ≡ out.old.items ++ line_at moment part.now) }
    ensures reported { OnOk result (IsReportedAt moment part.now.report) }
{
    let Some(moment) = moment else {
        return Ok(());
    };
    match part.report {
        LinesReport::Change(change) => {
            let last = last_line_digest(part.lines);
            push_audit_line(alloc, out, moment, change, &last)
        }
        LinesReport::Start => Ok(()),
        LinesReport::Lost => Err(AllocError),
    }
}
