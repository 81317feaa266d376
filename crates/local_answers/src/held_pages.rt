//! Pages that show what is held: each is the text of a command.
ghost use Rattle.std.specs.Prelude.{◌≡◌, IfOk, option_copied, option_map};
ghost use Rattle.json_reports.specs.ReportJson.{IsReportJson};
ghost use Rattle.replica_view.specs.TrustGraph.{IsGraphText};
ghost use Rattle.status_warnings.specs.WarnedStatus.{IsWarnedStatusIn};
ghost use Rattle.local_answers.specs.PageAnswers.{AnswersHeld, IsHeldPage, IsMetricsPage};
ghost use Rattle.local_answers.specs.PageAnswers.{IsRefusal};
ghost use Rattle.local_answers.specs.PageAnswers.{ShowsHeld, page_run, refusal_status};
ghost use Rattle.local_answers.specs.PageAnswers.{watching_by};

use crate::page_source::{PageAnswer, PageSource};
use crate::readiness::warn_limits;
use crate::reply::exit_line;
use byte_lines::FromWrite;
use closure_core::Closure;
use command_exits::{Exit, exit_status};
use fedbundle::read_chosen;
use health_pages::{ContentType, HeldPage, ResponseStatus, push_loop_metrics};
use json_reports::write_report_json;
use key_view::{KeysForm, keys_text};
use replica_view::write_graph;
use spiffe_name::TrustDomain;
use status_view::StatusFormat;
use status_warnings::{Watch, write_warned_status};
use std::alloc::{AllocError, Global};

/// The exit status of a command for which there was no memory.
const NO_MEMORY: u8 = 4;

/// The page, and of the graph what is of the domain with this name; or why that is not a name.
pub(crate) fn held_answer<C: Closure>(
    alloc: Global,
    closure: &C,
    source: &PageSource<'_>,
    page: HeldPage,
    named: Option<&str>,
) -> Result<PageAnswer, AllocError>
    ensures { IfOk result (AnswersHeld (page_run source.now (C.state closure.now).meaning) page
        (option_map (λ name. name.now) named.entry)) }
{
    match read_chosen(alloc, named) {
        Ok(chosen) => shown_answer(alloc, closure, source, page, chosen.as_ref()),
        Err(exit) => refused_answer(alloc, &exit),
    }
}

fn refused_answer(alloc: Global, exit: &Exit) -> Result<PageAnswer, AllocError>
    ensures { IfOk result (IsRefusal exit.now) }
{
    Ok(PageAnswer {
        status: refusal_status(exit_status(exit)),
        content: ContentType::Text,
        body: exit_line(alloc, exit)?,
    })
}

fn refusal_status(status: u8) -> ResponseStatus
    ensures { result ≡ refusal_status status }
{
    if status == NO_MEMORY {
        ResponseStatus::Unavailable
    } else {
        ResponseStatus::NotFound
    }
}

fn shown_answer<C: Closure>(
    alloc: Global,
    closure: &C,
    source: &PageSource<'_>,
    page: HeldPage,
    chosen: Option<&TrustDomain>,
) -> Result<PageAnswer, AllocError>
    ensures { IfOk result (ShowsHeld (page_run source.now (C.state closure.now).meaning) page
        (option_copied chosen.entry)) }
{
    Ok(PageAnswer {
        status: ResponseStatus::Done,
        content: page.content_type(),
        body: page_text(alloc, closure, source, page, chosen)?,
    })
}

fn page_text<C: Closure>(
    alloc: Global,
    closure: &C,
    source: &PageSource<'_>,
    page: HeldPage,
    chosen: Option<&TrustDomain>,
) -> Result<Vec<u8>, AllocError>
    ensures { IfOk result (λ text. IsHeldPage
        (page_run source.now (C.state closure.now).meaning) page (option_copied chosen.entry)
        text.items) }
{
    match page {
        HeldPage::Metrics => metrics_text(alloc, closure, source),
        HeldPage::Status => status_text(alloc, closure, source, StatusFormat::Json),
        HeldPage::Report => report_text(alloc, closure),
        HeldPage::Keys => keys_text(alloc, closure, KeysForm::Json, None),
        HeldPage::Graph => graph_text(alloc, closure, chosen),
    }
}

fn metrics_text<C: Closure>(
    alloc: Global,
    closure: &C,
    source: &PageSource<'_>,
) -> Result<Vec<u8>, AllocError>
    ensures { IfOk result (λ text. IsMetricsPage
        (page_run source.now (C.state closure.now).meaning) text.items) }
{
    let mut text = status_text(alloc, closure, source, StatusFormat::Prometheus)?;
    push_loop_metrics(&mut text, source.version, &source.counts)?;
    Ok(text)
}

fn status_text<C: Closure>(
    alloc: Global,
    closure: &C,
    source: &PageSource<'_>,
    format: StatusFormat,
) -> Result<Vec<u8>, AllocError>
    ensures { IfOk result (λ text. IsWarnedStatusIn (C.state closure.now).meaning
        (watching_by source.now) format text.items) }
{
    let watch = Watch {
        limits: warn_limits(source),
        running: Some(&source.running),
        fetches: &[],
    };
    let mut text = FromWrite::new(Vec::new(alloc));
    match write_warned_status(alloc, closure, &watch, format, &mut text) {
        Ok(_) => Ok(text.into_inner()),
        Err(_) => Err(AllocError),
    }
}

fn report_text<C: Closure>(alloc: Global, closure: &C) -> Result<Vec<u8>, AllocError>
    ensures { IfOk result (λ text. IsReportJson (C.state closure.now).meaning text.items) }
{
    let mut text = FromWrite::new(Vec::new(alloc));
    match write_report_json(alloc, closure, &mut text) {
        Ok(()) => Ok(text.into_inner()),
        Err(_) => Err(AllocError),
    }
}

fn graph_text<C: Closure>(
    alloc: Global,
    closure: &C,
    chosen: Option<&TrustDomain>,
) -> Result<Vec<u8>, AllocError>
    ensures { IfOk result (λ text. IsGraphText (C.state closure.now).meaning
        (option_copied chosen.entry) text.items) }
{
    let mut text = FromWrite::new(Vec::new(alloc));
    match write_graph(alloc, closure, chosen, &mut text) {
        Ok(()) => Ok(text.into_inner()),
        Err(_) => Err(AllocError),
    }
}
