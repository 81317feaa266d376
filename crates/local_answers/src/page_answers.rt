//! Pages of a running replica: what is held is only lent to them, so they change nothing.
ghost use Rattle.std.specs.Prelude.{◌≡◌, IfOk};
ghost use Rattle.health_pages.specs.FixedTexts.{fixed_text};
ghost use Rattle.health_pages.specs.Pages.{asked_view};
ghost use Rattle.health_pages.specs.Responses.{fixed_type};
ghost use Rattle.health_pages.specs.declared.response.ResponseStatus.TheVariants.{Done};
ghost use Rattle.local_answers.specs.PageAnswers.{AnswersPage, IsAnswer, ShowsPage, page_run};

use crate::held_pages::held_answer;
use crate::page_source::{PageAnswer, PageSource};
use crate::readiness::ready_answer;
use closure_core::Closure;
use health_pages::{
    AskedPage, FixedPage, Page, PageResponse, ResponseStatus, fixed_text, write_response,
};
use std::alloc::{AllocError, Global};

/// The response to a request for a page. A page that shows what is held has what a command prints:
/// `status` as metrics or as JSON, `report` as JSON, `list --keys` as JSON, or `graph`. After its
/// metrics come those of the loop.
///
/// # Errors
/// Memory ran out.
pub fn answer_page<C: Closure>(
    alloc: Global,
    closure: &C,
    source: &PageSource<'_>,
    asked: &AskedPage,
    is_head: bool,
) -> Result<PageResponse, AllocError>
    ensures { IfOk result (AnswersPage (page_run source.now (C.state closure.now).meaning)
        (asked_view asked.now) is_head) }
{
    let answer = page_answer(alloc, closure, source, asked)?;
    write_response(alloc, answer.status, answer.content, answer.body, is_head)
}

fn page_answer<C: Closure>(
    alloc: Global,
    closure: &C,
    source: &PageSource<'_>,
    asked: &AskedPage,
) -> Result<PageAnswer, AllocError>
    ensures { IfOk result (ShowsPage (page_run source.now (C.state closure.now).meaning)
        (asked_view asked.now)) }
{
    match asked.page {
        Page::Fixed(page) => fixed_answer(alloc, page),
        Page::Ready => ready_answer(alloc, source),
        Page::Held(page) => held_answer(alloc, closure, source, page, asked.domain_text()),
    }
}

fn fixed_answer(alloc: Global, page: FixedPage) -> Result<PageAnswer, AllocError>
    ensures { IfOk result (IsAnswer Done (fixed_type page) (fixed_text page)) }
{
    Ok(PageAnswer {
        status: ResponseStatus::Done,
        content: page.content_type(),
        body: String::from_str(alloc, fixed_text(page))?.into_bytes(),
    })
}
