//! What a request asks for, as far as it decides when its turn comes.
use command_line::{CommandName, command_of};
use fair_turns::Work;
use health_pages::Page;
use local_answers::is_change;

/// The flag of a request that only shows what a change would do.
const DRY_RUN: &str = "--dry-run";

/// Which work a request with these arguments is.
pub(crate) fn work_of(words: &[String]) -> Work {
    let Some(first) = words.first() else {
        return Work::Short;
    };
    match command_of(first.as_str()) {
        Some(name) => work_of_command(name, words.iter().any(|word| word.as_str() == DRY_RUN)),
        None => Work::Short,
    }
}

/// What a request for this page is.
pub(crate) fn work_of_page(page: Page) -> Work {
    match page {
        Page::Fixed(_) | Page::Ready => Work::Short,
        Page::Held(_) => Work::Long,
    }
}

fn work_of_command(name: CommandName, is_dry: bool) -> Work {
    match name {
        CommandName::Bundle | CommandName::Stop => Work::Short,
        _ if is_change(name, is_dry) => Work::Change,
        _ => Work::Long,
    }
}
