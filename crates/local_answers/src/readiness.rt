//! Whether a replica that has peers hears one of them.
ghost use Rattle.std.specs.Prelude.{◌≡◌, IfOk, length};
ghost use Rattle.status_warnings.specs.WarningLines.{lines_of_warnings};
ghost use Rattle.health_pages.specs.declared.response.ContentType.TheVariants.{Text};
ghost use Rattle.health_pages.specs.declared.response.ResponseStatus.TheVariants.{Unavailable};
ghost use Rattle.local_answers.specs.PageAnswers.{IsAnswer, IsReadyAnswer, is_unheard};
ghost use Rattle.local_answers.specs.PageAnswers.{quiet_warnings, warn_limits};

use crate::page_source::{PageAnswer, PageSource};
use fed_config::ConfigId;
use health_pages::{ContentType, ResponseStatus};
use status_view::Status;
use status_warnings::{Seen, WarnLimits, Warning, find_warnings, push_warning_lines};
use std::alloc::{AllocError, Global};

/// `ready`; or, if there are peers and each is quiet, the warnings that say so.
pub(crate) fn ready_answer(alloc: Global, source: &PageSource<'_>) -> Result<PageAnswer, AllocError>
    ensures { IfOk result (IsReadyAnswer source.now) }
{
    let quiet = quiet_warnings(alloc, source)?;
    if is_unheard(source, quiet.len()) {
        unheard_answer(alloc, quiet.as_slice())
    } else {
        Ok(PageAnswer {
            status: ResponseStatus::Done,
            content: ContentType::Text,
            body: String::from_str(alloc, "ready\n")?.into_bytes(),
        })
    }
}

fn is_unheard(source: &PageSource<'_>, quiet: usize) -> bool
    ensures { result ≡ is_unheard quiet (length source.now.running.peers.now) }
{
    quiet > 0 && quiet == source.running.peers.len()
}

fn unheard_answer(alloc: Global, quiet: &[Warning]) -> Result<PageAnswer, AllocError>
    ensures { IfOk result (IsAnswer Unavailable Text (lines_of_warnings quiet.now)) }
{
    let mut body = Vec::new(alloc);
    push_warning_lines(&mut body, quiet)?;
    Ok(PageAnswer {
        status: ResponseStatus::Unavailable,
        content: ContentType::Text,
        body,
    })
}

// The peers that are quiet: the warnings of a replica that holds nothing and has these peers.
fn quiet_warnings(alloc: Global, source: &PageSource<'_>) -> Result<Vec<Warning>, AllocError>
    ensures { IfOk result (λ warnings. warnings.items ≡ quiet_warnings source.now) }
{
    let status = Status {
        config: ConfigId([0; 32]),
        receipts: 0,
        receipt_limit: 0,
        pending: 0,
        records: 0,
        record_limit: 0,
        domains: Vec::new(alloc),
        keyless_seeds: Vec::new(alloc),
    };
    let seen = Seen {
        status: &status,
        same_keys: &[],
        certificates: &[],
        fetches: &[],
        peers: source.running.peers,
        began: source.running.began,
    };
    find_warnings(alloc, &warn_limits(source), &seen)
}

/// By which limits a page warns.
pub(crate) fn warn_limits(source: &PageSource<'_>) -> WarnLimits
    ensures { result ≡ warn_limits source.now }
{
    WarnLimits {
        moment: source.running.moment,
        expires_within: source.warn_times.expires_within,
        peer_quiet: source.warn_times.peer_quiet,
    }
}
