//! Every refusal: its line and its exit status.
use bundle_doc::DocError;
use bundle_view::ObserveError;
use byte_lines::MemSink;
use closure_core::TakeError;
use fed_config::ConfigError;
use fedbundle::{CommandError, status, write_fault};
use poll_log::PollError;
use replica_core::SyncError;
use replica_sync::PullFault;
use spiffe_name::NameError;
use std::alloc::{AllocError, Global};
use std::str;

/// Room for some bytes of a line.
const SHORT_ROOM: usize = 14;

/// Room for a whole line.
const LINE_ROOM: usize = 300;

/// Reports the exit status of the refusal that the arguments name, its line, and what of it reaches
/// a sink of 14 bytes.
pub(crate) fn answer_refusal(
    alloc: Global,
    words: &str,
    answer: &mut String,
) -> Result<(), AllocError> {
    match refusal_of(words) {
        Some(error) => {
            show_line(alloc, &error, LINE_ROOM, answer)?;
            show_line(alloc, &error, SHORT_ROOM, answer)?;
            let ended = status(&error);
            write!(answer, "status {ended}\n")
        }
        None => answer.push_str("unknown refusal\n"),
    }
}

fn show_line(
    alloc: Global,
    error: &CommandError,
    room: usize,
    answer: &mut String,
) -> Result<(), AllocError> {
    let mut sink = MemSink::new(alloc, room)?;
    let done = write_fault(error, &mut sink);
    let line = str::from_utf8(sink.as_bytes()).unwrap_or("(no text)");
    match done {
        Ok(()) => write!(answer, "error {line}"),
        Err(why) => write!(answer, "in {room} bytes {line} and {why}\n"),
    }
}

// The arguments are the kind of the refusal, the refusal, and its numbers.
fn refusal_of(words: &str) -> Option<CommandError> {
    let (kind, rest) = words.split_once(' ').unwrap_or((words, ""));
    match kind {
        "Name" => Some(CommandError::Name(name_of(rest)?)),
        "Document" => Some(CommandError::Document(document_of(rest)?)),
        "Config" => Some(CommandError::Config(config_of(rest)?)),
        "Take" => Some(CommandError::Take(take_of(rest)?)),
        "Observe" => Some(CommandError::Observe(observe_of(rest)?)),
        "Poll" => Some(CommandError::Poll(poll_of(rest)?)),
        "Sync" => Some(CommandError::Sync(sync_of(rest)?)),
        "Pull" => Some(CommandError::Pull(pull_of(rest)?)),
        "Full" => Some(CommandError::Full),
        "NoMemory" => Some(CommandError::NoMemory),
        "Io" => Some(CommandError::Io),
        _ => None,
    }
}

fn halves(words: &str) -> (&str, &str) {
    words.split_once(' ').unwrap_or((words, ""))
}

fn name_of(words: &str) -> Option<NameError> {
    let (name, number) = halves(words);
    match name {
        "Empty" => Some(NameError::Empty),
        "TooLong" => Some(NameError::TooLong),
        "BadScheme" => Some(NameError::BadScheme),
        "BadDomainByte" => Some(NameError::BadDomainByte(number.parse().ok()?)),
        "BadPath" => Some(NameError::BadPath(number.parse().ok()?)),
        "NoMemory" => Some(NameError::NoMemory),
        _ => None,
    }
}

fn document_of(name: &str) -> Option<DocError> {
    match name {
        "TooLong" => Some(DocError::TooLong),
        "NotJson" => Some(DocError::NotJson),
        "NotObject" => Some(DocError::NotObject),
        "NoKeys" => Some(DocError::NoKeys),
        "BadSequence" => Some(DocError::BadSequence),
        "BadRefreshHint" => Some(DocError::BadRefreshHint),
        "CanonicalTooLong" => Some(DocError::CanonicalTooLong),
        "NoMemory" => Some(DocError::NoMemory),
        _ => None,
    }
}

fn config_of(name: &str) -> Option<ConfigError> {
    match name {
        "NotJson" => Some(ConfigError::NotJson),
        "Shape" => Some(ConfigError::Shape),
        "BadName" => Some(ConfigError::BadName),
        "BadUrl" => Some(ConfigError::BadUrl),
        "BadProfile" => Some(ConfigError::BadProfile),
        "DoubleRelationship" => Some(ConfigError::DoubleRelationship),
        "BadSeed" => Some(ConfigError::BadSeed),
        "TooMany" => Some(ConfigError::TooMany),
        "NoMemory" => Some(ConfigError::NoMemory),
        _ => None,
    }
}

fn take_of(name: &str) -> Option<TakeError> {
    match name {
        "UnknownDomain" => Some(TakeError::UnknownDomain),
        "WrongEndpoint" => Some(TakeError::WrongEndpoint),
        "BelowFloor" => Some(TakeError::BelowFloor),
        "Full" => Some(TakeError::Full),
        "NoMemory" => Some(TakeError::NoMemory),
        "ConfigDiffers" => Some(TakeError::ConfigDiffers),
        _ => None,
    }
}

fn observe_of(words: &str) -> Option<ObserveError> {
    let (name, rest) = halves(words);
    match name {
        "NoRelationship" => Some(ObserveError::NoRelationship),
        "WrongEndpoint" => Some(ObserveError::WrongEndpoint),
        "NoVoucherBundle" => Some(ObserveError::NoVoucherBundle),
        "KeyNotInCurrent" => Some(ObserveError::KeyNotInCurrent),
        "Document" => Some(ObserveError::Document(document_of(rest)?)),
        "Take" => Some(ObserveError::Take(take_of(rest)?)),
        _ => None,
    }
}

fn poll_of(words: &str) -> Option<PollError> {
    let (name, number) = halves(words);
    match name {
        "NoRelationship" => Some(PollError::NoRelationship),
        "PastRange" => Some(PollError::PastRange),
        "NoMemory" => Some(PollError::NoMemory),
        "BadLine" => Some(PollError::BadLine(number.parse().ok()?)),
        "BadMoment" => Some(PollError::BadMoment(number.parse().ok()?)),
        "Io" => Some(PollError::Io),
        _ => None,
    }
}

fn sync_of(words: &str) -> Option<SyncError> {
    let (name, rest) = halves(words);
    let (number, why) = halves(rest);
    match name {
        "BadHeader" => Some(SyncError::BadHeader),
        "ConfigDiffers" => Some(SyncError::ConfigDiffers),
        "VersionDiffers" => Some(SyncError::VersionDiffers),
        "NotCanonical" => Some(SyncError::NotCanonical(number.parse().ok()?)),
        "NotRising" => Some(SyncError::NotRising(number.parse().ok()?)),
        "BadCount" => Some(SyncError::BadCount),
        "Truncated" => Some(SyncError::Truncated),
        "Refused" => Some(SyncError::Refused(number.parse().ok()?, take_of(why)?)),
        "Io" => Some(SyncError::Io),
        "NoMemory" => Some(SyncError::NoMemory),
        _ => None,
    }
}

// First how many receipts were taken, and then the error.
fn pull_of(words: &str) -> Option<PullFault> {
    let (number, rest) = halves(words);
    Some(PullFault {
        why: sync_of(rest)?,
        taken: number.parse().ok()?,
    })
}
