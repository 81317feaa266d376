//! The numbers of refusals.
ghost use Rattle.std.specs.Prelude.{◌≡◌, ◌<◌};
ghost use Rattle.replica_c_calls.specs.Numbers.{config_number, document_number, line_number};
ghost use Rattle.replica_c_calls.specs.Numbers.{name_number, number_of, observe_number};
ghost use Rattle.replica_c_calls.specs.Numbers.{sync_number, take_number};

use crate::call_error::CallError;
use bundle_doc::DocError;
use bundle_view::ObserveError;
use closure_core::TakeError;
use fed_config::ConfigError;
use receipt_core::LineError;
use replica_core::SyncError;
use spiffe_name::NameError;

/// The number of a refusal: 1 for a call that may not be made so, otherwise that of its code. The
/// hundreds mean the letter: N 1, B 2, C 3, L 4, G 5, O 6, S 7, E 9. So `B4` is 204. If a code has
/// another one in it, as `O5 Document B4 NoKeys`, the first is multiplied by 1,000, and the second
/// added: 605,204.
pub fn fault_number(error: &CallError) -> u32
    ensures number { result ≡ number_of error.now }
    ensures some { 0 < result }
{
    match error {
        CallError::Usage => 1,
        CallError::Name(why) => name_fault(*why),
        CallError::Document(why) => document_fault(*why),
        CallError::Config(why) => config_fault(*why),
        CallError::Line(why) => line_fault(*why),
        CallError::Take(why) => take_fault(*why),
        CallError::Observe(why) => observe_fault(*why),
        CallError::Sync(why) => sync_fault(*why),
        CallError::Full => 901,
        CallError::NoMemory => 902,
    }
}

fn name_fault(why: NameError) -> u32
    ensures number { result ≡ name_number why }
    ensures some { 0 < result }
{
    match why {
        NameError::Empty => 101,
        NameError::TooLong => 102,
        NameError::BadScheme => 103,
        NameError::BadDomainByte(_) => 104,
        NameError::BadPath(_) => 105,
        NameError::NoMemory => 106,
    }
}

fn document_fault(why: DocError) -> u32
    ensures number { result ≡ document_number why }
    ensures some { 0 < result }
    ensures few { result < 1000 }
{
    match why {
        DocError::TooLong => 201,
        DocError::NotJson => 202,
        DocError::NotObject => 203,
        DocError::NoKeys => 204,
        DocError::BadSequence => 205,
        DocError::BadRefreshHint => 206,
        DocError::CanonicalTooLong => 207,
        DocError::NoMemory => 208,
    }
}

fn config_fault(why: ConfigError) -> u32
    ensures number { result ≡ config_number why }
    ensures some { 0 < result }
{
    match why {
        ConfigError::NotJson => 301,
        ConfigError::Shape => 302,
        ConfigError::BadName => 303,
        ConfigError::BadUrl => 304,
        ConfigError::BadProfile => 305,
        ConfigError::DoubleRelationship => 306,
        ConfigError::BadSeed => 307,
        ConfigError::TooMany => 308,
        ConfigError::NoMemory => 309,
    }
}

fn line_fault(why: LineError) -> u32
    ensures number { result ≡ line_number why }
    ensures some { 0 < result }
{
    match why {
        LineError::NotCanonical => 401,
        LineError::TooLong => 402,
        LineError::NoMemory => 403,
    }
}

fn take_fault(why: TakeError) -> u32
    ensures number { result ≡ take_number why }
    ensures some { 0 < result }
    ensures few { result < 1000 }
{
    match why {
        TakeError::UnknownDomain => 501,
        TakeError::WrongEndpoint => 502,
        TakeError::Full => 503,
        TakeError::NoMemory => 504,
        TakeError::ConfigDiffers => 505,
        TakeError::BelowFloor => 506,
    }
}

fn observe_fault(why: ObserveError) -> u32
    ensures number { result ≡ observe_number why }
    ensures some { 0 < result }
{
    match why {
        ObserveError::NoRelationship => 601,
        ObserveError::WrongEndpoint => 602,
        ObserveError::NoVoucherBundle => 603,
        ObserveError::KeyNotInCurrent => 604,
        ObserveError::Document(why) => 605_000 + document_fault(why),
        ObserveError::Take(why) => 606_000 + take_fault(why),
    }
}

fn sync_fault(why: SyncError) -> u32
    ensures number { result ≡ sync_number why }
    ensures some { 0 < result }
{
    match why {
        SyncError::BadHeader => 701,
        SyncError::ConfigDiffers => 702,
        SyncError::VersionDiffers => 703,
        SyncError::NotCanonical(_) => 704,
        SyncError::NotRising(_) => 705,
        SyncError::BadCount => 706,
        SyncError::Truncated => 707,
        SyncError::Refused(_, why) => 708_000 + take_fault(why),
        SyncError::Io => 709,
        SyncError::NoMemory => 710,
    }
}
