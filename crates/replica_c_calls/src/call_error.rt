//! Why a call over bytes is refused.
ghost use Rattle.std.specs.Prelude.{◌≡◌};
ghost use Rattle.replica_c_calls.specs.declared.call_error.CallError.TheVariants.{Name, Document};
ghost use Rattle.replica_c_calls.specs.declared.call_error.CallError.TheVariants.{Config, Line};
ghost use Rattle.replica_c_calls.specs.declared.call_error.CallError.TheVariants.{Take};
ghost use Rattle.replica_c_calls.specs.declared.call_error.CallError.TheVariants.{Observe, Sync};
ghost use Rattle.replica_c_calls.specs.declared.call_error.CallError.TheVariants.{NoMemory};

use bundle_doc::DocError;
use bundle_view::ObserveError;
use closure_core::TakeError;
use fed_config::ConfigError;
use receipt_core::LineError;
use replica_core::SyncError;
use spiffe_name::NameError;
use std::alloc::AllocError;
use thiserror::Error;

/// Why a call over bytes is refused: the refusal of the part that it calls, or a cause of its own.
/// Its text is that of the command `fedbundle`.
#[derive(Clone, Copy, Debug, PartialEq, Eq, Error)]
pub enum CallError {
    /// The call may not be made so: its replica is not open, or is open already; a name is not
    /// UTF-8; or a key is not 64 lower-case hexadecimal digits.
    #[error("usage")]
    Usage,
    /// A text is not a trust domain name, or not a SPIFFE ID.
    #[error("{0}")]
    Name(NameError),
    /// The bytes are not a bundle document.
    #[error("{0}")]
    Document(DocError),
    /// The bytes are not a configuration.
    #[error("{0}")]
    Config(ConfigError),
    /// The bytes are not a receipt's line.
    #[error("{0}")]
    Line(LineError),
    /// What is to be held is not taken.
    #[error("{0}")]
    Take(TakeError),
    /// Nothing is observed.
    #[error("{0}")]
    Observe(ObserveError),
    /// A snapshot or a message is refused.
    #[error("{0}")]
    Sync(SyncError),
    /// More different receipts fit than may be held.
    #[error("E1 Full")]
    Full,
    /// Memory ran out.
    #[error("E2 NoMemory")]
    NoMemory,
}

impl From<NameError> for CallError {
    ghost from_gives = { λ e c. c ≡ Name e };

    fn from(error: NameError) -> CallError {
        CallError::Name(error)
    }
}

impl From<DocError> for CallError {
    ghost from_gives = { λ e c. c ≡ Document e };

    fn from(error: DocError) -> CallError {
        CallError::Document(error)
    }
}

impl From<ConfigError> for CallError {
    ghost from_gives = { λ e c. c ≡ Config e };

    fn from(error: ConfigError) -> CallError {
        CallError::Config(error)
    }
}

impl From<LineError> for CallError {
    ghost from_gives = { λ e c. c ≡ Line e };

    fn from(error: LineError) -> CallError {
        CallError::Line(error)
    }
}

impl From<TakeError> for CallError {
    ghost from_gives = { λ e c. c ≡ Take e };

    fn from(error: TakeError) -> CallError {
        CallError::Take(error)
    }
}

impl From<ObserveError> for CallError {
    ghost from_gives = { λ e c. c ≡ Observe e };

    fn from(error: ObserveError) -> CallError {
        CallError::Observe(error)
    }
}

impl From<SyncError> for CallError {
    ghost from_gives = { λ e c. c ≡ Sync e };

    fn from(error: SyncError) -> CallError {
        CallError::Sync(error)
    }
}

impl From<AllocError> for CallError {
    ghost from_gives = { λ _ c. c ≡ NoMemory };

    fn from(_refused: AllocError) -> CallError {
        CallError::NoMemory
    }
}
