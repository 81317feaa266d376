//! Why a command ends without its result, and the exit status that says so.
ghost use Rattle.std.specs.Prelude.{◌≡◌};
ghost use Rattle.command_exits.specs.Errors.{of_read, of_report, of_run};
ghost use Rattle.command_exits.specs.Status.{status_of, status_of_sync};
ghost use Rattle.command_exits.specs.declared.error.CommandError.TheVariants.{Name, Document};
ghost use Rattle.command_exits.specs.declared.error.CommandError.TheVariants.{Config};
ghost use Rattle.command_exits.specs.declared.error.CommandError.TheVariants.{Take, Observe, Poll};
ghost use Rattle.command_exits.specs.declared.error.CommandError.TheVariants.{Sync, Pull, NoMemory};
ghost use Rattle.command_exits.specs.declared.error.CommandError.TheVariants.{Io};

use crate::run_error::RunError;
use bundle_doc::DocError;
use bundle_view::{ObserveError, ReportError};
use byte_lines::{DeviceError, Fault};
use closure_core::TakeError;
use fed_config::ConfigError;
use poll_log::PollError;
use replica_core::{PullFault, SyncError};
use spiffe_name::NameError;
use std::alloc::AllocError;
use thiserror::Error;

/// Why a command ends without its result: the refusal of a part that it uses, or a cause of its
/// own.
#[derive(Clone, Copy, Debug, PartialEq, Eq, Error)]
pub enum CommandError {
    /// A text is not a trust domain name, or not a SPIFFE ID.
    #[error("{0}")]
    Name(NameError),
    /// The input is not a bundle document.
    #[error("{0}")]
    Document(DocError),
    /// The bytes are not a configuration.
    #[error("{0}")]
    Config(ConfigError),
    /// A record is not taken.
    #[error("{0}")]
    Take(TakeError),
    /// Nothing is observed.
    #[error("{0}")]
    Observe(ObserveError),
    /// The lines of polls have no log.
    #[error("{0}")]
    Poll(PollError),
    /// A snapshot, a state file or a message of another replica is refused.
    #[error("{0}")]
    Sync(SyncError),
    /// The journal of a state file is refused.
    #[error("journal: {0}")]
    Journal(SyncError),
    /// A session with another replica ended before its last answer was taken.
    #[error("{0}")]
    Pull(PullFault),
    /// The store is full.
    #[error("E1 Full")]
    Full,
    /// Memory ran out.
    #[error("E2 NoMemory")]
    NoMemory,
    /// A device failed.
    #[error("E3 Io")]
    Io,
}

/// The exit status of the program: 1 if an input was refused, 3 if a device failed, 4 if memory ran
/// out, whatever for.
pub fn status(error: &CommandError) -> u8
    ensures { result ≡ status_of error.now }
{
    match error {
        CommandError::Name(NameError::NoMemory) => 4,
        CommandError::Document(DocError::NoMemory) => 4,
        CommandError::Config(ConfigError::NoMemory) => 4,
        CommandError::Take(TakeError::NoMemory) => 4,
        CommandError::Observe(ObserveError::Document(DocError::NoMemory)) => 4,
        CommandError::Observe(ObserveError::Take(TakeError::NoMemory)) => 4,
        CommandError::Poll(PollError::NoMemory) => 4,
        CommandError::NoMemory => 4,
        CommandError::Poll(PollError::Io) => 3,
        CommandError::Io => 3,
        CommandError::Name(_) | CommandError::Document(_) | CommandError::Config(_) => 1,
        CommandError::Take(_) | CommandError::Observe(_) | CommandError::Poll(_) => 1,
        CommandError::Sync(why) | CommandError::Journal(why) => sync_status(why),
        CommandError::Pull(fault) => sync_status(&fault.why),
        CommandError::Full => 1,
    }
}

fn sync_status(why: &SyncError) -> u8
    ensures { result ≡ status_of_sync why.now }
{
    match why {
        SyncError::Refused(_, TakeError::NoMemory) => 4,
        SyncError::NoMemory => 4,
        SyncError::Io => 3,
        _ => 1,
    }
}

impl From<NameError> for CommandError {
    ghost from_gives = { λ e c. c ≡ Name e };

    fn from(error: NameError) -> CommandError {
        CommandError::Name(error)
    }
}

impl From<DocError> for CommandError {
    ghost from_gives = { λ e c. c ≡ Document e };

    fn from(error: DocError) -> CommandError {
        CommandError::Document(error)
    }
}

impl From<TakeError> for CommandError {
    ghost from_gives = { λ e c. c ≡ Take e };

    fn from(error: TakeError) -> CommandError {
        CommandError::Take(error)
    }
}

impl From<ObserveError> for CommandError {
    ghost from_gives = { λ e c. c ≡ Observe e };

    fn from(error: ObserveError) -> CommandError {
        CommandError::Observe(error)
    }
}

impl From<PollError> for CommandError {
    ghost from_gives = { λ e c. c ≡ Poll e };

    fn from(error: PollError) -> CommandError {
        CommandError::Poll(error)
    }
}

impl From<SyncError> for CommandError {
    ghost from_gives = { λ e c. c ≡ Sync e };

    fn from(error: SyncError) -> CommandError {
        CommandError::Sync(error)
    }
}

impl From<PullFault> for CommandError {
    ghost from_gives = { λ e c. c ≡ Pull e };

    fn from(fault: PullFault) -> CommandError {
        CommandError::Pull(fault)
    }
}

impl From<ConfigError> for CommandError {
    ghost from_gives = { λ e c. c ≡ Config e };

    fn from(error: ConfigError) -> CommandError {
        CommandError::Config(error)
    }
}

impl From<RunError> for CommandError {
    ghost from_gives = { λ e c. c ≡ of_run e };

    fn from(error: RunError) -> CommandError {
        match error {
            RunError::Full => CommandError::Full,
            RunError::NoMemory => CommandError::NoMemory,
            RunError::Io => CommandError::Io,
        }
    }
}

impl From<ReportError> for CommandError {
    ghost from_gives = { λ e c. c ≡ of_run (of_report e) };

    fn from(error: ReportError) -> CommandError {
        match error {
            ReportError::Io => CommandError::Io,
            ReportError::NoMemory => CommandError::NoMemory,
        }
    }
}

impl From<AllocError> for CommandError {
    ghost from_gives = { λ _ c. c ≡ NoMemory };

    fn from(_error: AllocError) -> CommandError {
        CommandError::NoMemory
    }
}

impl From<Fault> for CommandError {
    ghost from_gives = { λ _ c. c ≡ Io };

    fn from(_fault: Fault) -> CommandError {
        CommandError::Io
    }
}

impl From<DeviceError> for CommandError {
    ghost from_gives = { λ e c. c ≡ of_read e };

    fn from(error: DeviceError) -> CommandError {
        match error {
            DeviceError::Io => CommandError::Io,
            DeviceError::NoMemory => CommandError::NoMemory,
        }
    }
}
