//! Why a command ends before it is done, the line on standard error that says so, and the exit
//! status.
ghost use Rattle.std.specs.Prelude.{◌≡◌, ◌≤◌, true, OnOk, IfErr, IsErr};
ghost use Rattle.std.specs.Io.KnownBytes.{Appends};
ghost use Rattle.byte_lines.specs.Device.{AppendsBeginning};
ghost use Rattle.command_exits.specs.Exits.{AppendsExit, exit_of_option, exit_status_of};
ghost use Rattle.command_exits.specs.declared.error.CommandError.TheVariants.{NoMemory};
ghost use Rattle.command_exits.specs.declared.exits.Exit.TheVariants.{Refused};

use crate::error::{CommandError, status};
use crate::fault::write_fault;
use crate::file_fault::FileFault;
use byte_lines::{Sink, write_all};
use command_line::{OptionError, OptionName};
use std::alloc::AllocError;

/// Why a command ends before it is done. It owns nothing, so a function may hold it together with
/// what it owns itself.
#[derive(Clone, Copy, Debug, PartialEq, Eq)]
pub enum Exit {
    /// An argument is not text, or the subcommand or an option is missing.
    Usage,
    /// The path of a file is empty.
    EmptyPath(OptionName),
    /// A text is not a number, or a number out of its range.
    BadNumber(OptionName),
    /// `--key` is not 64 lower-case hexadecimal digits.
    BadKey,
    /// `--now` is not a time.
    BadMoment,
    /// `--listen`, `--health`, `--peer` or one of `--peers` is not the address of a socket, or has
    /// port 0 although others have to know the port, or a replica may not listen there; or a name
    /// of `--health-host` is empty or has a port.
    BadAddress(OptionName),
    /// The domain has no current bundle.
    NoBundle,
    /// The document is not accepted.
    NotAccepted,
    /// No key that is known in the domain has the public key.
    NoKnownKey,
    /// Another command had the lock of the state for the whole time.
    Locked,
    /// A running replica has the lock of the state.
    ReplicaRuns,
    /// Another process listens on the socket, or its path names something else.
    SocketTaken,
    /// There is no state file, and the arguments do not say that it may begin without one.
    NoState,
    /// A state was to begin, but there is a state file or a journal.
    StateExists,
    /// The socket is one at which nothing can be changed.
    ReadOnly,
    /// No replica answered at the socket.
    NoReplica,
    /// The replica at the socket did not answer in time.
    NoReply,
    /// More bytes would be held than the limit says.
    TooManyBytes,
    /// The system refused a call at this step.
    System(SystemFault),
    /// The command was refused.
    Refused(CommandError),
}

/// What a command was at when the system refused a call.
#[derive(Clone, Copy, Debug, PartialEq, Eq)]
pub enum Step {
    /// It locked the state.
    Lock,
    /// It looked whether the state file is the one that it had read.
    See,
    /// It wrote the state.
    Save,
    /// It wrote the journal.
    Journal,
    /// It wrote the audit file.
    Audit,
    /// It was to listen on the socket of local requests.
    Socket,
    /// It was to listen at an address.
    Listen,
    /// It waited for a client.
    Accept,
    /// It was to connect.
    Connect,
}

/// An error of the system: what is reported, the step at which it came up, and the system's number
/// of it.
#[derive(Clone, Copy, Debug, PartialEq, Eq)]
pub struct SystemFault {
    /// What is reported.
    pub error: CommandError,
    /// The step at which it came up.
    pub step: Step,
    /// The system's number of it, if the system refused a call.
    pub code: Option<i32>,
}

impl Exit {
    /// The end by an error of a state file.
    pub fn of_file(step: Step, fault: FileFault) -> Exit {
        Exit::System(SystemFault {
            error: CommandError::from(fault),
            step,
            code: fault.code,
        })
    }
}

/// The exit status: 2 for usage, 3 for a lock, a socket, a replica that does not answer or a failed
/// device, 4 for memory that ran out, and else 1.
pub fn exit_status(exit: &Exit) -> u8
    ensures { result ≡ exit_status_of exit.now }
{
    match exit {
        Exit::Usage | Exit::EmptyPath(_) | Exit::BadNumber(_) => 2,
        Exit::BadKey | Exit::BadMoment | Exit::BadAddress(_) => 1,
        Exit::NoBundle | Exit::NotAccepted | Exit::NoKnownKey | Exit::TooManyBytes => 1,
        Exit::Locked | Exit::ReplicaRuns | Exit::SocketTaken => 3,
        Exit::NoReplica | Exit::NoReply => 3,
        Exit::NoState | Exit::StateExists | Exit::ReadOnly => 1,
        Exit::System(fault) => status(&fault.error),
        Exit::Refused(error) => status(error),
    }
}

/// Writes the line that says why the command ends. It takes no memory.
///
/// # Errors
/// `Io` if the sink failed, which then holds a beginning of the line.
pub fn write_exit<W: Sink>(exit: &Exit, sink: &mut W) -> Result<(), CommandError>
    ensures ok { OnOk result (AppendsExit exit.now (W.contents sink.old) (W.contents sink.new)) }
{
    let line: &[u8] = match exit {
        Exit::Usage | Exit::EmptyPath(_) | Exit::BadNumber(_) => b"fedbundle: usage\n",
        Exit::BadKey => b"fedbundle: bad key\n",
        Exit::BadMoment => b"fedbundle: bad moment\n",
        Exit::BadAddress(_) => b"fedbundle: bad address\n",
        Exit::NoBundle => b"fedbundle: no current bundle\n",
        Exit::NotAccepted => b"fedbundle: not accepted\n",
        Exit::NoKnownKey => b"fedbundle: no known key\n",
        Exit::Locked => b"fedbundle: locked\n",
        Exit::ReplicaRuns => b"fedbundle: a replica is running\n",
        Exit::SocketTaken => b"fedbundle: socket taken\n",
        Exit::NoState => b"fedbundle: no state\n",
        Exit::StateExists => b"fedbundle: state exists\n",
        Exit::ReadOnly => b"fedbundle: read only\n",
        Exit::NoReplica => b"fedbundle: no replica\n",
        Exit::NoReply => b"fedbundle: no reply\n",
        Exit::TooManyBytes => b"fedbundle: too many bytes\n",
        Exit::System(fault) => return write_fault(&fault.error, sink),
        Exit::Refused(error) => return write_fault(error, sink),
    };
    write_all(sink, line)?;
    Ok(())
}

impl From<CommandError> for Exit {
    ghost from_gives = { λ e x. x ≡ Refused e };

    fn from(error: CommandError) -> Exit {
        Exit::Refused(error)
    }
}

impl From<OptionError> for Exit {
    ghost from_gives = { λ e x. x ≡ exit_of_option e };

    fn from(error: OptionError) -> Exit {
        match error {
            OptionError::Usage => Exit::Usage,
            OptionError::BadNumber(option) => Exit::BadNumber(option),
            OptionError::BadKey => Exit::BadKey,
            OptionError::BadAddress(option) => Exit::BadAddress(option),
            OptionError::EmptyPath(option) => Exit::EmptyPath(option),
        }
    }
}

impl From<AllocError> for Exit {
    ghost from_gives = { λ _ x. x ≡ Refused NoMemory };

    fn from(_error: AllocError) -> Exit {
        Exit::Refused(CommandError::NoMemory)
    }
}
