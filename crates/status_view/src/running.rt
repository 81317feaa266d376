//! What a running replica knows of itself in addition to what it holds, as a value.
ghost use Rattle.std.specs.Prelude.{◌≡◌};
ghost use Rattle.status_view.specs.Running.{fault_code};

use fed_config::ConfigId;
use replica_core::SyncError;

/// What a running replica knows in addition to what it holds: how long its files are, how the
/// sessions went in which it asked its peers, the time of day, and from which configuration it is
/// changed, if it is.
#[derive(Clone, Copy, Debug)]
pub struct RunningStatus<'a> {
    /// The bytes of the snapshot in the state file.
    pub snapshot_bytes: u64,
    /// How many bytes its journal has.
    pub journal_bytes: u64,
    /// Its peers, in the order in which they are asked.
    pub peers: &'a [PeerStatus],
    /// The Unix second at which it began to ask them; 0 if its clock had none.
    pub began: u64,
    /// The Unix second at which it says this; 0 if its clock had none.
    pub moment: i64,
    /// The configuration that is changed from, if there is one.
    pub previous: Option<PreviousStatus>,
}

impl RunningStatus<'_> {
    /// The bytes of both files.
    pub fn state_bytes(&self) -> u64 {
        self.snapshot_bytes.saturating_add(self.journal_bytes)
    }
}

/// A peer, and how the sessions went in which it was asked.
#[derive(Debug, Drop)]
pub struct PeerStatus {
    /// Its address, as an IP address and a port.
    pub address: String,
    /// The Unix second at which a session last ended well; `None` if none did.
    pub ended_well: Option<u64>,
    /// Why the last session failed that did; `None` if none did.
    pub fault: Option<PeerFault>,
    /// How many receipts came from it that were not held.
    pub receipts: u64,
    /// Under which configuration it last answered; `None` if it never did.
    pub asked: Option<AskedConfig>,
}

/// The configuration that a replica is changed from, which it still serves in addition to its own.
#[derive(Clone, Copy, Debug)]
pub struct PreviousStatus {
    /// Its digest.
    pub config: ConfigId,
    /// The Unix second at which a session under it was last answered, by this replica or by a peer;
    /// `None` if none was.
    pub used: Option<u64>,
}

/// One of two configurations.
#[derive(Clone, Copy, Debug, PartialEq, Eq)]
pub enum AskedConfig {
    /// The one that is changed to.
    Next,
    /// The one that is changed from.
    Previous,
}

/// Why a session with a peer failed.
#[derive(Clone, Copy, Debug, PartialEq, Eq)]
pub enum PeerFault {
    /// What it said, its connection, or memory.
    Session(SyncError),
    /// It sent more bytes than this replica takes.
    TooManyBytes,
}

/// The short name of why a session failed: the code of the error, `S1` to `S10`, or `bytes`.
pub fn fault_code(fault: PeerFault) -> &'static str
    ensures { result.now ≡ fault_code fault }
{
    match fault {
        PeerFault::TooManyBytes => "bytes",
        PeerFault::Session(SyncError::BadHeader) => "S1",
        PeerFault::Session(SyncError::ConfigDiffers) => "S2",
        PeerFault::Session(SyncError::VersionDiffers) => "S3",
        PeerFault::Session(SyncError::NotCanonical(_)) => "S4",
        PeerFault::Session(SyncError::NotRising(_)) => "S5",
        PeerFault::Session(SyncError::BadCount) => "S6",
        PeerFault::Session(SyncError::Truncated) => "S7",
        PeerFault::Session(SyncError::Refused(..)) => "S8",
        PeerFault::Session(SyncError::Io) => "S9",
        PeerFault::Session(SyncError::NoMemory) => "S10",
    }
}
