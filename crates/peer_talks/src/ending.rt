//! How a connection ended.
use replica_sync::SyncError;
use status_view::PeerFault;
use std::alloc::AllocError;

/// How a connection ended. It owns nothing.
#[derive(Clone, Copy, Debug, PartialEq, Eq)]
pub enum Ending {
    /// All was said.
    Well,
    /// It ended with an error.
    Fault(SyncError),
    /// The other side sent more than the limit says.
    TooManyBytes,
    /// It made room for a later one.
    GaveWay,
    /// The other side ended it without an answer. It may not know sums, or the configuration: it is
    /// asked in another way, on another connection.
    Unanswered,
}

impl Ending {
    /// Why it failed, if it did.
    pub fn fault(self) -> Option<PeerFault> {
        match self {
            Ending::Well | Ending::Unanswered => None,
            Ending::Fault(why) => Some(PeerFault::Session(why)),
            Ending::TooManyBytes => Some(PeerFault::TooManyBytes),
            Ending::GaveWay => Some(PeerFault::Session(SyncError::Io)),
        }
    }
}

impl From<SyncError> for Ending {
    fn from(why: SyncError) -> Ending {
        Ending::Fault(why)
    }
}

impl From<AllocError> for Ending {
    fn from(_error: AllocError) -> Ending {
        Ending::Fault(SyncError::NoMemory)
    }
}
