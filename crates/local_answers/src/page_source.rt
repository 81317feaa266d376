//! What pages are made of in addition to what is held, and what comes of it.
use command_line::WarnTimes;
use health_pages::{ContentType, LoopCounts, ResponseStatus};
use status_view::RunningStatus;

/// What pages show in addition to what is held.
#[derive(Clone, Copy, Debug)]
pub struct PageSource<'a> {
    /// What the replica says of itself.
    pub running: RunningStatus<'a>,
    /// What its loop counted.
    pub counts: LoopCounts,
    /// The version of the program.
    pub version: &'a str,
    /// When pages warn.
    pub warn_times: WarnTimes,
}

/// The parts of a response.
#[derive(Debug, Drop)]
pub(crate) struct PageAnswer {
    pub(crate) status: ResponseStatus,
    pub(crate) content: ContentType,
    pub(crate) body: Vec<u8>,
}
