//! What a loop counts since it began.
use health_pages::LoopCounts;
use peer_talks::Ending;
use replica_connections::{ConnectionTable, LiveConnection, Talk};
use replica_events::KeptFiles;
use std::time::Duration;

/// What a loop counts, in addition to what its files and the connections that there are count.
#[derive(Clone, Copy, Debug)]
pub(crate) struct TurnCounts {
    // The counts of connections that have ended.
    ended: LoopCounts,
}

impl TurnCounts {
    /// The loop begins at this Unix second.
    pub(crate) fn new(began: u64) -> TurnCounts {
        TurnCounts {
            ended: LoopCounts {
                requests: 0,
                pages: 0,
                sessions: 0,
                faults: 0,
                received_bytes: 0,
                sent_bytes: 0,
                folds: 0,
                began,
                longest_turn: 0,
            },
        }
    }

    /// What is counted by now.
    pub(crate) fn all(&self, table: &ConnectionTable, files: &KeptFiles) -> LoopCounts {
        let received = self.ended.received_bytes;
        let sent = self.ended.sent_bytes;
        LoopCounts {
            requests: self.ended.requests.saturating_add(table.replies()),
            received_bytes: received.saturating_add(table.received_bytes()),
            sent_bytes: sent.saturating_add(table.sent_bytes()),
            folds: files.folds(),
            ..self.ended
        }
    }

    /// A connection has ended.
    pub(crate) fn note_end(&mut self, conn: &LiveConnection, ending: Ending) {
        let ended = &mut self.ended;
        ended.received_bytes = ended.received_bytes.saturating_add(conn.received_bytes());
        ended.sent_bytes = ended.sent_bytes.saturating_add(conn.sent_bytes());
        if ending.fault().is_some() {
            ended.faults = ended.faults.saturating_add(1);
        }
        match &conn.talk {
            Talk::Local(talk) => {
                ended.requests = ended.requests.saturating_add(talk.replies());
            }
            Talk::Page(_) if conn.sent_bytes() > 0 => {
                ended.pages = ended.pages.saturating_add(1);
            }
            // The session continues on another connection.
            Talk::Pull(_) if ending == Ending::Unanswered => {}
            Talk::Served(_) | Talk::Pull(_) => {
                ended.sessions = ended.sessions.saturating_add(1);
            }
            Talk::Page(_) => {}
        }
    }

    /// A turn took so long.
    pub(crate) fn note_turn(&mut self, time: Duration) {
        let millis = u64::try_from(time.as_millis()).unwrap_or(u64::MAX);
        self.ended.longest_turn = self.ended.longest_turn.max(millis);
    }
}
