//! Events on standard error: a line for each, pairs of a name and a value in a fixed order. They
//! contain no data that a peer supplied. `event_counts` writes one line for several events.
use crate::error_stream::ErrorStream;
use change_view::{HeldChange, NewEntries, push_event};
use peer_talks::Ending;
use replica_sync::SyncError;
use side_by_side::Offered;
use state_files::LostFile;
use status_view::{PeerFault, fault_code};
use std::alloc::Global;
use std::fmt;
use std::fmt::{Display, Formatter};
use std::io::Eprint;
use std::net::SocketAddr;
use std::time::Duration;

/// What is reported.
#[derive(Clone, Copy, Debug)]
pub enum LogEvent {
    /// A session in which this replica asked has ended, and brought this.
    Pull(SocketAddr, NewEntries, Duration, Ending),
    /// A connection on which another replica asked has ended.
    Serve(Option<SocketAddr>, Duration, Ending),
    /// A connection of this machine has ended.
    Local(Duration, Ending),
    /// A connection on which a page was asked for has ended.
    Page(Option<SocketAddr>, Duration, Ending),
    /// There was no room for a connection, or one made room for it.
    Refuse,
    /// A connection that came could not be taken.
    Accept,
    /// The system did not say what is ready.
    Poll,
    /// The snapshot was written again.
    Fold(u64),
    /// The snapshot could not be written.
    FoldFault(SyncError),
    /// The state was carried over to the configuration. This came of its lines.
    CarryOver(Offered),
    /// The journal could not be written.
    Journal(SyncError),
    /// A file of the state was removed or replaced.
    Lost(LostFile),
    /// This many lines at the end of the audit file were cut off: their changes are not held.
    AuditCut(u64),
    /// The audit file could not be written.
    AuditFault(SyncError),
}

/// Writes the event's line now, or leaves it out: an [`ErrorStream`] does not wait.
pub fn log_event<R: Eprint>(rt: &R, alloc: Global, errors: &mut ErrorStream, event: LogEvent) {
    if let Ok(line) = format!(in alloc; "{event}\n") {
        errors.write(rt, alloc, line.as_str());
    }
}

/// Writes the line of a change that is on the disk, or leaves it out.
pub fn log_change<R: Eprint>(rt: &R, alloc: Global, errors: &mut ErrorStream, change: &HeldChange) {
    let mut line = Vec::new(alloc);
    if push_event(&mut line, change).is_ok()
        && line.push(b'\n').is_ok()
        && let Ok(text) = str::from_utf8(line.as_slice())
    {
        errors.write(rt, alloc, text);
    }
}

/// Writes one line for this many events of a kind. This event is the last of them.
pub(crate) fn log_times<R: Eprint>(
    rt: &R,
    alloc: Global,
    errors: &mut ErrorStream,
    event: LogEvent,
    times: u64,
) {
    if times < 2 {
        log_event(rt, alloc, errors, event);
    } else if let Ok(line) = format!(in alloc; "{event} times={times}\n") {
        errors.write(rt, alloc, line.as_str());
    }
}

impl LogEvent {
    /// Whether one line may report both: they are of one kind, and of those that anyone who
    /// connects can make as often as he likes.
    pub(crate) fn is_counted_with(&self, other: &LogEvent) -> bool {
        match (self, other) {
            (LogEvent::Serve(_, _, one), LogEvent::Serve(_, _, two)) => have_one_code(*one, *two),
            (LogEvent::Local(_, one), LogEvent::Local(_, two)) => have_one_code(*one, *two),
            (LogEvent::Page(_, _, one), LogEvent::Page(_, _, two)) => have_one_code(*one, *two),
            (LogEvent::Refuse, LogEvent::Refuse) => true,
            (LogEvent::Accept, LogEvent::Accept) => true,
            (LogEvent::Poll, LogEvent::Poll) => true,
            _ => false,
        }
    }
}

// Whether both failed, and their lines have the same error.
fn have_one_code(one: Ending, two: Ending) -> bool {
    match (one.fault(), two.fault()) {
        (Some(one), Some(two)) => fault_code(one) == fault_code(two),
        _ => false,
    }
}

impl Display for LogEvent {
    fn fmt<W: fmt::Write>(&self, f: &mut Formatter<W>) -> fmt::Result {
        match self {
            LogEvent::Pull(peer, new, time, ending) => {
                let NewEntries { receipts, records } = *new;
                write!(f, "event=pull peer={peer} new={receipts} records={records}")?;
                write!(f, " seconds={}", Seconds(*time))?;
                Outcome(*ending).fmt(f)
            }
            LogEvent::Serve(Some(peer), time, ending) => {
                write!(f, "event=serve peer={peer} seconds={}", Seconds(*time))?;
                Outcome(*ending).fmt(f)
            }
            LogEvent::Serve(None, time, ending) => {
                write!(f, "event=serve seconds={}", Seconds(*time))?;
                Outcome(*ending).fmt(f)
            }
            LogEvent::Local(time, ending) => {
                write!(f, "event=local seconds={}", Seconds(*time))?;
                Outcome(*ending).fmt(f)
            }
            LogEvent::Page(Some(peer), time, ending) => {
                write!(f, "event=health peer={peer} seconds={}", Seconds(*time))?;
                Outcome(*ending).fmt(f)
            }
            LogEvent::Page(None, time, ending) => {
                write!(f, "event=health seconds={}", Seconds(*time))?;
                Outcome(*ending).fmt(f)
            }
            LogEvent::Refuse => f.write_str("event=refuse"),
            LogEvent::Accept => f.write_str("event=accept fault=S9"),
            LogEvent::Poll => f.write_str("event=poll fault=S9"),
            LogEvent::Fold(bytes) => write!(f, "event=fold bytes={bytes}"),
            LogEvent::FoldFault(why) => write!(f, "event=fold fault={}", session_code(*why)),
            LogEvent::CarryOver(lines) => {
                let Offered {
                    taken,
                    unfit,
                    no_place,
                    ..
                } = *lines;
                write!(
                    f,
                    "event=carry-over taken={taken} unfit={unfit} no-place={no_place}"
                )
            }
            LogEvent::Journal(why) => write!(f, "event=journal fault={}", session_code(*why)),
            LogEvent::AuditCut(lines) => write!(f, "event=audit cut={lines}"),
            LogEvent::AuditFault(why) => write!(f, "event=audit fault={}", session_code(*why)),
            LogEvent::Lost(LostFile::Lock) => f.write_str("event=lost file=lock"),
            LogEvent::Lost(LostFile::Journal | LostFile::JournalText) => {
                f.write_str("event=lost file=journal")
            }
            LogEvent::Lost(LostFile::State) => f.write_str("event=lost file=state"),
        }
    }
}

/// Seconds with three decimals.
#[derive(Clone, Copy)]
struct Seconds(Duration);

impl Display for Seconds {
    fn fmt<W: fmt::Write>(&self, f: &mut Formatter<W>) -> fmt::Result {
        write!(f, "{}.{:03}", self.0.as_secs(), self.0.subsec_millis())
    }
}

/// An error as a last pair, or nothing if all went well.
#[derive(Clone, Copy)]
struct Outcome(Ending);

impl Display for Outcome {
    fn fmt<W: fmt::Write>(&self, f: &mut Formatter<W>) -> fmt::Result {
        match self.0.fault() {
            Some(fault) => write!(f, " fault={}", fault_code(fault)),
            None => Ok(()),
        }
    }
}

fn session_code(why: SyncError) -> &'static str {
    fault_code(PeerFault::Session(why))
}
