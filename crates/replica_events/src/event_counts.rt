//! Events that may come often: for each kind one line a second is written, which says how many
//! there were.
use crate::error_stream::ErrorStream;
use crate::event_log::{LogEvent, log_event, log_times};
use std::alloc::Global;
use std::io::Eprint;
use std::time::{Duration, Instant};

/// How long events of one kind are counted before one line reports them.
const COUNT_SECONDS: u64 = 1;

/// The kinds of which a line was written within the last second, and how many came since.
#[derive(Drop)]
pub struct EventCounts {
    kinds: Vec<CountedKind>,
}

#[derive(Clone, Copy)]
struct CountedKind {
    // The last one that came.
    event: LogEvent,
    times: u64,
    // When the last line of the kind was written.
    stated: Instant,
}

impl EventCounts {
    pub fn new(alloc: Global) -> EventCounts {
        EventCounts {
            kinds: Vec::new(alloc),
        }
    }

    /// An event came. The first of its kind is written immediately, and so is one that is not
    /// counted.
    pub fn note<R: Eprint>(
        &mut self,
        rt: &R,
        alloc: Global,
        errors: &mut ErrorStream,
        event: LogEvent,
        now: Instant,
    ) {
        for kind in &mut self.kinds {
            if kind.event.is_counted_with(&event) {
                kind.event = event;
                kind.times = kind.times.saturating_add(1);
                return;
            }
        }
        log_event(rt, alloc, errors, event);
        if event.is_counted_with(&event) {
            // Without memory each is written.
            let _ = self.kinds.push(CountedKind {
                event,
                times: 0,
                stated: now,
            });
        }
    }

    /// Writes a line for each kind of which some came since the last one, a second after that.
    pub fn print_out<R: Eprint>(
        &mut self,
        rt: &R,
        alloc: Global,
        errors: &mut ErrorStream,
        now: Instant,
    ) {
        let second = Duration::from_secs(COUNT_SECONDS);
        for kind in &mut self.kinds {
            if kind.times > 0 && now.duration_since(kind.stated) >= second {
                log_times(rt, alloc, errors, kind.event, kind.times);
                kind.times = 0;
                kind.stated = now;
            }
        }
        self.kinds.retain(|kind| kind.times > 0 || now.duration_since(kind.stated) < second);
    }

    /// Writes a line for each kind of which some came since the last one: the replica ends.
    pub fn print_all<R: Eprint>(&mut self, rt: &R, alloc: Global, errors: &mut ErrorStream) {
        for kind in &self.kinds {
            if kind.times > 0 {
                log_times(rt, alloc, errors, kind.event, kind.times);
            }
        }
        self.kinds.clear();
    }

    /// How long until the next line is due: `None` if none is.
    pub fn time_left(&self, now: Instant) -> Option<Duration> {
        let second = Duration::from_secs(COUNT_SECONDS);
        let due = self.kinds.iter().filter(|kind| kind.times > 0);
        due.map(|kind| second.saturating_sub(now.duration_since(kind.stated)))
            .min()
    }
}
