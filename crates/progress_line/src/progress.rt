//! How far a long piece of work is.
ghost use Rattle.std.specs.Prelude.{◌≡◌, IsNone};
ghost use Rattle.progress_line.specs.declared.progress.ProgressMode.TheVariants.{Silent};

use crate::long_work::LongWork;
use crate::work_count::WorkCount;
use std::alloc::Global;
use std::io::Eprint;
use std::time::{Clock, Instant};

/// Whether long work says how far it is.
#[derive(Clone, Copy, Debug, PartialEq, Eq)]
pub enum ProgressMode {
    /// It says nothing.
    Silent,
    /// It says so on standard error, after one second and then every five.
    Shown,
}

/// Counts what a piece of work has read or written, and says it. That it cannot be said, or that
/// the clock fails, changes nothing.
#[derive(Drop)]
pub struct WorkProgress<'a, R> {
    rt: &'a R,
    alloc: Global,
    count: WorkCount,
    // When the work began; none if nothing is to be said.
    begun: Option<Instant>,
}

impl<'a, R: Clock + Eprint> WorkProgress<'a, R> {
    /// Work that begins now.
    ///
    /// - `silent`: nothing is to be said of it if its caller wants that.
    pub fn begin(
        rt: &'a R,
        alloc: Global,
        work: LongWork,
        mode: ProgressMode,
    ) -> WorkProgress<'a, R>
        ensures silent { mode ≡ Silent → IsNone result.begun }
        ensures work { result.count.work ≡ work }
    {
        WorkProgress {
            rt,
            alloc,
            count: WorkCount::begin(work),
            begun: match mode {
                ProgressMode::Shown => Instant::now(rt).ok(),
                ProgressMode::Silent => None,
            },
        }
    }

    /// These bytes were read or written next. What is printed is the line of [`WorkCount`] that is
    /// due now, if one is.
    pub fn note(&mut self, bytes: &[u8]) {
        let Some(begun) = self.begun else {
            return;
        };
        self.count.add(bytes);
        if let Ok(now) = Instant::now(self.rt) {
            let seconds = now.duration_since(begun).as_secs();
            if let Ok(Some(line)) = self.count.line_at(self.alloc, seconds) {
                let _ = self.rt.eprint(line);
            }
        }
    }
}
