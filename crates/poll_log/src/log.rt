//! What a replica keeps of its polls.
ghost use Rattle.std.specs.Prelude.{◌≡◌, ◌<◌, ◌↔◌, [], ℕ, List, map, length, Some, IsTrue};
ghost use Rattle.std.specs.Prelude.{MatchResult, option_copied, slice_get};
ghost use Rattle.std.specs.Option.{option_map};
ghost use Rattle.fed_config.specs.Configuration.{IsConfiguration};
ghost use Rattle.poll_log.specs.Polling.{RecordsPoll, IsPollDue, IsNext, Records, polled_domains};
ghost use Rattle.poll_log.specs.Polling.{log_of, nanos_of, polled, standing_in, success_in};
ghost use Rattle.poll_log.specs.Inside.Statuses.{AreNames, IsPlaceOf, after, kept_status};

use crate::error::PollError;
use crate::waiting::{MOST_FAILURES, wait};
use fed_config::{Config, Relationship};
use jiff::Timestamp;
use spiffe_name::TrustDomain;
use std::alloc::{AllocError, Global};
use std::marker::Model;
use std::time::Duration;

/// When each trust domain with a relationship was polled last, when a poll of it succeeded last,
/// and how many polls in a row failed up to the last one.
///
/// No clock is read: the caller gives the times, and they may go back. The last poll recorded
/// counts.
#[derive(Debug, Drop)]
pub struct PollLog {
    // One for each relationship, sorted by domain.
    statuses: Vec<PollStatus>,
}

impl Model for PollLog {
    ghost use Rattle.std.specs.Prelude.{List, map};
    ghost use Rattle.poll_log.specs.Polling.{PollStatus as Kept, IsLog};
    ghost use Rattle.poll_log.specs.Inside.Statuses.{kept_status};

    ghost Value = { List Kept };

    ghost view = { λ log. map kept_status log.statuses.items };

    ghost invariant = { λ log. IsLog (map kept_status log.statuses.items) };
}

impl PollLog {
    /// A log of no polls, with room for every relationship of the configuration.
    ///
    /// # Errors
    /// [`PollError::NoMemory`]: memory ran out. This never happens without relationships.
    pub fn new(alloc: Global, config: &Config) -> Result<PollLog, PollError>
        ensures log { MatchResult result (λ log. log ≡ log_of (polled config.now) [])
            (λ e. (e ≡ PollError.NoMemory) × (0 < length config.now.relationships)) }
        ensures form { IsConfiguration config.now }
    {
        // It says that the relationships rise.
        let _ = config.domains();
        Ok(PollLog {
            statuses: never_polled(alloc, config.relationships())?,
        })
    }

    /// Records a poll of the domain at that time, and whether it succeeded. It takes no memory.
    ///
    /// # Errors
    /// [`PollError::NoRelationship`]: the configuration has no relationship with the domain. The
    /// log is as it was.
    pub fn record(
        &mut self,
        domain: &TrustDomain,
        moment: Timestamp,
        ok: bool,
    ) -> Result<(), PollError>
        ensures { Records self.old
            (record { domain = domain.now; moment = moment.nanosecond; ok = ok }) self.new result }
    {
        match self.place_of(domain.as_str().as_bytes()) {
            Some(place) => {
                self.add(place, moment, ok);
                Ok(())
            }
            None => Err(PollError::NoRelationship),
        }
    }

    /// When the domain is polled next: the time of its last poll plus the [`wait`]. `None` if it
    /// was never polled. The hint is the one in the document that is current for the domain. It
    /// takes no memory.
    ///
    /// # Errors
    /// - [`PollError::NoRelationship`]: there is no relationship with the domain.
    /// - [`PollError::PastRange`]: the next poll is past the range of times.
    pub fn next_poll(
        &self,
        domain: &TrustDomain,
        hint: Option<u64>,
    ) -> Result<Option<Timestamp>, PollError>
        ensures { IsNext hint (standing_in self.now domain.now) result }
    {
        match self.status_of(domain) {
            Some(status) => status.next_poll(hint),
            None => Err(PollError::NoRelationship),
        }
    }

    /// Whether the domain is to be polled now: it was never polled, or its next poll is at this
    /// time or before it. A domain without a relationship is never due, nor is one whose next poll
    /// is past the range. It takes no memory.
    pub fn due(&self, domain: &TrustDomain, hint: Option<u64>, now: Timestamp) -> bool
        ensures { IsTrue result ↔ IsPollDue hint (standing_in self.now domain.now) now.nanosecond }
    {
        match self.next_poll(domain, hint) {
            Ok(Some(next)) => next <= now,
            Ok(None) => true,
            Err(_) => false,
        }
    }

    /// When a poll of the domain succeeded last. `None` if none did, and if there is no
    /// relationship with the domain. It takes no memory.
    pub fn succeeded(&self, domain: &TrustDomain) -> Option<Timestamp>
        ensures { option_map nanos_of result ≡ success_in self.now domain.now }
    {
        match self.status_of(domain) {
            Some(status) => status.succeeded,
            None => None,
        }
    }

    /// What the log keeps of the domain, if there is a relationship with it.
    fn status_of(&self, domain: &TrustDomain) -> Option<&PollStatus>
        ensures { option_map kept_status (option_copied result)
            ≡ standing_in self.now domain.now }
    {
        match self.place_of(domain.as_str().as_bytes()) {
            Some(place) => Some(&self.statuses[place]),
            None => None,
        }
    }

    /// The place at which the log keeps the domain, found by binary search.
    pub(crate) fn place_of(&self, domain: &[u8]) -> Option<usize>
        ensures place { IsPlaceOf self.now domain.now result }
        ensures names { AreNames (polled_domains self.now) }
    {
        self.statuses
            .binary_search_by(|standing| standing.domain.as_str().as_bytes().cmp(domain))
            .ok()
    }

    /// Records a poll of the domain at this place.
    pub(crate) fn add(&mut self, place: usize, moment: Timestamp, ok: bool)
        requires { place < length self.old }
        ensures { (domain : List ℕ) → slice_get (polled_domains self.old) place ≡ Some domain
            → RecordsPoll self.old (record { domain = domain; moment = moment.nanosecond; ok = ok })
            self.new }
    {
        self.statuses[place].add(moment, ok);
    }
}

/// What is kept of the polls of a domain.
#[derive(Debug, Drop)]
struct PollStatus {
    domain: TrustDomain,
    last: Option<Timestamp>,
    succeeded: Option<Timestamp>,
    failures: u32,
}

impl PollStatus {
    ghost use Rattle.poll_log.specs.Polling.{IsNextAfter};

    fn add(&mut self, moment: Timestamp, ok: bool)
        ensures { kept_status self.new ≡ after (kept_status self.old) moment.nanosecond ok }
    {
        self.last = Some(moment);
        if ok {
            self.succeeded = Some(moment);
            self.failures = 0;
        } else {
            self.failures = self.failures.min(MOST_FAILURES - 1) + 1;
        }
    }

    fn next_poll(&self, hint: Option<u64>) -> Result<Option<Timestamp>, PollError>
        ensures { IsNextAfter hint (kept_status self.now).failures (kept_status self.now).last
            result }
    {
        let Some(last) = self.last else {
            return Ok(None);
        };
        match last.checked_add(Duration::from_secs(wait(hint, self.failures))) {
            Ok(next) => Ok(Some(next)),
            Err(_) => Err(PollError::PastRange),
        }
    }
}

fn never_polled(
    alloc: Global,
    relationships: &[Relationship],
) -> Result<Vec<PollStatus>, AllocError>
    ensures { MatchResult result
        (λ statuses. map kept_status statuses.items
        ≡ log_of (map (λ r. r.domain) relationships.now) [])
        (λ _. 0 < length relationships.now) }
{
    let mut statuses = Vec::with_capacity(alloc, relationships.len())?;
    for relationship in relationships {
        statuses.push(PollStatus {
            domain: relationship.domain.try_clone(alloc)?,
            last: None,
            succeeded: None,
            failures: 0,
        })?;
    }
    Ok(statuses)
}
