//! How long to wait before the next poll.
ghost use Rattle.std.specs.Prelude.{◌≡◌, ◌≤◌};
ghost use Rattle.poll_log.specs.Polling.{interval_of, wait_of};

/// The interval without a refresh hint, in seconds.
const DEFAULT_INTERVAL: u64 = 300;

/// The least interval, in seconds.
const LEAST_INTERVAL: u64 = 60;

/// The greatest interval, in seconds.
const GREATEST_INTERVAL: u64 = 86_400;

/// The wait after one failure, in seconds.
const FIRST_RETRY: u64 = 30;

/// How many failures in a row count.
pub(crate) const MOST_FAILURES: u32 = 12;

/// Seconds from one poll to the next: those of the refresh hint (SPIFFE Trust Domain and Bundle,
/// section 4.1.2), but at least 60 and at most 86,400, and 300 without a hint.
pub fn interval(hint: Option<u64>) -> u64
    ensures { result ≡ interval_of hint }
{
    match hint {
        Some(seconds) => seconds.clamp(LEAST_INTERVAL, GREATEST_INTERVAL),
        None => DEFAULT_INTERVAL,
    }
}

/// Seconds from the last poll to the next, after this many failures in a row: the interval if there
/// were none, and else 30, doubled by each failure after the first, but never more than the
/// interval. Only the first 12 failures count.
pub fn wait(hint: Option<u64>, failures: u32) -> u64
    ensures value { result ≡ wait_of hint failures }
    ensures within { result ≤ 86400 }
{
    let longest = interval(hint);
    if failures == 0 {
        return longest;
    }
    let doublings = failures.min(MOST_FAILURES) - 1;
    longest.min(FIRST_RETRY * 2u64.pow(doublings))
}
