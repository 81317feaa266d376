//! About which buckets a session asks.
ghost use Rattle.std.specs.Prelude.{◌≡◌, ◌<◌, ◌≤◌, ◌+◌, None, Some, MatchOption};

/// Buckets, one after another.
#[derive(Drop)]
pub(crate) enum Buckets {
    /// Each, from 0 to 255.
    All,
    /// These, in this order.
    Listed(Vec<u8>),
}

/// The buckets about which a session asks, and how many answers came.
#[derive(Drop)]
pub(crate) struct BucketPlan {
    buckets: Buckets,
    answered: usize,
}

impl BucketPlan {
    ghost use Rattle.replica_sync.specs.Plans.{answered_of, bucket_at, asked_count, plan_of};

    /// Asks about each bucket.
    pub(crate) fn all() -> BucketPlan
        ensures plan { plan_of result ≡ None }
        ensures none { answered_of result ≡ 0 }
    {
        BucketPlan {
            buckets: Buckets::All,
            answered: 0,
        }
    }

    /// Asks about these buckets.
    pub(crate) fn listed(buckets: Vec<u8>) -> BucketPlan
        ensures plan { plan_of result ≡ Some buckets.items }
        ensures none { answered_of result ≡ 0 }
    {
        BucketPlan {
            buckets: Buckets::Listed(buckets),
            answered: 0,
        }
    }

    // How many there are.
    fn count(&self) -> usize
        ensures { result ≡ asked_count (plan_of self.now) }
    {
        match &self.buckets {
            Buckets::All => 256,
            Buckets::Listed(buckets) => buckets.len(),
        }
    }

    /// Which bucket's answer is next. `None` after the last one.
    pub(crate) fn next(&self) -> Option<u8>
        ensures { MatchOption result (asked_count (plan_of self.now) ≤ answered_of self.now)
            (λ b. (answered_of self.now < asked_count (plan_of self.now))
            × (b ≡ bucket_at (plan_of self.now) (answered_of self.now))) }
    {
        match &self.buckets {
            Buckets::All => {
                if self.answered < 256 {
                    Some(self.answered as u8)
                } else {
                    None
                }
            }
            Buckets::Listed(buckets) => {
                if self.answered < buckets.len() {
                    Some(buckets[self.answered])
                } else {
                    None
                }
            }
        }
    }

    /// One more answer came.
    pub(crate) fn pass(&mut self)
        ensures plan { plan_of self.new ≡ plan_of self.old }
        ensures more { answered_of self.old < asked_count (plan_of self.old)
            → answered_of self.new ≡ answered_of self.old + 1 }
    {
        if self.answered < self.count() {
            self.answered += 1;
        }
    }
}
