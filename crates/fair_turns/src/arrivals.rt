//! How many connections may come at a gate within a short time.
ghost use Rattle.std.specs.Prelude.{◌≡◌, ◌+◌, ◌<◌, ◌↔◌, ◌⊎◌, ◌^◌, IsTrue, ℕ};
ghost use Rattle.fair_turns.specs.Arrivals.{arrived_in};

/// How many connections came at a gate, and how many may come within one span of time. Spans are
/// counted from any beginning.
#[derive(Clone, Copy, Debug)]
pub struct Arrivals {
    most: u64,
    span: u64,
    count: u64,
}

impl Arrivals {
    /// Nobody came. At most `most` may come within one span.
    pub fn new(most: u64) -> Arrivals
        ensures most { result.most ≡ most }
        ensures none { (span : ℕ) → arrived_in result span ≡ 0 }
    {
        Arrivals {
            most,
            span: 0,
            count: 0,
        }
    }

    /// Whether one more may come in this span.
    pub fn may_come(&self, span: u64) -> bool
        ensures { IsTrue result ↔ (arrived_in self.now span < self.now.most) }
    {
        self.count_in(span) < self.most
    }

    /// One came in this span. Those of other spans are forgotten.
    pub fn note(&mut self, span: u64)
        ensures most { self.new.most ≡ self.old.most }
        ensures counted { (arrived_in self.new span ≡ arrived_in self.old span + 1)
            ⊎ (arrived_in self.new span + 1 ≡ 2 ^ 64) }
    {
        self.count = self.count_in(span).saturating_add(1);
        self.span = span;
    }

    fn count_in(&self, span: u64) -> u64
        ensures { result ≡ arrived_in self.now span }
    {
        if self.span == span { self.count } else { 0 }
    }
}
