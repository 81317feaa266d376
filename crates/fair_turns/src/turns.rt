//! Whose turn it is among the connections that wait.
ghost use Rattle.std.specs.Prelude.{◌≡◌, ◌↔◌, ◌||◌, IfNone, IfSome, IsSome, IsTrue, Some, false};
ghost use Rattle.fair_turns.specs.Turns.{ComesFirst, IsThere, change_after, turn_of, work_next};
ghost use Rattle.fair_turns.specs.declared.turns.Work.{Work as SomeWork};

/// What a connection waits for, apart from its socket.
#[derive(Clone, Copy, Debug, PartialEq, Eq)]
pub enum Work {
    /// An answer that takes little: to another replica, or to a request that shows little.
    Short,
    /// An answer to a request that shows much.
    Long,
    /// What may change what is held: a request, or an answer of another replica.
    Change,
}

/// Who had the last turn of each kind of work, by the numbers of the connections.
#[derive(Clone, Copy, Debug)]
pub struct Turns {
    short: usize,
    long: usize,
    change: usize,
    is_change_next: bool,
}

impl Turns {
    /// Nobody had a turn.
    pub fn new() -> Turns
        ensures { result.is_change_next ≡ false }
    {
        Turns {
            short: 0,
            long: 0,
            change: 0,
            is_change_next: false,
        }
    }

    /// Who had the last turn of this work.
    pub fn last(&self, work: Work) -> usize
        ensures { result ≡ turn_of self.now work }
    {
        match work {
            Work::Short => self.short,
            Work::Long => self.long,
            Work::Change => self.change,
        }
    }

    /// The connection of this number has its turn. Those of other work do not change.
    pub fn note(&mut self, work: Work, serial: usize)
        ensures noted { turn_of self.new work ≡ serial }
        ensures others { (other : SomeWork) → (other ≡ work → ⊥)
            → turn_of self.new other ≡ turn_of self.old other }
        ensures next { self.new.is_change_next ≡ self.old.is_change_next }
    {
        match work {
            Work::Short => self.short = serial,
            Work::Long => self.long = serial,
            Work::Change => self.change = serial,
        }
    }

    /// Which of the kinds of work that are there comes after the short one. If both are there, the
    /// one that did not come last.
    pub fn after_short(&mut self, has_long: bool, has_change: bool) -> Option<Work>
        ensures some { IsSome result ↔ IsTrue (has_long || has_change) }
        ensures there { IfSome result (IsThere has_long has_change) }
        ensures turn { IsTrue has_long → IsTrue has_change
            → result ≡ Some (work_next self.old.is_change_next) }
        ensures next { IfSome result (λ work. self.new.is_change_next ≡ change_after work) }
        ensures none { IfNone result (self.new ≡ self.old) }
        ensures kept { (work : SomeWork) → turn_of self.new work ≡ turn_of self.old work }
    {
        let next = next_work(self.is_change_next, has_long, has_change)?;
        self.is_change_next = next == Work::Long;
        Some(next)
    }
}

fn next_work(is_change_next: bool, has_long: bool, has_change: bool) -> Option<Work>
    ensures some { IsSome result ↔ IsTrue (has_long || has_change) }
    ensures there { IfSome result (IsThere has_long has_change) }
    ensures turn { IsTrue has_long → IsTrue has_change → result ≡ Some (work_next is_change_next) }
{
    if has_change && (is_change_next || !has_long) {
        Some(Work::Change)
    } else if has_long {
        Some(Work::Long)
    } else {
        None
    }
}

/// Whether the turn of the first connection comes before that of the second, by their numbers: the
/// one that had the last turn comes last of all, and those above it come before those below.
pub fn comes_first(first: usize, second: usize, last: usize) -> bool
    ensures { IsTrue result ↔ ComesFirst first second last }
{
    if last < first {
        second <= last || first < second
    } else {
        second <= last && first < second
    }
}
