//! What is so of all offers, and of all replicas between two configurations. A call that needs a
//! law calls its function, which does nothing, and cites what it ensures.
ghost use Rattle.std.specs.Prelude.{◌≡◌, ◌↔◌, ◌++◌, List, ℕ, Contains, Option, Some, map};
ghost use Rattle.receipt_core.specs.Acceptance.{IsMeaning, Meaning};
ghost use Rattle.replica_core.specs.Absorbing.{with_entries};
ghost use Rattle.replica_core.specs.Convergence.{AreEvents};
ghost use Rattle.replica_core.specs.World.{world_after};
ghost use Rattle.replica_core.specs.declared.entry.Entry.{Entry};
ghost use Rattle.replica_texts.specs.Entries.{entry_line};
ghost use Rattle.replica_texts.specs.Snapshots.{held_lines};
ghost use Rattle.replica_journal.specs.Journal.{AreWellFormed};
ghost use Rattle.side_by_side.specs.Offering.{IsEntryHeld, Kept, OffersInTurn};
ghost use Rattle.side_by_side.specs.Promise.{AddsFitting, LinesSay};
ghost use Rattle.side_by_side.specs.PassedSteps.{IsAfterSteps, IsHeldOn, PassesOwn};
ghost use Rattle.side_by_side.specs.PairWorlds.{AreSteps, PairRun, pair_after, side_run, world_at};
ghost use Rattle.side_by_side.specs.declared.fate.Fate.{Fate};
ghost use Rattle.side_by_side.specs.declared.fate.Fate.TheVariants.{NoPlace};
ghost use Rattle.side_by_side.specs.Sides.{Passing, PassesPartToOther, PassesToOther, lines_in};
ghost use Rattle.side_by_side.specs.declared.offer_counts.Offered.{Offered};
ghost use Rattle.side_by_side.specs.declared.sides.Side.{Side};

/// What comes of lines that are offered.
///
/// - `adds`: what is held then is what was held, and what the lines say and fits.
/// - `twice`: the same lines, offered again, change nothing, and nothing is appended.
/// - `order`: if all that fits had a place, what is held then depends only on which lines there
///   were, not on their order or number.
/// - `held`: the lines of what a closure holds say what it holds, and nothing else.
pub fn offers()
    ensures adds { (old new : Kept) (texts : List (List ℕ)) (fates : List Fate)
        → IsMeaning old.meaning → OffersInTurn old texts new fates
        → AddsFitting old.meaning (LinesSay texts) new.meaning }
    ensures twice { (old now new : Kept) (texts : List (List ℕ)) (fates more : List Fate)
        → IsMeaning old.meaning → OffersInTurn old texts now fates
        → OffersInTurn now texts new more → new ≡ now }
    ensures order { (old one other : Kept) (texts others : List (List ℕ)) (fates more : List Fate)
        → IsMeaning old.meaning → OffersInTurn old texts one fates
        → OffersInTurn old others other more
        → ((text : List ℕ) → (Contains texts text ↔ Contains others text))
        → (Contains fates NoPlace → ⊥) → (Contains more NoPlace → ⊥)
        → one.meaning ≡ other.meaning }
    ensures held { (m : Meaning) → IsMeaning m
        → (entry : Entry) → (LinesSay (held_lines m) entry ↔ IsEntryHeld m entry) }
{
    receipt_core::laws::sets();
}

/// What a side holds after all that came, whether it took it itself or was offered it.
///
/// - `own`: if a side takes receipts and records itself, it is as if it was offered their lines.
/// - `both`: lines that are offered at two times are offered together. So at each time a side
///   holds what it held at the beginning, and all that came since and fits it, unless it is full.
pub fn promise()
    ensures own { (old new : Meaning) (entries : List Entry) → IsMeaning old → IsMeaning new
        → AreWellFormed entries → new ≡ with_entries entries old
        → AddsFitting old (LinesSay (map entry_line entries)) new }
    ensures both { (old now new : Meaning) (first then : List (List ℕ)) → IsMeaning now
        → AddsFitting old (LinesSay first) now → AddsFitting now (LinesSay then) new
        → AddsFitting old (LinesSay (first ++ then)) new }
{
    receipt_core::laws::sets();
}

/// Each side of a run of a pair of worlds is a run of a world, by itself. So all that is so of
/// every world of replicas of one configuration is so of each side, whatever the limits of each
/// replica.
///
/// - `each`: the worlds of a side are those of its own events.
/// - `events`: what is taken on a side is a receipt, and what is revoked a record.
pub fn pair_worlds()
    ensures each { (past : PairRun) (side : Side)
        → world_at (pair_after past) side ≡ world_after (side_run past side) }
    ensures events { (past : PairRun) (side : Side) → AreSteps past.steps
        → AreEvents (side_run past side).events }
{
    replica_core::laws::provenance();
}

/// A side that passes on what it holds to the other side makes steps of a run of a pair of worlds.
/// So all that is so of each side of a run is so after each call of
/// [`Sides::pass_on`](crate::Sides::pass_on) and [`Sides::share`](crate::Sides::share).
///
/// - `passes`: after a call that went through, what the replica holds on both sides is what it
///   has after some more steps, in each of which it offers what it holds on this side.
/// - `begins`: the same is so after a call for which memory ran out.
/// - `own`: the lines of all that a side holds say nothing that it does not hold.
pub fn passing()
    ensures passes { (past : PairRun) (replica : ℕ) (from : Side) (p : Passing) (offered : Offered)
        → PassesOwn past replica from p → PassesToOther from p offered
        → IsAfterSteps past replica from p.new }
    ensures begins { (past : PairRun) (replica : ℕ) (from : Side) (p : Passing)
        → PassesOwn past replica from p → PassesPartToOther from p
        → IsAfterSteps past replica from p.new }
    ensures own { (held : Option Meaning) → ((m : Meaning) → held ≡ Some m → IsMeaning m)
        → (entry : Entry) → LinesSay (lines_in held) entry → IsHeldOn held entry }
{
    receipt_core::laws::sets();
    replica_core::laws::effects();
}
