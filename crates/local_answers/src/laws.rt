//! What follows only from the definitions. A call that needs a law calls its function, which does
//! nothing, and cites what it ensures.
ghost use Rattle.std.specs.Prelude.{◌≡◌, ◌≢◌, ◌<◌, ◌≤◌, ◌++◌, [], ◌∷◌, List, Some};
ghost use Rattle.std.specs.Prelude.{length, slice_get, true, ℕ};
ghost use Rattle.fed_config.specs.Configuration.{Configuration};
ghost use Rattle.fed_config.specs.declared.limits.Limits.{Limits};
ghost use Rattle.receipt_core.specs.Acceptance.{Meaning, IsMeaning};
ghost use Rattle.replica_core.specs.Absorbing.{with_entries};
ghost use Rattle.replica_core.specs.Convergence.{IsPartOf};
ghost use Rattle.replica_core.specs.Session.{HaveMessage, give_of, have_of, state_of};
ghost use Rattle.replica_core.specs.State.{is_within_limits, joined, limits_of};
ghost use Rattle.replica_core.specs.World.{Rules, World, apply, happens, rules_with, run_from};
ghost use Rattle.replica_core.specs.World.{sends, with_state};
ghost use Rattle.replica_core.specs.declared.entry.Entry.{Entry};
ghost use Rattle.replica_core.specs.declared.event.Event.TheVariants.{Absorb, Answer, Ask, Part};
ghost use Rattle.replica_sync.specs.PulledPieces.{Journals, PulledGive, PulledPiece, pieces_of};
ghost use Rattle.local_answers.specs.ChangeEvents.{AppendsTo, BringsTo, IsPulledAmid, events_of};
ghost use Rattle.local_answers.specs.ChangeEvents.{replica_in};
ghost use Rattle.local_answers.specs.ChangeEvents.{sent_give, sent_have};
ghost use Rattle.local_answers.specs.Journalling.{JournalsChange};
ghost use Rattle.local_answers.specs.RequestStream.{Asking, GivesAll};
ghost use Rattle.fedbundle.specs.CommandRun.{StateRun};
ghost use Rattle.fedbundle.specs.Observe.{IsAsHeld};

/// A request whose reply has no lines for the journal has changed nothing, whatever it asked for.
pub fn unjournalled()
    ensures { (state : StateRun) → JournalsChange [] state → IsAsHeld state }
{}

/// A running replica is one of a world of replicas with one configuration, each with limits of its
/// own, whatever changes between two of its messages: what changes is a list of events, and each
/// message is one.
///
/// - `changes`: if receipts and records are added, the replica holds what it holds in the world
///   after their events, in this order.
/// - `requested`: so it is with all that a request changes; the lines of the journal say which
///   events.
/// - `pulled`: and with all that a piece of an answer changes.
/// - `elsewhere`: after these events every other replica holds what it held.
/// - `silent`: by them no message is sent, and nothing is saved.
/// - `asks`: the have that it makes about a bucket is what it sends in the world by asking.
/// - `answers`: the answer that it makes to a have is what it sends in the world by answering.
pub fn world_of_changes()
    ensures changes { (m new : Meaning) (entries : List Entry) (limits : ℕ → Limits) (n i : ℕ)
        (w : World) → i < n → limits i ≡ m.config.limits
        → w.now i ≡ state_of m → IsMeaning new → new ≡ with_entries entries m
        → (run_from (rules_with m.config limits n) w (events_of i entries)).now i ≡ state_of new }
    ensures requested { (text : List ℕ) (state : StateRun) (limits : ℕ → Limits) (n i : ℕ)
        (w : World) → let old = state.old.meaning in i < n → limits i ≡ old.config.limits
        → w.now i ≡ state_of old → IsMeaning state.new.meaning → JournalsChange text state
        → BringsTo (replica_in (rules_with old.config limits n) w i) text state.new.meaning }
    ensures pulled { (old new : Meaning) (before after : List ℕ) (limits : ℕ → Limits) (n i : ℕ)
        (w : World) → i < n → limits i ≡ old.config.limits
        → w.now i ≡ state_of old → IsMeaning new → Journals old new before after
        → AppendsTo (replica_in (rules_with old.config limits n) w i) before after new }
    ensures elsewhere { (rules : Rules) (entries : List Entry) (i j : ℕ) (w : World) → j ≢ i
        → (run_from rules w (events_of i entries)).now j ≡ w.now j }
    ensures silent { (rules : Rules) (entries : List Entry) (i : ℕ) (w : World)
        → ((run_from rules w (events_of i entries)).sent ≡ w.sent)
        × ((run_from rules w (events_of i entries)).saved ≡ w.saved) }
    ensures asks { (m : Meaning) (rules : Rules) (i bucket : ℕ) (w : World)
        → i < rules.replicas → bucket ≤ 255 → w.now i ≡ state_of m
        → happens rules w (Ask i bucket)
        ≡ apply rules.limits w (sends (sent_have i (have_of m bucket))) }
    ensures answers { (m : Meaning) (have : HaveMessage) (rules : Rules) (i asker place : ℕ)
        (w : World) → i < rules.replicas → w.now i ≡ state_of m
        → slice_get w.sent place ≡ Some (sent_have asker have)
        → happens rules w (Answer i place)
        ≡ apply rules.limits w (sends (sent_give i place (give_of m have))) }
{
    replica_core::laws::effects();
}

/// If an answer comes in pieces, and what is held grows between them too, each piece is an event of
/// a world: the taking of the answer's first lines, and with the last piece that of all of it. With
/// the have and the answer these are the events of an exchange, and `replica_core::laws::exchange`
/// says what that brings.
///
/// - `grows`: if receipts and records are added, nothing is lost.
/// - `pieces`: after a piece the replica holds what it holds in the world by taking a number of
///   lines of the answer, and nothing else changes there.
/// - `last_piece`: so it is after the last one with the whole answer, which is not too much.
pub fn world_of_pieces()
    ensures grows { (m : Meaning) (entries : List Entry)
        → IsPartOf (state_of m) (state_of (with_entries entries m)) }
    ensures pieces { (config : Configuration) (rules : Rules)
        (bucket i answerer have place : ℕ) (w : World)
        (g : PulledGive) (front back : List PulledPiece) (c : PulledPiece) → i < rules.replicas
        → rules.limits i ≡ limits_of config → IsPulledAmid config bucket g
        → pieces_of g ≡ front ++ (c ∷ back) → w.now i ≡ state_of c.old
        → slice_get w.sent place ≡ Some (sent_give answerer have g.give)
        → ((count : ℕ) × (happens rules w (Part i place count)
        ≡ with_state w i (state_of c.new))) }
    ensures last_piece { (config : Configuration) (rules : Rules)
        (bucket i answerer have place : ℕ) (w : World) (g : PulledGive) → i < rules.replicas
        → rules.limits i ≡ limits_of config → IsPulledAmid config bucket g
        → w.now i ≡ state_of g.last.old
        → slice_get w.sent place ≡ Some (sent_give answerer have g.give)
        → (is_within_limits (rules.limits i) (joined (w.now i) g.give.content) ≡ true)
        × (happens rules w (Absorb i place) ≡ with_state w i (state_of g.last.new)) }
{}

/// Requests on one stream come apart in one way, wherever it is cut into pieces. So none is given
/// twice, and no byte is lost or given to another.
///
/// - `joined`: the requests that are given before a piece comes, and those that are given after it,
///   are those of all these bytes.
/// - `one`: the same number of requests of the same bytes are the same ones, and the same bytes
///   follow them.
pub fn requests_of_streams()
    ensures joined { (bytes more : List ℕ) (before after : List Asking) (left rest : List ℕ)
        → GivesAll bytes before left → GivesAll (left ++ more) after rest
        → GivesAll (bytes ++ more) (before ++ after) rest }
    ensures one { (bytes : List ℕ) (some others : List Asking) (rest other : List ℕ)
        → GivesAll bytes some rest → GivesAll bytes others other → length some ≡ length others
        → (some ≡ others) × (rest ≡ other) }
{}
