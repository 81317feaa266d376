//! What is so of every world of replicas: of whatever list of events happens to replicas of one
//! configuration, each with limits of its own. Messages may be lost, repeated, late and in any
//! order, and replicas may restart. What is too much for one replica it refuses; others take it.
//! A call that needs a law calls its function, which does nothing, and cites what it ensures.
ghost use Rattle.std.specs.Prelude.{◌≡◌, ◌≢◌, ℕ, ◌<◌, ◌≤◌, ◌++◌, ◌∷◌, [], List, Bool, true, false};
ghost use Rattle.fed_config.specs.Configuration.{HasDomain};
ghost use Rattle.receipt_core.specs.Receipt.{Receipt, Pair};
ghost use Rattle.receipt_core.specs.declared.distrust.Distrust.{Distrust};
ghost use Rattle.receipt_core.specs.Acceptance.{IsFitting, IsMeaning, IsMember, IsClosed};
ghost use Rattle.replica_core.specs.State.{State, no_state, first_of};
ghost use Rattle.replica_core.specs.World.{WorldRun, rules_in, world_after, held_by, saved_by};
ghost use Rattle.replica_core.specs.World.{followed_by, meant_by, without_records};
ghost use Rattle.replica_core.specs.Convergence.{AreEvents, Lacks, ComesFrom, IsPartOf, Gains};
ghost use Rattle.replica_core.specs.Convergence.{only_receipt, only_record, HasGive, Inquiry};
ghost use Rattle.replica_core.specs.Convergence.{IsInquiry, Exchange, HasAll, Settles, at_give};
ghost use Rattle.replica_core.specs.Convergence.{after_taking, ExchangeOf, Peers, ArePeers};
ghost use Rattle.replica_core.specs.Convergence.{SumsCourse, IsUninterrupted, answerer_held};
ghost use Rattle.replica_core.specs.declared.event.Event.{Event};
ghost use Rattle.replica_core.specs.declared.event.Event.TheVariants.{Take, Revoke, Absorb, Part};
ghost use Rattle.replica_core.specs.declared.event.Event.TheVariants.{Join, Save, Restart};

use closure_core::laws::DocumentSet;

/// The origin of what is held: each receipt that a replica holds or saved was taken at some
/// replica, which held it right after. The same is so of each record of distrust.
///
/// - `comes`: what it holds.
/// - `saved_comes`: what it saved last.
pub fn provenance()
    ensures comes { (past : WorldRun) (i : ℕ) → ComesFrom past (held_by past i) }
    ensures saved_comes { (past : WorldRun) (i : ℕ) → ComesFrom past (saved_by past i) }
{}

/// What each event brings to a replica that would not hold too much for its limits after it.
///
/// - `takes`: a receipt that fits the configuration is held then.
/// - `revokes`: so is a record whose domain is one of the configuration.
/// - `absorbs`, `parts`: all of an answer is, or its first records and receipts.
/// - `joins`: all that another replica holds is.
pub fn effects()
    ensures takes { (past : WorldRun) (i : ℕ) (r : Receipt) → i < past.replicas
        → IsFitting past.config r → Gains past (Take i r) i (only_receipt r) }
    ensures revokes { (past : WorldRun) (i : ℕ) (x : Distrust) → i < past.replicas
        → HasDomain past.config x.domain → Gains past (Revoke i x) i (only_record x) }
    ensures absorbs { (past : WorldRun) (i place : ℕ) (content : State) → i < past.replicas
        → HasGive past place content → Gains past (Absorb i place) i content }
    ensures parts { (past : WorldRun) (i place count : ℕ) (content : State) → i < past.replicas
        → HasGive past place content
        → Gains past (Part i place count) i (first_of count content) }
    ensures joins { (past : WorldRun) (i j : ℕ) → i < past.replicas → j < past.replicas
        → Gains past (Join i j) i (held_by past j) }
{}

/// What a replica holds is what a closure can mean.
///
/// - `means`: its receipts and records have their form, rise, fit, and are not too many for it.
/// - `closed`, `least`: what that accepts is the least closed set, of all sets, also those that no
///   test decides.
/// - `tests`: the same for the sets that a test decides.
pub fn validity<S: DocumentSet>()
    ensures means { (past : WorldRun) (i : ℕ) → AreEvents past.events
        → IsMeaning (meant_by past i) }
    ensures closed { (past : WorldRun) (i : ℕ)
        → let m = meant_by past i in IsClosed m (IsMember m) }
    ensures least { (past : WorldRun) (i : ℕ)
        → let m = meant_by past i in IsClosed m S.has
        → (p : Pair) → IsMember m p → S.has p }
    ensures tests { (past : WorldRun) (i : ℕ) (set : Pair → Bool)
        → let m = meant_by past i in IsClosed m (λ p. set p ≡ true)
        → (p : Pair) → IsMember m p → set p ≡ true }
{}

/// Only a restart takes anything away, and it gives what was saved last.
///
/// - `grows`: by every other event a replica keeps what it holds.
/// - `restarts`: a restart gives what was saved.
/// - `saves`: a save's content remains saved up to the next one.
/// - `never_saved`: before the first save nothing is saved.
pub fn persistence()
    ensures grows { (past : WorldRun) (event : Event) (i : ℕ) → event ≢ Restart i
        → IsPartOf (held_by past i) (held_by (followed_by past (event ∷ [])) i) }
    ensures restarts { (past : WorldRun) (i : ℕ) → i < past.replicas
        → held_by (followed_by past (Restart i ∷ [])) i ≡ saved_by past i }
    ensures saves { (past : WorldRun) (since : List Event) (i : ℕ) → i < past.replicas
        → Lacks since (Save i)
        → saved_by (followed_by past (Save i ∷ since)) i ≡ held_by past i }
    ensures never_saved { (past : WorldRun) (i : ℕ) → Lacks past.events (Save i)
        → saved_by past i ≡ no_state }
{}

/// What one exchange gives.
///
/// - `exchanged`: who takes another's whole answer to its own have holds each receipt of the
///   bucket that the other held when it answered, or one with its id, and each record.
/// - `receipts`: so it does if the answer leaves the records out, except the records.
pub fn exchange()
    ensures exchanged { (past : WorldRun) (since : List Event) (q : Inquiry)
        → AreEvents past.events → AreEvents since → IsInquiry past.replicas q
        → (x : Exchange (rules_in past) (world_after past) q since)
        → HasAll q.bucket
        ((at_give (rules_in past) (world_after past) x.course).now q.answerer)
        ((after_taking (rules_in past) (world_after past) x.course).now q.asker) }
    ensures receipts { (past : WorldRun) (since : List Event) (q : Inquiry)
        → AreEvents past.events → AreEvents since → IsInquiry past.replicas q
        → (x : ExchangeOf false (rules_in past) (world_after past) q since)
        → HasAll q.bucket
        (without_records ((at_give (rules_in past) (world_after past) x.course).now q.answerer))
        ((after_taking (rules_in past) (world_after past) x.course).now q.asker) }
{}

/// What a session that begins with sums gives, whatever else happens while it lasts.
///
/// - `brings`: at its end the asker holds each receipt that the other held when it compared the
///   sums, or one with its id, and each record: if the asker has not restarted since it made the
///   sums, nor the other since it compared them.
pub fn session()
    ensures brings { (past : WorldRun) (since : List Event) (p : Peers) (b : ℕ)
        → AreEvents past.events → AreEvents since → ArePeers past.replicas p → b ≤ 255
        → (c : SumsCourse (rules_in past) (world_after past) p since)
        → IsUninterrupted c.compared
        → HasAll b (answerer_held (rules_in past) (world_after past) c.compared)
        (held_by (followed_by past since) p.asker) }
{}

/// When replicas hold the same.
///
/// - `agreed`: replicas that each pulled, in quiet, from each other one hold the same, whatever the
///   limits of each, if no answer was too much for who took it. A replica
///   pulls by the whole answers about all buckets, or by sums and answers about the parts that
///   differ. What others bring to either of both meanwhile does no harm.
pub fn agreement()
    ensures agreed { (past : WorldRun) (since : List Event) (i j : ℕ) → AreEvents past.events
        → i < past.replicas → j < past.replicas
        → Settles (rules_in past) (world_after past) since
        → held_by (followed_by past since) i ≡ held_by (followed_by past since) j }
{}
