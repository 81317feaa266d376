//! What is so of every session; the laws of worlds and of texts are handed on. A call that needs a
//! law calls its function, which does nothing, and cites what it ensures.
ghost use Rattle.std.specs.Prelude.{◌≡◌, ◌≢◌, ◌++◌, ◌<◌, [], IfErr, List, Option, Result, Some};
ghost use Rattle.std.specs.Prelude.{length, true, ℕ, ◌∷◌, drop, None, Ok, Err};
ghost use Rattle.fed_config.specs.Configuration.{IsConfiguration, config_id_of};
ghost use Rattle.byte_lines.specs.Lines.{lines_of, with_line};
ghost use Rattle.receipt_core.specs.Acceptance.{Meaning, IsMeaning};
ghost use Rattle.closure_core.specs.Alike.{IsSameTrust};
ghost use Rattle.closure_core.specs.declared.error.TakeError.{TakeError};
ghost use Rattle.replica_core.specs.Convergence.{AreEvents, HasAll, Settles};
ghost use Rattle.replica_core.specs.Session.{HaveMessage, have_of, give_of, state_of};
ghost use Rattle.replica_core.specs.State.{is_within_limits, joined, limits_of};
ghost use Rattle.replica_core.specs.World.{Rules, World, WorldRun, rules_in, run_from};
ghost use Rattle.replica_core.specs.World.{world_after, followed_by, meant_by};
ghost use Rattle.replica_core.specs.declared.event.Event.{Event};
ghost use Rattle.replica_core.specs.declared.error.SyncError.{SyncError};
ghost use Rattle.replica_core.specs.declared.error.SyncError.TheVariants.{Io, NoMemory, Refused};
ghost use Rattle.replica_core.specs.declared.error.SyncError.TheVariants.{Truncated};
ghost use Rattle.replica_texts.specs.Haves.{IsAskable};
ghost use Rattle.replica_sync.specs.Serving.{ServesAll, ServesUpTo, Serves};
ghost use Rattle.replica_texts.specs.Gives.{IsGive};
ghost use Rattle.replica_sync.specs.SessionRun.{ReadSame, SessionRun, known_run, session_run};
ghost use Rattle.replica_sync.specs.Events.{EndsCut, whole_exchanges};
ghost use Rattle.replica_sync.specs.Pulling.{HasDistinctIds, Pulls, PullsAll, PullsUpTo};
ghost use Rattle.replica_texts.specs.WrittenSnapshot.{written_snapshot};
ghost use Rattle.replica_core.specs.declared.error.PullFault.{PullFault};
ghost use Rattle.replica_sync.specs.Pieces.{EndsLine, Continues, PieceRun};
ghost use Rattle.replica_sync.specs.PulledPieces.{AreAlone, PulledPiece, bytes_pulled};
ghost use Rattle.replica_sync.specs.PullSessions.{HasPulledPieces, IsOverPulling, count_of_pulling};
ghost use Rattle.replica_sync.specs.PullSessions.{due_have, fault_of_pulling};
ghost use Rattle.replica_sync.specs.ServedPieces.{Came, HasServedPieces, IsStill, bytes_came};
ghost use Rattle.replica_sync.specs.ServedPieces.{due_give, fault_of_serving, kept_have};
ghost use Rattle.replica_sync.specs.ServedPieces.{lines_came};
ghost use Rattle.replica_sync.specs.declared.piece_pulling.Pulling.{Pulling};
ghost use Rattle.replica_sync.specs.declared.piece_serving.Serving.{Serving};

pub use replica_core::laws::{
    agreement, effects, exchange, persistence, provenance, session, validity,
};
pub use replica_texts::laws::{gives, haves, snapshots, sole_lines};

/// A line that ends in a piece is the first line of what was kept, of the piece, and of all that
/// comes after it; and what is kept within a line is what came. So the lines are those of the whole
/// stream, wherever it is cut.
pub fn cuts()
    ensures ends { (run : PieceRun) (used : ℕ) (after text : List ℕ) → EndsLine run used text
        → lines_of ((run.old ++ run.piece) ++ after)
        ≡ with_line text (lines_of (drop used run.piece ++ after)) }
    ensures continues { (run : PieceRun) (new after : List ℕ) → Continues run new
        → lines_of ((run.old ++ run.piece) ++ after) ≡ lines_of (new ++ after) }
    ensures rests { (run : PieceRun) (new : List ℕ) → Continues run new
        → lines_of (run.old ++ run.piece) ≡ record { whole = []; rest = new } }
{}

/// If what is held does not change, a session whose haves come in pieces does what `serve_one` does
/// over the joined bytes, wherever they are cut.
///
/// - `all`: if the stream ends after whole haves.
/// - `cut`: if it ends within a have.
/// - `stopped`: at an error. It is the one that ends such a session of `serve_one` as soon as a
///   line feed comes.
pub fn served_pieces()
    ensures all { (s : Serving) (m : Meaning) (came : List Came) (written : List ℕ)
        → HasServedPieces s came written → IsStill m came → fault_of_serving s ≡ None
        → kept_have s ≡ [] → due_give s ≡ []
        → Serves (known_run (bytes_came came) written) m (Ok (length (lines_came came).lines)) }
    ensures cut { (s : Serving) (m : Meaning) (came : List Came) (written : List ℕ)
        → HasServedPieces s came written → IsStill m came → fault_of_serving s ≡ None
        → (kept_have s ≡ [] → ⊥) → due_give s ≡ []
        → Serves (known_run (bytes_came came) written) m (Err Truncated) }
    ensures stopped { (s : Serving) (m : Meaning) (came : List Came)
        (written more after : List ℕ) (e : SyncError)
        → HasServedPieces s came written → IsStill m came → fault_of_serving s ≡ Some e
        → due_give s ≡ []
        → Serves (known_run (bytes_came came ++ (more ++ (10 ∷ after))) written) m (Err e) }
{}

/// If nothing else changes what is held, a session whose answers come in pieces does what `pull`
/// does over the joined bytes, wherever they are cut.
///
/// - `all`: after the last answer.
/// - `cut`: if the stream ends before it.
/// - `stopped`: at an error. It is the one that ends such a `pull` as soon as a line feed comes.
pub fn pulled_pieces()
    ensures all { (p : Pulling) (m held : Meaning) (came : List PulledPiece) (written : List ℕ)
        → HasPulledPieces p m came written → AreAlone m came held → fault_of_pulling p ≡ None
        → IsOverPulling p → due_have p ≡ []
        → Pulls (known_run (bytes_pulled came) written) m held (Ok (count_of_pulling p)) }
    ensures cut { (p : Pulling) (m held : Meaning) (came : List PulledPiece) (written : List ℕ)
        → HasPulledPieces p m came written → AreAlone m came held → fault_of_pulling p ≡ None
        → (IsOverPulling p → ⊥) → due_have p ≡ []
        → Pulls (known_run (bytes_pulled came) written) m held
        (Err (record { why = Truncated; taken = count_of_pulling p })) }
    ensures stopped { (p : Pulling) (m held : Meaning) (came : List PulledPiece)
        (written more after : List ℕ) (e : SyncError)
        → HasPulledPieces p m came written → AreAlone m came held → fault_of_pulling p ≡ Some e
        → Pulls (known_run (bytes_pulled came ++ (more ++ (10 ∷ after))) written) m held
        (Err (record { why = e; taken = count_of_pulling p })) }
{}

/// No session is both carried out and ended by an error of its stream, and what it does is
/// determined by the bytes that are read. Only a device that fails, lack of memory, or a line whose
/// receipt or record the replica cannot hold, ends it otherwise.
///
/// - `served`: a stream that has only haves of the configuration has no error after any of them.
/// - `served_once`: it is this many haves, and no other number of them.
/// - `pulled`: a stream that begins with answers about all buckets has no error in them, except
///   that what a line says may be refused.
/// - `taken`: nor is anything refused if a replica can hold all that they bring.
/// - `pulled_once`: they determine what is held after them.
pub fn sessions()
    ensures served { (m : Meaning) (one other : SessionRun) (count : ℕ) (e : SyncError)
        → ReadSame one other → e ≢ Io → e ≢ NoMemory
        → ServesAll one m count → ServesUpTo other m e → ⊥ }
    ensures served_once { (m : Meaning) (one other : SessionRun) (count number : ℕ)
        → ReadSame one other → ServesAll one m count → ServesAll other m number → count ≡ number }
    ensures pulled { (m held kept : Meaning) (one other : SessionRun) (e : SyncError)
        → ReadSame one other → e ≢ Io → e ≢ NoMemory
        → ((n : ℕ) (why : TakeError) → e ≢ Refused n why)
        → PullsAll one m held → PullsUpTo other m kept e → ⊥ }
    ensures taken { (m held kept : Meaning) (one other : SessionRun) (e : SyncError)
        → ReadSame one other → IsConfiguration m.config → IsMeaning m → IsMeaning held
        → e ≢ Io → e ≢ NoMemory → PullsAll one m held → PullsUpTo other m kept e → ⊥ }
    ensures pulled_once { (m held kept : Meaning) (one other : SessionRun) → ReadSame one other
        → PullsAll one m held → PullsAll other m kept → held ≡ kept }
{}

/// What one side writes the other takes: two replicas whose configurations have one digest never
/// refuse each other's haves and answers. `asked` are the bytes that a pull wrote, and
/// `replied` those that were written to them.
///
/// - `asks`: what a replica asks about a bucket, a line can ask.
/// - `answers`: what a replica answers to a have that a line can ask is an answer.
/// - `served`: a session that serves what a pull wrote has no error.
/// - `pulled`: nor has a pull that reads what is written to its haves, except that what a line says
///   may be refused.
/// - `taken`: nor is anything refused if the relationships, seeds and floors are the same, and both
///   together hold no more than the limits of the asker allow. So nothing but a device or memory
///   ends it early.
/// - `brings`: a pull that was carried out brings all that the other side held: each receipt of
///   each bucket, or one with its id, and each record.
/// - `joins`: if no two receipts of both have one id, what is held then is what both held together,
///   and nothing else.
pub fn understanding()
    ensures asks { (m : Meaning) (bucket : ℕ) → IsMeaning m → bucket < 256
        → IsAskable (have_of m bucket) }
    ensures answers { (m : Meaning) (q : HaveMessage) → IsMeaning m → IsAskable q
        → IsGive (give_of m q) }
    ensures served { (m k held : Meaning) (stream : Option (List ℕ)) (asked : List ℕ)
        (result : Result ℕ PullFault) (before after : Option (List ℕ)) (e : SyncError)
        → IsMeaning m → IsMeaning held → config_id_of m.config ≡ config_id_of k.config
        → IfErr result (λ fault. (fault.why ≢ Io) × (fault.why ≢ NoMemory))
        → Pulls (session_run stream (Some []) (Some asked)) m held result
        → e ≢ Io → e ≢ NoMemory → ServesUpTo (session_run (Some asked) before after) k e → ⊥ }
    ensures pulled { (m k held : Meaning) (asked replied rest : List ℕ) (count : ℕ) (e : SyncError)
        → IsMeaning m → IsMeaning k → IsMeaning held
        → config_id_of m.config ≡ config_id_of k.config
        → ServesAll (known_run asked replied) k count
        → PullsUpTo (known_run (replied ++ rest) asked) m held e
        → e ≢ Io → e ≢ NoMemory → ((n : ℕ) (why : TakeError) → e ≢ Refused n why) → ⊥ }
    ensures taken { (m k held : Meaning) (asked replied rest : List ℕ) (count : ℕ) (e : SyncError)
        → IsConfiguration m.config → IsMeaning m → IsMeaning k → IsMeaning held
        → IsSameTrust m.config k.config
        → is_within_limits (limits_of m.config) (joined (state_of m) (state_of k)) ≡ true
        → ServesAll (known_run asked replied) k count
        → PullsUpTo (known_run (replied ++ rest) asked) m held e
        → e ≢ Io → e ≢ NoMemory → ⊥ }
    ensures brings { (m k held : Meaning) (asked replied rest : List ℕ) (count bucket : ℕ)
        → IsMeaning m → IsMeaning k → IsMeaning held
        → config_id_of m.config ≡ config_id_of k.config
        → ServesAll (known_run asked replied) k count
        → PullsAll (known_run (replied ++ rest) asked) m held
        → HasAll bucket (state_of k) (state_of held) }
    ensures joins { (m k held : Meaning) (asked replied rest : List ℕ) (count : ℕ)
        → IsMeaning m → IsMeaning k → IsMeaning held
        → config_id_of m.config ≡ config_id_of k.config
        → ServesAll (known_run asked replied) k count
        → PullsAll (known_run (replied ++ rest) asked) m held
        → HasDistinctIds (joined (state_of m) (state_of k))
        → state_of held ≡ joined (state_of m) (state_of k) }
{}

/// Replicas that each pulled, in quiet, from each other one have the same snapshots, byte by byte,
/// whatever the limits of each.
pub fn convergence()
    ensures same_snapshots { (past : WorldRun) (since : List Event) (i j : ℕ)
        → AreEvents past.events → i < past.replicas → j < past.replicas
        → Settles (rules_in past) (world_after past) since
        → written_snapshot (meant_by (followed_by past since) i)
        ≡ written_snapshot (meant_by (followed_by past since) j) }
{
    agreement();
    snapshots();
}

/// A session is part of what happens in a world of replicas with one configuration, each with
/// limits of its own: replica i pulls, and replica j serves it. `asked` are the bytes that the pull
/// wrote, and `replied` those that were written to them.
///
/// - `whole`: after a pull that was carried out i holds what it holds in the world in which it
///   asked j about each bucket and absorbed each answer.
/// - `cut`: if the connection brought less, or what a line says was refused, i holds what it holds
///   in the world in which it absorbed the answers about the first buckets, and the first lines of
///   the next one.
pub fn world_of_sessions()
    ensures whole { (m k held : Meaning) (rules : Rules) (i j : ℕ) (w : World)
        (asked replied rest : List ℕ) (count : ℕ)
        → i < rules.replicas → j < rules.replicas → i ≢ j → rules.limits i ≡ limits_of m.config
        → w.now i ≡ state_of m → w.now j ≡ state_of k
        → IsMeaning m → IsMeaning k → IsMeaning held
        → config_id_of m.config ≡ config_id_of k.config
        → ServesAll (known_run asked replied) k count
        → PullsAll (known_run (replied ++ rest) asked) m held
        → (run_from rules w
        (whole_exchanges (record { puller = i; server = j }) 256 0 (length w.sent))).now i
        ≡ state_of held }
    ensures cut { (m k held : Meaning) (rules : Rules) (i j : ℕ) (w : World)
        (asked replied rest bytes lost : List ℕ) (count : ℕ) (e : SyncError)
        → i < rules.replicas → j < rules.replicas → i ≢ j → rules.limits i ≡ limits_of m.config
        → w.now i ≡ state_of m → w.now j ≡ state_of k
        → IsMeaning m → IsMeaning k → IsMeaning held
        → config_id_of m.config ≡ config_id_of k.config
        → ServesAll (known_run asked replied) k count
        → bytes ++ lost ≡ replied ++ rest
        → PullsUpTo (known_run bytes asked) m held e → e ≢ Io → e ≢ NoMemory
        → EndsCut rules w (record { puller = i; server = j }) (state_of held) }
{}
