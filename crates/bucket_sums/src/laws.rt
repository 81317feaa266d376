//! What is so of all sums. A call that needs a law calls its function, which does nothing, and
//! cites what it ensures.
ghost use Rattle.std.specs.Prelude.{◌≡◌, ◌+◌, ◌++◌, ◌<◌, ◌≤◌, ℕ, Bool, List, [], None, Some, true};
ghost use Rattle.std.specs.Prelude.{false, length, slice_get, slice_index_or, Contains};
ghost use Rattle.fed_config.specs.Configuration.{Configuration, config_id_of};
ghost use Rattle.std.specs.List.{AllByRecursion};
ghost use Rattle.receipt_core.specs.Receipt.{IsDigest, Receipt, receipt_id_of};
ghost use Rattle.replica_core.specs.Convergence.{Comparison, HasAll, Peers, SumsCourse, asker_held};
ghost use Rattle.replica_core.specs.Convergence.{answerer_held, at_sums};
ghost use Rattle.replica_core.specs.State.{State, ids_held, joined};
ghost use Rattle.replica_core.specs.World.{Rules, World, apply, give_sent, happens, have_sent};
ghost use Rattle.replica_core.specs.World.{sends};
ghost use Rattle.replica_core.specs.declared.event.Event.{Event};
ghost use Rattle.replica_core.specs.declared.event.Event.TheVariants.{AnswerReceipts};
ghost use Rattle.receipt_core.specs.Acceptance.{Meaning, IsMeaning};
ghost use Rattle.replica_core.specs.Session.{HaveMessage, give_of, state_of};
ghost use Rattle.replica_sync.specs.AnsweredFrom.{answered_from};
ghost use Rattle.replica_sync.specs.declared.answer_records.AnswerRecords.TheVariants.{LeftOut};
ghost use Rattle.replica_sync.specs.PulledPieces.{AreAlone, PulledPiece, bytes_pulled};
ghost use Rattle.replica_sync.specs.Pulling.{HasDistinctIds};
ghost use Rattle.replica_sync.specs.PullSessions.{HasPulledAbout, IsOverPulling, due_have};
ghost use Rattle.replica_sync.specs.PullSessions.{fault_of_pulling};
ghost use Rattle.replica_sync.specs.ServedPieces.{Came, HasServedPieces, IsStill, bytes_came};
ghost use Rattle.replica_sync.specs.ServedPieces.{due_give, fault_of_serving, kept_have};
ghost use Rattle.replica_sync.specs.Serving.{ServesAll};
ghost use Rattle.replica_sync.specs.SessionRun.{known_run};
ghost use Rattle.replica_sync.specs.declared.piece_pulling.Pulling.{Pulling};
ghost use Rattle.replica_sync.specs.declared.piece_serving.Serving.{Serving};
ghost use Rattle.replica_texts.specs.SoleLines.{written_header};
ghost use Rattle.bucket_sums.specs.Changing.{AsksMarkedParts, HoldsNoLess, IsOwnPiece, OnlyGrows};
ghost use Rattle.bucket_sums.specs.declared.kept_sums.KeptSums.{KeptSums};
ghost use Rattle.bucket_sums.specs.Lines.{part_count};
ghost use Rattle.bucket_sums.specs.Questions.{sums_answer};
ghost use Rattle.bucket_sums.specs.Quiet.{AnswersQuestion};
ghost use Rattle.bucket_sums.specs.QuietPulls.{AsksMarked};
ghost use Rattle.bucket_sums.specs.RecordsOnce.{shown_once};
ghost use Rattle.bucket_sums.specs.Sessions.{after_answers, buckets_asked};
ghost use Rattle.bucket_sums.specs.Sums.{HasDistinctSums, ids_text, marks_between};

/// What is not marked is the same at both.
///
/// - `ids`: if no two lists of ids have one SHA-256, both hold the same ids of a bucket that is
///   not marked.
/// - `records`: if no two lists of records have one SHA-256, both hold the same records when these
///   are not marked.
/// - `apart`: two lists of ids have two texts.
pub fn comparison()
    ensures ids { (one other : State) (bucket : ℕ) → bucket < 256 → HasDistinctSums one other
        → slice_index_or (marks_between one other) (bucket + 1) true ≡ false
        → ids_held one bucket ≡ ids_held other bucket }
    ensures records { (one other : State) → HasDistinctSums one other
        → slice_index_or (marks_between one other) 0 true ≡ false
        → one.records ≡ other.records }
    ensures apart { (ids others : List (List ℕ)) → AllByRecursion IsDigest ids
        → AllByRecursion IsDigest others → ids_text ids ≡ ids_text others → ids ≡ others }
{}

/// If no two receipts that both hold have one id, no two lists of their ids have one SHA-256,
/// and no two lists of their records, a session that begins with sums brings what a session about
/// all buckets brings: what the asker holds then is what both held together, and nothing else. It
/// asks about the buckets that are marked; or about one, if only the records are marked.
pub fn sums_sessions()
    ensures { (m k : Meaning) → IsMeaning m → IsMeaning k
        → HasDistinctSums (state_of m) (state_of k)
        → ((r s : Receipt) → Contains (joined (state_of m) (state_of k)).held r
        → Contains (joined (state_of m) (state_of k)).held s
        → receipt_id_of r ≡ receipt_id_of s → r ≡ s)
        → after_answers k (state_of m) (buckets_asked (marks_between (state_of m) (state_of k)))
        ≡ joined (state_of m) (state_of k) }
{}

/// After a session over sums with a replica whose answers all have its records, the asker holds
/// what it held joined with what the other held, and nothing else, exactly as after one about all
/// buckets: if no two lists of what both hold have one SHA-256, no two receipts of both have one
/// id, nothing else changes what is held, the buckets that are asked about are those of the marks
/// of both, and the haves were served.
pub fn quiet_sessions()
    ensures { (p : Pulling) (m k held : Meaning) (came : List PulledPiece)
        (written replied rest : List ℕ) (count : ℕ)
        → IsMeaning m → IsMeaning k → IsMeaning held
        → config_id_of m.config ≡ config_id_of k.config
        → HasDistinctSums (state_of m) (state_of k)
        → HasDistinctIds (joined (state_of m) (state_of k))
        → HasPulledAbout (Some (buckets_asked (marks_between (state_of m) (state_of k)))) p m came
        written → AreAlone m came held → fault_of_pulling p ≡ None → IsOverPulling p
        → due_have p ≡ [] → ServesAll (known_run written replied) k count
        → bytes_pulled came ++ rest ≡ replied
        → state_of held ≡ joined (state_of m) (state_of k) }
{}

/// What both sides of a session over sums do is one session. `written` is what the asker wrote,
/// and `said` what the other wrote to its question; `replied` is what it wrote to the haves, of
/// which the first answer has the records if they differ, and no other has any.
///
/// - `compared`: whatever changes at either while it lasts, the marks that the asker got are those
///   of what it held when it began, and of what the other held when the first line of the
///   question ended.
/// - `marks`: so they are those of what both hold, if nothing changes at the other meanwhile.
/// - `brings`: whatever else either of both takes meanwhile, after the session the asker holds each
///   receipt of each bucket that the other held when the question's first line ended, or one with
///   its id, and each record: if neither loses what it holds, and no two lists of what was compared
///   have one SHA-256.
/// - `joins`: after the session the asker holds what it held joined with what the other held, and
///   nothing else: if no two lists of what both hold have one SHA-256, no two receipts of both have
///   one id, and nothing else changes what is held.
pub fn both_sides()
    ensures compared { (p : Pulling) (m : Meaning) (config : Configuration)
        (came : List PulledPiece) (asked : List Came) (written said rest left more : List ℕ)
        (differ : Bool) → config_id_of m.config ≡ config_id_of config
        → (marked : AsksMarked p m came written)
        → (question : AnswersQuestion config asked said differ)
        → bytes_came asked ++ rest ≡ written
        → bytes_pulled marked.asked ++ left ≡ said ++ more
        → marked.marks ≡ marks_between (state_of m) (state_of question.held) }
    ensures marks { (p : Pulling) (m k : Meaning) (config : Configuration) (came : List PulledPiece)
        (asked : List Came) (written said rest left more : List ℕ) (differ : Bool)
        → config_id_of m.config ≡ config_id_of config → (marked : AsksMarked p m came written)
        → AnswersQuestion config asked said differ → IsStill k asked
        → bytes_came asked ++ rest ≡ written
        → bytes_pulled marked.asked ++ left ≡ said ++ more
        → marked.marks ≡ marks_between (state_of m) (state_of k) }
    ensures brings { (p : Pulling) (s : Serving) (m held : Meaning) (config : Configuration)
        (came : List PulledPiece) (asked later : List Came) (written said replied left : List ℕ)
        (differ : Bool) (bucket : ℕ)
        → config_id_of m.config ≡ config_id_of config
        → (marked : AsksMarked p m came written) → OnlyGrows m came held
        → AllByRecursion (IsOwnPiece m.config) came
        → fault_of_pulling p ≡ None → IsOverPulling p → due_have p ≡ []
        → (question : AnswersQuestion config asked said differ)
        → AllByRecursion (HoldsNoLess config question.held) later
        → HasDistinctSums (state_of m) (state_of question.held)
        → HasServedPieces s (shown_once differ [] later) replied → fault_of_serving s ≡ None
        → kept_have s ≡ [] → due_give s ≡ [] → bytes_came (asked ++ later) ≡ written
        → bytes_pulled came ++ left ≡ said ++ replied
        → HasAll bucket (state_of question.held) (state_of held) }
    ensures joins { (p : Pulling) (s : Serving) (m k held : Meaning) (came : List PulledPiece)
        (asked later : List Came) (written said replied left : List ℕ) (differ : Bool)
        → IsMeaning m → IsMeaning k → IsMeaning held
        → config_id_of m.config ≡ config_id_of k.config
        → HasDistinctSums (state_of m) (state_of k)
        → HasDistinctIds (joined (state_of m) (state_of k))
        → AsksMarked p m came written → AreAlone m came held → fault_of_pulling p ≡ None
        → IsOverPulling p → due_have p ≡ []
        → AnswersQuestion k.config asked said differ → IsStill k asked → IsStill k later
        → HasServedPieces s (shown_once differ [] later) replied → fault_of_serving s ≡ None
        → kept_have s ≡ [] → due_give s ≡ [] → bytes_came (asked ++ later) ≡ written
        → bytes_pulled came ++ left ≡ said ++ replied
        → state_of held ≡ joined (state_of m) (state_of k) }
{}

/// Sessions that begin with sums are part of what happens in a world of replicas, of which
/// `replica_core::laws` speaks, whatever else happens there before, between and after their events.
///
/// - `course`: the question is the event of asking by sums, when the session begins. Its answer is
///   that of comparing them, when the question's first line ends. With an exchange about each
///   bucket that the marks ask about, of which the first has the records if they are marked, these
///   are a course by sums: if no two lists of what was compared have one SHA-256.
/// - `receipts`: what is answered to a have with the records left out is what a replica sends in
///   the world by answering without them.
pub fn world_of_sums()
    ensures course { (p : Pulling) (m : Meaning) (config : Configuration) (came : List PulledPiece)
        (asked : List Came) (written said rest left more : List ℕ) (differ : Bool) (rules : Rules)
        (start : World) (peers : Peers) (events : List Event) (c : Comparison peers events)
        → config_id_of m.config ≡ config_id_of config
        → (marked : AsksMarked p m came written)
        → (question : AnswersQuestion config asked said differ)
        → bytes_came asked ++ rest ≡ written
        → bytes_pulled marked.asked ++ left ≡ said ++ more
        → HasDistinctSums (state_of m) (state_of question.held)
        → asker_held rules start c ≡ state_of m
        → answerer_held rules start c ≡ state_of question.held
        → c.place ≡ length (at_sums rules start c).sent
        → AsksMarkedParts rules start c marked.marks
        → SumsCourse rules start peers events }
    ensures receipts { (k : Meaning) (have : HaveMessage) (rules : Rules) (j asker place : ℕ)
        (w : World) → j < rules.replicas → w.now j ≡ state_of k
        → slice_get w.sent place ≡ Some (have_sent asker have.bucket have.ids)
        → happens rules w (AnswerReceipts j place)
        ≡ apply rules.limits w
        (sends (give_sent j place (give_of (answered_from LeftOut k) have).content)) }
{}

/// Whatever the marks are that the other side writes, at most one have for each bucket is asked:
/// there are 256 at most, and each is about a bucket.
pub fn asked_buckets()
    ensures few { (marks : List Bool) → length marks ≡ part_count
        → length (buckets_asked marks) ≤ 256 }
    ensures each { (marks : List Bool) → length marks ≡ part_count
        → AllByRecursion (λ b. b < 256) (buckets_asked marks) }
{}

/// What a question of sums and its answer cost, whatever peer makes them. One that is taken whole
/// has this many bytes: its first line, which a snapshot has too, and its line feed; then 257 lines
/// of 64 digits in a question, and one line of 257 marks in an answer.
pub fn message_sizes()
    ensures question { (config : Configuration) (asked : List Came) (said : List ℕ)
        (differ : Bool) → AnswersQuestion config asked said differ
        → length (bytes_came asked) ≡ length (written_header config) + 16706 }
    ensures answer { (config : Configuration) (marks : List Bool) → length marks ≡ part_count
        → length (sums_answer config marks) ≡ length (written_header config) + 259 }
{}
