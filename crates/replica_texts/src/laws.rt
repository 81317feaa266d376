//! What is so of every snapshot and of every stream of messages. A call that needs a law calls its
//! function, which does nothing, and cites what it ensures.
ghost use Rattle.std.specs.Prelude.{◌≡◌, ◌≢◌, List, Option, Some};
ghost use Rattle.std.specs.Prelude.{ℕ};
ghost use Rattle.std.specs.Io.KnownBytes.{Consumes};
ghost use Rattle.fed_config.specs.Configuration.{Configuration, IsConfiguration};
ghost use Rattle.byte_lines.specs.Lines.{HasNoFeed};
ghost use Rattle.receipt_core.specs.Acceptance.{Meaning};
ghost use Rattle.closure_core.specs.Alike.{AreAlike, IsSameTrust};
ghost use Rattle.replica_core.specs.Session.{HaveMessage, GiveMessage};
ghost use Rattle.replica_core.specs.declared.entry.Entry.{Entry};
ghost use Rattle.replica_core.specs.declared.error.SyncError.{SyncError};
ghost use Rattle.replica_core.specs.declared.error.SyncError.TheVariants.{Io, NoMemory};
ghost use Rattle.replica_texts.specs.Entries.{entry_line};
ghost use Rattle.replica_texts.specs.Messages.{have_text, give_text};
ghost use Rattle.replica_texts.specs.FirstLines.{HasDigestOf};
ghost use Rattle.replica_texts.specs.Haves.{IsAskable, RefusesHave};
ghost use Rattle.replica_texts.specs.Gives.{IsGive, RefusesGive};
ghost use Rattle.replica_texts.specs.Snapshots.{IsSnapshot, RefusesSnapshot, snapshot_text};
ghost use Rattle.replica_texts.specs.declared.format.Format.{Format};
ghost use Rattle.replica_texts.specs.SoleLines.{IsWellFormed, written_header};

/// What a stream says is unique: it is the text of one set at most, and under a valid configuration
/// the text of a set has no error. Only a source that fails, or lack of memory, may keep it from
/// being read.
///
/// - `same`: replicas that hold the same have one snapshot in each format, whatever their limits.
/// - `one`: two sets whose text it is are the same, also if replicas with other limits read it.
/// - `read`: it has no error if it is the text of a set.
/// - `one_cause`: if it is not such a text, it has one error.
pub fn snapshots()
    ensures same { (format : Format) (one other : Meaning) → AreAlike one other
        → snapshot_text format one ≡ snapshot_text format other }
    ensures one { (config own : Configuration) (bytes : List ℕ) (m n : Meaning)
        → IsSameTrust config own → IsSnapshot config (Some bytes) m
        → IsSnapshot own (Some bytes) n → AreAlike m n }
    ensures read { (config : Configuration) (bytes : List ℕ) (m : Meaning) (e : SyncError)
        → IsConfiguration config → e ≢ Io → e ≢ NoMemory
        → IsSnapshot config (Some bytes) m → RefusesSnapshot config (Some bytes) e → ⊥ }
    ensures one_cause { (config : Configuration) (bytes : List ℕ) (d e : SyncError)
        → IsConfiguration config → d ≢ Io → d ≢ NoMemory → e ≢ Io → e ≢ NoMemory
        → RefusesSnapshot config (Some bytes) d → RefusesSnapshot config (Some bytes) e → d ≡ e }
{}

/// What a stream asks is unique, and a have that a line can ask is read. Only a source that fails,
/// or lack of memory, may keep it from being read.
///
/// - `one`: two haves that it begins with are the same, and so is what follows them.
/// - `read`: if it begins with a have, of the configuration if one is wanted, it has no error
///   there.
/// - `one_cause`: if it does not begin with a have, it has one error there.
pub fn haves()
    ensures one { (bytes : List ℕ) (p q : HaveMessage) (left rest : Option (List ℕ))
        → IsAskable p → IsAskable q
        → Consumes (Some bytes) left (have_text p)
        → Consumes (Some bytes) rest (have_text q)
        → (p ≡ q) × (left ≡ rest) }
    ensures read { (config : Option Configuration) (bytes : List ℕ) (q : HaveMessage)
        (left new : Option (List ℕ)) (e : SyncError)
        → IsAskable q → HasDigestOf config q.config → e ≢ Io → e ≢ NoMemory
        → Consumes (Some bytes) left (have_text q) → RefusesHave config (Some bytes) new e
        → ⊥ }
    ensures one_cause { (config : Option Configuration) (bytes : List ℕ)
        (new since : Option (List ℕ)) (d e : SyncError) → d ≢ Io → d ≢ NoMemory → e ≢ Io
        → e ≢ NoMemory → RefusesHave config (Some bytes) new d
        → RefusesHave config (Some bytes) since e → d ≡ e }
{}

/// What a stream answers is unique, and an answer that is there to its last byte is read. Only a
/// source that fails, or lack of memory, may keep it from being read.
///
/// - `one`: two answers that it begins with are the same, and so is what follows them.
/// - `read`: if it begins with a whole answer, it has no error before that answer's end.
/// - `one_cause`: if it does not begin with an answer, it has one error.
pub fn gives()
    ensures one { (bytes : List ℕ) (a b : GiveMessage) (left rest : Option (List ℕ))
        → IsGive a → IsGive b
        → Consumes (Some bytes) left (give_text a) → Consumes (Some bytes) rest (give_text b)
        → (a ≡ b) × (left ≡ rest) }
    ensures read { (bytes : List ℕ) (a : GiveMessage) (left new : Option (List ℕ)) (e : SyncError)
        → IsGive a → e ≢ Io → e ≢ NoMemory
        → Consumes (Some bytes) left (give_text a) → RefusesGive (Some bytes) new e → ⊥ }
    ensures one_cause { (bytes : List ℕ) (new since : Option (List ℕ)) (d e : SyncError)
        → d ≢ Io → d ≢ NoMemory → e ≢ Io → e ≢ NoMemory
        → RefusesGive (Some bytes) new d → RefusesGive (Some bytes) since e → d ≡ e }
{}

/// No line of a receipt or a record has a line feed in it, and no first line of a snapshot has one.
pub fn sole_lines()
    ensures first { (config : Configuration) → HasNoFeed (written_header config) }
    ensures entry { (entry : Entry) → IsWellFormed entry → HasNoFeed (entry_line entry) }
{}
