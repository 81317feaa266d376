//! What is so of every journal. A call that needs a law calls its function, which does nothing, and
//! cites what it ensures.
ghost use Rattle.std.specs.Prelude.{List, ℕ, take, Some};
ghost use Rattle.receipt_core.specs.Acceptance.{Meaning};
ghost use Rattle.replica_core.specs.Absorbing.{with_entries};
ghost use Rattle.replica_core.specs.declared.entry.Entry.{Entry};
ghost use Rattle.replica_core.specs.declared.error.SyncError.{SyncError};
ghost use Rattle.replica_journal.specs.Journal.{AreWellFormed, ReadsJournal, RefusesJournal};
ghost use Rattle.replica_journal.specs.Journal.{journal_text};

/// The journal that is written of receipts and records is read as these, added to what was held. A
/// kill leaves a beginning of its bytes: if the whole is read, so is each beginning, as what its
/// whole lines say; and a beginning has no error that the whole does not have.
pub fn journals()
    ensures written { (m : Meaning) (entries : List Entry) → AreWellFormed entries
        → ReadsJournal m (Some (journal_text m.config entries)) (with_entries entries m) }
    ensures read { (m now : Meaning) (bytes : List ℕ) (size : ℕ)
        → ReadsJournal m (Some bytes) now
        → ((cut : Meaning) × ReadsJournal m (Some (take size bytes)) cut) }
    ensures refused { (m : Meaning) (bytes : List ℕ) (size : ℕ) (e : SyncError)
        → RefusesJournal m (Some (take size bytes)) e → RefusesJournal m (Some bytes) e }
{
    replica_texts::laws::sole_lines();
}
