//! What follows from the definitions. A call that needs a law calls its function, which does
//! nothing, and cites what it ensures.
ghost use Rattle.std.specs.Prelude.{◌≡◌, ◌++◌, ◌⊎◌, [], ◌∷◌, Bool, Contains, false, true, List, ℕ};
ghost use Rattle.byte_lines.specs.Lines.{lines_of};
ghost use Rattle.state_steps.specs.Appends.{AppendKeeps};
ghost use Rattle.state_steps.specs.Audits.{AuditedFiles, AuditKeeps, AuditTexts, Change};
ghost use Rattle.state_steps.specs.Audits.{IsAudited, IsAuditOn, IsHeldIn};
ghost use Rattle.state_steps.specs.Begins.{BeginKeeps};
ghost use Rattle.state_steps.specs.Carries.{AreApart, CarryDisk, CarryFound, CarryKeeps};
ghost use Rattle.state_steps.specs.Carries.{CarryTexts, IsCarrySafe, IsInSave, StopLeaves};
ghost use Rattle.state_steps.specs.Carries.{StopsInDue, after_save, after_start, saved_state};
ghost use Rattle.state_steps.specs.Cuts.{AreHeld, IsCutBehind, HeldComeFirst, IsSame, lines_found};
ghost use Rattle.state_steps.specs.Files.{FileText, HasWholeLine, IsFirstFile, KeepsLine};
ghost use Rattle.state_steps.specs.Files.{IsFoundAt, IsJournalled, IsLeftOf, SnapshotsKeep};
ghost use Rattle.state_steps.specs.Files.{StateDisk, kept_file, text_now};
ghost use Rattle.state_steps.specs.Folds.{FoldKeeps, steps_left};
ghost use Rattle.state_steps.specs.Saves.{IsSaveDueOn, SaveKeeps, save_step};
ghost use Rattle.state_steps.specs.Resumes.{ResumeKeeps, ResumeTexts};
ghost use Rattle.state_steps.specs.Shortenings.{ShortensKeeps, shorten_steps_left};
ghost use Rattle.state_steps.specs.Steps.{FailsDue, StateTexts, after_due, without_new};
ghost use Rattle.state_steps.specs.declared.appending.Appending.{Appending};
ghost use Rattle.state_steps.specs.declared.beginning.Beginning.{Beginning};
ghost use Rattle.state_steps.specs.declared.carrying_over.CarryingOver.{CarryingOver};
ghost use Rattle.state_steps.specs.declared.folding.Folding.{Folding};
ghost use Rattle.state_steps.specs.declared.keeping.Keeping.{Keeping};
ghost use Rattle.state_steps.specs.declared.resuming.Resuming.{Resuming};
ghost use Rattle.state_steps.specs.declared.saving.Saving.{Saving};
ghost use Rattle.state_steps.specs.declared.shortening.Shortening.{Shortening};

/// At each step of a machine: whatever a stop leaves then, each line that was kept is a whole line
/// of the snapshot or of the journal. While a state is carried over, it may be a line of `previous`
/// after the rule of a start.
///
/// - `carry_within`: so it is in the middle of a step in which a state is carried over.
pub fn stops()
    ensures fold { (texts : StateTexts) (fold : Folding) (disk : StateDisk) (line : List ℕ)
        → FoldKeeps texts fold disk line → KeepsLine disk line }
    ensures shorten { (text : List ℕ) (shortening : Shortening) (disk : StateDisk)
        (line : List ℕ) → ShortensKeeps text shortening disk line → KeepsLine disk line }
    ensures save { (texts : StateTexts) (save : Saving) (disk : StateDisk) (line : List ℕ)
        → SaveKeeps texts save disk line → KeepsLine disk line }
    ensures begin { (texts : StateTexts) (begin : Beginning) (disk : StateDisk) (line : List ℕ)
        → BeginKeeps texts begin disk line → KeepsLine disk line }
    ensures append { (written : List ℕ) (journal : Appending) (disk : StateDisk) (line : List ℕ)
        → AppendKeeps written journal disk line → KeepsLine disk line }
    ensures resume { (texts : ResumeTexts) (resuming : Resuming) (disk : StateDisk)
        (line : List ℕ) → ResumeKeeps texts resuming disk line → KeepsLine disk line }
    ensures carry { (texts : CarryTexts) (carrying : CarryingOver) (disk : CarryDisk)
        (found : CarryFound) (line : List ℕ) → AreApart texts
        → CarryKeeps texts carrying disk line → StopLeaves disk found
        → IsCarrySafe texts found line }
    ensures carry_within { (texts : CarryTexts) (carrying : CarryingOver) (disk : CarryDisk)
        (found : CarryFound) (line : List ℕ) → AreApart texts
        → CarryKeeps texts carrying disk line → StopsInDue texts carrying.stage disk found
        → IsCarrySafe texts found line }
{}

/// The removal of a new snapshot or journal that never gets its name loses no line, at any time.
pub fn removals()
    ensures { (disk : StateDisk) (line : List ℕ) → KeepsLine disk line
        → KeepsLine (without_new disk) line }
{}

/// Each line that is kept is a whole line of what is read now of the snapshot or of the journal. So
/// a snapshot of all that was read has each line that was kept.
pub fn readings()
    ensures { (disk : StateDisk) (snapshot journal : FileText) (line : List ℕ)
        → IsFirstFile snapshot disk.snapshot → IsFirstFile journal disk.journal
        → KeepsLine disk line
        → HasWholeLine (text_now snapshot) line ⊎ HasWholeLine (text_now journal) line }
{}

/// A journal may be shortened after a fold during which lines came.
///
/// - `fits`: when the snapshot that the fold wrote is on the disk under its name, each line that
///   it or the new journal has is as [`Shortening::begin`](crate::Shortening::begin) asks.
/// - `begins`: so after the fold has put the folder on the disk, the shortening begins with no line
///   lost, if the new journal has each line of the journal that the snapshot lacks.
pub fn shortenings()
    ensures fits { (texts : StateTexts) (disk : StateDisk) (text line : List ℕ)
        → disk.snapshot ≡ kept_file texts.snapshot ∷ []
        → HasWholeLine texts.snapshot line ⊎ HasWholeLine text line
        → SnapshotsKeep disk.snapshot line ⊎ HasWholeLine text line }
    ensures begins { (texts : StateTexts) (fold : Folding) (shortening : Shortening)
        (disk : StateDisk) (text line : List ℕ) → steps_left fold.next ≡ 3
        → FoldKeeps texts fold disk line → shorten_steps_left shortening.next ≡ 4
        → (IsJournalled disk.journal line
        → HasWholeLine texts.snapshot line ⊎ HasWholeLine text line)
        → ShortensKeeps text shortening (after_due texts fold.next disk) line }
{}

/// A start after a stop, while a state was carried over: what its rule makes of what it found.
///
/// - `lines`: the line is in the state's files or in `previous`.
/// - `again`, `same`: it is as safe as before, and one more start changes nothing. So a stop
///   in a start loses no line.
pub fn starts()
    ensures lines { (texts : CarryTexts) (found : CarryFound) (line : List ℕ)
        → IsCarrySafe texts found line
        → HasWholeLine (after_start texts found).snapshot line
        ⊎ HasWholeLine (after_start texts found).journal line
        ⊎ HasWholeLine (after_start texts found).previous line }
    ensures again { (texts : CarryTexts) (found : CarryFound) (line : List ℕ)
        → IsCarrySafe texts found line → IsCarrySafe texts (after_start texts found) line }
    ensures same { (texts : CarryTexts) (found : CarryFound)
        → after_start texts (after_start texts found) ≡ after_start texts found }
{}

/// A whole save is one step in which a state is carried over.
///
/// - `whole`: what its steps together make of the files.
/// - `begins`, `done`, `failed`: whatever a stop leaves at its beginning, or after a step that is
///   done or failed, is what a stop in the middle of the whole save may leave.
pub fn saves()
    ensures whole { (texts : StateTexts) (disk : StateDisk)
        → after_save texts disk ≡ saved_state texts.snapshot disk }
    ensures begins { (text : List ℕ) (disk : StateDisk) → IsInSave text disk disk }
    ensures done { (texts : StateTexts) (save : Saving) (start disk : StateDisk)
        → IsSaveDueOn texts save.stage disk → IsInSave texts.snapshot start disk
        → IsInSave texts.snapshot start (after_due texts (save_step save.stage) disk) }
    ensures failed { (texts : StateTexts) (save : Saving) (start disk left : StateDisk)
        → IsSaveDueOn texts save.stage disk → IsInSave texts.snapshot start disk
        → FailsDue texts (save_step save.stage) disk left
        → IsInSave texts.snapshot start left }
{}

/// The audit file and the state's files.
///
/// - `stops`: whatever a stop leaves, each change that the state's files have has its line in the
///   audit file.
/// - `in_order`: whatever a stop leaves, the lines whose changes are held come first in it. So it
///   is if the changes of the earlier turns are held, and of the last turn those that came first:
///   the journal gets their lines in this order.
/// - `stays`: then, after the cut, each change that the state's files have still has its line.
/// - `same`: if the lines whose changes are held come first, then after the cut the file has the
///   lines of exactly the changes that are held.
pub fn audits()
    ensures stops { (texts : AuditTexts) (keeping : Keeping) (files : AuditedFiles)
        (change : Change) → AuditKeeps texts keeping files change
        → IsAudited files.audit files.state change }
    ensures in_order { (texts : AuditTexts) (keeping : Keeping) (audit : FileText) (text : List ℕ)
        (held : List ℕ → Bool) → IsAuditOn texts keeping.stage audit → IsLeftOf audit text
        → (lines_of texts.earlier).rest ≡ [] → AreHeld held (lines_of texts.earlier).whole
        → HeldComeFirst held (lines_of texts.turn).whole → held (lines_of text).rest ≡ false
        → HeldComeFirst held (lines_found text) }
    ensures stays { (texts : AuditTexts) (keeping : Keeping) (files : AuditedFiles)
        (change : Change) (text snapshot journal : List ℕ) (held : List ℕ → Bool)
        (stay behind : List (List ℕ)) → AuditKeeps texts keeping files change
        → IsLeftOf files.audit text → IsFoundAt files.state.snapshot snapshot
        → IsFoundAt files.state.journal journal
        → IsHeldIn snapshot journal change.last → held change.report ≡ true
        → lines_found text ≡ stay ++ behind → IsCutBehind held stay behind
        → Contains stay change.report }
    ensures same { (held : List ℕ → Bool) (found stay behind : List (List ℕ))
        → found ≡ stay ++ behind → IsCutBehind held stay behind → HeldComeFirst held found
        → IsSame held found stay }
{}
