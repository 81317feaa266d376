//! The steps of a fold, in their order.
ghost use Rattle.std.specs.Prelude.{◌≡◌, ◌≢◌, ◌-◌, ◌≤◌, ◌↔◌, IsTrue, true, false, List, ℕ};
ghost use Rattle.std.specs.Prelude.{None, Some, [], ◌∷◌};
ghost use Rattle.state_steps.specs.Files.{HasOneFile, HasWholeLine, IsJournalled, KeepsLine};
ghost use Rattle.state_steps.specs.Files.{StateDisk, appended, appending, kept_file};
ghost use Rattle.state_steps.specs.Folds.{FoldKeeps, IsDueOn, IsFolded, fold_end};
ghost use Rattle.state_steps.specs.Folds.{following_step, next_with_lines, steps_left};
ghost use Rattle.state_steps.specs.Folds.{whole_with_lines};
ghost use Rattle.state_steps.specs.Since.{CameSince};
ghost use Rattle.state_steps.specs.Steps.{FailsDue, StateTexts, WritesLine, after_due};
ghost use Rattle.state_steps.specs.declared.file_step.FileStep.TheVariants.{WriteSnapshot};
ghost use Rattle.state_steps.specs.declared.folding.FoldEnd.TheVariants.{JournalContinues};

use crate::file_step::FileStep;
use crate::since::Since;

/// What is to be done if a step of a fold, of a shortening, or of a beginning failed.
#[derive(Clone, Copy, Debug, PartialEq, Eq)]
pub enum FoldEnd {
    /// The journal is as it was, and lines are appended to it as before.
    JournalContinues,
    /// The journal was being removed, emptied or replaced: what the disk has of it is not known.
    /// Nothing may be appended to it before a new journal is begun.
    ReplicaEnds,
}

/// A journal that is being folded into a snapshot: it says which step is due. Its caller says when
/// the step is done or that it failed, and when lines were appended to the journal meanwhile.
///
/// At all times each line that was kept is a whole line of what a stop leaves of the snapshot or of
/// the journal. A journal that got lines since the snapshot was begun is not emptied.
#[derive(Clone, Copy, Debug)]
pub struct Folding {
    next: Option<FileStep>,
    // Whether the new snapshot has all lines, since none was appended after it was begun.
    is_whole: bool,
}

impl Folding {
    /// The beginning of a fold.
    ///
    /// - `due`: it may begin whatever was written under the name of the new file.
    /// - `keeps`: each line that is kept then is still kept.
    pub fn begin() -> Folding
        ensures due { (texts : StateTexts) (disk : StateDisk)
            → HasOneFile disk.journal → IsDueOn texts result.next disk }
        ensures keeps { (texts : StateTexts) (disk : StateDisk) (line : List ℕ)
            → HasOneFile disk.journal → KeepsLine disk line → FoldKeeps texts result disk line }
        ensures steps { steps_left result.next ≡ 6 }
        ensures whole { IsTrue result.is_whole }
    {
        Folding {
            next: Some(FileStep::WriteSnapshot),
            is_whole: true,
        }
    }

    /// The step that is due; none if the fold is over.
    pub fn next(&self) -> Option<FileStep>
        ensures { result ≡ self.now.next }
    {
        self.next
    }

    /// Whether the new snapshot has all lines. If the fold is over, this says whether the journal
    /// was emptied.
    pub fn is_whole(&self) -> bool
        ensures { result ≡ self.now.is_whole }
    {
        self.is_whole
    }

    /// Says that the step that was due is done.
    ///
    /// - `due`: the files are as they have to be for the next step.
    /// - `keeps`: no line is lost, if the snapshot is written with each line that is kept then.
    /// - `folded`: after the last step the journal is empty, and the snapshot is the new one.
    /// - `holds`: that has each line.
    /// - `settled`: when the folder is on the disk, the snapshot is exactly the new one, also if
    ///   lines came meanwhile.
    /// - `ended`: so it is if the fold ends with this step.
    /// - `next`: which step comes next.
    /// - `steps`: after six steps in which nothing is appended the journal is emptied.
    pub fn done(&mut self)
        ensures due { (texts : StateTexts) (disk : StateDisk) → IsDueOn texts self.old.next disk
            → IsDueOn texts self.new.next (after_due texts self.old.next disk) }
        ensures keeps { (texts : StateTexts) (disk : StateDisk) (line : List ℕ)
            → FoldKeeps texts self.old disk line → WritesLine texts self.old.next line
            → FoldKeeps texts self.new (after_due texts self.old.next disk) line }
        ensures folded { (texts : StateTexts) (disk : StateDisk)
            → steps_left self.old.next ≡ 1 → IsDueOn texts self.old.next disk
            → IsFolded texts (after_due texts self.old.next disk) }
        ensures holds { (texts : StateTexts) (disk : StateDisk) (line : List ℕ)
            → steps_left self.old.next ≡ 1 → FoldKeeps texts self.old disk line
            → HasWholeLine texts.snapshot line }
        ensures settled { (texts : StateTexts) (disk : StateDisk)
            → steps_left self.old.next ≡ 3 → IsDueOn texts self.old.next disk
            → (after_due texts self.old.next disk).snapshot ≡ kept_file texts.snapshot ∷ [] }
        ensures ended { (texts : StateTexts) (disk : StateDisk)
            → self.new.next ≡ None → self.old.next ≢ None → IsDueOn texts self.old.next disk
            → (after_due texts self.old.next disk).snapshot ≡ kept_file texts.snapshot ∷ [] }
        ensures next { self.new.next ≡ following_step self.old.is_whole self.old.next }
        ensures steps { IsTrue self.old.is_whole
            → steps_left self.new.next ≡ steps_left self.old.next - 1 }
        ensures fewer { steps_left self.new.next ≤ steps_left self.old.next - 1 }
        ensures whole { self.new.is_whole ≡ self.old.is_whole }
    {
        self.next = step_after(self.next, self.is_whole);
    }

    /// Says that the snapshot is written, and what was appended to the journal since it was begun.
    ///
    /// - `next`: the system puts it on the disk next.
    /// - `whole`: it has all lines if none was appended.
    /// - `keeps`: no line is lost, if the snapshot is written with each line that was kept before.
    /// - `new_lines`: nor is one that was appended.
    pub fn written(&mut self, since: &Since)
        ensures next { self.new.next ≡ following_step self.old.is_whole self.old.next }
        ensures whole { (came : List ℕ) → CameSince since.now came
            → (IsTrue self.new.is_whole ↔ IsTrue self.old.is_whole × (came ≡ [])) }
        ensures keeps { (texts : StateTexts) (disk : StateDisk) (came line : List ℕ)
            → self.old.next ≡ Some WriteSnapshot → CameSince since.now came
            → FoldKeeps texts self.old disk line → WritesLine texts self.old.next line
            → FoldKeeps texts self.new (appended came (after_due texts self.old.next disk)) line }
        ensures new_lines { (texts : StateTexts) (disk : StateDisk) (came line : List ℕ)
            → self.old.next ≡ Some WriteSnapshot → CameSince since.now came → came ≢ []
            → IsDueOn texts self.old.next disk
            → IsJournalled (appended came (after_due texts self.old.next disk)).journal line
            → FoldKeeps texts self.new (appended came (after_due texts self.old.next disk)) line }
    {
        let next = step_after(self.next, self.is_whole);
        self.next = next;
        if !since.is_empty() {
            self.is_whole = false;
        }
    }

    /// Whether the fold is over and the journal was emptied.
    pub fn is_done(&self) -> bool
        ensures { IsTrue result ↔ (self.now.next ≡ None) × IsTrue self.now.is_whole }
    {
        self.next.is_none() && self.is_whole
    }

    /// Says that the step that was due failed: what it left is its work, or none or a part of it.
    /// It returns what is to be done.
    ///
    /// - `keeps`: no line is lost.
    /// - `continues`: if the journal is continued, it is as it was.
    /// - `ends`: the replica ends if the journal was being emptied.
    /// - `over`: the fold is over, and not done.
    pub fn failed(&mut self) -> FoldEnd
        ensures keeps { (texts : StateTexts) (disk left : StateDisk) (line : List ℕ)
            → FoldKeeps texts self.old disk line → FailsDue texts self.old.next disk left
            → KeepsLine left line }
        ensures continues { (texts : StateTexts) (disk left : StateDisk) → result ≡ JournalContinues
            → IsDueOn texts self.old.next disk → FailsDue texts self.old.next disk left
            → (left.journal ≡ disk.journal) × IsDueOn texts self.new.next left }
        ensures ends { result ≡ fold_end self.old.next }
        ensures over { (self.new.next ≡ None) × (self.new.is_whole ≡ false) }
    {
        let end = match self.next {
            Some(FileStep::BeginJournal | FileStep::SyncJournal) => FoldEnd::ReplicaEnds,
            _ => FoldEnd::JournalContinues,
        };
        self.next = None;
        self.is_whole = false;
        end
    }

    /// Says that lines were appended to the journal, and are on the disk. Between the emptying of
    /// the journal and its sync none may be.
    ///
    /// - `due`: the files are as they have to be for the next step.
    /// - `meanwhile`: before the lines are on the disk no other line is lost.
    /// - `keeps`: nor after that.
    /// - `new_lines`: what is a line of the journal now is not lost from now on.
    /// - `next`: if the journal would be emptied next, the fold is over; and else it continues.
    /// - `whole`: a fold whose snapshot is not begun has the lines in it, and one that is over is
    ///   as it was; and else the snapshot lacks them.
    pub fn append(&mut self)
        requires { steps_left self.old.next ≢ 1 }
        ensures due { (texts : StateTexts) (disk : StateDisk) (bytes : List ℕ)
            → IsDueOn texts self.old.next disk
            → IsDueOn texts self.new.next (appended bytes disk) }
        ensures meanwhile { (texts : StateTexts) (disk : StateDisk) (bytes line : List ℕ)
            → FoldKeeps texts self.old disk line → KeepsLine (appending bytes disk) line }
        ensures keeps { (texts : StateTexts) (disk : StateDisk) (bytes line : List ℕ)
            → FoldKeeps texts self.old disk line
            → FoldKeeps texts self.new (appended bytes disk) line }
        ensures new_lines { (texts : StateTexts) (disk : StateDisk) (bytes line : List ℕ)
            → IsDueOn texts self.old.next disk
            → IsJournalled (appended bytes disk).journal line
            → FoldKeeps texts self.new (appended bytes disk) line }
        ensures next { self.new.next ≡ next_with_lines self.old.next }
        ensures whole { self.new.is_whole ≡ whole_with_lines self.old.is_whole self.old.next }
    {
        match self.next {
            None => {}
            Some(FileStep::WriteSnapshot) => {}
            Some(FileStep::BeginJournal) => {
                self.next = None;
                self.is_whole = false;
            }
            _ => self.is_whole = false,
        }
    }
}

// The step that is due after this one.
fn step_after(step: Option<FileStep>, is_whole: bool) -> Option<FileStep>
    ensures { result ≡ following_step is_whole step }
{
    match step {
        Some(FileStep::WriteSnapshot) => Some(FileStep::SyncSnapshot),
        Some(FileStep::SyncSnapshot) => Some(FileStep::ReplaceSnapshot),
        Some(FileStep::ReplaceSnapshot) => Some(FileStep::SyncFolder),
        Some(FileStep::SyncFolder) if is_whole => Some(FileStep::BeginJournal),
        Some(FileStep::BeginJournal) => Some(FileStep::SyncJournal),
        _ => None,
    }
}
