//! The steps in which a journal is shortened, in their order.
ghost use Rattle.std.specs.Prelude.{◌≡◌, ◌∷◌, [], ◌-◌, ◌↔◌, ◌⊎◌, IsTrue, List, ℕ};
ghost use Rattle.std.specs.Prelude.{None, false, true};
ghost use Rattle.state_steps.specs.Files.{HasOneFile, HasWholeLine, KeepsLine, SnapshotsKeep};
ghost use Rattle.state_steps.specs.Files.{StateDisk, kept_file};
ghost use Rattle.state_steps.specs.Shortenings.{FailsShorten, IsShortenDue, ShortensKeeps};
ghost use Rattle.state_steps.specs.Shortenings.{after_shorten, following_shorten, shorten_end};
ghost use Rattle.state_steps.specs.Shortenings.{shorten_steps_left};
ghost use Rattle.state_steps.specs.declared.folding.FoldEnd.TheVariants.{JournalContinues};

use crate::folding::FoldEnd;

/// A step that gives the journal its shorter text.
#[derive(Clone, Copy, Debug, PartialEq, Eq)]
pub enum ShortenStep {
    /// The journal's first line, and the lines that came since the fold began, are written to a new
    /// file, under a name that nobody reads.
    WriteJournal,
    /// The system puts the new file on the disk.
    SyncNew,
    /// The new file is given the journal's name.
    ReplaceJournal,
    /// The system puts the folder with the names on the disk.
    SyncFolder,
}

/// A journal that is being shortened, after a fold during which lines came: it says which step is
/// due. Its caller says when the step is done or that it failed.
///
/// At all times each line that was kept is a whole line of what a stop leaves of the snapshot or of
/// the journal, also if a step failed. The new journal has to have each line that the snapshot may
/// lack. No line may be appended to the journal from the first step to the last, so the caller
/// takes all four in one turn.
#[derive(Clone, Copy, Debug)]
pub struct Shortening {
    next: Option<ShortenStep>,
    // Whether a step failed.
    has_failed: bool,
}

impl Shortening {
    /// The beginning of a shortening.
    ///
    /// - `due`: it may begin whatever was written under the name of the new file.
    /// - `keeps`: each line that is kept then is still kept, if it is in the snapshot on the disk
    ///   or in the new journal.
    /// - `steps`: it has four steps.
    pub fn begin() -> Shortening
        ensures due { (text : List ℕ) (disk : StateDisk) → HasOneFile disk.journal
            → IsShortenDue text result.next disk }
        ensures keeps { (text : List ℕ) (disk : StateDisk) (line : List ℕ)
            → HasOneFile disk.journal → KeepsLine disk line
            → SnapshotsKeep disk.snapshot line ⊎ HasWholeLine text line
            → ShortensKeeps text result disk line }
        ensures steps { shorten_steps_left result.next ≡ 4 }
        ensures sound { result.has_failed ≡ false }
    {
        Shortening {
            next: Some(ShortenStep::WriteJournal),
            has_failed: false,
        }
    }

    /// The step that is due; none if the shortening is over.
    pub fn next(&self) -> Option<ShortenStep>
        ensures { result ≡ self.now.next }
    {
        self.next
    }

    /// Whether all steps are done, and none failed.
    pub fn is_done(&self) -> bool
        ensures { IsTrue result ↔ (self.now.next ≡ None) × (self.now.has_failed ≡ false) }
    {
        self.next.is_none() && !self.has_failed
    }

    /// Says that the step that was due is done.
    ///
    /// - `due`: the files are as they have to be for the next step.
    /// - `keeps`: no line is lost.
    /// - `shortened`: after the last step the journal is exactly the new one, on the disk under its
    ///   name.
    /// - `next`: which step comes next.
    /// - `steps`: each step is one fewer.
    /// - `failed`: after a failed step it is never done.
    pub fn done(&mut self)
        ensures due { (text : List ℕ) (disk : StateDisk) → IsShortenDue text self.old.next disk
            → IsShortenDue text self.new.next (after_shorten text self.old.next disk) }
        ensures keeps { (text : List ℕ) (disk : StateDisk) (line : List ℕ)
            → ShortensKeeps text self.old disk line
            → ShortensKeeps text self.new (after_shorten text self.old.next disk) line }
        ensures shortened { (text : List ℕ) (disk : StateDisk)
            → shorten_steps_left self.old.next ≡ 1 → IsShortenDue text self.old.next disk
            → (after_shorten text self.old.next disk).journal ≡ kept_file text ∷ [] }
        ensures next { self.new.next ≡ following_shorten self.old.next }
        ensures steps { shorten_steps_left self.new.next ≡ shorten_steps_left self.old.next - 1 }
        ensures failed { self.new.has_failed ≡ self.old.has_failed }
    {
        self.next = step_after(self.next);
    }

    /// Says that the step that was due failed: what it left is its work or none of it, or anything
    /// under the name of the new file. It returns what is to be done.
    ///
    /// - `keeps`: no line is lost.
    /// - `continues`: if the journal is continued, it and the snapshot are as they were.
    /// - `ends`: the replica ends if the journal was being replaced.
    /// - `over`: the shortening is over, and not done.
    pub fn failed(&mut self) -> FoldEnd
        ensures keeps { (text : List ℕ) (disk left : StateDisk) (line : List ℕ)
            → ShortensKeeps text self.old disk line → FailsShorten text self.old.next disk left
            → KeepsLine left line }
        ensures continues { (text : List ℕ) (disk left : StateDisk) → result ≡ JournalContinues
            → IsShortenDue text self.old.next disk → FailsShorten text self.old.next disk left
            → (left.journal ≡ disk.journal) × HasOneFile left.journal
            × (left.snapshot ≡ disk.snapshot) }
        ensures ends { result ≡ shorten_end self.old.next }
        ensures over { (self.new.next ≡ None) × (self.new.has_failed ≡ true) }
    {
        let end = match self.next {
            Some(ShortenStep::ReplaceJournal | ShortenStep::SyncFolder) => FoldEnd::ReplicaEnds,
            _ => FoldEnd::JournalContinues,
        };
        self.next = None;
        self.has_failed = true;
        end
    }
}

// The step that is due after this one.
fn step_after(step: Option<ShortenStep>) -> Option<ShortenStep>
    ensures { result ≡ following_shorten step }
{
    match step {
        Some(ShortenStep::WriteJournal) => Some(ShortenStep::SyncNew),
        Some(ShortenStep::SyncNew) => Some(ShortenStep::ReplaceJournal),
        Some(ShortenStep::ReplaceJournal) => Some(ShortenStep::SyncFolder),
        Some(ShortenStep::SyncFolder) | None => None,
    }
}
