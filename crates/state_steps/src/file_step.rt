//! The steps that change the files of a state.
ghost use Rattle.std.specs.Prelude.{◌≡◌};
ghost use Rattle.state_steps.specs.Steps.{leaves_new};

/// A step that changes the files of a state: its snapshot, and the journal of what came since.
#[derive(Clone, Copy, Debug, PartialEq, Eq)]
pub enum FileStep {
    /// All that is held when it begins is written as a snapshot to a new file, under a name that
    /// nobody reads. Lines that are appended to the journal before it is done count as appended
    /// after it.
    WriteSnapshot,
    /// The system puts the new file on the disk.
    SyncSnapshot,
    /// The new file is given the snapshot's name.
    ReplaceSnapshot,
    /// The system puts the folder with the names on the disk.
    SyncFolder,
    /// The journal is removed.
    RemoveJournal,
    /// A new file with only a journal's first line is given the journal's name. While the name has
    /// no file, a reader finds an empty journal.
    BeginJournal,
    /// The system puts the new journal, and the folder, on the disk.
    SyncJournal,
}

impl FileStep {
    /// Whether a new snapshot may be left if this step failed. Nobody reads it, so it is to be
    /// removed; [`removals`](crate::laws::removals) says that this loses no line.
    pub fn leaves_new(self) -> bool
        ensures { result ≡ leaves_new self }
    {
        matches!(
            self,
            FileStep::WriteSnapshot | FileStep::SyncSnapshot | FileStep::ReplaceSnapshot
        )
    }
}
