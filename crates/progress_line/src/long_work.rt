//! What long work is called.
ghost use Rattle.std.specs.Prelude.{◌≡◌};
ghost use Rattle.progress_line.specs.ProgressTexts.{work_text};

/// What long work does.
#[derive(Clone, Copy, Debug, PartialEq, Eq)]
pub enum LongWork {
    /// It reads the state file and its journal.
    ReadingState,
    /// It reads the state file of another replica.
    ReadingOtherState,
    /// It writes the state file.
    WritingState,
    /// It writes what goes along to another configuration.
    WritingMigratedState,
    /// It takes what another replica has.
    Pulling,
    /// It gives other replicas what it has.
    Serving,
}

impl LongWork {
    pub(crate) fn text<'a>(self) -> &'a str
        ensures { result.now ≡ work_text self }
    {
        match self {
            LongWork::ReadingState => "reading the state",
            LongWork::ReadingOtherState => "reading the other state",
            LongWork::WritingState => "writing the state",
            LongWork::WritingMigratedState => "writing the migrated state",
            LongWork::Pulling => "pulling",
            LongWork::Serving => "serving",
        }
    }
}
