//! What the system says of a file, and what others made of it since.
ghost use Rattle.std.specs.Prelude.{◌≡◌, ◌↔◌, IsTrue};
ghost use Rattle.std.specs.Option.{option_copied};
ghost use Rattle.state_steps.specs.SeenFiles.{HasThatText, IsFateOf, IsLostOf, IsThatFile};
ghost use Rattle.state_steps.specs.SeenFiles.{IsWrittenFateOf, SaysOneConfig};

/// A time, as the system says it of a file.
#[derive(Clone, Copy, Debug, PartialEq, Eq)]
pub struct FileTime {
    pub seconds: i64,
    pub nanos: i64,
}

/// What the system says of a file.
#[derive(Clone, Copy, Debug, PartialEq, Eq)]
pub struct FileSeen {
    /// The device and its number there: no other file has both as long as this one is open.
    pub device: u64,
    pub number: u64,
    pub bytes: u64,
    /// When its bytes were changed last.
    pub changed: FileTime,
    /// When anything of it was changed last: its bytes, its mode, its owner or its names.
    pub touched: FileTime,
}

/// What became of a file since it was left.
#[derive(Clone, Copy, Debug, PartialEq, Eq)]
pub enum FileFate {
    /// Nothing.
    Same,
    /// It has the bytes that it had, as far as its length and its time say. Something else of it
    /// was changed, as its mode.
    Touched,
    /// Its bytes were changed.
    Changed,
    /// Its name leads to another file, or to none.
    Replaced,
}

/// A file of a state that is not as the replica left it.
#[derive(Clone, Copy, Debug, PartialEq, Eq)]
pub enum LostFile {
    /// The lock's name leads to another file: another command may have the state.
    Lock,
    /// The journal's name does: what was appended is in a file that nobody reads.
    Journal,
    /// The journal was changed: what was appended may be gone.
    JournalText,
    /// The state's name leads to another file, or it was changed: what it had may be gone.
    State,
}

/// What became of the file that was left so, if this is found under its name.
pub fn fate_of_file(left: FileSeen, found: Option<FileSeen>) -> FileFate
    ensures { IsFateOf left found result }
{
    match found {
        Some(it) if !is_that_file(left, it) => FileFate::Replaced,
        Some(it) if !has_that_text(left, it) => FileFate::Changed,
        Some(it) if !is_untouched(left, it) => FileFate::Touched,
        Some(_) => FileFate::Same,
        None => FileFate::Replaced,
    }
}

/// The same if it was written here since, up to this length: so its times are not known.
pub fn fate_of_written(left: FileSeen, found: Option<FileSeen>) -> FileFate
    ensures { IsWrittenFateOf left found result }
{
    match found {
        Some(it) if !is_that_file(left, it) => FileFate::Replaced,
        Some(it) if it.bytes == left.bytes => FileFate::Same,
        Some(_) => FileFate::Changed,
        None => FileFate::Replaced,
    }
}

fn is_that_file(left: FileSeen, found: FileSeen) -> bool
    ensures { IsTrue result ↔ IsThatFile left found }
{
    found.device == left.device && found.number == left.number
}

fn has_that_text(left: FileSeen, found: FileSeen) -> bool
    ensures { IsTrue result ↔ HasThatText left found }
{
    found.bytes == left.bytes && found.changed == left.changed
}

fn is_untouched(left: FileSeen, found: FileSeen) -> bool
    ensures { IsTrue result ↔ (found.touched ≡ left.touched) }
{
    found.touched == left.touched
}

/// The file of a state that is not as it was left, if one is: the lock's first, then the
/// journal's. What a lock has, and how its mode is, says nothing.
pub fn lost_of(lock: FileFate, journal: FileFate, state: FileFate) -> Option<LostFile>
    ensures { IsLostOf lock journal state result }
{
    match (lock, journal, state) {
        (FileFate::Replaced, _, _) => Some(LostFile::Lock),
        (_, FileFate::Replaced, _) => Some(LostFile::Journal),
        (_, FileFate::Changed | FileFate::Touched, _) => Some(LostFile::JournalText),
        (_, FileFate::Same, FileFate::Same) => None,
        (_, FileFate::Same, _) => Some(LostFile::State),
    }
}

/// Whether the heads of two files say one configuration.
pub fn is_of_one_config(state: Option<&[u8]>, kept: Option<&[u8]>) -> bool
    ensures { IsTrue result
        ↔ SaysOneConfig (option_copied state.entry) (option_copied kept.entry) }
{
    match (state, kept) {
        (Some(state), Some(kept)) => state == kept,
        _ => false,
    }
}
