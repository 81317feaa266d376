//! A replica continues with the journal that it found.
use crate::access::owner_only;
use crate::file_names::journal_path;
use crate::journal::Journal;
use crate::named_files::{foreign_file, is_plain_file};
use crate::own_file::OwnFile;
use crate::state::see_state;
use crate::std_calls::{ResumeCalls, ResumeWith};
use command_exits::FileFault;
use replica_core::SyncError;
use state_calls::resume;
use state_steps::CountedLines;
use std::alloc::Global;
use std::fs::{File, Files};
use std::os::unix::fs::FileExt;

/// How many bytes of the journal are read at a time.
const READ_BYTES: usize = 65_536;

/// The journal next to the state file at the path, to which lines may be appended: it is on the
/// disk, without the part of a line that a kill may have left at its end.
///
/// # Errors
/// - [`SyncError::Io`]: the system refused a step, or the journal has no whole line,
/// - [`SyncError::NoMemory`]: memory ran out.
pub(crate) fn resume_journal<R: Files<File = File>>(
    files: &R,
    alloc: Global,
    path: &str,
) -> Result<Journal, FileFault> {
    let file = open_journal(files, alloc, path)?;
    let whole = whole_bytes(alloc, &file)?;
    if whole == 0 {
        return Err(FileFault::from(SyncError::Io));
    }
    let mut calls = ResumeCalls::new(file, whole);
    resume(&mut calls, &ResumeWith { files, path })?;
    let file = OwnFile::of(calls.file)?;
    let mut journal = Journal::of_file(alloc, file, see_state(files, path)?, path)?;
    journal.put_off();
    Ok(journal)
}

fn open_journal<R: Files<File = File>>(
    files: &R,
    alloc: Global,
    path: &str,
) -> Result<File, FileFault> {
    let name = journal_path(alloc, path)?;
    if !is_plain_file(files, name.as_str())? {
        return Err(foreign_file());
    }
    let mut options = owner_only();
    options.read(true).append(true);
    Ok(options.open(files, name.as_str())?)
}

// How many bytes the whole lines have.
fn whole_bytes(alloc: Global, file: &File) -> Result<u64, FileFault> {
    let mut buffer = Vec::from_elem(alloc, 0, READ_BYTES)?;
    let mut counted = CountedLines::begin();
    for _ in 0..u64::MAX {
        let count = file.read_at(&mut buffer, counted.read())?;
        if count == 0 {
            break;
        }
        counted.add(&buffer[..count.min(buffer.len())]);
    }
    Ok(counted.whole())
}
