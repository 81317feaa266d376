//! A file that is to have a name of the state: how it is made, and how a snapshot gets into it.
use crate::access::{owner_only, take_access};
use crate::named_files::{found, remove_own};
use crate::own_file::OwnFile;
use byte_lines::FromWrite;
use closure_core::Closure;
use command_exits::FileFault;
use progress_line::{LongWork, ProgressMode, WatchedWriter, WorkProgress};
use replica_core::SyncError;
use replica_sync::write_snapshot;
use std::alloc::Global;
use std::fs::{File, Files};
use std::io::{BufWriter, Eprint};
use std::time::Clock;
use std::{fs, io};

/// The bytes that are gathered before they are written to the file.
const BUFFER_BYTES: usize = 65_536;

/// Makes the file that has the name from now on. A file of this program that has it is removed
/// first; anything else that has it is refused, and remains as it is. The new file has the mode
/// and, if the system allows it, the owner and the group of the state file at the path; if it does
/// not, the group has no access. If there is no state file, the mode is 0600.
pub(crate) fn create_new<R: Files<File = File>>(
    files: &R,
    name: &str,
    path: &str,
) -> Result<OwnFile, FileFault> {
    remove_own(files, name)?;
    let mut options = owner_only();
    options.append(true).create_new(true);
    let file = options.open(files, name)?;
    match take_state_access(files, &file, path) {
        Ok(()) => OwnFile::of(file),
        Err(fault) => {
            // If it is still there afterwards, no harm is done: the next one takes its place.
            let _ = fs::remove_file(files, name);
            Err(fault)
        }
    }
}

fn take_state_access<R: Files>(files: &R, file: &File, path: &str) -> Result<(), FileFault> {
    match found(fs::metadata(files, path))? {
        Some(state) => take_access(file, &state),
        None => Ok(()),
    }
}

/// Writes a snapshot of what is held into the file. If the mode says so, it is said how far that
/// is.
pub(crate) fn write_closure<C: Closure, R: Clock + Eprint>(
    rt: &R,
    alloc: Global,
    closure: &C,
    file: &mut OwnFile,
    mode: ProgressMode,
) -> Result<(), FileFault> {
    let mut noting = NotingFile { file, code: None };
    let mut progress = WorkProgress::begin(rt, alloc, LongWork::WritingState, mode);
    let watched = WatchedWriter::new(&mut noting, &mut progress);
    match write_into(alloc, closure, watched) {
        Ok(()) => Ok(()),
        Err(why) => Err(FileFault {
            why,
            code: noting.code,
        }),
    }
}

// A file that keeps the system's number of the last error of a write.
#[derive(Drop)]
struct NotingFile<'a> {
    file: &'a mut OwnFile,
    code: Option<i32>,
}

impl io::Write for NotingFile<'_> {
    fn write(&mut self, bytes: &[u8]) -> io::Result<usize> {
        let mut file = self.file.file();
        let written = file.write(bytes);
        match &written {
            Ok(count) => self.file.note(*count as u64),
            Err(error) => self.code = error.raw_os_error(),
        }
        written
    }

    fn flush(&mut self) -> io::Result<()> {
        Ok(())
    }
}

fn write_into<C: Closure, W: io::Write + Drop>(
    alloc: Global,
    closure: &C,
    file: W,
) -> Result<(), SyncError> {
    let buffer = match BufWriter::with_capacity(alloc, BUFFER_BYTES, file) {
        Ok(buffer) => buffer,
        Err(error) => return Err(FileFault::from(error).why),
    };
    let mut sink = FromWrite::new(buffer);
    write_snapshot(alloc, closure, &mut sink)?;
    written_out(sink.into_inner())
}

// Has the buffer give all of its bytes.
fn written_out<W: io::Write + Drop>(buffer: BufWriter<W>) -> Result<(), SyncError> {
    match buffer.into_inner() {
        Ok(_) => Ok(()),
        Err(_) => Err(SyncError::Io),
    }
}
