//! The audit file of a running replica: a line for each change, which is on the disk before the
//! journal's lines of that change.
ghost use Rattle.std.specs.Prelude.{◌≡◌};
ghost use Rattle.state_calls.specs.Logs.{noted_lines};

use crate::access::owner_only;
use crate::file_names::sync_folder;
use crate::named_files::{foreign_file, is_plain_file, stale_file};
use crate::own_file::OwnFile;
use change_view::{
    AUDIT_BEGINNING, AuditLine, NewEntries, holds_line, push_start_line, read_audit_line,
};
use closure_core::Closure;
use command_exits::FileFault;
use receipt_core::MOST_RECORDS;
use replica_core::SyncError;
use side_by_side::Sides;
use state_calls::{LineCalls, LineLog, append_lines, sync_lines};
use state_steps::{
    AppendStep, Appending, CutStep, Cutting, FileFate, LastLine, end_line, may_be_left_of,
};
use std::alloc::{AllocError, Global};
use std::fs::{File, Files};
use std::os::unix::fs::FileExt;

/// How many bytes of the end of the file are read at first. Few lines have more.
const READ_BYTES: usize = 65_536;

/// How many are read if the line has more: no line has more than these. That of a distrust has 64
/// digits and a comma for each key, and fewer than `READ_BYTES` bytes of all else.
const MOST_LINE_BYTES: usize = READ_BYTES + 65 * MOST_RECORDS;

/// The audit file, to which lines are appended.
#[derive(Drop)]
pub struct AuditFile {
    file: OwnFile,
    name: String,
    appends: LineLog<AppendStep>,
}

// The last line of the first bytes of the file, as far as it has one.
#[derive(Drop)]
struct FoundLine {
    // At which byte it begins.
    begin: u64,
    bytes: Vec<u8>,
    // Whether it has its line feed, which is not among the bytes.
    is_whole: bool,
    // Whether it may begin before the bytes that were read.
    may_be_cut: bool,
}

impl AuditFile {
    /// The audit file at the path, which is made if it is not there, and how many lines of it were
    /// cut off. The last lines are cut off if their changes are held under neither configuration: a
    /// kill came after they were written, and before the journal's lines were. A line that says
    /// what is held is at its end then, and all of it is on the disk.
    ///
    /// # Errors
    /// - [`SyncError::Io`]: the system refused a step, or something else than an audit file has the
    ///   path, which remains as it is,
    /// - [`SyncError::NoMemory`]: memory ran out.
    pub fn begin<C: Closure, R: Files<File = File>>(
        files: &R,
        alloc: Global,
        sides: &Sides<C>,
        path: &str,
        moment: u64,
    ) -> Result<(AuditFile, u64), FileFault> {
        let file = open_audit(files, path)?;
        let cut = cut_unheld(alloc, sides, &file)?;
        let mut audit = AuditFile {
            file: OwnFile::of(file)?,
            name: String::from_str(alloc, path)?,
            appends: LineLog::new(),
        };
        audit.append(files, start_text(alloc, &sides.next, moment)?.as_slice())?;
        sync_folder(files, path)?;
        Ok((audit, cut))
    }

    fn append<R: Files>(&mut self, files: &R, lines: &[u8]) -> Result<(), FileFault> {
        let mut appending = Appending::begin();
        let is_kept = append_lines(self, files, &mut appending, lines)?
            && sync_lines(self, files, &mut appending)?;
        if is_kept {
            Ok(())
        } else {
            Err(FileFault::from(SyncError::Io))
        }
    }

    /// Does a step in which the lines are appended: they are written, or put on the disk, or it is
    /// looked whether the name leads to the file, to which nobody else wrote; so it is before they
    /// are written too. [`Keeping`](state_steps::Keeping) says which step comes next. After an
    /// error what the disk holds is not known.
    ///
    /// # Errors
    /// `NoMemory` if the system says that memory ran out, and else `Io`; `Io` also if others
    /// replaced or changed the file.
    pub fn do_step<R: Files>(
        &mut self,
        files: &R,
        lines: &[u8],
        step: AppendStep,
    ) -> Result<(), FileFault> {
        self.try_lines(files, step, lines)
    }

    fn make_step<R: Files>(
        &mut self,
        files: &R,
        lines: &[u8],
        step: AppendStep,
    ) -> Result<(), FileFault>
        ensures { self.new.appends ≡ self.old.appends }
    {
        match step {
            AppendStep::WriteLines => {
                self.refuse_lost(files)?;
                self.file.write(lines)
            }
            AppendStep::SyncLines => Ok(self.file.file().sync_data()?),
            AppendStep::SeeNames => self.refuse_lost(files),
        }
    }

    // Who may read it may have been changed.
    fn refuse_lost<R: Files>(&mut self, files: &R) -> Result<(), FileFault>
        ensures { self.new.appends ≡ self.old.appends }
    {
        match self.file.leave(files, self.name.as_str())? {
            FileFate::Same | FileFate::Touched => Ok(()),
            FileFate::Changed | FileFate::Replaced => Err(stale_file()),
        }
    }
}

impl<R: Files> LineCalls<R, AppendStep, FileFault> for AuditFile {
    ghost tried = { λ it. noted_lines it.appends };

    fn try_lines(&mut self, files: &R, step: AppendStep, lines: &[u8]) -> Result<(), FileFault> {
        let done = self.make_step(files, lines, step);
        self.appends.note(&step, lines, done.is_ok());
        done
    }
}

fn open_audit<R: Files<File = File>>(files: &R, path: &str) -> Result<File, FileFault> {
    let mut options = owner_only();
    options.read(true).append(true);
    if !is_plain_file(files, path)? {
        options.create_new(true);
    }
    Ok(options.open(files, path)?)
}

fn start_text<C: Closure>(alloc: Global, closure: &C, moment: u64) -> Result<Vec<u8>, AllocError> {
    let mut line = Vec::new(alloc);
    // What is lent shows the form of what is held.
    let _config = closure.config();
    let held = NewEntries {
        receipts: closure.receipt_count() as u64,
        records: closure.distrusts().count() as u64,
    };
    push_start_line(&mut line, moment, held)?;
    Ok(line)
}

// Cuts off the last lines whose changes are not held, in the order of `Cutting`. Returns how many.
fn cut_unheld<C: Closure>(alloc: Global, sides: &Sides<C>, file: &File) -> Result<u64, FileFault> {
    let mut cutting = Cutting::begin();
    // How many bytes are before the lines that were read and are cut off.
    let mut bytes = file.metadata()?.len();
    for _ in 0..u64::MAX {
        match cutting.next() {
            Some(CutStep::ReadLine) => {
                let line = last_line(alloc, file, bytes)?;
                let read = read_line(alloc, sides, line.as_ref())?;
                if let Some(line) = &line
                    && read == LastLine::Unheld
                {
                    bytes = line.begin;
                }
                cutting.read(read);
            }
            Some(CutStep::CutLines) => {
                file.set_len(bytes)?;
                cutting.done();
            }
            Some(CutStep::SyncCut) => {
                file.sync_all()?;
                cutting.done();
            }
            None => break,
        }
    }
    if cutting.is_done() {
        Ok(cutting.cut())
    } else {
        Err(foreign_file())
    }
}

// What the line is. A part of one at the file's end is of a change that is not held, if a kill or a
// cut of power may have left it.
fn read_line<C: Closure>(
    alloc: Global,
    sides: &Sides<C>,
    line: Option<&FoundLine>,
) -> Result<LastLine, AllocError> {
    let Some(line) = line else {
        return Ok(LastLine::Missing);
    };
    let bytes = line.bytes.as_slice();
    if !line.is_whole {
        return Ok(if may_be_left_of(AUDIT_BEGINNING, bytes) {
            LastLine::Unheld
        } else {
            LastLine::Foreign
        });
    }
    Ok(match read_audit_line(bytes) {
        Some(AuditLine::Start) => LastLine::Held,
        Some(AuditLine::Change(last)) if is_held(alloc, sides, &last)? => LastLine::Held,
        Some(AuditLine::Change(_)) => LastLine::Unheld,
        None => LastLine::Foreign,
    })
}

// Whether one side holds the line of this digest.
fn is_held<C: Closure>(
    alloc: Global,
    sides: &Sides<C>,
    last: &[u8; 32],
) -> Result<bool, AllocError> {
    match &sides.previous {
        Some(closure) if holds_line(alloc, closure, last)? => Ok(true),
        _ => holds_line(alloc, &sides.next, last),
    }
}

// The last line of the first `bytes` bytes of the file. One that is longer than any of an audit
// file comes without its beginning.
fn last_line(alloc: Global, file: &File, bytes: u64) -> Result<Option<FoundLine>, FileFault> {
    let found = line_among(alloc, file, bytes, READ_BYTES)?;
    match &found {
        Some(line) if line.may_be_cut => line_among(alloc, file, bytes, MOST_LINE_BYTES),
        _ => Ok(found),
    }
}

// The last line of the first `bytes` bytes of the file, of which at most the last `most` are read.
fn line_among(
    alloc: Global,
    file: &File,
    bytes: u64,
    most: usize,
) -> Result<Option<FoundLine>, FileFault> {
    let from = bytes.saturating_sub(most as u64);
    let room = usize::try_from(bytes - from).unwrap_or(most).min(most);
    let mut buffer = Vec::from_elem(alloc, 0, room)?;
    read_whole(file, buffer.as_mut_slice(), from)?;
    let Some(end) = end_line(buffer.as_slice()) else {
        return Ok(None);
    };
    Ok(Some(FoundLine {
        begin: from.saturating_add(end.begin as u64),
        bytes: Vec::from_slice(alloc, end.line)?,
        is_whole: end.is_whole,
        may_be_cut: from > 0 && end.begin == 0,
    }))
}

// Reads until the buffer is full.
fn read_whole(file: &File, buffer: &mut [u8], from: u64) -> Result<(), FileFault> {
    let mut read = 0usize;
    for _ in 0..buffer.len() {
        if read >= buffer.len() {
            return Ok(());
        }
        let room = buffer.len() - read;
        let count = file.read_at(&mut buffer[read..], from.saturating_add(read as u64))?;
        if count == 0 {
            break;
        }
        read += count.min(room);
    }
    if read >= buffer.len() {
        Ok(())
    } else {
        Err(FileFault::from(SyncError::Io))
    }
}
