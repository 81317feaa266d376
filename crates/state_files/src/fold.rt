//! A fold: what is held takes the place of the state file, piece by piece, and then the journal
//! keeps only what came since.
use crate::journal::{AppendFault, Journal, StateAt};
use crate::made_files::MadeFiles;
use crate::std_calls::{FoldFiles, FoldWith};
use closure_core::Closure;
use command_exits::FileFault;
use replica_core::SyncError;
use snapshot_pieces::SnapshotPieces;
use state_calls::{StepFault, fold, shorten};
use state_steps::{FoldEnd, Folding, LostFile, Shortening, Since};
use std::alloc::{AllocError, Global};
use std::fs::{File, Files};
use std::io::Eprint;
use std::time::Clock;

/// How many bytes of the snapshot one call writes at least, before its end.
const PIECE_BYTES: u64 = 4_194_304;

/// How many times the bytes that were appended to the journal since the last piece a piece has at
/// least. So what comes during a fold has at most this part of the bytes that the fold writes.
const PIECE_GROWTH: u64 = 8;

/// Why a fold is over before its end.
#[derive(Clone, Copy, Debug)]
pub enum FoldFault {
    /// The journal is as it was, and is still used.
    Kept(FileFault),
    /// It was being emptied or replaced: nothing may be appended to it. The snapshot has all that
    /// was held when the fold began, and the journal what came since.
    Emptying(FileFault),
    /// Others replaced or changed a file of the state.
    Lost(LostFile),
}

impl From<FileFault> for FoldFault {
    fn from(fault: FileFault) -> FoldFault {
        FoldFault::Kept(fault)
    }
}

impl From<AllocError> for FoldFault {
    fn from(refused: AllocError) -> FoldFault {
        FoldFault::Kept(FileFault::from(refused))
    }
}

/// What a piece of the snapshot leaves to do.
#[derive(Clone, Copy, Debug, PartialEq, Eq)]
pub enum FoldPiece {
    /// More pieces.
    More,
    /// The snapshot is written: [`StateFold::end`] gives it its name.
    Last,
}

/// How a fold has ended. In both cases the state file is the new snapshot.
#[derive(Clone, Copy, Debug, PartialEq, Eq)]
pub enum FoldResult {
    /// The journal has only what came since the fold began.
    Short,
    /// More came than a journal is shortened to, so it is as it was.
    Long,
}

/// A fold that is under way: the new snapshot, of which a part is written. Between two pieces lines
/// may be appended to the journal, which notes them.
#[derive(Drop)]
pub struct StateFold {
    made: MadeFiles,
    folding: Folding,
    pieces: SnapshotPieces,
    // How long the journal was at the last piece.
    journal_bytes: u64,
}

impl StateFold {
    /// Begins the new snapshot of what is held, under a name that nobody reads.
    ///
    /// # Errors
    /// If the system refused a step, or memory ran out. The journal is as it was.
    pub fn begin<C: Closure, R: Files<File = File>>(
        files: &R,
        alloc: Global,
        closure: &C,
        path: &str,
        journal: &mut Journal,
    ) -> Result<StateFold, FileFault> {
        let (pieces, text) = SnapshotPieces::begin(alloc, closure)?;
        let mut made = MadeFiles::of_fold(alloc, path)?;
        made.begin_snapshot(files, path)?;
        if let Err(fault) = made.write_piece(files, text.as_slice()) {
            made.remove_new(files);
            return Err(fault);
        }
        journal.begin_fold(alloc);
        Ok(StateFold {
            made,
            folding: Folding::begin(),
            pieces,
            journal_bytes: journal.bytes(),
        })
    }

    /// Writes the next piece, and has the system put it on the disk: so no call takes long for a
    /// large snapshot, not even the last.
    ///
    /// # Errors
    /// If the system refused a step, or memory ran out, or others changed the snapshot. The journal
    /// is as it was, and the fold has to be given up.
    pub fn write_piece<C: Closure, R: Files>(
        &mut self,
        files: &R,
        alloc: Global,
        closure: &C,
        journal: &Journal,
    ) -> Result<FoldPiece, FileFault> {
        let came = journal.bytes().saturating_sub(self.journal_bytes);
        self.journal_bytes = journal.bytes();
        let size = PIECE_BYTES.max(came.saturating_mul(PIECE_GROWTH));
        let piece = self.pieces.next(alloc, closure, size as usize)?;
        self.made.write_piece(files, piece.text.as_slice())?;
        if piece.is_last {
            Ok(FoldPiece::Last)
        } else {
            Ok(FoldPiece::More)
        }
    }

    /// Gives the snapshot, of which all is written, the state file's name. Then the journal gets
    /// a new file, with what came since the fold began. Before each step it is looked whether the
    /// files of the state are as they were left.
    ///
    /// # Errors
    /// [`FoldFault`] says what is to be done.
    pub fn end<C: Closure, R: Files<File = File> + Clock + Eprint>(
        mut self,
        at: &StateAt<'_, R>,
        alloc: Global,
        closure: &C,
        journal: &mut Journal,
    ) -> Result<FoldResult, FoldFault> {
        let Some(since) = journal.take_since() else {
            self.made.remove_new(at.files);
            return Err(FoldFault::Kept(FileFault::from(SyncError::Io)));
        };
        let mut folding = self.folding;
        folding.written(&since);
        let with = FoldWith { at, alloc, closure };
        let mut files = FoldFiles::new(self.made, journal);
        if let Err(failed) = fold(&mut files, &with, &mut folding) {
            return Err(files.fold_fault(at.files, failed));
        }
        if folding.is_done() {
            files.continue_in_new()
        } else {
            files.shorten(&with, since)
        }
    }

    /// Gives the fold up: no new snapshot is left.
    pub fn give_up<R: Files>(mut self, files: &R) {
        self.made.remove_new(files);
    }
}

impl<'j> FoldFiles<'j> {
    // No line is appended meanwhile.
    fn shorten<C: Closure, R: Files<File = File>>(
        mut self,
        with: &FoldWith<'_, C, R>,
        since: Since,
    ) -> Result<FoldResult, FoldFault> {
        let Some(lines) = since.into_text() else {
            return Ok(FoldResult::Long);
        };
        let mut shortening = Shortening::begin();
        match shorten(&mut self, with, &mut shortening, lines.as_slice()) {
            Ok(()) => self.continue_in_new(),
            Err(failed) => Err(self.fold_fault(with.at.files, failed)),
        }
    }

    // The journal continues in the file that was begun.
    fn continue_in_new(mut self) -> Result<FoldResult, FoldFault> {
        match self.made.take_journal() {
            Some(file) => {
                self.journal.begin_with(file);
                Ok(FoldResult::Short)
            }
            None => Err(FoldFault::Emptying(FileFault::from(SyncError::Io))),
        }
    }

    fn fold_fault<R: Files>(mut self, files: &R, failed: StepFault<AppendFault>) -> FoldFault {
        match (failed.fault, failed.end) {
            (AppendFault::Lost(lost), _) => {
                self.made.remove_new(files);
                FoldFault::Lost(lost)
            }
            (AppendFault::File(fault), FoldEnd::JournalContinues) => FoldFault::Kept(fault),
            (AppendFault::File(fault), FoldEnd::ReplicaEnds) => FoldFault::Emptying(fault),
        }
    }
}
