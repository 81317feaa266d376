//! A file that is open here, and how it was left: so it is seen what others made of it since.
use crate::named_files::{seen_as, seen_under, stale_file};
use command_exits::FileFault;
use state_steps::{FileFate, FileSeen, fate_of_file, fate_of_written};
use std::fs;
use std::fs::{File, Files};
use std::io::Write;

/// An open file, and what the system said of it when it was left. It is kept open, so that the
/// system gives its number to no other file. What is written here is counted, and always comes at
/// the file's end: if it has another length than that, others wrote to it.
#[derive(Drop)]
pub(crate) struct OwnFile {
    file: File,
    left: FileSeen,
    // Whether something was written here since the system was asked.
    has_written: bool,
}

impl OwnFile {
    /// The file as it is now.
    pub(crate) fn of(file: File) -> Result<OwnFile, FileFault> {
        let left = seen_as(&file.metadata()?);
        Ok(OwnFile {
            file,
            left,
            has_written: false,
        })
    }

    pub(crate) fn file(&self) -> &File {
        &self.file
    }

    /// How many bytes it has.
    pub(crate) fn bytes(&self) -> u64 {
        self.left.bytes
    }

    /// Writes the bytes at its end.
    pub(crate) fn write(&mut self, bytes: &[u8]) -> Result<(), FileFault> {
        self.file.write_all(bytes)?;
        self.note(bytes.len() as u64);
        Ok(())
    }

    /// This number of bytes was written at its end.
    pub(crate) fn note(&mut self, count: u64) {
        self.left.bytes = self.left.bytes.saturating_add(count);
        self.has_written = true;
    }

    /// Has the system put it on the disk.
    ///
    /// # Errors
    /// The system refused that, or others changed it.
    pub(crate) fn settle(&mut self) -> Result<(), FileFault> {
        self.file.sync_all()?;
        let now = seen_as(&self.file.metadata()?);
        refuse_lost(self.see(Some(now)))
    }

    /// What became of it since it was left, by what its name leads to.
    pub(crate) fn fate<R: Files>(&self, files: &R, name: &str) -> Result<FileFate, FileFault> {
        Ok(self.fate_if(seen_under(files, name)?))
    }

    /// The same. If nothing became of it, it is left as it is now.
    pub(crate) fn leave<R: Files>(&mut self, files: &R, name: &str) -> Result<FileFate, FileFault> {
        let now = seen_under(files, name)?;
        Ok(self.see(now))
    }

    /// Gives it another name, which changes one of its times.
    ///
    /// # Errors
    /// The system refused that, or a name leads to another file, or others changed it.
    pub(crate) fn rename<R: Files>(
        &mut self,
        files: &R,
        from: &str,
        to: &str,
    ) -> Result<(), FileFault> {
        self.refuse_touched(files, from)?;
        fs::rename(files, from, to)?;
        let now = seen_under(files, to)?;
        match (self.fate_if(now), now) {
            (FileFate::Same | FileFate::Touched, Some(now)) => {
                self.left = now;
                Ok(())
            }
            _ => Err(stale_file()),
        }
    }

    /// The error, unless its name leads to it, and it is as it was left.
    pub(crate) fn refuse_touched<R: Files>(&self, files: &R, name: &str) -> Result<(), FileFault> {
        refuse_lost(self.fate(files, name)?)
    }

    fn see(&mut self, now: Option<FileSeen>) -> FileFate {
        let fate = self.fate_if(now);
        if let (FileFate::Same, Some(now)) = (fate, now) {
            self.left = now;
            self.has_written = false;
        }
        fate
    }

    fn fate_if(&self, now: Option<FileSeen>) -> FileFate {
        if self.has_written {
            fate_of_written(self.left, now)
        } else {
            fate_of_file(self.left, now)
        }
    }
}

fn refuse_lost(fate: FileFate) -> Result<(), FileFault> {
    if fate == FileFate::Same {
        Ok(())
    } else {
        Err(stale_file())
    }
}
