//! What is sent back, and what has to be done before.
ghost use Rattle.std.specs.Prelude.{◌≡◌, [], IfOk};
ghost use Rattle.command_exits.specs.Exits.{IsExitLine};
ghost use Rattle.request_lines.specs.RequestLines.{reply_line};
ghost use Rattle.replica_texts.specs.Snapshots.{ended};

use byte_lines::FromWrite;
use change_view::HeldChange;
use command_exits::{Exit, exit_status, write_exit};
use request_lines::{ReplyHead, write_reply_head};
use std::alloc::{AllocError, Global};

/// What is replied to a request: `head`, `output` and `errors` are sent one after another. If
/// `journal` is not empty it has to be on the disk before, at the end of the journal.
#[derive(Debug, Drop)]
pub struct Reply {
    /// The first line, with its line feed.
    pub head: Vec<u8>,
    /// The bytes of standard output.
    pub output: Vec<u8>,
    /// The bytes of standard error.
    pub errors: Vec<u8>,
    /// The exit status.
    pub status: u8,
    /// The lines of all receipts and records that are held now and were not before, as the journal
    /// has them.
    pub journal: Vec<u8>,
    /// What is reported of these lines, exactly if there are any.
    pub change: Option<HeldChange>,
    /// Whether the replica is to end, once this is sent.
    pub ends: bool,
}

impl Reply {
    ghost use Rattle.local_answers.specs.RequestRun.{IsReplied, IsEnded, IsWith};

    // A reply of a command that is done, with nothing on standard error.
    pub(crate) fn done(alloc: Global, output: Vec<u8>) -> Result<Reply, AllocError>
        ensures { IfOk result (λ reply. IsReplied reply output.items []) }
    {
        Reply::of_streams(alloc, 0, output, Vec::new(alloc))
    }

    // A reply of a command that ended so.
    pub(crate) fn ended(alloc: Global, exit: &Exit) -> Result<Reply, AllocError>
        ensures { IfOk result (λ reply. IsEnded reply exit.now) }
    {
        let errors = exit_line(alloc, exit)?;
        Reply::of_streams(alloc, exit_status(exit), Vec::new(alloc), errors)
    }

    pub(crate) fn of_streams(
        alloc: Global,
        status: u8,
        output: Vec<u8>,
        errors: Vec<u8>,
    ) -> Result<Reply, AllocError>
        ensures { IfOk result (λ reply. IsWith reply output.items errors.items status) }
    {
        let head = ReplyHead {
            errors: errors.len() as u64,
            output: output.len() as u64,
            status,
        };
        Ok(Reply {
            head: head_line(alloc, head)?,
            output,
            errors,
            status,
            journal: Vec::new(alloc),
            change: None,
            ends: false,
        })
    }
}

// The first line, with its line feed.
fn head_line(alloc: Global, head: ReplyHead) -> Result<Vec<u8>, AllocError>
    ensures { IfOk result (λ line. line.items ≡ ended (reply_line head)) }
{
    let mut line = write_reply_head(alloc, head)?.into_bytes();
    line.push(b'\n')?;
    Ok(line)
}

// The line that says why a command ended.
pub(crate) fn exit_line(alloc: Global, exit: &Exit) -> Result<Vec<u8>, AllocError>
    ensures { IfOk result (λ line. IsExitLine exit.now line.items) }
{
    let mut line = FromWrite::new(Vec::new(alloc));
    match write_exit(exit, &mut line) {
        Ok(()) => Ok(line.into_inner()),
        Err(_) => Err(AllocError),
    }
}
