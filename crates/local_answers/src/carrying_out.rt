//! A request, carried out.
ghost use Rattle.std.specs.Prelude.{◌≡◌, IfErr, IfOk, OnErr, map};
ghost use Rattle.fedbundle.specs.CommandRun.{state_run};
ghost use Rattle.command_exits.specs.Exits.{exit_of_option};
ghost use Rattle.local_answers.specs.Inside.AskedRun.{run_of_asked};
ghost use Rattle.local_answers.specs.Journalling.{RepliesChange};
ghost use Rattle.local_answers.specs.RequestRun.{Answers, Ends, IsEnded, RepliesTo, RepliesToCall};
ghost use Rattle.local_answers.specs.RequestRun.{RepliesByKind, RepliesToError, bytes_of_files};
ghost use Rattle.local_answers.specs.RequestRun.{change_run, is_help};
ghost use Rattle.clap.specs.Words.{kind_of};
ghost use Rattle.local_answers.specs.declared.request_fault.RequestFault.TheVariants.{NoMemory};

use crate::asked::Asked;
use crate::changing_calls::{distrust, merge, observe};
use crate::reply::Reply;
use crate::request_fault::RequestFault;
use crate::shown_calls::{shown, stop};
use closure_core::Closure;
use command_exits::Exit;
use command_line::{CommandName, OptionError, WordsError, manner_of, read_request};
use status_view::RunningStatus;
use std::alloc::{AllocError, Global};

/// Carries out what a request asks for: its arguments, as [`fedbundle::read_request`] reads them,
/// with its input in place of standard input. The streams and the exit status are those of the same
/// command over files. All memory is taken before what is held changes.
///
/// `running` is what the replica says of itself: `status` shows it, and of `--most-bytes` the rest
/// over the bytes of its files is left for the input of `merge`.
///
/// # Errors
/// [`RequestFault::NoMemory`]: memory ran out. Nothing has changed, and [`RequestFault::reply`] is
/// to be replied.
pub fn answer_request<C: Closure>(
    alloc: Global,
    closure: &mut C,
    running: &RunningStatus<'_>,
    words: &[&str],
    input: &[u8],
) -> Result<Reply, RequestFault>
    ensures answers { IfOk result (RepliesTo (map (λ w. w.now) words.now) running.now
        (change_run (state_run (C.state closure.old) (C.state closure.new)) input.now)) }
    ensures journals { IfOk result (λ reply. RepliesChange reply
        (state_run (C.state closure.old) (C.state closure.new))) }
    ensures memory { IfErr result (λ fault. fault ≡ NoMemory) }
    ensures unchanged { OnErr result
        ((C.state closure.new).meaning ≡ (C.state closure.old).meaning) }
{
    match read_request(alloc, words) {
        Ok(call) => {
            let asked = Asked {
                call: &call,
                running,
                input,
            };
            answer_call(alloc, closure, asked)
        }
        Err(error) => Ok(reply_by_words(alloc, &error)?),
    }
}

// The arguments are not those of a command, ask for help or for the version, or have a flaw.
pub(crate) fn reply_by_words(alloc: Global, error: &WordsError<'_>) -> Result<Reply, AllocError>
    ensures { IfOk result (RepliesToError error.now) }
{
    match error {
        WordsError::Words(shown) => reply_of_clap(alloc, shown),
        WordsError::Usage => Reply::ended(alloc, &Exit::Usage),
        WordsError::Flawed(_, flaw) => reply_of_flaw(alloc, *flaw),
        WordsError::NoMemory => Err(AllocError),
    }
}

// The arguments are a call with this flaw.
fn reply_of_flaw(alloc: Global, flaw: OptionError) -> Result<Reply, AllocError>
    ensures { IfOk result (λ reply. IsEnded reply (exit_of_option flaw)) }
{
    Reply::ended(alloc, &Exit::from(flaw))
}

fn reply_of_clap(alloc: Global, shown: &clap::Error) -> Result<Reply, AllocError>
    ensures { IfOk result (RepliesByKind (is_help (kind_of shown.now))) }
{
    let text = format!(in alloc; "{shown}")?.into_bytes();
    if shown.use_stderr() {
        Reply::of_streams(alloc, 2, Vec::new(alloc), text)
    } else {
        Reply::of_streams(alloc, 0, text, Vec::new(alloc))
    }
}

fn answer_call<C: Closure>(
    alloc: Global,
    closure: &mut C,
    asked: Asked<'_, '_, '_>,
) -> Result<Reply, RequestFault>
    ensures answers { IfOk result (RepliesToCall
        (run_of_asked asked.entry (state_run (C.state closure.old) (C.state closure.new)))) }
    ensures journals { IfOk result (λ reply. RepliesChange reply
        (state_run (C.state closure.old) (C.state closure.new))) }
    ensures memory { IfErr result (λ fault. fault ≡ NoMemory) }
    ensures unchanged { OnErr result
        ((C.state closure.new).meaning ≡ (C.state closure.old).meaning) }
{
    match carry_out(alloc, closure, asked) {
        Ok(reply) => Ok(reply),
        Err(exit) => Ok(Reply::ended(alloc, &exit)?),
    }
}

fn carry_out<C: Closure>(
    alloc: Global,
    closure: &mut C,
    asked: Asked<'_, '_, '_>,
) -> Result<Reply, Exit>
    ensures answers { IfOk result (Answers asked.entry.call.now.name
        (run_of_asked asked.entry (state_run (C.state closure.old) (C.state closure.new)))) }
    ensures ends { IfErr result (Ends asked.entry.call.now.name
        (run_of_asked asked.entry (state_run (C.state closure.old) (C.state closure.new)))) }
    ensures journals { IfOk result (λ reply. RepliesChange reply
        (state_run (C.state closure.old) (C.state closure.new))) }
    ensures unchanged { OnErr result
        ((C.state closure.new).meaning ≡ (C.state closure.old).meaning) }
{
    let most_bytes = manner_of(asked.call)?.most_bytes;
    match asked.call.name {
        CommandName::Observe => observe(alloc, closure, asked),
        CommandName::Merge => {
            let room = most_bytes.saturating_sub(bytes_of_files(asked.running));
            merge(alloc, closure, room, asked)
        }
        CommandName::Distrust => distrust(alloc, closure, asked),
        CommandName::Stop => stop(alloc, closure, asked),
        _ => shown(alloc, closure, asked),
    }
}

// How many bytes both files of the replica have, at most what 64 bits hold.
fn bytes_of_files(running: &RunningStatus<'_>) -> u64
    ensures { result ≡ bytes_of_files running.now }
{
    running.snapshot_bytes.saturating_add(running.journal_bytes)
}
