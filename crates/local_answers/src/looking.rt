//! Requests at a socket at which nothing can be changed: what is held is only lent to them (D-437).
ghost use Rattle.std.specs.Prelude.{◌≡◌, IfErr, IfOk, map};
ghost use Rattle.fedbundle.specs.CommandRun.{state_run};
ghost use Rattle.local_answers.specs.Inside.AskedRun.{run_of_asked};
ghost use Rattle.local_answers.specs.Looking.{AnswersLook, EndsLook, RepliesToLook, LooksAtCall};
ghost use Rattle.local_answers.specs.Looking.{is_change};
ghost use Rattle.local_answers.specs.RequestRun.{change_run};
ghost use Rattle.local_answers.specs.declared.request_fault.RequestFault.TheVariants.{NoMemory};

use crate::asked::Asked;
use crate::carrying_out::reply_by_words;
use crate::reply::Reply;
use crate::request_fault::RequestFault;
use crate::shown_calls::shown;
use closure_core::Closure;
use command_exits::Exit;
use command_line::{CommandName, OptionName, given, is_flag_given, manner_of, read_request};
use status_view::RunningStatus;
use std::alloc::Global;

/// Carries out what a request asks for, as [`answer_request`] does, if it only looks at what is
/// held. `observe`, `merge`, `distrust` without `--dry-run` and `stop` are refused as `read only`,
/// with the exit status 1. Nothing is journalled, and the replica continues.
///
/// # Errors
/// Those of [`answer_request`].
///
/// [`answer_request`]: crate::answer_request
pub fn answer_look<C: Closure>(
    alloc: Global,
    closure: &C,
    running: &RunningStatus<'_>,
    words: &[&str],
    input: &[u8],
) -> Result<Reply, RequestFault>
    ensures answers { IfOk result (RepliesToLook (map (λ w. w.now) words.now) running.now
        (change_run (state_run (C.state closure.now) (C.state closure.now)) input.now)) }
    ensures memory { IfErr result (λ fault. fault ≡ NoMemory) }
{
    match read_request(alloc, words) {
        Ok(call) => {
            let asked = Asked {
                call: &call,
                running,
                input,
            };
            look_by_call(alloc, closure, asked)
        }
        Err(error) => Ok(reply_by_words(alloc, &error)?),
    }
}

fn look_by_call<C: Closure>(
    alloc: Global,
    closure: &C,
    asked: Asked<'_, '_, '_>,
) -> Result<Reply, RequestFault>
    ensures answers { IfOk result (LooksAtCall
        (run_of_asked asked.entry (state_run (C.state closure.now) (C.state closure.now)))) }
    ensures memory { IfErr result (λ fault. fault ≡ NoMemory) }
{
    match look(alloc, closure, asked) {
        Ok(reply) => Ok(reply),
        Err(exit) => Ok(Reply::ended(alloc, &exit)?),
    }
}

fn look<C: Closure>(alloc: Global, closure: &C, asked: Asked<'_, '_, '_>) -> Result<Reply, Exit>
    ensures answers { IfOk result (AnswersLook
        (run_of_asked asked.entry (state_run (C.state closure.now) (C.state closure.now)))) }
    ensures ends { IfErr result (EndsLook
        (run_of_asked asked.entry (state_run (C.state closure.now) (C.state closure.now)))) }
{
    let _manner = manner_of(asked.call)?;
    let is_dry = is_flag_given(given(asked.call, OptionName::DryRun));
    if is_change(asked.call.name, is_dry) {
        return Err(Exit::ReadOnly);
    }
    shown(alloc, closure, asked)
}

/// Whether the command changes what is held, or ends the replica.
pub fn is_change(name: CommandName, is_dry: bool) -> bool
    ensures { result ≡ is_change name is_dry }
{
    match name {
        CommandName::Observe | CommandName::Merge | CommandName::Stop => true,
        CommandName::Distrust => !is_dry,
        _ => false,
    }
}
