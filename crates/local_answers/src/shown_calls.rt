//! The commands that show what is held, over memory: their source has the input, and their sinks
//! are texts, whose growth is all that can fail. With them is `stop`, which does nothing but end.
ghost use Rattle.std.specs.Prelude.{◌≡◌, IfErr, IfOk};
ghost use Rattle.fedbundle.specs.CommandRun.{state_run};
ghost use Rattle.command_line.specs.declared.command_name.CommandName.TheVariants as command;
ghost use Rattle.local_answers.specs.Inside.AskedRun.{run_of_asked};
ghost use Rattle.local_answers.specs.RequestRun.{Answers, AnswersShown, Ends, EndsOver};
ghost use Rattle.local_answers.specs.RequestRun.{exit_over_memory, memory_exit};
ghost use Rattle.local_answers.specs.Journalling.{IsSilent};

use crate::asked::Asked;
use crate::reply::Reply;
use byte_lines::{FromRead, FromWrite};
use closure_core::Closure;
use command_exits::{CommandError, Exit};
use fedbundle::{Shown, run_shown};
use std::alloc::Global;

pub(crate) fn shown<C: Closure>(
    alloc: Global,
    closure: &C,
    asked: Asked<'_, '_, '_>,
) -> Result<Reply, Exit>
    ensures answers { IfOk result (AnswersShown
        (run_of_asked asked.entry (state_run (C.state closure.now) (C.state closure.now)))) }
    ensures ends { IfErr result (EndsOver
        (run_of_asked asked.entry (state_run (C.state closure.now) (C.state closure.now)))) }
    ensures silent { IfOk result IsSilent }
{
    let shown = Shown {
        call: asked.call,
        running: Some(asked.running),
        moment: asked.running.moment,
    };
    let mut source = FromRead::new(asked.input);
    let mut output = FromWrite::new(Vec::new(alloc));
    let mut line_errors = FromWrite::new(Vec::new(alloc));
    match run_shown(
        alloc,
        closure,
        shown,
        &mut source,
        &mut output,
        &mut line_errors,
    ) {
        Ok(status) => {
            let text = output.into_inner();
            let with_it = line_errors.into_inner();
            Ok(Reply::of_streams(alloc, status, text, with_it)?)
        }
        Err(exit) => Err(over_memory(exit)),
    }
}

fn over_memory(exit: Exit) -> Exit
    ensures { result ≡ exit_over_memory exit }
{
    match exit {
        Exit::Refused(error) => in_memory(error),
        exit => exit,
    }
}

// A device over memory fails only if memory runs out.
pub(crate) fn in_memory(error: CommandError) -> Exit
    ensures { result ≡ memory_exit error }
{
    match error {
        CommandError::Io => Exit::Refused(CommandError::NoMemory),
        error => Exit::Refused(error),
    }
}

// Nothing is to be done but to end.
pub(crate) fn stop<C: Closure>(
    alloc: Global,
    closure: &C,
    asked: Asked<'_, '_, '_>,
) -> Result<Reply, Exit>
    ensures answers { IfOk result (Answers command.Stop
        (run_of_asked asked.entry (state_run (C.state closure.now) (C.state closure.now)))) }
    ensures ends { IfErr result (Ends command.Stop
        (run_of_asked asked.entry (state_run (C.state closure.now) (C.state closure.now)))) }
    ensures silent { IfOk result IsSilent }
{
    let _held = closure;
    let _name = asked.call.name;
    let mut reply = Reply::done(alloc, Vec::new(alloc))?;
    reply.ends = true;
    Ok(reply)
}
