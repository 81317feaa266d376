//! The commands that change what is held, by what the arguments say.
ghost use Rattle.std.specs.Prelude.{◌≡◌, ◌↔◌, ◌≤◌, IfErr, IfOk, IsTrue, OnErr, length};
ghost use Rattle.fedbundle.specs.CommandRun.{state_run};
ghost use Rattle.command_line.specs.declared.command_name.CommandName.TheVariants as command;
ghost use Rattle.local_answers.specs.Inside.AskedRun.{run_of_asked};
ghost use Rattle.local_answers.specs.Journalling.{RepliesChange};
ghost use Rattle.fedbundle.specs.SaidValues.{texts_of_call};
ghost use Rattle.local_answers.specs.RequestRun.{Answers, Ends, LeavesRoom};

use crate::asked::Asked;
use crate::changing_replies::{self, Sayings};
use crate::reply::Reply;
use crate::shown_calls::shown;
use closure_core::Closure;
use command_exits::Exit;
use command_line::{OptionName, given, is_flag_given, wanted};
use fedbundle::{Keeper, read_domain, read_given_keys, read_verdict};
use std::alloc::Global;

pub(crate) fn observe<C: Closure>(
    alloc: Global,
    closure: &mut C,
    asked: Asked<'_, '_, '_>,
) -> Result<Reply, Exit>
    ensures answers { IfOk result (Answers command.Observe
        (run_of_asked asked.entry (state_run (C.state closure.old) (C.state closure.new)))) }
    ensures ends { IfErr result (Ends command.Observe
        (run_of_asked asked.entry (state_run (C.state closure.old) (C.state closure.new)))) }
    ensures journals { IfOk result (λ reply. RepliesChange reply
        (state_run (C.state closure.old) (C.state closure.new))) }
    ensures unchanged { OnErr result
        ((C.state closure.new).meaning ≡ (C.state closure.old).meaning) }
{
    let domain = read_domain(alloc, wanted(asked.call, OptionName::Domain)?)?;
    let verdict = read_verdict(alloc, asked.call)?;
    changing_replies::observe(alloc, closure, &domain, &verdict, asked.input)
}

// `room` is how many bytes the input may have.
pub(crate) fn merge<C: Closure>(
    alloc: Global,
    closure: &mut C,
    room: u64,
    asked: Asked<'_, '_, '_>,
) -> Result<Reply, Exit>
    requires { LeavesRoom asked.call.now.name (texts_of_call asked.call.now) asked.running.now
        room }
    ensures answers { IfOk result (Answers command.Merge
        (run_of_asked asked.entry (state_run (C.state closure.old) (C.state closure.new)))) }
    ensures ends { IfErr result (Ends command.Merge
        (run_of_asked asked.entry (state_run (C.state closure.old) (C.state closure.new)))) }
    ensures journals { IfOk result (λ reply. RepliesChange reply
        (state_run (C.state closure.old) (C.state closure.new))) }
    ensures unchanged { OnErr result
        ((C.state closure.new).meaning ≡ (C.state closure.old).meaning) }
{
    if is_within(asked.input, room) {
        changing_replies::merge(alloc, closure, asked.input)
    } else {
        Err(Exit::TooManyBytes)
    }
}

fn is_within(input: &[u8], room: u64) -> bool
    ensures { IsTrue result ↔ (length input.now ≤ room) }
{
    input.len() as u64 <= room
}

pub(crate) fn distrust<C: Closure>(
    alloc: Global,
    closure: &mut C,
    asked: Asked<'_, '_, '_>,
) -> Result<Reply, Exit>
    ensures answers { IfOk result (Answers command.Distrust
        (run_of_asked asked.entry (state_run (C.state closure.old) (C.state closure.new)))) }
    ensures ends { IfErr result (Ends command.Distrust
        (run_of_asked asked.entry (state_run (C.state closure.old) (C.state closure.new)))) }
    ensures journals { IfOk result (λ reply. RepliesChange reply
        (state_run (C.state closure.old) (C.state closure.new))) }
    ensures unchanged { OnErr result
        ((C.state closure.new).meaning ≡ (C.state closure.old).meaning) }
{
    if is_flag_given(given(asked.call, OptionName::DryRun)) {
        shown(alloc, closure, asked)
    } else {
        let keys = read_given_keys(alloc, closure, asked.call, Keeper::Replica)?;
        let sayings = Sayings {
            is_verbose: is_flag_given(given(asked.call, OptionName::Verbose)),
            names_keys: given(asked.call, OptionName::PublicKey).is_some(),
        };
        changing_replies::distrust(alloc, closure, keys, sayings)
    }
}
