//! Which file carries out a command: the configuration is read, and then the command is carried out
//! by what it does with a state: it needs none, it shows what is held (`state_readers`), it changes
//! that (`state_writers`), or it talks with another replica.
mod canon;
mod config;
mod diff;
mod distrust;
mod merge;
mod new;
mod observe;
mod pull;
mod report;
mod serve;
mod state_readers;
mod state_writers;

use crate::process::options::config_of;
use closure_core::Closure;
use command_exits::Exit;
use command_line::{Call, CommandName, OptionName, given, is_flag_given};
use fed_config::Config;
use trust_closure::{ExchangeClosure, IndexedClosure};

/// Carries out the command, which is any but `replica`, with files and streams of this process.
/// Returns the exit status: 0, or 1 if an input was refused and the rest is done.
///
/// # Errors
/// Each [`Exit`] with which the command ends before it is done.
pub fn carry_out_here(rt: &HostRuntime, call: &Call<'_>) -> Result<u8, Exit> {
    match call.name {
        CommandName::Canon => canon::run(rt, call),
        CommandName::Serve => serve::run::<ExchangeClosure>(rt, call),
        CommandName::Pull => pull::run::<ExchangeClosure>(rt, &config_of(rt, call)?, call),
        _ => carry_out_over::<IndexedClosure>(rt, &config_of(rt, call)?, call),
    }
}

fn carry_out_over<C: Closure>(
    rt: &HostRuntime,
    config: &Config,
    call: &Call<'_>,
) -> Result<u8, Exit> {
    match call.name {
        CommandName::Config => config::run(rt, config, call),
        CommandName::New => new::run::<C>(rt, config, call),
        CommandName::Observe => observe::run::<C>(rt, config, call),
        CommandName::Merge => merge::run::<C>(rt, config, call),
        CommandName::Report if given(call, OptionName::State).is_none() => {
            report::report_lines::<C>(rt, config, call)
        }
        CommandName::Distrust if !is_flag_given(given(call, OptionName::DryRun)) => {
            distrust::run::<C>(rt, config, call)
        }
        _ => state_readers::show::<C>(rt, config, call),
    }
}
