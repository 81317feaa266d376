//! `diff`: what only one of two state files holds, printed.
use crate::process::output;
use crate::state_access::{StateAccess, leave, load, state_access_of};
use closure_core::Closure;
use command_exits::Exit;
use command_line::{Call, OptionName, wanted};
use fed_config::Config;
use fedbundle::run_diff;

/// Prints what only one of two state files holds. If they hold different things, the exit status is
/// 1.
pub(crate) fn run<C: Closure>(
    rt: &HostRuntime,
    config: &Config,
    closure: &C,
    call: &Call<'_>,
) -> Result<u8, Exit> {
    let other: C = load(
        rt,
        config,
        StateAccess {
            path: wanted(call, OptionName::With)?,
            ..state_access_of(call)?
        },
    )?;
    let compared = run_diff(rt.alloc(), closure, &other, &mut output(rt));
    leave(other);
    compared
}
