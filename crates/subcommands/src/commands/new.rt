//! `new`: the state file of a replica that holds nothing, written.
use crate::state_access::{has_state, leave, lock, save, state_access_of};
use closure_core::Closure;
use command_exits::{CommandError, Exit};
use command_line::Call;
use fed_config::Config;

/// Writes the state file, with its lock. If there is a state file or a journal, nothing is written.
pub(crate) fn run<C: Closure>(
    rt: &HostRuntime,
    config: &Config,
    call: &Call<'_>,
) -> Result<u8, Exit> {
    let state = state_access_of(call)?;
    let _lock = lock(rt, state)?;
    if has_state(rt, state.path)? {
        return Err(Exit::StateExists);
    }
    let closure = C::new(rt.alloc(), config).map_err(CommandError::from)?;
    let saved = save(rt, &closure, state.path);
    leave(closure);
    saved?;
    Ok(0)
}
