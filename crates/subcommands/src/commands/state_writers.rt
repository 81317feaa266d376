//! The subcommands that change what a state file holds. What they take is read before the lock of
//! the state is taken, and an error of that is reported after those of the lock, the state and the
//! options. The replica is made and given back in one place, and each command only borrows it.
use crate::commands::{distrust, observe};
use crate::process::{output, output_line};
use crate::state_access::{leave, load, lock, save, state_access_of};
use byte_lines::write_all;
use closure_core::Closure;
use command_exits::{CommandError, Exit};
use command_line::Call;
use fed_config::Config;
use fedbundle::take_other;

/// What is added to what is held.
#[derive(Drop)]
pub(crate) enum Coming<'a, C> {
    /// The bytes of a bundle, or why there are no bytes.
    Bundle(&'a Result<Vec<u8>, CommandError>),
    /// What another replica holds, or why that is not known.
    Replica(&'a Result<C, Exit>),
    /// Records of distrust, which the options say.
    Records,
}

/// Takes what comes, with the lock of the state, and writes the state.
pub(crate) fn change<C: Closure>(
    rt: &HostRuntime,
    config: &Config,
    call: &Call<'_>,
    coming: &Coming<'_, C>,
) -> Result<u8, Exit> {
    let state = state_access_of(call)?;
    let _lock = lock(rt, state)?;
    let mut closure: C = load(rt, config, state)?;
    let changed = take_and_save(rt, &mut closure, state.path, call, coming);
    leave(closure);
    changed
}

fn take_and_save<C: Closure>(
    rt: &HostRuntime,
    closure: &mut C,
    path: &str,
    call: &Call<'_>,
    coming: &Coming<'_, C>,
) -> Result<u8, Exit> {
    let text = take(rt, closure, call, coming)?;
    save(rt, closure, path)?;
    write_all(&mut output(rt), text.as_slice()).map_err(|_| CommandError::Io)?;
    Ok(0)
}

// Takes it, and returns what is to be printed once the state is saved.
fn take<C: Closure>(
    rt: &HostRuntime,
    closure: &mut C,
    call: &Call<'_>,
    coming: &Coming<'_, C>,
) -> Result<Vec<u8>, Exit> {
    match coming {
        Coming::Bundle(bytes) => observe::take_bundle(rt, closure, call, bytes)?,
        Coming::Replica(Ok(other)) => {
            take_other(closure, other, &mut output_line(rt))?;
        }
        Coming::Replica(Err(exit)) => return Err(*exit),
        Coming::Records => return distrust::make(rt, closure, call),
    }
    Ok(Vec::new(rt.alloc()))
}
