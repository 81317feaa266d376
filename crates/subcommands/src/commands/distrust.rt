//! `distrust`: records of distrust, made, for one key or for each known key with a public key.
use crate::commands::state_writers::{Coming, change};
use crate::process::line_errors;
use byte_lines::write_all;
use closure_core::Closure;
use command_exits::Exit;
use command_line::{Call, OptionName, given, manner_of};
use fed_config::Config;
use fedbundle::{Keeper, distrusted_text, read_given_keys, run_distrust};
use local_answers::effect_of;

/// Takes the records of distrust that the options say.
pub(crate) fn run<C: Closure>(
    rt: &HostRuntime,
    config: &Config,
    call: &Call<'_>,
) -> Result<u8, Exit> {
    change::<C>(rt, config, call, &Coming::Records)
}

/// Makes the records, and returns what is to be printed once they are saved: which keys they are
/// of, if the options do not name the key.
pub(crate) fn make<C: Closure>(
    rt: &HostRuntime,
    closure: &mut C,
    call: &Call<'_>,
) -> Result<Vec<u8>, Exit> {
    let keys = read_given_keys(rt.alloc(), closure, call, Keeper::Files)?;
    let effect = match manner_of(call)?.is_verbose {
        true => effect_of(rt.alloc(), closure, &keys)?,
        false => Vec::new(rt.alloc()),
    };
    let text = match given(call, OptionName::PublicKey) {
        Some(_) => distrusted_text(rt.alloc(), &keys)?,
        None => Vec::new(rt.alloc()),
    };
    run_distrust(rt.alloc(), closure, &keys)?;
    // That it cannot be said keeps no key from being distrusted.
    let _ = write_all(&mut line_errors(rt), effect.as_slice());
    Ok(text)
}
