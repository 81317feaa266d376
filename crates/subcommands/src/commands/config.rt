//! `config`: what a configuration says, or in what two differ.
use crate::process::{input, options, output};
use command_exits::Exit;
use command_line::{Call, OptionName, given};
use fed_config::Config;
use fedbundle::run_config;

/// Prints what the configuration says, or in what it differs from another one. The latter is only
/// text.
pub(crate) fn run(rt: &HostRuntime, config: &Config, call: &Call<'_>) -> Result<u8, Exit> {
    match given(call, OptionName::With) {
        Some(path) => {
            let mut other = options::file(rt, path)?;
            run_config(rt.alloc(), config, call, &mut other, &mut output(rt))
        }
        None => run_config(rt.alloc(), config, call, &mut input(rt), &mut output(rt)),
    }
}
