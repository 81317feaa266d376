//! `observe`: a bundle as it was fetched, taken.
use crate::commands::state_writers::{Coming, change};
use crate::faults::status_of_bundle;
use crate::process::{input, output};
use bundle_doc::MAX_DOCUMENT_BYTES;
use byte_lines::{FromRead, read_up_to};
use closure_core::Closure;
use command_exits::{CommandError, Exit};
use command_line::{Call, OptionName, wanted};
use fed_config::Config;
use fedbundle::{read_domain, read_verdict, run_observe};

/// Takes the bundle that standard input has.
pub(crate) fn run<C: Closure>(
    rt: &HostRuntime,
    config: &Config,
    call: &Call<'_>,
) -> Result<u8, Exit> {
    let bytes = read_bundle(rt);
    let done = change::<C>(rt, config, call, &Coming::Bundle(&bytes));
    match &bytes {
        Ok(bytes) => Ok(status_of_bundle(rt, call, done, bytes.as_slice())),
        Err(_) => done,
    }
}

/// The bytes of the bundle that standard input has, and one more if it has too many.
pub(crate) fn read_bundle(rt: &HostRuntime) -> Result<Vec<u8>, CommandError> {
    Ok(read_up_to(rt.alloc(), &mut input(rt), MAX_DOCUMENT_BYTES + 1)?)
}

/// Takes the bundle of these bytes, or reports why they were not read.
pub(crate) fn take_bundle<C: Closure>(
    rt: &HostRuntime,
    closure: &mut C,
    call: &Call<'_>,
    bytes: &Result<Vec<u8>, CommandError>,
) -> Result<(), Exit> {
    let domain = read_domain(rt.alloc(), wanted(call, OptionName::Domain)?)?;
    let verdict = read_verdict(rt.alloc(), call)?;
    let bytes = match bytes {
        Ok(bytes) => bytes.as_slice(),
        Err(error) => return Err(Exit::Refused(*error)),
    };
    run_observe(
        rt.alloc(),
        closure,
        &domain,
        &verdict,
        &mut FromRead::new(bytes),
        &mut output(rt),
    )?;
    Ok(())
}
