//! `canon`: a bundle in its canonical form.
use crate::commands::observe::read_bundle;
use crate::faults::status_of_bundle;
use crate::process::output;
use command_exits::Exit;
use command_line::{Call, OptionName, OutputForm, given, read_output_form, wanted};
use fedbundle::{read_domain, run_canon_bytes};
use spiffe_name::TrustDomain;

/// Prints the bundle that standard input has in its canonical form.
pub(crate) fn run(rt: &HostRuntime, call: &Call<'_>) -> Result<u8, Exit> {
    let form = read_output_form(given(call, OptionName::Format))?;
    let domain = read_domain(rt.alloc(), wanted(call, OptionName::Domain)?)?;
    let bytes = read_bundle(rt)?;
    let done = canon_of(rt, &domain, form, bytes.as_slice());
    Ok(status_of_bundle(rt, call, done, bytes.as_slice()))
}

fn canon_of(
    rt: &HostRuntime,
    domain: &TrustDomain,
    form: OutputForm,
    bytes: &[u8],
) -> Result<u8, Exit> {
    run_canon_bytes(rt.alloc(), domain, form, bytes, &mut output(rt))?;
    Ok(0)
}
