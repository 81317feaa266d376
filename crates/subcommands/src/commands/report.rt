//! `report` of lines: what a replica that took the receipts accepts.
use crate::process::{input, line_errors, output};
use crate::state_access::leave;
use closure_core::Closure;
use command_exits::{CommandError, Exit};
use command_line::{Call, OptionName, given, read_output_form};
use fed_config::Config;
use fedbundle::run_report_into;

/// Prints the report of the receipts that standard input has.
pub(crate) fn report_lines<C: Closure>(
    rt: &HostRuntime,
    config: &Config,
    call: &Call<'_>,
) -> Result<u8, Exit> {
    let form = read_output_form(given(call, OptionName::Format))?;
    let mut errors = line_errors(rt);
    let Ok(mut closure) = C::new(rt.alloc(), config) else {
        return Err(Exit::Refused(CommandError::NoMemory));
    };
    let reported = run_report_into(
        rt.alloc(),
        &mut closure,
        form,
        &mut input(rt),
        &mut output(rt),
        &mut errors,
    );
    leave(closure);
    match reported {
        Ok(0) => Ok(0),
        Ok(_) => Ok(1),
        Err(error) => Err(Exit::Refused(CommandError::from(error))),
    }
}
