//! The commands that write what they show in one of two forms.
use crate::commands::{Case, print_out, text_of};
use crate::devices::Devices;
use bundle_view::write_report;
use closure_core::Closure;
use config_view::{write_config, write_config_json};
use fed_config::Config;
use fedbundle::{
    Call, CommandError, OptionName, OutputForm, RunError, given, read_explanation_form,
    read_output_form, run_canon, run_explain, run_polls_in,
};
use jiff::Timestamp;
use json_reports::write_report_json;
use poll_log::read_seconds;
use poll_view::PollsForm;
use replica_view::{write_graph, write_held, write_held_json};
use spiffe_name::TrustDomain;

pub(crate) fn canon(
    case: &Case<'_>,
    call: &Call<'_>,
    devices: &mut Devices,
) -> Result<(), CommandError> {
    let Ok(form) = read_output_form(given(call, OptionName::Format)) else {
        return usage(devices);
    };
    let domain = TrustDomain::read(case.alloc, text_of(call, OptionName::Domain)?)?;
    run_canon(
        case.alloc,
        &domain,
        form,
        &mut devices.input,
        &mut devices.output,
    )
}

pub(crate) fn print_config(
    case: &Case<'_>,
    config: &Config,
    form: Option<&str>,
    devices: &mut Devices,
) -> Result<(), CommandError> {
    match read_output_form(form) {
        Ok(OutputForm::Text) => write_config(case.alloc, config, &mut devices.output)?,
        Ok(OutputForm::Json) => write_config_json(case.alloc, config, &mut devices.output)?,
        Err(_) => return usage(devices),
    }
    Ok(())
}

pub(crate) fn report_held<C: Closure>(
    case: &Case<'_>,
    closure: &C,
    form: Option<&str>,
    devices: &mut Devices,
) -> Result<(), CommandError> {
    let output = &mut devices.output;
    match read_output_form(form) {
        Ok(OutputForm::Text) => {
            write_report(case.alloc, closure, output).map_err(RunError::from)?;
        }
        Ok(OutputForm::Json) => write_report_json(case.alloc, closure, output)?,
        Err(_) => return usage(devices),
    }
    Ok(())
}

pub(crate) fn list_held<C: Closure>(
    case: &Case<'_>,
    closure: &C,
    domain: Option<&str>,
    form: Option<&str>,
    devices: &mut Devices,
) -> Result<(), CommandError> {
    let Ok(form) = read_output_form(form) else {
        return usage(devices);
    };
    let domain = domain_of(case, domain)?;
    let output = &mut devices.output;
    match form {
        OutputForm::Text => write_held(case.alloc, closure, domain.as_ref(), output)?,
        OutputForm::Json => write_held_json(case.alloc, closure, domain.as_ref(), output)?,
    }
    Ok(())
}

pub(crate) fn graph_held<C: Closure>(
    case: &Case<'_>,
    closure: &C,
    domain: Option<&str>,
    devices: &mut Devices,
) -> Result<(), CommandError> {
    let domain = domain_of(case, domain)?;
    write_graph(case.alloc, closure, domain.as_ref(), &mut devices.output)?;
    Ok(())
}

pub(crate) fn domain_of(
    case: &Case<'_>,
    domain: Option<&str>,
) -> Result<Option<TrustDomain>, CommandError> {
    match domain {
        Some(domain) => Ok(Some(TrustDomain::read(case.alloc, domain)?)),
        None => Ok(None),
    }
}

pub(crate) fn explain<C: Closure>(
    case: &Case<'_>,
    call: &Call<'_>,
    closure: &C,
    devices: &mut Devices,
) -> Result<(), CommandError> {
    let domain = TrustDomain::read(case.alloc, text_of(call, OptionName::Domain)?)?;
    let (short, form) = (
        given(call, OptionName::Short),
        given(call, OptionName::Format),
    );
    let Ok(form) = read_explanation_form(short, form) else {
        return usage(devices);
    };
    let (input, output) = (&mut devices.input, &mut devices.output);
    if !run_explain(case.alloc, closure, &domain, form, input, output)? {
        print_out(b"fedbundle: not accepted\n", 1, devices);
    }
    Ok(())
}

pub(crate) fn polls<C: Closure>(
    case: &Case<'_>,
    call: &Call<'_>,
    closure: &C,
    devices: &mut Devices,
) -> Result<(), CommandError> {
    let form = match read_output_form(given(call, OptionName::Format)) {
        Ok(OutputForm::Text) => PollsForm::Lines,
        Ok(OutputForm::Json) => PollsForm::Json,
        Err(_) => return usage(devices),
    };
    let now = text_of(call, OptionName::Now)?;
    let now = read_seconds(now.as_bytes()).unwrap_or(i64::MAX);
    let (input, output) = (&mut devices.input, &mut devices.output);
    match Timestamp::from_second(now) {
        Ok(now) => run_polls_in(case.alloc, closure, form, now, input, output),
        Err(_) => Err(CommandError::Full),
    }
}

pub(crate) fn usage(devices: &mut Devices) -> Result<(), CommandError> {
    print_out(b"fedbundle: usage\n", 2, devices);
    Ok(())
}
