//! What the program does for the arguments of a command line, with texts of the script in place of
//! files.
//!
//! A file's name is the name of a text; if no text has the name, the file is not there.
use crate::devices::{AMPLE_ROOM, Devices};
use crate::requests::changes;
use crate::shown_forms::{
    canon, domain_of, explain, graph_held, list_held, polls, print_config, report_held, usage,
};
use crate::words::split_words;
use bundle_view::Verdict;
use byte_lines::{FromRead, MemSink, write_all};
use closure_core::Closure;
use config_view::write_config_difference;
use fed_config::Config;
use fedbundle::{
    Call, CommandError, CommandName, GivenKeys, OptionName, OutputForm, RunError, WordsError,
    given, is_flag_given, read_output_form, read_sessions, read_status_format, read_words,
    run_bundle, run_bundle_pem, run_distrust, run_merge, run_migrate, run_observe, run_pull,
    run_report, run_report_into, run_report_with, run_serve, show_distrust, status, write_fault,
    write_served,
};
use jwk_set::KeyId;
use migration::Choice;
use replica_sync::{read_snapshot, write_snapshot};
use replica_view::write_held_difference;
use reseeding::{FloorChoice, Reseeded, reseed};
use row_script::Script;
use spiffe_name::{SpiffeId, TrustDomain};
use status_warnings::{WarnLimits, Watch, write_warned_status};
use std::alloc::Global;

/// What is run.
#[derive(Clone, Copy)]
pub(crate) struct Case<'a> {
    pub(crate) alloc: Global,
    pub(crate) script: &'a Script,
    /// The arguments of the command line, each after a zero byte.
    pub(crate) words: &'a str,
    /// The bytes of standard input, or what the other replica of a session sends.
    pub(crate) input: &'a [u8],
    /// Whether `report` is to choose the closure itself.
    pub(crate) is_report_own: bool,
    /// Whether the arguments are sent only to a running replica.
    pub(crate) is_request: bool,
}

impl Case<'_> {
    /// Whether a session with another replica is asked for.
    pub(crate) fn is_session(&self) -> bool {
        self.words.starts_with("serve\0") || self.words.starts_with("pull\0")
    }
}

/// Carries out what the arguments ask for, over the devices.
pub(crate) fn carry_out<C: Closure>(case: &Case<'_>, devices: &mut Devices) {
    if let Err(error) = read_and_do::<C>(case, devices) {
        let was_printed = write_fault(&error, &mut devices.errors).is_ok();
        end(status(&error), was_printed, devices);
    }
}

// Ends with the exit status, or with 3 if that is greater and standard error failed.
fn end(ended: u8, was_printed: bool, devices: &mut Devices) {
    devices.status = if was_printed { ended } else { ended.max(3) };
}

pub(crate) fn print_out(line: &[u8], ended: u8, devices: &mut Devices) {
    let was_printed = write_all(&mut devices.errors, line).is_ok();
    end(ended, was_printed, devices);
}

fn read_and_do<C: Closure>(case: &Case<'_>, devices: &mut Devices) -> Result<(), CommandError> {
    let words = split_words(case.alloc, case.words)?;
    do_words::<C>(case, words.as_slice(), devices)
}

fn do_words<C: Closure>(
    case: &Case<'_>,
    words: &[&str],
    devices: &mut Devices,
) -> Result<(), CommandError> {
    match read_words(case.alloc, words) {
        Ok(call) => do_call::<C>(case, &call, devices),
        Err(WordsError::Usage) => usage(devices),
        Err(WordsError::Flawed(_, _)) => usage(devices),
        Err(WordsError::NoMemory) => Err(CommandError::NoMemory),
        Err(WordsError::Words(_)) => {
            print_out(b"words that are not taken\n", 2, devices);
            Ok(())
        }
    }
}

fn do_call<C: Closure>(
    case: &Case<'_>,
    call: &Call<'_>,
    devices: &mut Devices,
) -> Result<(), CommandError> {
    match call.name {
        CommandName::Canon => canon(case, call, devices),
        CommandName::Serve if has_bad_sessions(call) => usage(devices),
        _ => do_under::<C>(case, call, devices),
    }
}

/// The text of an option that the command wants, and so has.
pub(crate) fn text_of<'a>(call: &Call<'a>, name: OptionName) -> Result<&'a str, CommandError> {
    given(call, name).ok_or(CommandError::Full)
}

fn has_bad_sessions(call: &Call<'_>) -> bool {
    match given(call, OptionName::Sessions) {
        Some(sessions) => read_sessions(sessions).is_none(),
        None => false,
    }
}

fn do_under<C: Closure>(
    case: &Case<'_>,
    call: &Call<'_>,
    devices: &mut Devices,
) -> Result<(), CommandError> {
    let Some(config) = case.script.text(text_of(call, OptionName::Config)?) else {
        return Err(CommandError::Io);
    };
    let config = Config::read(case.alloc, config)?;
    do_under_config::<C>(case, call, &config, devices)
}

fn do_under_config<C: Closure>(
    case: &Case<'_>,
    call: &Call<'_>,
    config: &Config,
    devices: &mut Devices,
) -> Result<(), CommandError> {
    let form = given(call, OptionName::Format);
    match (call.name, given(call, OptionName::State)) {
        (CommandName::Config, _) => match given(call, OptionName::With) {
            None => print_config(case, config, form, devices),
            Some(with) => compare_configs(case, config, with, form, devices),
        },
        (CommandName::Report, None) => report::<C>(case, config, form, devices),
        (_, Some(state)) => {
            do_over_file::<C>(case, call, config, case.script.text(state), devices)
        }
        (_, None) => Err(CommandError::Full),
    }
}

// Two digests make the exit status 1. There is no JSON of two.
fn compare_configs(
    case: &Case<'_>,
    config: &Config,
    with: &str,
    form: Option<&str>,
    devices: &mut Devices,
) -> Result<(), CommandError> {
    if read_output_form(form) != Ok(OutputForm::Text) {
        return usage(devices);
    }
    let Some(with) = case.script.text(with) else {
        return Err(CommandError::Io);
    };
    let with = Config::read(case.alloc, with)?;
    let is_same = write_config_difference(case.alloc, config, &with, &mut devices.output)?;
    devices.status = u8::from(!is_same);
    Ok(())
}

// A line that is refused makes the exit status 1.
fn report<C: Closure>(
    case: &Case<'_>,
    config: &Config,
    form: Option<&str>,
    devices: &mut Devices,
) -> Result<(), CommandError> {
    let count = match read_output_form(form) {
        Ok(OutputForm::Text) if case.is_report_own => {
            report_over_its_own(case.alloc, config, devices)?
        }
        Ok(OutputForm::Text) => report_over::<C>(case.alloc, config, devices)?,
        Ok(OutputForm::Json) => report_json_over::<C>(case.alloc, config, devices)?,
        Err(_) => return usage(devices),
    };
    devices.status = if count == 0 { 0 } else { 1 };
    Ok(())
}

fn report_over_its_own(
    alloc: Global,
    config: &Config,
    devices: &mut Devices,
) -> Result<u64, RunError> {
    run_report(
        alloc,
        config,
        &mut devices.input,
        &mut devices.output,
        &mut devices.errors,
    )
}

fn report_over<C: Closure>(
    alloc: Global,
    config: &Config,
    devices: &mut Devices,
) -> Result<u64, RunError> {
    run_report_with::<C, _, _, _>(
        alloc,
        config,
        &mut devices.input,
        &mut devices.output,
        &mut devices.errors,
    )
}

fn report_json_over<C: Closure>(
    alloc: Global,
    config: &Config,
    devices: &mut Devices,
) -> Result<u64, RunError> {
    let mut closure = C::new(alloc, config)?;
    run_report_into(
        alloc,
        &mut closure,
        OutputForm::Json,
        &mut devices.input,
        &mut devices.output,
        &mut devices.errors,
    )
}

// The replica of the state file; one that is not there holds nothing.
fn do_over_file<C: Closure>(
    case: &Case<'_>,
    call: &Call<'_>,
    config: &Config,
    file: Option<&[u8]>,
    devices: &mut Devices,
) -> Result<(), CommandError> {
    let mut closure: C = match file {
        Some(text) => read_snapshot(case.alloc, config, &mut FromRead::new(text))?,
        None => C::new(case.alloc, config)?,
    };
    do_and_save(case, call, &mut closure, file, devices)
}

fn do_and_save<C: Closure>(
    case: &Case<'_>,
    call: &Call<'_>,
    closure: &mut C,
    file: Option<&[u8]>,
    devices: &mut Devices,
) -> Result<(), CommandError> {
    let before = snapshot(case.alloc, closure)?;
    let done = do_asked(case, call, closure, devices);
    write_snapshot(case.alloc, closure, &mut devices.state)?;
    let known = if is_saved(call, done.is_ok()) {
        file
    } else {
        Some(before.as_bytes())
    };
    devices.is_state_new = known != Some(devices.state.as_bytes());
    done
}

pub(crate) fn snapshot<C: Closure>(alloc: Global, closure: &C) -> Result<MemSink, CommandError> {
    let mut text = MemSink::new(alloc, AMPLE_ROOM)?;
    write_snapshot(alloc, closure, &mut text)?;
    Ok(text)
}

// Whether the program writes the state file.
fn is_saved(call: &Call<'_>, is_ok: bool) -> bool {
    call.name == CommandName::Pull || (is_ok && changes(call))
}

fn do_asked<C: Closure>(
    case: &Case<'_>,
    call: &Call<'_>,
    closure: &mut C,
    devices: &mut Devices,
) -> Result<(), CommandError> {
    let (input, output) = (&mut devices.input, &mut devices.output);
    match call.name {
        CommandName::Observe => observe(case, call, closure, devices),
        CommandName::Merge => run_merge(case.alloc, closure, input, output),
        CommandName::Distrust => distrust(case, call, closure, devices),
        CommandName::Pull => run_pull(case.alloc, closure, input, &mut devices.sent, output),
        _ => look(case, call, closure, devices),
    }
}

// The commands that leave what is held as it is.
fn look<C: Closure>(
    case: &Case<'_>,
    call: &Call<'_>,
    closure: &C,
    devices: &mut Devices,
) -> Result<(), CommandError> {
    let form = given(call, OptionName::Format);
    let domain = given(call, OptionName::Domain);
    match call.name {
        CommandName::Report => report_held(case, closure, form, devices),
        CommandName::List => list_held(case, closure, domain, form, devices),
        CommandName::Graph => graph_held(case, closure, domain, devices),
        CommandName::Diff => compare_held(case, closure, text_of(call, OptionName::With)?, devices),
        CommandName::Status => status_of(case, closure, form, devices),
        CommandName::Bundle => bundle(case, call, closure, devices),
        CommandName::Explain => explain(case, call, closure, devices),
        CommandName::Migrate => migrate(case, call, closure, devices),
        CommandName::Reseed => reseed_held(case, call, closure, devices),
        CommandName::Polls => polls(case, call, closure, devices),
        CommandName::Serve => serve(case, closure, devices),
        _ => Err(CommandError::Full),
    }
}

// The status of what the state file holds. A warning makes the exit status 1.
fn status_of<C: Closure>(
    case: &Case<'_>,
    closure: &C,
    format: Option<&str>,
    devices: &mut Devices,
) -> Result<(), CommandError> {
    let Ok(format) = read_status_format(format) else {
        return usage(devices);
    };
    let limits = WarnLimits {
        moment: 0,
        expires_within: 7,
        peer_quiet: 600,
    };
    let watch = Watch {
        limits,
        running: None,
        fetches: &[],
    };
    let is_warned = write_warned_status(case.alloc, closure, &watch, format, &mut devices.output)?;
    devices.status = u8::from(is_warned);
    Ok(())
}

// Two states that hold different things make the exit status 1.
fn compare_held<C: Closure>(
    case: &Case<'_>,
    closure: &C,
    with: &str,
    devices: &mut Devices,
) -> Result<(), CommandError> {
    let other: C = match case.script.text(with) {
        Some(text) => read_snapshot(case.alloc, closure.config(), &mut FromRead::new(text))?,
        None => C::new(case.alloc, closure.config())?,
    };
    let is_same = write_held_difference(case.alloc, closure, &other, &mut devices.output)?;
    devices.status = u8::from(!is_same);
    Ok(())
}

fn choice_of(records_only: Option<&str>) -> Choice {
    if is_flag_given(records_only) {
        Choice::RecordsOnly
    } else {
        Choice::All
    }
}

// Without another configuration what is held is still under its own.
fn migrate<C: Closure>(
    case: &Case<'_>,
    call: &Call<'_>,
    closure: &C,
    devices: &mut Devices,
) -> Result<(), CommandError> {
    let choice = choice_of(given(call, OptionName::RecordsOnly));
    let Some(name) = given(call, OptionName::To) else {
        return migrate_to(case, closure, closure.config(), choice, devices);
    };
    let Some(text) = case.script.text(name) else {
        return Err(CommandError::Io);
    };
    migrate_to(
        case,
        closure,
        &Config::read(case.alloc, text)?,
        choice,
        devices,
    )
}

// A line of what is left out makes the exit status 1.
fn migrate_to<C: Closure>(
    case: &Case<'_>,
    closure: &C,
    to: &Config,
    choice: Choice,
    devices: &mut Devices,
) -> Result<(), CommandError> {
    let (output, errors) = (&mut devices.output, &mut devices.errors);
    let count = run_migrate(case.alloc, closure, to, choice, output, errors)?;
    devices.status = if count == 0 { 0 } else { 1 };
    Ok(())
}

fn floors_of(text: Option<&str>) -> FloorChoice {
    if is_flag_given(text) {
        FloorChoice::Raised
    } else {
        FloorChoice::Kept
    }
}

// A domain that is refused makes the exit status 1.
fn reseed_held<C: Closure>(
    case: &Case<'_>,
    call: &Call<'_>,
    closure: &C,
    devices: &mut Devices,
) -> Result<(), CommandError> {
    let floors = floors_of(given(call, OptionName::Floors));
    let allowed = domain_of(case, given(call, OptionName::Allow))?;
    match reseed(case.alloc, closure, allowed.as_ref(), floors)? {
        Reseeded::Seeded(new) => {
            write_all(&mut devices.output, new.text.as_slice())?;
            if floors == FloorChoice::Raised {
                let held = closure.receipt_count();
                let line = format!(in case.alloc;
                    "receipts that stay: {} of {held}\n",
                    new.staying
                )?;
                write_all(&mut devices.errors, line.as_bytes())?;
            }
        }
        Reseeded::Refusals(lines) => {
            write_all(&mut devices.errors, lines.as_slice())?;
            devices.status = 1;
        }
    }
    Ok(())
}

fn bundle<C: Closure>(
    case: &Case<'_>,
    call: &Call<'_>,
    closure: &C,
    devices: &mut Devices,
) -> Result<(), CommandError> {
    let domain = TrustDomain::read(case.alloc, text_of(call, OptionName::Domain)?)?;
    let is_printed = if given(call, OptionName::Format) == Some("pem") {
        run_bundle_pem(case.alloc, closure, &domain, &mut devices.output)?
    } else {
        run_bundle(closure, &domain, &mut devices.output)?
    };
    if !is_printed {
        print_out(b"fedbundle: no current bundle\n", 1, devices);
    }
    Ok(())
}

fn observe<C: Closure>(
    case: &Case<'_>,
    call: &Call<'_>,
    closure: &mut C,
    devices: &mut Devices,
) -> Result<(), CommandError> {
    let domain = TrustDomain::read(case.alloc, text_of(call, OptionName::Domain)?)?;
    let verdict = Verdict {
        endpoint: SpiffeId::read(case.alloc, text_of(call, OptionName::Endpoint)?)?,
        key: key_of(text_of(call, OptionName::Key)?),
    };
    let (input, output) = (&mut devices.input, &mut devices.output);
    run_observe(case.alloc, closure, &domain, &verdict, input, output)
}

// A key of zeros if the text is not a key.
fn key_of(text: &str) -> KeyId {
    let mut id = [0; 32];
    let _ = hex::decode_to_slice(text, &mut id);
    KeyId(id)
}

// With the flag for more, what changes is printed on standard error, as far as that takes it.
fn distrust<C: Closure>(
    case: &Case<'_>,
    call: &Call<'_>,
    closure: &mut C,
    devices: &mut Devices,
) -> Result<(), CommandError> {
    let keys = keys_of(case.alloc, call)?;
    match shown_of(call) {
        ShownDistrust::Only => {
            return show_distrust(case.alloc, closure, &keys, &mut devices.output);
        }
        ShownDistrust::Before => {
            let _ = show_distrust(case.alloc, closure, &keys, &mut devices.errors);
        }
        ShownDistrust::Not => {}
    }
    run_distrust(case.alloc, closure, &keys)
}

// Whether it is shown what the record changes.
#[derive(Clone, Copy)]
enum ShownDistrust {
    Only,
    Before,
    Not,
}

fn shown_of(call: &Call<'_>) -> ShownDistrust {
    if is_flag_given(given(call, OptionName::DryRun)) {
        ShownDistrust::Only
    } else if is_flag_given(given(call, OptionName::Verbose)) {
        ShownDistrust::Before
    } else {
        ShownDistrust::Not
    }
}

fn keys_of(alloc: Global, call: &Call<'_>) -> Result<GivenKeys, CommandError> {
    let domain = TrustDomain::read(alloc, text_of(call, OptionName::Domain)?)?;
    let key = key_of(text_of(call, OptionName::Key)?);
    Ok(GivenKeys {
        domain,
        keys: Vec::from_slice(alloc, &[key])?,
    })
}

// The line `served` reports the questions here, since there is one session.
fn serve<C: Closure>(
    case: &Case<'_>,
    closure: &C,
    devices: &mut Devices,
) -> Result<(), CommandError> {
    let count = run_serve(case.alloc, closure, &mut devices.input, &mut devices.sent)?;
    write_served(count, &mut devices.output)
}
