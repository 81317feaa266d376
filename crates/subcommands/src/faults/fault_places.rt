//! A second look at files and input that were refused: what is wrong in them, and at which place.
use crate::faults::reasons::state_path;
use crate::process::{options, quoted, say, shown, words_of};
use bundle_doc::{Document, MAX_DOCUMENT_BYTES};
use byte_lines::{FromRead, read_up_to};
use command_exits::CommandError;
use command_line::{Call, OptionName, given};
use fault_view::{Flaw, FlawPlace, FoundFlaw, UrlFlaw, find_flaw, is_ignored, json_fault};
use fed_config::{Config, ConfigError};
use progress_line::ProgressMode;
use replica_core::SyncError;
use serde_json::Value;
use state_files::{journal_path, load_state};
use std::alloc::{AllocError, Global};
use std::io::Read;
use std::os::unix::fs::FileTypeExt;
use std::{fs, io};
use trust_closure::{Closure, IndexedClosure};

/// The path of standard input as a file.
const STANDARD_INPUT: &str = "/dev/stdin";

/// The system's number for a file that is there already (`EEXIST`).
const FILE_EXISTS: i32 = 17;

// The bytes of the file, or what the system says. A folder is opened, and then not read. A pipe is
// not opened.
fn read_file(rt: &HostRuntime, path: &str) -> io::Result<Vec<u8>> {
    if fs::symlink_metadata(rt, path)?.file_type().is_fifo() {
        return Err(io::Error::from_raw_os_error(FILE_EXISTS));
    }
    let mut file = fs::open(rt, path)?;
    let mut bytes = Vec::new(rt.alloc());
    file.read_to_end(&mut bytes)?;
    Ok(bytes)
}

fn say_unread(
    rt: &HostRuntime,
    what: &str,
    path: &str,
    error: &io::Error,
) -> Result<(), AllocError> {
    let path = shown(rt.alloc(), path)?;
    let words = words_of(rt.alloc(), error)?;
    say(
        rt,
        format!(in rt.alloc(); "{what} {path}: {words}")?.as_str(),
    );
    Ok(())
}

// ---- configurations

/// Says at which place the configuration in the file is wrong, and returns whether it is.
pub(crate) fn say_config(
    rt: &HostRuntime,
    option: OptionName,
    path: &str,
) -> Result<bool, AllocError> {
    match read_file(rt, path) {
        Ok(bytes) => say_config_of(rt, option, path, bytes.as_slice()),
        // That file may be missing.
        Err(error) if option == OptionName::Previous && error.kind() == io::ErrorKind::NotFound => {
            Ok(false)
        }
        Err(error) => {
            say_unread(rt, option.text(), path, &error)?;
            Ok(true)
        }
    }
}

fn say_config_of(
    rt: &HostRuntime,
    option: OptionName,
    path: &str,
    bytes: &[u8],
) -> Result<bool, AllocError> {
    let Err(cause) = Config::read(rt.alloc(), bytes) else {
        return Ok(false);
    };
    let path = shown(rt.alloc(), path)?;
    let name = option.text();
    let lead = format!(in rt.alloc(); "{name} {path}")?;
    say_config_fault(rt, lead.as_str(), bytes, cause)?;
    Ok(true)
}

fn say_config_fault(
    rt: &HostRuntime,
    lead: &str,
    bytes: &[u8],
    cause: ConfigError,
) -> Result<(), AllocError> {
    let Ok(value) = Value::from_slice(rt.alloc(), bytes) else {
        return say_no_json(rt, lead, bytes);
    };
    match find_flaw(rt.alloc(), &value, cause) {
        Some(found) => say_found(rt, lead, &value, &found),
        None => Ok(()),
    }
}

// The place at which the bytes stop being JSON.
fn say_no_json(rt: &HostRuntime, lead: &str, bytes: &[u8]) -> Result<(), AllocError> {
    if bytes.is_empty() {
        say(rt, format!(in rt.alloc(); "{lead}: it is empty")?.as_str());
        return Ok(());
    }
    if let Some(fault) = json_fault(rt.alloc(), bytes) {
        let (line, column) = (fault.line, fault.column);
        say(
            rt,
            format!(in rt.alloc();
                "{lead}: invalid JSON at line {line}, column {column}"
            )?.as_str(),
        );
    }
    say_beginning(rt, lead, bytes)
}

fn say_beginning(rt: &HostRuntime, lead: &str, bytes: &[u8]) -> Result<(), AllocError> {
    let begins = quoted(rt.alloc(), bytes)?;
    say(
        rt,
        format!(in rt.alloc(); "{lead}: it begins with {begins}")?.as_str(),
    );
    Ok(())
}

fn say_found(
    rt: &HostRuntime,
    lead: &str,
    config: &Value,
    found: &FoundFlaw<'_>,
) -> Result<(), AllocError> {
    let place = place_text(rt.alloc(), config, found.place)?;
    let flaw = flaw_text(rt.alloc(), &found.flaw)?;
    say(
        rt,
        format!(in rt.alloc(); "{lead}: {place}{flaw}")?.as_str(),
    );
    Ok(())
}

// The place, and the domain of a seed, with a colon and a space after it.
fn place_text(alloc: Global, config: &Value, place: FlawPlace) -> Result<String, AllocError> {
    match place {
        FlawPlace::Whole => Ok(String::new(alloc)),
        FlawPlace::Relationship(number) => format!(in alloc; "relationships[{number}]: "),
        FlawPlace::Seed(number) => match seed_domain(config, number) {
            Some(domain) => {
                let domain = shown(alloc, domain)?;
                format!(in alloc; "seeds[{number}] ({domain}): ")
            }
            None => format!(in alloc; "seeds[{number}]: "),
        },
        FlawPlace::Floors => String::from_str(alloc, "floors: "),
    }
}

fn seed_domain(config: &Value, number: usize) -> Option<&str> {
    config.get("seeds")?.get(number)?.get("domain")?.as_str()
}

fn flaw_text(alloc: Global, flaw: &Flaw<'_>) -> Result<String, AllocError> {
    match flaw {
        Flaw::NotObject => String::from_str(alloc, "no object"),
        Flaw::UnknownMember(name) => named(alloc, "unknown member", name),
        Flaw::MissingMember(name) => named(alloc, "no member", name),
        Flaw::NotText(name) => named(alloc, "no text is the member", name),
        Flaw::NotArray(name) => named(alloc, "no array is the member", name),
        Flaw::NotNumber(name) => named(alloc, "no sequence number is the member", name),
        Flaw::BadFloorName(name, why) => with_cause(alloc, "domain", name, why),
        Flaw::UnknownDomain(name) => named(alloc, "unknown domain", name),
        Flaw::BadDomain(text, why) => with_cause(alloc, "domain", text, why),
        Flaw::BadEndpoint(text, why) => with_cause(alloc, "endpoint", text, why),
        Flaw::BadUrl(why) => String::from_str(alloc, url_text(*why)),
        Flaw::OtherProfile(text) => named(alloc, "profile is not https_spiffe but", text),
        Flaw::SameDomain(text, earlier) => {
            let text = quoted(alloc, text.as_bytes())?;
            format!(in alloc; "domain {text} is that of relationships[{earlier}]")
        }
        Flaw::BadBundle(why) => format!(in alloc; "{why}"),
        Flaw::BelowFloor(rank, floor) => {
            format!(in alloc; "sequence {rank} is below the floor {floor}")
        }
        Flaw::NoSequence(floor) => {
            format!(in alloc; "no sequence number, and the floor is {floor}")
        }
    }
}

fn named(alloc: Global, what: &str, name: &str) -> Result<String, AllocError> {
    let name = quoted(alloc, name.as_bytes())?;
    format!(in alloc; "{what} {name}")
}

fn with_cause<E: std::fmt::Display>(
    alloc: Global,
    what: &str,
    text: &str,
    why: &E,
) -> Result<String, AllocError> {
    let text = quoted(alloc, text.as_bytes())?;
    format!(in alloc; "{what} {text}: {why}")
}

fn url_text<'a>(why: UrlFlaw) -> &'a str {
    match why {
        UrlFlaw::TooLong => "url has more than 2,048 bytes",
        UrlFlaw::NoUrl => "url is no URL",
        UrlFlaw::OtherScheme => "url does not begin with https:",
        UrlFlaw::HasUser => "url has a user name",
        UrlFlaw::HasPassword => "url has a password",
    }
}

// ---- bundles

/// Why the bytes of standard input are not a bundle, or which of its keys count for nothing.
pub(crate) fn say_bundle(
    rt: &HostRuntime,
    bytes: &[u8],
    is_refused: bool,
) -> Result<(), AllocError> {
    let lead = "standard input";
    if bytes.len() > MAX_DOCUMENT_BYTES {
        say(rt, "standard input: more than 1,048,576 bytes");
        return Ok(());
    }
    let Ok(value) = Value::from_slice(rt.alloc(), bytes) else {
        return say_no_json(rt, lead, bytes);
    };
    if is_refused && Document::from_value(rt.alloc(), &value).is_err() {
        return say_beginning(rt, lead, bytes);
    }
    say_ignored(rt, &value)
}

fn say_ignored(rt: &HostRuntime, bundle: &Value) -> Result<(), AllocError> {
    let Some(keys) = bundle.get("keys").and_then(Value::as_array) else {
        return Ok(());
    };
    'keys: for number in 0..keys.len() {
        if is_ignored(rt.alloc(), bundle, number) {
            say(
                rt,
                format!(in rt.alloc(); "standard input: keys[{number}] is ignored")?.as_str(),
            );
        }
    }
    Ok(())
}

// ---- states

/// Which state or stream is refused, and at which place.
pub(crate) fn say_state(
    rt: &HostRuntime,
    call: &Call<'_>,
    error: &CommandError,
) -> Result<(), AllocError> {
    let Some(path) = given(call, OptionName::Config) else {
        return Ok(());
    };
    let Ok(config) = options::config_limited(rt, call, path) else {
        return Ok(());
    };
    let state = state_path(call);
    if is_refused_so(rt, &config, state, error) {
        return say_refused_state(rt, &config, state, error);
    }
    match (
        given(call, OptionName::With),
        given(call, OptionName::Previous),
    ) {
        (Some(with), _) => say_refused_state(rt, &config, with, error),
        (None, Some(previous)) => say_changed_state(rt, call, previous, error),
        (None, None) => say_refused_stream(rt, &config, error),
    }
}

// The state is one of the configuration that is changed from, and refused; or it is not, and the
// file next to it is.
fn say_changed_state(
    rt: &HostRuntime,
    call: &Call<'_>,
    previous: &str,
    error: &CommandError,
) -> Result<(), AllocError> {
    let Ok(config) = options::config_limited(rt, call, previous) else {
        return Ok(());
    };
    let path = state_path(call);
    if is_refused_so(rt, &config, path, error) {
        return say_refused_state(rt, &config, path, error);
    }
    let state = shown(rt.alloc(), path)?;
    say(
        rt,
        format!(in rt.alloc(); "{state}.previous is refused")?.as_str(),
    );
    Ok(())
}

fn is_refused_so(rt: &HostRuntime, config: &Config, path: &str, error: &CommandError) -> bool {
    refusal_of::<IndexedClosure>(rt, config, path) == Some(*error)
}

// Why the state is refused, if it is.
fn refusal_of<C: Closure>(rt: &HostRuntime, config: &Config, path: &str) -> Option<CommandError> {
    let loaded: Result<C, CommandError> = load_state(
        rt,
        rt.alloc(),
        config,
        path,
        ProgressMode::Silent,
    );
    loaded.err()
}

fn say_refused_state(
    rt: &HostRuntime,
    config: &Config,
    path: &str,
    error: &CommandError,
) -> Result<(), AllocError> {
    match error {
        CommandError::Journal(why) => {
            let journal = journal_path(rt.alloc(), path)?;
            say_lines_of(rt, config, "journal", journal.as_str(), *why)
        }
        CommandError::Sync(why) => say_lines_of(rt, config, "state", path, *why),
        _ => Ok(()),
    }
}

fn say_refused_stream(
    rt: &HostRuntime,
    config: &Config,
    error: &CommandError,
) -> Result<(), AllocError> {
    let CommandError::Sync(why) = error else {
        return Ok(());
    };
    match fs::metadata(rt, STANDARD_INPUT) {
        Ok(it) if it.is_file() => say_lines_of(rt, config, "standard input", STANDARD_INPUT, *why),
        _ => {
            say(rt, "standard input is refused, and not the state file");
            Ok(())
        }
    }
}

fn say_lines_of(
    rt: &HostRuntime,
    config: &Config,
    what: &str,
    path: &str,
    why: SyncError,
) -> Result<(), AllocError> {
    match read_file(rt, path) {
        Err(error) => say_unread(rt, what, path, &error),
        Ok(bytes) => {
            let path = shown(rt.alloc(), path)?;
            let lead = format!(in rt.alloc(); "{what} {path}")?;
            say_line_fault(rt, config, lead.as_str(), bytes.as_slice(), why)
        }
    }
}

fn say_line_fault(
    rt: &HostRuntime,
    config: &Config,
    lead: &str,
    bytes: &[u8],
    why: SyncError,
) -> Result<(), AllocError> {
    match why {
        _ if bytes.is_empty() => say(rt, format!(in rt.alloc(); "{lead}: it is empty")?.as_str()),
        SyncError::ConfigDiffers => return say_digests(rt, config, lead, bytes),
        SyncError::NotCanonical(line) | SyncError::NotRising(line) | SyncError::Refused(line, _) =>
            return say_line(rt, lead, bytes, line),
        SyncError::Truncated => say(
            rt,
            format!(in rt.alloc(); "{lead}: it ends too early")?.as_str(),
        ),
        _ => return say_line(rt, lead, bytes, 1),
    }
    Ok(())
}

fn say_line(rt: &HostRuntime, lead: &str, bytes: &[u8], number: u64) -> Result<(), AllocError> {
    let line = line_at(bytes, number);
    let text = quoted(rt.alloc(), line)?;
    let end = if line.ends_with(b"\r") {
        ", and ends with a carriage return"
    } else {
        ""
    };
    say(
        rt,
        format!(in rt.alloc(); "{lead}: line {number} begins with {text}{end}")?.as_str(),
    );
    Ok(())
}

// The line of this number, from 1.
fn line_at(bytes: &[u8], number: u64) -> &[u8] {
    let mut rest = bytes;
    for _ in 1..number {
        rest = match rest.iter().position(|byte| *byte == b'\n') {
            Some(end) => &rest[end + 1..],
            None => return &rest[..0],
        };
    }
    match rest.iter().position(|byte| *byte == b'\n') {
        Some(end) => &rest[..end],
        None => rest,
    }
}

fn say_digests(
    rt: &HostRuntime,
    config: &Config,
    lead: &str,
    bytes: &[u8],
) -> Result<(), AllocError> {
    let own = config.digest();
    let first = Value::from_slice(rt.alloc(), line_at(bytes, 1));
    if let Ok(header) = first
        && let Some(digest) = header.get("config").and_then(Value::as_str)
    {
        let digest = shown(rt.alloc(), digest)?;
        say(
            rt,
            format!(in rt.alloc(); "{lead}: it is of configuration {digest}")?.as_str(),
        );
    }
    say(
        rt,
        format!(in rt.alloc(); "--config is configuration {own}")?.as_str(),
    );
    Ok(())
}

// ---- standard streams

/// Which standard stream failed, as far as the system still says.
pub(crate) fn say_stream(rt: &HostRuntime) -> Result<(), AllocError> {
    if let Err(error) = probe_input(rt) {
        return say_unread(rt, "standard input", "", &error);
    }
    say(
        rt,
        "standard output, or standard input, was not to be written or read",
    );
    Ok(())
}

// A folder is the only input whose error shows without reading.
fn probe_input(rt: &HostRuntime) -> io::Result<()> {
    if fs::metadata(rt, STANDARD_INPUT)?.is_dir() {
        return Err(io::Error::from(io::ErrorKind::IsADirectory));
    }
    Ok(())
}
