//! Why the program ends, as further lines after the one that reports it: the file, the option or
//! the part of it that is wrong. An error keeps no more than numbers, so this looks a second time
//! at what the command was given, and only if these lines are wanted.
use crate::faults::fault_places::{say_bundle, say_config, say_state, say_stream};
use crate::process::options::config;
use crate::process::{is_verbose_for, print_exit, quoted, say, shown, words_of};
use command_exits::{CommandError, Exit, Step, SystemFault, status};
use command_line::{Call, CommandName, OptionName, given, may_listen, read_address};
use fed_config::Config;
use spiffe_name::{NameError, SpiffeId, TrustDomain};
use std::alloc::{AllocError, Global};
use std::io;

/// The exit status for lack of memory: then nothing is looked at again.
const OUT_OF_MEMORY: u8 = 4;

/// The exit status of what was done. An error is reported.
pub fn status_of(rt: &HostRuntime, call: &Call<'_>, done: Result<u8, Exit>) -> u8 {
    match done {
        Ok(status) => status,
        Err(exit) => {
            let ended = print_exit(rt, &exit);
            if is_verbose_for(rt, call) {
                // That memory ran out for it changes nothing.
                let _ = say_why(rt, call, &exit);
            }
            ended
        }
    }
}

/// The same for a command that was given these bytes as a bundle.
pub fn status_of_bundle(
    rt: &HostRuntime,
    call: &Call<'_>,
    done: Result<u8, Exit>,
    bytes: &[u8],
) -> u8 {
    let is_refused = done.is_err();
    let ended = status_of(rt, call, done);
    if is_verbose_for(rt, call) {
        // As above.
        let _ = say_bundle(rt, bytes, is_refused);
    }
    ended
}

fn say_why(rt: &HostRuntime, call: &Call<'_>, exit: &Exit) -> Result<(), AllocError> {
    match exit {
        Exit::EmptyPath(option) => say_option(rt, call, *option, "names no file"),
        Exit::BadNumber(OptionName::Peers) => say_option(
            rt,
            call,
            OptionName::Peers,
            "has more than 16 addresses",
        ),
        Exit::BadNumber(option) => say_option(rt, call, *option, "is no number of its range"),
        Exit::BadKey => say_option(rt, call, key_option(call), "is not 64 digits of 0-9a-f"),
        Exit::BadMoment => say_option(rt, call, OptionName::Now, "is no moment in Unix seconds"),
        Exit::BadAddress(option) => say_address(rt, call, *option),
        Exit::NoBundle | Exit::NotAccepted => say_domain(rt, call),
        Exit::NoKnownKey => say_option(rt, call, key_option(call), unknown_key(call)),
        Exit::Locked => say_lock(rt, call, "another command has it"),
        Exit::ReplicaRuns if given(call, OptionName::At).is_some() => say_option(
            rt,
            call,
            OptionName::With,
            "has a journal: the socket of its replica is to be named",
        ),
        Exit::ReplicaRuns => say_lock(rt, call, "a replica has it: --at asks that"),
        Exit::SocketTaken => say_option(
            rt,
            call,
            OptionName::Socket,
            "is no socket, or one on which another process listens",
        ),
        Exit::NoState => say_option(
            rt,
            call,
            missing_option(call),
            "is not there: `new` writes one that holds nothing",
        ),
        Exit::StateExists => say_option(rt, call, OptionName::State, "is there, or its journal is"),
        Exit::ReadOnly => say_option(rt, call, OptionName::At, "lets nobody change anything"),
        Exit::NoReplica => say_option(rt, call, OptionName::At, "has no replica that answers"),
        Exit::NoReply => say_option(
            rt,
            call,
            OptionName::At,
            "has a replica that did not answer in time",
        ),
        Exit::TooManyBytes => say_option(rt, call, OptionName::MostBytes, "would be passed"),
        Exit::System(fault) => say_system(rt, call, fault),
        Exit::Refused(error) => say_refusal(rt, call, error),
        Exit::Usage => {
            if call.name == CommandName::Distrust {
                say_keys(rt, call);
            }
            Ok(())
        }
    }
}

// The option that names a state: with `--at` it is the other side of `diff`.
fn missing_option(call: &Call<'_>) -> OptionName {
    match given(call, OptionName::At) {
        Some(_) => OptionName::With,
        None => OptionName::State,
    }
}

// The option that has the key, or the digest of a public key.
fn key_option(call: &Call<'_>) -> OptionName {
    match given(call, OptionName::PublicKey) {
        Some(_) => OptionName::PublicKey,
        None => OptionName::Key,
    }
}

fn unknown_key<'a>(call: &Call<'_>) -> &'a str {
    match given(call, OptionName::PublicKey) {
        Some(_) => "is that of no key that is known in the domain",
        None => "is not known in the domain",
    }
}

// `distrust` wants one of two options.
fn say_keys(rt: &HostRuntime, call: &Call<'_>) {
    match (
        given(call, OptionName::Key),
        given(call, OptionName::PublicKey),
    ) {
        (None, None) => say(rt, "distrust: --key is missing"),
        (Some(_), Some(_)) => say(rt, "distrust: --public-key may not stand beside --key"),
        _ => {}
    }
}

// The option, its text, and what is wrong with that.
fn say_option(
    rt: &HostRuntime,
    call: &Call<'_>,
    option: OptionName,
    why: &str,
) -> Result<(), AllocError> {
    let name = option.text();
    let line = match given(call, option) {
        Some(text) => {
            let text = quoted(rt.alloc(), text.as_bytes())?;
            format!(in rt.alloc(); "--{name} {text} {why}")?
        }
        None => format!(in rt.alloc(); "--{name} {why}")?,
    };
    say(rt, line.as_str());
    Ok(())
}

fn say_address(rt: &HostRuntime, call: &Call<'_>, option: OptionName) -> Result<(), AllocError> {
    if option == OptionName::HealthHost {
        return say_option(rt, call, option, "has an empty name or a port");
    }
    let why = match is_elsewhere(call, option) {
        true => "is not a loopback address: --listen-anywhere allows it",
        false => "is no IP address with a port, as 127.0.0.1:8471 or [::1]:8471",
    };
    say_option(rt, call, option, why)
}

// Whether the option names an address at which a replica may not listen.
fn is_elsewhere(call: &Call<'_>, option: OptionName) -> bool {
    let is_listening = matches!(option, OptionName::Listen | OptionName::Health);
    let address = read_address(option, given(call, option).unwrap_or(""));
    match address {
        Ok(address) if call.name == CommandName::Replica && is_listening => {
            !may_listen(call, address)
        }
        _ => false,
    }
}

fn say_lock(rt: &HostRuntime, call: &Call<'_>, why: &str) -> Result<(), AllocError> {
    let path = shown(rt.alloc(), state_path(call))?;
    say(
        rt,
        format!(in rt.alloc(); "lock {path}.lock: {why}")?.as_str(),
    );
    Ok(())
}

/// The path of the state file.
pub(crate) fn state_path<'a>(call: &Call<'a>) -> &'a str {
    given(call, OptionName::State).unwrap_or("")
}

// The addresses at which the command was to listen: a replica may do so at two.
fn listen_addresses(alloc: Global, call: &Call<'_>) -> Result<String, AllocError> {
    match (
        given(call, OptionName::Listen),
        given(call, OptionName::Health),
    ) {
        (Some(listen), Some(health)) => shown(
            alloc,
            format!(in alloc; "{listen} or {health}")?.as_str(),
        ),
        (listen, health) => shown(alloc, listen.or(health).unwrap_or("")),
    }
}

// The path of the socket: that of a replica that is asked, or that is to be one.
fn socket_path<'a>(call: &Call<'a>) -> &'a str {
    given(call, OptionName::At)
        .or(given(call, OptionName::Socket))
        .unwrap_or("")
}

fn say_system(rt: &HostRuntime, call: &Call<'_>, fault: &SystemFault) -> Result<(), AllocError> {
    let Some(code) = fault.code else {
        return Ok(());
    };
    let words = words_of(rt.alloc(), &io::Error::from_raw_os_error(code))?;
    let state = shown(rt.alloc(), state_path(call))?;
    let listen = listen_addresses(rt.alloc(), call)?;
    let peer = shown(rt.alloc(), given(call, OptionName::Peer).unwrap_or(""))?;
    let audit = shown(rt.alloc(), given(call, OptionName::Audit).unwrap_or(""))?;
    let socket = shown(rt.alloc(), socket_path(call))?;
    let line = match fault.step {
        Step::Lock => format!(in rt.alloc(); "lock {state}.lock: {words}")?,
        Step::See => format!(in rt.alloc(); "state {state}: {words}")?,
        Step::Save => format!(in rt.alloc(); "write {state}.new, and rename it: {words}")?,
        Step::Journal => format!(in rt.alloc(); "write {state}.journal: {words}")?,
        Step::Audit => format!(in rt.alloc(); "write {audit}: {words}")?,
        Step::Socket => format!(in rt.alloc(); "socket {socket}: {words}")?,
        Step::Listen => format!(in rt.alloc(); "listen {listen}: {words}")?,
        Step::Accept => format!(in rt.alloc(); "accept at {listen}: {words}")?,
        Step::Connect => format!(in rt.alloc(); "connect {peer}: {words}")?,
    };
    say(rt, line.as_str());
    Ok(())
}

fn say_refusal(rt: &HostRuntime, call: &Call<'_>, error: &CommandError) -> Result<(), AllocError> {
    match error {
        _ if status(error) == OUT_OF_MEMORY => Ok(()),
        CommandError::Name(why) => say_name(rt, call, *why),
        CommandError::Config(_) => {
            say_configs(rt, call)?;
            Ok(())
        }
        CommandError::Sync(_) | CommandError::Journal(_) => say_state(rt, call, error),
        CommandError::Pull(_) => say_option(rt, call, OptionName::Peer, "is where it came from"),
        CommandError::Observe(_) | CommandError::Take(_) => say_domain(rt, call),
        CommandError::Io => {
            if !say_configs(rt, call)? {
                say_stream(rt)?;
            }
            Ok(())
        }
        CommandError::Poll(_) => {
            say(rt, "standard input has the line");
            Ok(())
        }
        _ => Ok(()),
    }
}

// Each configuration that the arguments name and that is refused, and whether there is one.
fn say_configs(rt: &HostRuntime, call: &Call<'_>) -> Result<bool, AllocError> {
    let mut has_said = false;
    let options = [
        OptionName::Config,
        OptionName::Previous,
        OptionName::To,
        OptionName::With,
    ];
    'options: for option in options {
        let is_state = option == OptionName::With && call.name != CommandName::Config;
        if let Some(path) = given(call, option)
            && !is_state
        {
            has_said |= say_config(rt, option, path)?;
        }
    }
    Ok(has_said)
}

// The option whose text is refused with this cause.
fn say_name(rt: &HostRuntime, call: &Call<'_>, why: NameError) -> Result<(), AllocError> {
    let domains = [OptionName::Domain, OptionName::Allow];
    'options: for option in domains {
        if let Some(text) = given(call, option)
            && TrustDomain::read(rt.alloc(), text).err() == Some(why)
        {
            return say_option(rt, call, option, "is no trust domain name");
        }
    }
    match given(call, OptionName::Endpoint) {
        Some(text) if SpiffeId::read(rt.alloc(), text).err() == Some(why) => say_option(
            rt,
            call,
            OptionName::Endpoint,
            "is no SPIFFE ID",
        ),
        _ => Ok(()),
    }
}

// What the configuration says of the domain.
fn say_domain(rt: &HostRuntime, call: &Call<'_>) -> Result<(), AllocError> {
    let (Some(path), Some(domain)) = (
        given(call, OptionName::Config),
        given(call, OptionName::Domain),
    ) else {
        return Ok(());
    };
    let Ok(config) = config(rt, rt.alloc(), path) else {
        return Ok(());
    };
    let path = shown(rt.alloc(), path)?;
    say_domain_of(rt, call, &config, path.as_str(), domain)
}

fn say_domain_of(
    rt: &HostRuntime,
    call: &Call<'_>,
    config: &Config,
    path: &str,
    text: &str,
) -> Result<(), AllocError> {
    let Ok(domain) = TrustDomain::read(rt.alloc(), text) else {
        return Ok(());
    };
    let line = match (config.relationship(&domain), config.domain_no(&domain)) {
        (Some(relationship), _) => {
            let endpoint = relationship.endpoint.as_str();
            format!(in rt.alloc(); "config {path}: the endpoint of {text} is {endpoint}")?
        }
        (None, Some(_)) => format!(in rt.alloc(); "config {path}: {text} has no relationship")?,
        (None, None) => format!(in rt.alloc(); "config {path}: {text} does not occur")?,
    };
    say(rt, line.as_str());
    if let Some(endpoint) = given(call, OptionName::Endpoint) {
        let endpoint = quoted(rt.alloc(), endpoint.as_bytes())?;
        say(
            rt,
            format!(in rt.alloc(); "--endpoint is {endpoint}")?.as_str(),
        );
    }
    Ok(())
}
