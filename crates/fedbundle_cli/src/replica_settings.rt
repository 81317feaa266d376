// `replica`: what the arguments say of it, read, and the replica run.
use command_exits::{CommandError, Exit};
use command_line::{
    Call, OptionName, VERSION, every_given, given, health_given, is_flag_given, listen_given,
    manner_of, read_known_address, request_bytes_given, wanted, warn_times_given,
};
use fed_config::Config;
use progress_line::ProgressMode;
use replica_loop::{Settings, run_replica};
use state_files::GivenConfigs;
use std::alloc::Global;
use std::net::SocketAddr;
use std::time::Duration;
use subcommands::process::{options, progress_mode, warn_of_anywhere};

/// From how many replicas one pulls at most.
const MOST_PEERS: usize = 16;

/// Runs the replica until it is asked to end.
pub(crate) fn run(rt: &HostRuntime, config: Config, call: &Call<'_>) -> Result<u8, Exit> {
    let configs = configs_of(rt, config, call)?;
    let lists = GivenLists {
        peers: peers_of(rt.alloc(), given(call, OptionName::Peers))?,
        names: options::health_names(rt.alloc(), call)?,
    };
    let settings = settings_of(call, &lists, progress_mode(rt))?;
    for address in [settings.listen, settings.health].into_iter().flatten() {
        warn_of_anywhere(rt, address);
    }
    run_replica(rt, &configs, &settings)?;
    Ok(0)
}

// The configuration that is changed from is left out if its file is missing, or if it is the same.
// Both have the limits that the arguments say.
fn configs_of(rt: &HostRuntime, next: Config, call: &Call<'_>) -> Result<GivenConfigs, Exit> {
    let previous = match given(call, OptionName::Previous) {
        Some(path) => options::config_there(rt, call, path)?,
        None => None,
    };
    let digest = next.digest();
    Ok(GivenConfigs {
        next,
        previous: previous.filter(|config| config.digest() != digest),
    })
}

// The lists of the arguments: from whom it pulls, and by which names its pages may be asked.
#[derive(Drop)]
struct GivenLists<'a> {
    peers: Vec<SocketAddr>,
    names: Vec<&'a str>,
}

fn settings_of<'a, 'p>(
    call: &Call<'a>,
    lists: &'p GivenLists<'a>,
    progress: ProgressMode,
) -> Result<Settings<'a, 'p>, Exit> {
    let manner = manner_of(call)?;
    Ok(Settings {
        state: wanted(call, OptionName::State)?,
        socket: wanted(call, OptionName::Socket)?,
        read_socket: given(call, OptionName::ReadSocket),
        audit: given(call, OptionName::Audit),
        listen: listen_given(call)?,
        health: health_given(call)?,
        health_names: lists.names.as_slice(),
        warn_times: warn_times_given(call)?,
        version: first_line(VERSION),
        peers: lists.peers.as_slice(),
        every: Duration::from_secs(every_given(call)?),
        most_bytes: manner.most_bytes,
        most_request_bytes: request_bytes_given(call)?,
        is_new: is_flag_given(given(call, OptionName::New)),
        is_verbose: manner.is_verbose,
        progress,
    })
}

fn peers_of(alloc: Global, text: Option<&str>) -> Result<Vec<SocketAddr>, Exit> {
    let mut peers = Vec::new(alloc);
    let Some(text) = text else {
        return Ok(peers);
    };
    for address in text.split(',') {
        if peers.len() == MOST_PEERS {
            return Err(Exit::BadNumber(OptionName::Peers));
        }
        let address = read_known_address(OptionName::Peers, address)?;
        if peers.push(address).is_err() {
            return Err(Exit::Refused(CommandError::NoMemory));
        }
    }
    Ok(peers)
}

// The first line of the text, without its end.
fn first_line(text: &'static str) -> &'static str {
    match text.split_once('\n') {
        Some((line, _)) => line,
        None => text,
    }
}
