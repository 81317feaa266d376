//! The texts of options that name a file, a socket or a number, read.
use byte_lines::FromRead;
use command_exits::{CommandError, Exit, read_config};
use command_line::{Call, OptionName, given, limits_given, read_sessions, wanted};
use fed_config::{Config, Limits};
use std::alloc::Global;
use std::fs::Files;
use std::os::unix::fs::FileTypeExt;
use std::{fs, io};

/// The file, to be read from its beginning. A pipe that has the name is refused: to open it would
/// wait for who writes into it.
pub fn file<R: Files>(files: &R, path: &str) -> Result<FromRead<R::File>, CommandError> {
    match fs::symlink_metadata(files, path) {
        Ok(there) if there.file_type().is_fifo() => return Err(CommandError::Io),
        _ => {}
    }
    match fs::open(files, path) {
        Ok(file) => Ok(FromRead::new(file)),
        Err(error) if error.kind() == io::ErrorKind::OutOfMemory => Err(CommandError::NoMemory),
        Err(_) => Err(CommandError::Io),
    }
}

/// The configuration in the file.
pub fn config<R: Files>(files: &R, alloc: Global, path: &str) -> Result<Config, CommandError> {
    read_config(alloc, &mut file(files, path)?)
}

/// The configuration in the file, with the limits that the arguments give it.
pub fn config_limited(rt: &HostRuntime, call: &Call<'_>, path: &str) -> Result<Config, Exit> {
    let limits = limits_of(call)?;
    let mut config = config(rt, rt.alloc(), path)?;
    config.set_limits(limits);
    Ok(config)
}

/// The same, or `None` if there is no such file.
pub fn config_there(rt: &HostRuntime, call: &Call<'_>, path: &str) -> Result<Option<Config>, Exit> {
    match fs::metadata(rt, path) {
        Err(error) if error.kind() == io::ErrorKind::NotFound => Ok(None),
        _ => Ok(Some(config_limited(rt, call, path)?)),
    }
}

/// The names, other than `localhost`, by which the address of the pages may be asked: without a
/// port, since any will do.
pub fn health_names<'a>(alloc: Global, call: &Call<'a>) -> Result<Vec<&'a str>, Exit> {
    let mut names = Vec::new(alloc);
    let Some(text) = given(call, OptionName::HealthHost) else {
        return Ok(names);
    };
    for name in text.split(',') {
        if name.is_empty() || name.contains(':') {
            return Err(Exit::BadAddress(OptionName::HealthHost));
        }
        if names.push(name).is_err() {
            return Err(Exit::Refused(CommandError::NoMemory));
        }
    }
    Ok(names)
}

/// How many sessions are served.
pub fn session_count(text: &str) -> Result<u32, Exit> {
    read_sessions(text).ok_or(Exit::BadNumber(OptionName::Sessions))
}

/// The configuration in the file that the arguments name, with the limits that they give it.
pub fn config_of(rt: &HostRuntime, call: &Call<'_>) -> Result<Config, Exit> {
    config_limited(rt, call, wanted(call, OptionName::Config)?)
}

// How much may be held, as the arguments say.
fn limits_of(call: &Call<'_>) -> Result<Limits, Exit> {
    let most = limits_given(call)?;
    Ok(Limits {
        receipts: most.receipts as usize,
        records: most.records as usize,
    })
}
