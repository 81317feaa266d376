//! `merge`: what another replica holds, taken.
use crate::commands::state_writers::{Coming, change};
use crate::limited_reader::LimitedReader;
use crate::process::progress_mode;
use crate::state_access::{leave, room_left, state_access_of};
use byte_lines::FromRead;
use closure_core::Closure;
use command_exits::{CommandError, Exit};
use command_line::Call;
use fed_config::Config;
use progress_line::{LongWork, WatchedReader, WorkProgress};
use replica_sync::read_snapshot;
use std::io::Read;

/// Takes what the replica holds whose state file standard input has.
pub(crate) fn run<C: Closure>(
    rt: &HostRuntime,
    config: &Config,
    call: &Call<'_>,
) -> Result<u8, Exit> {
    let other: Result<C, Exit> = read_other(rt, config, room_left(rt, state_access_of(call)?));
    let changed = change(rt, config, call, &Coming::Replica(&other));
    leave(other);
    changed
}

fn read_other<C: Closure>(rt: &HostRuntime, config: &Config, most_bytes: u64) -> Result<C, Exit> {
    let mut limited = LimitedReader::new(rt.stdin(), most_bytes);
    match read_watched(rt, config, &mut limited) {
        Ok(other) => Ok(other),
        Err(_) if limited.has_passed() => Err(Exit::TooManyBytes),
        Err(error) => Err(Exit::Refused(error)),
    }
}

fn read_watched<C: Closure, R: Read>(
    rt: &HostRuntime,
    config: &Config,
    reader: &mut R,
) -> Result<C, CommandError> {
    let work = LongWork::ReadingOtherState;
    let mut progress = WorkProgress::begin(rt, rt.alloc(), work, progress_mode(rt));
    read_from(rt, config, &mut WatchedReader::new(reader, &mut progress))
}

fn read_from<C: Closure, R: Read>(
    rt: &HostRuntime,
    config: &Config,
    reader: &mut R,
) -> Result<C, CommandError> {
    Ok(read_snapshot(rt.alloc(), config, &mut FromRead::new(reader))?)
}
