//! A short program for each thing that a program over the crates does: docs/LIBRARY.md shows them.
//! Standard input has the configuration, a line feed, and lines of receipts.
#![tactic(auto)]

mod asking;
mod chains;
mod distrusting;
mod example_error;
mod gossip;
mod observing;
mod polling;
mod sessions;
mod sharing;
mod snapshots;
mod taking;

use byte_lines::{FromRead, read_up_to};
use closure_core::Closure;
use example_error::ExampleError;
use fed_config::Config;
use std::alloc::Global;
use std::io;
use trust_closure::IndexedClosure;

fn main(rt: HostRuntime) -> io::Result<()> {
    let mut out = String::new(rt.alloc());
    match run(&rt, &mut out) {
        Ok(()) => print!(rt; "{out}"),
        Err(error) => println!(rt; "{error}"),
    }
}

fn run(rt: &HostRuntime, out: &mut String) -> Result<(), ExampleError> {
    let input = read_up_to(rt.alloc(), &mut FromRead::new(rt.stdin()), 1_000_000)?;
    let Some((config, lines)) = split_line(input.as_slice()) else {
        return Err(ExampleError::NoConfiguration);
    };
    let config = Config::read(rt.alloc(), config)?;
    run_all::<IndexedClosure>(rt.alloc(), &config, lines, out)
}

/// The first line, and what comes after it.
fn split_line(bytes: &[u8]) -> Option<(&[u8], &[u8])> {
    let end = bytes.iter().position(|&byte| byte == b'\n')?;
    let (line, rest) = bytes.split_at(end);
    Some((line, rest.get(1..)?))
}

fn run_all<C: Closure>(
    alloc: Global,
    config: &Config,
    lines: &[u8],
    out: &mut String,
) -> Result<(), ExampleError> {
    let mut closure: C = taking::replica_of(alloc, config, lines, out)?;
    asking::show(alloc, &closure, out)?;
    chains::show(alloc, &closure, out)?;
    polling::show(alloc, &closure, out)?;
    snapshots::show(alloc, &closure, out)?;
    sharing::show(alloc, &closure, out)?;
    gossip::show(alloc, &closure, out)?;
    sessions::show(alloc, &closure, out)?;
    observing::show(alloc, &mut closure, out)?;
    distrusting::show(alloc, &mut closure, out)
}
