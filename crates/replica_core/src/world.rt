//! Lists of events, played on replicas in memory, with one arm for each event.
ghost use Rattle.std.specs.Prelude.{IfOk, OnOk};
ghost use Rattle.replica_core.specs.World.{rules_of, run, AreOf, MeansState};
ghost use Rattle.replica_core.specs.Inside.ReplicasInMemory.{MeansEvent};

use crate::event::Event;
use crate::replicas_in_memory::{
    MemoryReplicas, absorb, answer, answer_receipts, answer_sums, ask, ask_sums, join, part,
    restart, revoke, save, start, take,
};
use closure_core::{Closure, NoMemory};
use fed_config::Config;
use std::alloc::Global;

/// Lets the events happen, one after another, to `n` replicas of one configuration, which hold
/// nothing at first, and answers what each then holds, by its number. It is a model of replicas
/// that talk: to try what may happen to them, and for tests. It is not made for speed.
///
/// An event that names no replica, or no message of its kind, changes nothing. The same is so of a
/// receipt or a record that does not fit the configuration, and of a gain by which a replica would
/// hold more than the limits of the configuration allow. Messages remain: an answer may be taken
/// late, more than once, in part, or never.
///
/// # Errors
/// Memory ran out, which ends the play.
pub fn run_world<C: Closure>(
    alloc: Global,
    config: &Config,
    n: usize,
    events: &[Event],
) -> Result<Vec<C>, NoMemory>
    ensures { IfOk result (λ closures. AreOf (MeansState (λ c. (C.state c).meaning) config.now) n
        closures.items (run (rules_of config.now n) events.now).now) }
{
    let mut replicas: MemoryReplicas<C> = start(alloc, config, n)?;
    for event in events {
        play(alloc, config, &mut replicas, event)?;
    }
    Ok(replicas.held)
}

fn play<C: Closure>(
    alloc: Global,
    config: &Config,
    replicas: &mut MemoryReplicas<C>,
    event: &Event,
) -> Result<(), NoMemory>
    ensures { OnOk result (MeansEvent (λ c. (C.state c).meaning) config.now replicas.old
        replicas.new event.now) }
{
    match event {
        Event::Take { replica, receipt } => take(alloc, config, replicas, *replica, receipt),
        Event::Revoke { replica, record } => revoke(alloc, config, replicas, *replica, record),
        Event::Ask { replica, bucket } => ask(alloc, replicas, *replica, *bucket),
        Event::Answer {
            replica,
            have: place,
        } => answer(alloc, replicas, *replica, *place),
        Event::AnswerReceipts {
            replica,
            have: place,
        } => answer_receipts(alloc, replicas, *replica, *place),
        Event::AskSums { replica } => ask_sums(replicas, *replica),
        Event::AnswerSums {
            replica,
            sums: place,
        } => answer_sums(replicas, *replica, *place),
        Event::Absorb {
            replica,
            give: place,
        } => absorb(alloc, config, replicas, *replica, *place),
        Event::Part {
            replica,
            give: place,
            count,
        } => part(alloc, config, replicas, *replica, *place, *count),
        Event::Join { replica, other } => join(alloc, replicas, *replica, *other),
        Event::Save { replica } => save(alloc, replicas, *replica),
        Event::Restart { replica } => restart(alloc, replicas, *replica),
    }
}
