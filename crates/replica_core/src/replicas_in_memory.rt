//! What events do to replicas that are closures in memory.
ghost use Rattle.std.specs.Prelude.{◌≡◌, ℕ, ◌+◌, cond, nat_le, IfOk, OnOk};
ghost use Rattle.fed_config.specs.Configuration.{Configuration};
ghost use Rattle.replica_core.specs.State.{State, no_state};
ghost use Rattle.replica_core.specs.Session.{state_of, have_of};
ghost use Rattle.replica_core.specs.World.{World, empty_world, apply, gains, where_so, rules_of};
ghost use Rattle.replica_core.specs.World.{is_replica, at_replica, AreOf, MeansState};
ghost use Rattle.replica_core.specs.Inside.ReplicasInMemory.{Plays, MeansEvent};
ghost use Rattle.replica_core.specs.declared.event.Event.{Event};

use crate::asking::have;
use crate::grown_closures::{copied, gathered, grow, offer_receipt, offer_record};
use crate::have_message::Have;
use crate::message::{Message, are_sums, copy_give, copy_receipts, first, give_at, have_at};
use closure_core::{Closure, NoMemory};
use fed_config::Config;
use receipt_core::{Distrust, Receipt};
use std::alloc::{AllocError, Global};

/// What each replica holds and what it saved last, by its number, and every message that was sent.
#[derive(Drop)]
pub(crate) struct MemoryReplicas<C> {
    pub(crate) held: Vec<C>,
    pub(crate) saved: Vec<C>,
    pub(crate) sent: Vec<Message>,
}

/// This many replicas that hold nothing, before anything happens.
pub(crate) fn start<C: Closure>(
    alloc: Global,
    config: &Config,
    n: usize,
) -> Result<MemoryReplicas<C>, NoMemory>
    ensures { IfOk result (λ p. Plays (λ c. (C.state c).meaning) config.now n p empty_world) }
{
    Ok(MemoryReplicas {
        held: empty_closures(alloc, config, n)?,
        saved: empty_closures(alloc, config, n)?,
        sent: Vec::new(alloc),
    })
}

fn empty_closures<C: Closure>(alloc: Global, config: &Config, n: usize) -> Result<Vec<C>, NoMemory>
    ensures { IfOk result (λ v. AreOf (MeansState (λ c. (C.state c).meaning) config.now) n v.items
        (λ i. no_state)) }
{
    let mut closures = Vec::new(alloc);
    for _ in 0..n {
        closures.push(C::new(alloc, config)?)?;
    }
    Ok(closures)
}

/// What [`Event::Take`](crate::Event::Take) does.
pub(crate) fn take<C: Closure>(
    alloc: Global,
    config: &Config,
    replicas: &mut MemoryReplicas<C>,
    replica: usize,
    receipt: &Receipt,
) -> Result<(), NoMemory>
    ensures { OnOk result (MeansEvent (λ c. (C.state c).meaning) config.now replicas.old
        replicas.new (Event.Take replica receipt.now)) }
{
    let mut more = C::new(alloc, config)?;
    offer_receipt(alloc, &mut more, receipt)?;
    gain(replicas, replica, &more)
}

/// What [`Event::Revoke`](crate::Event::Revoke) does.
pub(crate) fn revoke<C: Closure>(
    alloc: Global,
    config: &Config,
    replicas: &mut MemoryReplicas<C>,
    replica: usize,
    distrust: &Distrust,
) -> Result<(), NoMemory>
    ensures { OnOk result (MeansEvent (λ c. (C.state c).meaning) config.now replicas.old
        replicas.new (Event.Revoke replica distrust.now)) }
{
    let mut more = C::new(alloc, config)?;
    offer_record(&mut more, distrust);
    gain(replicas, replica, &more)
}

/// What [`Event::Ask`](crate::Event::Ask) does.
pub(crate) fn ask<C: Closure>(
    alloc: Global,
    replicas: &mut MemoryReplicas<C>,
    replica: usize,
    bucket: u8,
) -> Result<(), NoMemory>
    ensures { (config : Configuration)
        → OnOk result (MeansEvent (λ c. (C.state c).meaning) config replicas.old replicas.new
        (Event.Ask replica bucket)) }
{
    let Some(closure) = replicas.held.get(replica) else {
        return Ok(());
    };
    let have = own_have(alloc, closure, bucket)?;
    replicas.sent.push(Message::Have {
        asker: replica,
        have,
    })?;
    Ok(())
}

// What the closure asks about the bucket. Nothing but lack of memory keeps it from asking.
fn own_have<C: Closure>(alloc: Global, closure: &C, bucket: u8) -> Result<Have, NoMemory>
    ensures { IfOk result (λ h. h ≡ have_of (C.state closure.now).meaning bucket) }
{
    match have(alloc, closure, bucket) {
        Ok(have) => Ok(have),
        Err(_) => Err(AllocError),
    }
}

/// What [`Event::Answer`](crate::Event::Answer) does.
pub(crate) fn answer<C: Closure>(
    alloc: Global,
    replicas: &mut MemoryReplicas<C>,
    replica: usize,
    place: usize,
) -> Result<(), NoMemory>
    ensures { (config : Configuration)
        → OnOk result (MeansEvent (λ c. (C.state c).meaning) config replicas.old replicas.new
        (Event.Answer replica place)) }
{
    let Some(closure) = replicas.held.get(replica) else {
        return Ok(());
    };
    let Some(have) = have_at(replicas.sent.as_slice(), place) else {
        return Ok(());
    };
    let content = copy_give(alloc, closure, have)?;
    replicas.sent.push(Message::Give {
        answerer: replica,
        place,
        content,
    })?;
    Ok(())
}

/// What [`Event::AnswerReceipts`](crate::Event::AnswerReceipts) does.
pub(crate) fn answer_receipts<C: Closure>(
    alloc: Global,
    replicas: &mut MemoryReplicas<C>,
    replica: usize,
    place: usize,
) -> Result<(), NoMemory>
    ensures { (config : Configuration)
        → OnOk result (MeansEvent (λ c. (C.state c).meaning) config replicas.old replicas.new
        (Event.AnswerReceipts replica place)) }
{
    let Some(closure) = replicas.held.get(replica) else {
        return Ok(());
    };
    let Some(have) = have_at(replicas.sent.as_slice(), place) else {
        return Ok(());
    };
    let content = copy_receipts(alloc, closure, have)?;
    replicas.sent.push(Message::Give {
        answerer: replica,
        place,
        content,
    })?;
    Ok(())
}

/// What [`Event::AskSums`](crate::Event::AskSums) does.
pub(crate) fn ask_sums<C: Closure>(
    replicas: &mut MemoryReplicas<C>,
    replica: usize,
) -> Result<(), NoMemory>
    ensures { (config : Configuration)
        → OnOk result (MeansEvent (λ c. (C.state c).meaning) config replicas.old replicas.new
        (Event.AskSums replica)) }
{
    if replica < replicas.held.len() {
        replicas.sent.push(Message::Sums { asker: replica })?;
    }
    Ok(())
}

/// What [`Event::AnswerSums`](crate::Event::AnswerSums) does.
pub(crate) fn answer_sums<C: Closure>(
    replicas: &mut MemoryReplicas<C>,
    replica: usize,
    place: usize,
) -> Result<(), NoMemory>
    ensures { (config : Configuration)
        → OnOk result (MeansEvent (λ c. (C.state c).meaning) config replicas.old replicas.new
        (Event.AnswerSums replica place)) }
{
    if replica < replicas.held.len() && are_sums(replicas.sent.as_slice(), place) {
        replicas.sent.push(Message::Marks {
            answerer: replica,
            place,
        })?;
    }
    Ok(())
}

/// What [`Event::Absorb`](crate::Event::Absorb) does.
pub(crate) fn absorb<C: Closure>(
    alloc: Global,
    config: &Config,
    replicas: &mut MemoryReplicas<C>,
    replica: usize,
    place: usize,
) -> Result<(), NoMemory>
    ensures { OnOk result (MeansEvent (λ c. (C.state c).meaning) config.now replicas.old
        replicas.new (Event.Absorb replica place)) }
{
    let Some(content) = give_at(replicas.sent.as_slice(), place) else {
        return Ok(());
    };
    let records = content.records.as_slice();
    let receipts = content.receipts.as_slice();
    let more: C = gathered(alloc, config, records, receipts)?;
    gain(replicas, replica, &more)
}

/// What [`Event::Part`](crate::Event::Part) does.
pub(crate) fn part<C: Closure>(
    alloc: Global,
    config: &Config,
    replicas: &mut MemoryReplicas<C>,
    replica: usize,
    place: usize,
    count: usize,
) -> Result<(), NoMemory>
    ensures { OnOk result (MeansEvent (λ c. (C.state c).meaning) config.now replicas.old
        replicas.new (Event.Part replica place count)) }
{
    let Some(content) = give_at(replicas.sent.as_slice(), place) else {
        return Ok(());
    };
    let records = content.records.as_slice();
    let receipts = content.receipts.as_slice();
    let others = count.saturating_sub(records.len());
    let more: C = gathered(
        alloc,
        config,
        first(records, count),
        first(receipts, others),
    )?;
    gain(replicas, replica, &more)
}

/// What [`Event::Join`](crate::Event::Join) does.
pub(crate) fn join<C: Closure>(
    alloc: Global,
    replicas: &mut MemoryReplicas<C>,
    replica: usize,
    other: usize,
) -> Result<(), NoMemory>
    ensures { (config : Configuration)
        → OnOk result (MeansEvent (λ c. (C.state c).meaning) config replicas.old replicas.new
        (Event.Join replica other)) }
{
    let Some(closure) = replicas.held.get(other) else {
        return Ok(());
    };
    let more = copied(alloc, closure)?;
    gain(replicas, replica, &more)
}

/// What [`Event::Save`](crate::Event::Save) does.
pub(crate) fn save<C: Closure>(
    alloc: Global,
    replicas: &mut MemoryReplicas<C>,
    replica: usize,
) -> Result<(), NoMemory>
    ensures { (config : Configuration)
        → OnOk result (MeansEvent (λ c. (C.state c).meaning) config replicas.old replicas.new
        (Event.Save replica)) }
{
    copy_at(alloc, &replicas.held, &mut replicas.saved, replica)
}

/// What [`Event::Restart`](crate::Event::Restart) does.
pub(crate) fn restart<C: Closure>(
    alloc: Global,
    replicas: &mut MemoryReplicas<C>,
    replica: usize,
) -> Result<(), NoMemory>
    ensures { (config : Configuration)
        → OnOk result (MeansEvent (λ c. (C.state c).meaning) config replicas.old replicas.new
        (Event.Restart replica)) }
{
    copy_at(alloc, &replicas.saved, &mut replicas.held, replica)
}

// The replica gains all that the closure holds, or nothing if it would be too much.
fn gain<C: Closure>(
    replicas: &mut MemoryReplicas<C>,
    replica: usize,
    more: &C,
) -> Result<(), NoMemory>
    ensures { (n : ℕ) (w : World) (config : Configuration)
        → (C.state more.now).meaning.config ≡ config
        → Plays (λ c. (C.state c).meaning) config n replicas.old w
        → OnOk result (Plays (λ c. (C.state c).meaning) config n replicas.new
        (apply (rules_of config n).limits w (where_so (is_replica (rules_of config n) replica)
        (gains replica (state_of (C.state more.now).meaning))))) }
{
    if replica < replicas.held.len() {
        grow(&mut replicas.held[replica], more)?;
    }
    Ok(())
}

// The closure at this place of the second list becomes a copy of the one of the first list.
fn copy_at<C: Closure>(
    alloc: Global,
    from: &Vec<C>,
    to: &mut Vec<C>,
    place: usize,
) -> Result<(), NoMemory>
    ensures { (config : Configuration) (n : ℕ) (given states : ℕ → State)
        → AreOf (MeansState (λ c. (C.state c).meaning) config) n from.now.items given
        → AreOf (MeansState (λ c. (C.state c).meaning) config) n to.old.items states
        → OnOk result (AreOf (MeansState (λ c. (C.state c).meaning) config) n to.new.items
        (cond (nat_le (place + 1) n) (at_replica place (given place) states) states)) }
{
    if place < from.len() && place < to.len() {
        to[place] = copied(alloc, &from[place])?;
    }
    Ok(())
}
