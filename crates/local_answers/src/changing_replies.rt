//! The commands that change what is held. All memory for a reply and for the lines of the journal
//! is taken before the change: if any is refused, nothing has changed. Only what a distrust says
//! fell needs more after it: if that is refused, another reply says so.
ghost use Rattle.std.specs.Prelude.{◌≡◌, ◌↔◌, [], length, true, IfErr, IfOk, IfSome, IsNone};
ghost use Rattle.fedbundle.specs.CommandRun.{state_run};
ghost use Rattle.fedbundle.specs.Merge.{count_text};
ghost use Rattle.change_view.specs.declared.held_change.HeldChange.TheVariants.{Merge};
ghost use Rattle.local_answers.specs.Inside.ReplySteps.{IsObservedNow, IsOfKeys, SaysFallen};
ghost use Rattle.local_answers.specs.Inside.ReplySteps.{said_texts};
ghost use Rattle.local_answers.specs.Journalling.{RepliesChange};
ghost use Rattle.local_answers.specs.RequestRun.{AnswersMerge, AnswersObserve, EndsDistrust};
ghost use Rattle.local_answers.specs.RequestRun.{EndsMerge, EndsObserve, HasStreams};
ghost use Rattle.local_answers.specs.RequestRun.{SaysDistrusted, SaysEffect, change_run};
ghost use Rattle.local_answers.specs.RequestRun.{exit_of_unread, named_keys, unsaid_fall};

use crate::fallen_counts::{DomainCount, accepted_counts, fallen_count, fell_text};
use crate::new_lines::{line_of_receipt, lines_of_keys, lines_of_other};
use crate::reply::Reply;
use crate::shown_calls::in_memory;
use bundle_view::{Verdict, take_observed};
use byte_lines::{FromRead, FromWrite};
use change_view::{
    DistrustedKeys, HeldChange, NewEntries, ObservedBundle, is_now_current, observed_bundle,
};
use closure_core::Closure;
use command_exits::{CommandError, Exit};
use fedbundle::{
    GivenKeys, distrusted_text, prepare_observe, run_distrust, show_distrust, write_counted,
};
use jwk_set::KeyId;
use replica_sync::{SyncError, read_snapshot};
use spiffe_name::TrustDomain;
use std::alloc::{AllocError, Global};

pub(crate) fn observe<C: Closure>(
    alloc: Global,
    closure: &mut C,
    domain: &TrustDomain,
    verdict: &Verdict,
    input: &[u8],
) -> Result<Reply, Exit>
    ensures answers { IfOk result (λ reply. HasStreams (AnswersObserve
        (change_run (state_run (C.state closure.old) (C.state closure.new)) input.now)
        (record { domain = domain.now; verdict = verdict.now })) reply) }
    ensures journals { IfOk result (λ reply. RepliesChange reply
        (state_run (C.state closure.old) (C.state closure.new))) }
    ensures ends { IfErr result (EndsObserve
        (change_run (state_run (C.state closure.old) (C.state closure.new)) input.now)
        (record { domain = domain.now; verdict = verdict.now })) }
{
    let mut source = FromRead::new(input);
    let observed = match prepare_observe(alloc, closure, domain, verdict, &mut source) {
        Ok(observed) => observed,
        Err(error) => return Err(in_memory(error)),
    };
    let journal = line_of_receipt(alloc, closure, &observed.receipt)?;
    let made = observed_bundle(alloc, &observed.receipt)?;
    let mut reply = Reply::done(alloc, observed.line)?;
    match take_observed(closure, observed.receipt) {
        Ok(()) => {
            reply.change = observed_change(closure, journal.as_slice(), made);
            reply.journal = journal;
            Ok(reply)
        }
        Err(why) => Err(Exit::Refused(CommandError::Observe(why))),
    }
}

// What is reported of a bundle whose receipt is held now, if that has a line.
fn observed_change<C: Closure>(
    closure: &C,
    journal: &[u8],
    made: ObservedBundle,
) -> Option<HeldChange>
    ensures none { IsNone result ↔ (journal.now ≡ []) }
    ensures made { IfSome result
        (λ change. IsObservedNow (C.state closure.now).meaning made change) }
{
    if journal.is_empty() {
        return None;
    }
    let mut made = made;
    made.is_current = is_now_current(closure, &made);
    Some(HeldChange::Observe(made))
}

pub(crate) fn merge<C: Closure>(alloc: Global, closure: &mut C, input: &[u8]) -> Result<Reply, Exit>
    ensures answers { IfOk result (λ reply. HasStreams (AnswersMerge
        (change_run (state_run (C.state closure.old) (C.state closure.new)) input.now)) reply) }
    ensures journals { IfOk result (λ reply. RepliesChange reply
        (state_run (C.state closure.old) (C.state closure.new))) }
    ensures ends { IfErr result (EndsMerge
        (change_run (state_run (C.state closure.old) (C.state closure.new)) input.now)) }
{
    let mut source = FromRead::new(input);
    let other: C = match read_snapshot(alloc, closure.config(), &mut source) {
        Ok(other) => other,
        Err(why) => return Err(unread(why)),
    };
    let new = lines_of_other(alloc, closure, &other)?;
    let records = record_count(closure);
    let mut reply = Reply::done(alloc, count_line(alloc, new.receipts)?)?;
    match closure.merge(&other) {
        Ok(_) => {
            let entries = NewEntries {
                receipts: new.receipts,
                records: record_count(closure) - records,
            };
            reply.change = merged_change(new.text.as_slice(), entries);
            reply.journal = new.text;
            Ok(reply)
        }
        Err(why) => Err(Exit::Refused(CommandError::Take(why))),
    }
}

// The input is not a snapshot, or memory ran out. Bytes in memory never fail to be read.
fn unread(why: SyncError) -> Exit
    ensures { result ≡ exit_of_unread why }
{
    match why {
        SyncError::Io => Exit::Refused(CommandError::NoMemory),
        why => Exit::Refused(CommandError::Sync(why)),
    }
}

fn count_line(alloc: Global, count: u64) -> Result<Vec<u8>, AllocError>
    ensures { IfOk result (λ line. line.items ≡ count_text count) }
{
    let mut line = FromWrite::new(Vec::new(alloc));
    if write_counted(b"new ", count, &mut line).is_err() {
        return Err(AllocError);
    }
    Ok(line.into_inner())
}

// How many records of distrust are held.
fn record_count<C: Closure>(closure: &C) -> u64
    ensures { result ≡ length (C.state closure.now).meaning.records }
{
    closure.distrusts().count() as u64
}

// What is reported of a merge, if it has lines.
fn merged_change(journal: &[u8], new: NewEntries) -> Option<HeldChange>
    ensures none { IsNone result ↔ (journal.now ≡ []) }
    ensures merged { IfSome result (λ change. change ≡ Merge new) }
{
    if journal.is_empty() {
        return None;
    }
    Some(HeldChange::Merge(new))
}

// What else is to be said of keys that are distrusted.
#[derive(Clone, Copy, Debug, PartialEq, Eq)]
pub(crate) struct Sayings {
    // What they change.
    pub(crate) is_verbose: bool,
    // Which they are.
    pub(crate) names_keys: bool,
}

pub(crate) fn distrust<C: Closure>(
    alloc: Global,
    closure: &mut C,
    given: GivenKeys,
    sayings: Sayings,
) -> Result<Reply, Exit>
    ensures answers { IfOk result (λ reply. SaysDistrusted
        (state_run (C.state closure.old) (C.state closure.new)) given sayings reply) }
    ensures journals { IfOk result (λ reply. RepliesChange reply
        (state_run (C.state closure.old) (C.state closure.new))) }
    ensures ends { IfErr result
        (EndsDistrust (state_run (C.state closure.old) (C.state closure.new)) given) }
{
    let errors = said_of(alloc, closure, &given, sayings.is_verbose)?;
    let named = names_of(alloc, &given, sayings.names_keys)?;
    let lines = lines_of_keys(alloc, closure, &given)?;
    let before = accepted_counts(alloc, closure)?;
    let unsaid = Reply::of_streams(alloc, 0, Vec::new(alloc), unsaid_fall(alloc)?)?;
    run_distrust(alloc, closure, &given)?;
    let mut reply = match said_now(alloc, closure, before.as_slice(), named, errors) {
        Ok(reply) => reply,
        Err(_) => unsaid,
    };
    reply.change = distrusted_change(
        given.domain,
        lines.keys,
        fallen_count(closure, before.as_slice()),
    );
    reply.journal = lines.text;
    Ok(reply)
}

fn unsaid_fall(alloc: Global) -> Result<Vec<u8>, AllocError>
    ensures { IfOk result (λ line. line.items ≡ unsaid_fall) }
{
    Vec::from_slice(alloc, b"fedbundle: no memory to say what fell\n")
}

// Which keys they are, if that is to be said.
fn names_of(alloc: Global, given: &GivenKeys, names_keys: bool) -> Result<Vec<u8>, AllocError>
    ensures { IfOk result (λ text. text.items ≡ named_keys given.now names_keys) }
{
    if names_keys {
        distrusted_text(alloc, given)
    } else {
        Ok(Vec::new(alloc))
    }
}

// The reply with what fell since the domains had these counts.
fn said_now<C: Closure>(
    alloc: Global,
    closure: &C,
    before: &[DomainCount],
    named: Vec<u8>,
    errors: Vec<u8>,
) -> Result<Reply, AllocError>
    ensures { IfOk result (λ reply. SaysFallen (C.state closure.now).meaning before.now
        (said_texts named.items errors.items) reply) }
{
    let mut output = named;
    let fell = fell_text(alloc, closure, before)?;
    output.extend_from_slice(fell.as_slice())?;
    Reply::of_streams(alloc, 0, output, errors)
}

// What is reported of keys that are distrusted now and were not, if there are any.
fn distrusted_change(domain: TrustDomain, keys: Vec<KeyId>, fell: u64) -> Option<HeldChange>
    ensures none { IsNone result ↔ (keys.items ≡ []) }
    ensures keys { IfSome result (IsOfKeys domain keys.items) }
{
    if keys.is_empty() {
        return None;
    }
    Some(HeldChange::Distrust(DistrustedKeys { domain, keys, fell }))
}

// What distrusting the keys changes, if that is asked for.
fn said_of<C: Closure>(
    alloc: Global,
    closure: &C,
    given: &GivenKeys,
    is_verbose: bool,
) -> Result<Vec<u8>, AllocError>
    ensures { IfOk result (λ errors.
        SaysEffect (C.state closure.now).meaning given.now is_verbose errors.items) }
{
    if is_verbose {
        effect_of(alloc, closure, given)
    } else {
        Ok(Vec::new(alloc))
    }
}

/// What is said of what distrusting the keys changes: the text of [`show_distrust`], or a line that
/// there is no memory for it.
///
/// # Errors
/// Memory ran out also for that line.
pub fn effect_of<C: Closure>(
    alloc: Global,
    closure: &C,
    given: &GivenKeys,
) -> Result<Vec<u8>, AllocError>
    ensures { IfOk result (λ errors.
        SaysEffect (C.state closure.now).meaning given.now true errors.items) }
{
    let unsaid = Vec::from_slice(alloc, b"fedbundle: no memory to say what changes\n")?;
    let mut errors = FromWrite::new(Vec::new(alloc));
    match show_distrust(alloc, closure, given, &mut errors) {
        Ok(()) => Ok(errors.into_inner()),
        // That it cannot be said keeps no key from being distrusted. Records that are refused are
        // refused again when they are made.
        Err(_) => Ok(unsaid),
    }
}
