//! `distrust`: keys that vouch for nothing any more, and what that changes.
ghost use Rattle.std.specs.Prelude.{◌≡◌, ◌++◌, IfOk, IsErrOf, OnOk, flat_map};
ghost use Rattle.command_exits.specs.DeviceRuns.{device_run};
ghost use Rattle.fedbundle.specs.Distrust.{RunsDistrust, SaysWhatChanges, ShowsDistrust};
ghost use Rattle.fedbundle.specs.Distrust.{distrusted_line, given_key_lines, given_records};
ghost use Rattle.fedbundle.specs.Distrust.{records_for};
ghost use Rattle.fedbundle.specs.Inside.Refusals.{records_refusal};
ghost use Rattle.command_exits.specs.declared.error.CommandError.TheVariants.{Io};

use byte_lines::{Sink, push_digits, write_all};
use closure_core::Closure;
use command_exits::CommandError;
use distrust_view::{GivenKeys, distrust_effect_text};
use jwk_set::KeyId;
use key_view::same_keys_text;
use receipt_core::Distrust;
use replica_core::{Give, SyncError, absorb};
use spiffe_name::TrustDomain;
use std::alloc::{AllocError, Global};

/// Distrusts all the keys in their domain, also those that were distrusted before, or none.
///
/// # Errors
/// What is held is as it was.
/// - `Take` with `UnknownDomain`: the configuration does not have the domain,
/// - `Take` with `Full`: no more records may be held,
/// - `NoMemory`: memory ran out.
pub fn run_distrust<C: Closure>(
    alloc: Global,
    closure: &mut C,
    given: &GivenKeys,
) -> Result<(), CommandError>
    ensures { RunsDistrust (C.state closure.old).meaning given.now (C.state closure.new).meaning
        result }
{
    let records = records_of(alloc, &given.domain, given.keys.as_slice())?;
    let give = Give::new(0, closure.config().digest(), records, Vec::new(alloc));
    match absorb(closure, give) {
        Ok(_) => Ok(()),
        Err(why) => Err(records_refusal(why)),
    }
}

// An answer of this configuration without receipts is refused for a record, or for lack of memory.
fn records_refusal(why: SyncError) -> CommandError
    ensures { result ≡ records_refusal why }
{
    match why {
        SyncError::Refused(_, why) => CommandError::Take(why),
        _ => CommandError::NoMemory,
    }
}

fn records_of(
    alloc: Global,
    domain: &TrustDomain,
    keys: &[KeyId],
) -> Result<Vec<Distrust>, AllocError>
    ensures { IfOk result (λ records. records.items ≡ records_for domain.now keys.now) }
{
    let mut records = Vec::with_capacity(alloc, keys.len())?;
    for key in keys {
        let domain = domain.try_clone(alloc)?;
        records.push(Distrust { domain, key: *key })?;
    }
    Ok(records)
}

/// Writes what the records for these keys would change, and changes nothing: they are made in a
/// copy of what is held. [`distrust_effect_text`] says which lines there are; those of
/// [`same_keys_text`] follow, of what would be held.
///
/// # Errors
/// `Take` as [`run_distrust`] has it, or `NoMemory` if memory ran out: then nothing was written.
/// `Io` if the sink failed: it holds a beginning of the text.
pub fn show_distrust<C: Closure, W: Sink>(
    alloc: Global,
    closure: &C,
    given: &GivenKeys,
    sink: &mut W,
) -> Result<(), CommandError>
    ensures shows { ShowsDistrust (C.state closure.now).meaning given.now
        (device_run W.contents W.has_failed sink.old sink.new) result }

    // If no error of the sink is reported, none was passed over.
    ensures sink_sound { (IsErrOf result Io → ⊥) → W.has_failed sink.new ≡ W.has_failed sink.old }
{
    let mut after = copy_of(alloc, closure)?;
    run_distrust(alloc, &mut after, given)?;
    let text = what_changes(alloc, closure, &after, given)?;
    write_all(sink, text.as_slice())?;
    Ok(())
}

// What changes from what is held before to what is held after.
fn what_changes<C: Closure>(
    alloc: Global,
    before: &C,
    after: &C,
    given: &GivenKeys,
) -> Result<Vec<u8>, AllocError>
    ensures { IfOk result (λ text. SaysWhatChanges (C.state before.now).meaning
        (C.state after.now).meaning given.now text.items) }
{
    let mut text = distrust_effect_text(alloc, before, after, given)?;
    let same = same_keys_text(alloc, after, &given.domain)?;
    text.extend_from_slice(same.as_slice())?;
    Ok(text)
}

// A closure that means the same.
fn copy_of<C: Closure>(alloc: Global, closure: &C) -> Result<C, AllocError>
    ensures { IfOk result (λ copy. (C.state copy).meaning ≡ (C.state closure.now).meaning) }
{
    closure_core::laws::merges();
    let mut copy = C::new(alloc, closure.config())?;
    match copy.merge(closure) {
        Ok(_) => Ok(copy),
        // What is held fits its own configuration, so nothing but memory was lacking.
        Err(_) => Err(AllocError),
    }
}

/// A line `distrusted <key id>` for each of the keys.
///
/// # Errors
/// Memory ran out.
pub fn distrusted_text(alloc: Global, given: &GivenKeys) -> Result<Vec<u8>, AllocError>
    ensures { IfOk result (λ text. text.items ≡ given_key_lines given.now) }
{
    let mut text = Vec::new(alloc);
    push_distrusted_keys(&mut text, given.keys.as_slice())?;
    Ok(text)
}

fn push_distrusted_keys(text: &mut Vec<u8>, keys: &[KeyId]) -> Result<(), AllocError>
    ensures { OnOk result
        (text.new.items ≡ text.old.items ++ flat_map distrusted_line keys.now) }
{
    for key in keys {
        push_distrusted(text, key)?;
    }
    Ok(())
}

fn push_distrusted(text: &mut Vec<u8>, key: &KeyId) -> Result<(), AllocError>
    ensures { OnOk result (text.new.items ≡ text.old.items ++ distrusted_line key.now) }
{
    text.extend_from_slice(b"distrusted ")?;
    push_digits(text, &key.0)?;
    text.extend_from_slice(b"\n")?;
    Ok(())
}
