//! The keys that the arguments of `distrust` say.
ghost use Rattle.std.specs.Prelude.{◌≡◌, [], ◌∷◌, IfErr, IfOk};
ghost use Rattle.fedbundle.specs.SaidKeys.{SaysCheck, SaysKeys, SaysKeysWith, SaysNoKeys};
ghost use Rattle.fedbundle.specs.SaidKeys.{SaysNoKeysWith, SaysNoOneKey, SaysOneKey, keys_call};
ghost use Rattle.fedbundle.specs.SaidValues.{texts_of_call};

use crate::said_values::{read_domain, read_record};
use closure_core::Closure;
use command_exits::Exit;
use command_line::{Call, OptionName, given, is_flag_given, read_key, wanted};
use distrust_view::{GivenKeys, is_key_listed};
use key_view::keys_with;
use receipt_core::Distrust;
use std::alloc::{AllocError, Global};

/// Who keeps what is held.
#[derive(Clone, Copy, Debug, PartialEq, Eq)]
pub enum Keeper {
    /// Nobody: it is in files.
    Files,
    /// A running replica.
    Replica,
}

// Which keys may be distrusted.
#[derive(Clone, Copy, Debug, PartialEq, Eq)]
pub(crate) enum KeyCheck {
    Any,
    // Those that a bundle which is held or configured lists.
    Known,
}

/// The keys that `distrust` is about: the one of `--key`, or all known ones with the public key of
/// `--public-key`. The key of `--key` has to be known if `--unknown-key` is not given at a running
/// replica, or if `--known` is given over files. A known key is listed by a bundle of the domain,
/// which is held or configured.
///
/// # Errors
/// - [`Exit::Usage`]: a domain or a key is missing,
/// - [`Exit::Refused`] with `Name`: `--domain` is not a domain's name; or memory ran out,
/// - [`Exit::BadKey`]: `--key` or `--public-key` is not 64 lower-case hexadecimal digits,
/// - [`Exit::NoKnownKey`]: the key has to be known, and is not; or no known key has the public key.
pub fn read_given_keys<C: Closure>(
    alloc: Global,
    closure: &C,
    call: &Call<'_>,
    keeper: Keeper,
) -> Result<GivenKeys, Exit>
    ensures says { IfOk result
        (SaysKeys (keys_call call.now keeper (C.state closure.now).meaning)) }
    ensures ends { IfErr result
        (SaysNoKeys (keys_call call.now keeper (C.state closure.now).meaning)) }
{
    match given(call, OptionName::PublicKey) {
        Some(digits) => keys_of_public_key(alloc, closure, call, digits),
        None => one_key(alloc, closure, call, keeper),
    }
}

// All known keys with the public key.
fn keys_of_public_key<C: Closure>(
    alloc: Global,
    closure: &C,
    call: &Call<'_>,
    digits: &str,
) -> Result<GivenKeys, Exit>
    ensures says { IfOk result (SaysKeysWith digits.now call.now.name (texts_of_call call.now)
        (C.state closure.now).meaning) }
    ensures ends { IfErr result (SaysNoKeysWith digits.now call.now.name (texts_of_call call.now)
        (C.state closure.now).meaning) }
{
    let domain = read_domain(alloc, wanted(call, OptionName::Domain)?)?;
    let public_key = read_key(digits)?;
    let keys = keys_with(alloc, closure, &domain, &public_key.0)?;
    if keys.is_empty() {
        return Err(Exit::NoKnownKey);
    }
    Ok(GivenKeys { domain, keys })
}

// The key that is named.
fn one_key<C: Closure>(
    alloc: Global,
    closure: &C,
    call: &Call<'_>,
    keeper: Keeper,
) -> Result<GivenKeys, Exit>
    ensures says { IfOk result
        (SaysOneKey (keys_call call.now keeper (C.state closure.now).meaning)) }
    ensures ends { IfErr result
        (SaysNoOneKey (keys_call call.now keeper (C.state closure.now).meaning)) }
{
    let record = read_record(alloc, call)?;
    match check_of(call, keeper) {
        KeyCheck::Any => Ok(alone(alloc, record)?),
        KeyCheck::Known => {
            if is_key_listed(closure, &record.domain, &record.key) {
                Ok(alone(alloc, record)?)
            } else {
                Err(Exit::NoKnownKey)
            }
        }
    }
}

// Which keys the arguments let be distrusted.
fn check_of(call: &Call<'_>, keeper: Keeper) -> KeyCheck
    ensures { SaysCheck keeper call.now.name (texts_of_call call.now) result }
{
    match keeper {
        Keeper::Files if is_flag_given(given(call, OptionName::Known)) => KeyCheck::Known,
        Keeper::Files => KeyCheck::Any,
        Keeper::Replica if is_flag_given(given(call, OptionName::UnknownKey)) => KeyCheck::Any,
        Keeper::Replica => KeyCheck::Known,
    }
}

fn alone(alloc: Global, record: Distrust) -> Result<GivenKeys, AllocError>
    ensures { IfOk result
        (λ given. (given.domain ≡ record.domain) × (given.keys.items ≡ record.key ∷ [])) }
{
    let mut keys = Vec::new(alloc);
    keys.push(record.key)?;
    Ok(GivenKeys {
        domain: record.domain,
        keys,
    })
}
