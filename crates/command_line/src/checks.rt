//! What a call is refused for, once its arguments are read: what its options say, before a file or
//! a replica is looked at.
ghost use Rattle.std.specs.Prelude.{◌≡◌, map, option_map};
ghost use Rattle.command_line.specs.Checks.{empty_path, flaw_of, is_empty_path, is_one_given};
ghost use Rattle.command_line.specs.Checks.{lacks_key};

use crate::command_name::{CommandName, OptionName, TakenOption};
use crate::option_error::OptionError;
use crate::option_texts::{given, is_text};
use crate::words::Call;

/// Why the call is refused for its options, if it is.
pub(crate) fn flaw_of(call: &Call<'_>) -> Option<OptionError>
    ensures { result ≡ flaw_of call.now.name
        (map (option_map (λ t. t.now)) call.now.texts.items) }
{
    match empty_path(call) {
        Some(option) => Some(OptionError::EmptyPath(option)),
        None if lacks_key(call) => Some(OptionError::Usage),
        None => None,
    }
}

// The first option that names a file or a socket and has an empty text.
fn empty_path(call: &Call<'_>) -> Option<OptionName>
    ensures { result ≡ empty_path call.now.name
        (map (option_map (λ t. t.now)) call.now.texts.items) }
{
    'options: for &taken in call.name.options() {
        if is_empty_path(call, taken) {
            return Some(taken.name());
        }
    }
    None
}

fn is_empty_path(call: &Call<'_>, taken: TakenOption) -> bool
    ensures { result ≡ is_empty_path call.now.name
        (map (option_map (λ t. t.now)) call.now.texts.items) taken }
{
    taken.name().is_path() && is_text(given(call, taken.name()), "")
}

// `distrust` wants a key or a public key, and not both.
fn lacks_key(call: &Call<'_>) -> bool
    ensures { result ≡ lacks_key call.now.name
        (map (option_map (λ t. t.now)) call.now.texts.items) }
{
    match call.name {
        CommandName::Distrust => !is_one_given(
            given(call, OptionName::Key),
            given(call, OptionName::PublicKey),
        ),
        _ => false,
    }
}

fn is_one_given(one: Option<&str>, other: Option<&str>) -> bool
    ensures { result ≡ is_one_given (option_map (λ t. t.now) one.entry)
        (option_map (λ t. t.now) other.entry) }
{
    match (one, other) {
        (Some(_), None) => true,
        (None, Some(_)) => true,
        (Some(_), Some(_)) => false,
        (None, None) => false,
    }
}
