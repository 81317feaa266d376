//! The addresses that options name, and at which a replica may listen.
ghost use Rattle.std.specs.Prelude.{◌≡◌, ◌↔◌, IfErr, IfOk, IsTrue};
ghost use Rattle.std.specs.Net.Grammar.{IsSocketText};
ghost use Rattle.command_line.specs.Addresses.{IsKnownAddress, IsNoAddress, IsUnknownAddress};
ghost use Rattle.command_line.specs.Addresses.{Listens, ListensNowhere, MayListen, said_by};
ghost use Rattle.command_line.specs.declared.command_name.OptionName.TheVariants.{Health, Listen};
ghost use Rattle.command_line.specs.declared.command_name.OptionName.TheVariants.{ListenAnywhere};
ghost use Rattle.command_line.specs.declared.option_error.OptionError.TheVariants.{BadAddress};

use crate::command_name::OptionName;
use crate::option_error::OptionError;
use crate::option_texts::{given, is_flag_given};
use crate::words::Call;
use std::net::SocketAddr;

/// The address that the text of the option names: an IP address and a port. At port 0 the system
/// chooses the port.
///
/// # Errors
/// `BadAddress` if the text is something else.
pub fn read_address(option: OptionName, text: &str) -> Result<SocketAddr, OptionError>
    ensures ok { IfOk result (IsSocketText text.now) }
    ensures refused { IfErr result (λ error. (error ≡ BadAddress option)
        × IsNoAddress text.now) }
{
    match text.parse::<SocketAddr>() {
        Ok(address) => Ok(address),
        Err(_) => Err(OptionError::BadAddress(option)),
    }
}

/// The same for a port that another program has to know, so it is not 0.
///
/// # Errors
/// `BadAddress` if the text is something else.
pub fn read_known_address(option: OptionName, text: &str) -> Result<SocketAddr, OptionError>
    ensures ok { IfOk result (IsKnownAddress text.now) }
    ensures refused { IfErr result (λ error. (error ≡ BadAddress option)
        × IsUnknownAddress text.now) }
{
    let address = read_address(option, text)?;
    if address.port() == 0 {
        return Err(OptionError::BadAddress(option));
    }
    Ok(address)
}

/// Whether a replica may listen there: only this machine reaches the address, or
/// `--listen-anywhere` is given. Whoever reaches it is given all that is held.
pub fn may_listen(call: &Call<'_>, address: SocketAddr) -> bool
    ensures { IsTrue result ↔ MayListen (said_by call.now ListenAnywhere) address }
{
    address.ip().is_loopback() || is_flag_given(given(call, OptionName::ListenAnywhere))
}

/// The address at which a replica listens for others, by `--listen`: with a known port.
///
/// # Errors
/// `BadAddress` if the text is something else, or the replica may not listen there.
pub fn listen_given(call: &Call<'_>) -> Result<Option<SocketAddr>, OptionError>
    ensures ok { IfOk result (Listens IsKnownAddress (said_by call.now ListenAnywhere)
        (said_by call.now Listen)) }
    ensures refused { IfErr result (λ error. (error ≡ BadAddress Listen)
        × ListensNowhere IsUnknownAddress IsKnownAddress (said_by call.now ListenAnywhere)
        (said_by call.now Listen)) }
{
    let Some(text) = given(call, OptionName::Listen) else {
        return Ok(None);
    };
    let address = read_known_address(OptionName::Listen, text)?;
    if may_listen(call, address) {
        Ok(Some(address))
    } else {
        Err(OptionError::BadAddress(OptionName::Listen))
    }
}

/// The address of a replica's pages, by `--health`.
///
/// # Errors
/// `BadAddress` if the text is something else, or the replica may not listen there.
pub fn health_given(call: &Call<'_>) -> Result<Option<SocketAddr>, OptionError>
    ensures ok { IfOk result (Listens IsSocketText (said_by call.now ListenAnywhere)
        (said_by call.now Health)) }
    ensures refused { IfErr result (λ error. (error ≡ BadAddress Health)
        × ListensNowhere IsNoAddress IsSocketText (said_by call.now ListenAnywhere)
        (said_by call.now Health)) }
{
    let Some(text) = given(call, OptionName::Health) else {
        return Ok(None);
    };
    let address = read_address(OptionName::Health, text)?;
    if may_listen(call, address) {
        Ok(Some(address))
    } else {
        Err(OptionError::BadAddress(OptionName::Health))
    }
}
