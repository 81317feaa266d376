//! The values that the texts of options say, read.
ghost use Rattle.std.specs.Prelude.{◌≡◌, IfErr, IfOk, option_map};
ghost use Rattle.spiffe_name.specs.SpiffeId.{IsId, RefusesId};
ghost use Rattle.spiffe_name.specs.TrustDomain.{IsDomainText, RefusesDomain};
ghost use Rattle.spiffe_name.specs.declared.error.NameError.{NameError};
ghost use Rattle.fedbundle.specs.SaidValues.{SaysNoRecord, SaysNoVerdict, SaysRecord, SaysVerdict};
ghost use Rattle.fedbundle.specs.SaidValues.{SaysChosen, SaysNoName, texts_of_call};
ghost use Rattle.command_exits.specs.declared.error.CommandError.TheVariants.{Name};
ghost use Rattle.command_exits.specs.declared.exits.Exit.TheVariants.{Refused};

use bundle_view::Verdict;
use command_exits::{CommandError, Exit};
use command_line::{Call, OptionName, read_key, wanted};
use receipt_core::Distrust;
use spiffe_name::{SpiffeId, TrustDomain};
use std::alloc::Global;

/// The trust domain of this name.
///
/// # Errors
/// `Name` if it is not the name of a trust domain, or if memory ran out.
pub fn read_domain(alloc: Global, text: &str) -> Result<TrustDomain, Exit>
    ensures ok { IfOk result (λ domain. (domain ≡ text.now) × IsDomainText text.now) }
    ensures refused { IfErr result
        (λ exit. ((e : NameError) × (exit ≡ Refused (Name e)) × RefusesDomain text.now e)) }
{
    match TrustDomain::read(alloc, text) {
        Ok(domain) => Ok(domain),
        Err(error) => Err(Exit::Refused(CommandError::Name(error))),
    }
}

/// The trust domain of this name, or none without a name.
///
/// # Errors
/// As [`read_domain`] has them.
pub fn read_chosen(alloc: Global, text: Option<&str>) -> Result<Option<TrustDomain>, Exit>
    ensures ok { IfOk result (SaysChosen (option_map (λ t. t.now) text.entry)) }
    ensures refused { IfErr result (SaysNoName (option_map (λ t. t.now) text.entry)) }
{
    match text {
        Some(text) => Ok(Some(read_domain(alloc, text)?)),
        None => Ok(None),
    }
}

fn read_endpoint(alloc: Global, text: &str) -> Result<SpiffeId, Exit>
    ensures ok { IfOk result (λ endpoint. (endpoint.text ≡ text.now) × IsId endpoint) }
    ensures refused { IfErr result
        (λ exit. ((e : NameError) × (exit ≡ Refused (Name e)) × RefusesId text.now e)) }
{
    match SpiffeId::read(alloc, text) {
        Ok(endpoint) => Ok(endpoint),
        Err(why) => Err(Exit::Refused(CommandError::Name(why))),
    }
}

/// What TLS said, by `--endpoint` and `--key`, which are read in this order.
///
/// # Errors
/// - [`Exit::Usage`]: one of them is missing,
/// - [`Exit::Refused`] with `Name`: the endpoint is not a SPIFFE ID, or memory ran out,
/// - [`Exit::BadKey`]: `--key` is not a key id.
pub fn read_verdict(alloc: Global, call: &Call<'_>) -> Result<Verdict, Exit>
    ensures says { IfOk result (SaysVerdict call.now.name (texts_of_call call.now)) }
    ensures ends { IfErr result (SaysNoVerdict call.now.name (texts_of_call call.now)) }
{
    let endpoint = read_endpoint(alloc, wanted(call, OptionName::Endpoint)?)?;
    let key = read_key(wanted(call, OptionName::Key)?)?;
    Ok(Verdict { endpoint, key })
}

// The record of distrust, by `--domain` and `--key`, which are read in this order.
pub(crate) fn read_record(alloc: Global, call: &Call<'_>) -> Result<Distrust, Exit>
    ensures says { IfOk result (SaysRecord call.now.name (texts_of_call call.now)) }
    ensures ends { IfErr result (SaysNoRecord call.now.name (texts_of_call call.now)) }
{
    let domain = read_domain(alloc, wanted(call, OptionName::Domain)?)?;
    let key = read_key(wanted(call, OptionName::Key)?)?;
    Ok(Distrust { domain, key })
}
