//! What is held, and which document vouches for which, by what the arguments of `list` and `graph`
//! say.
ghost use Rattle.std.specs.Prelude.{◌≡◌, false, option_copied};
ghost use Rattle.key_view.specs.KeysText.{IsKeysText};
ghost use Rattle.replica_view.specs.HeldJson.{IsHeldJson};
ghost use Rattle.replica_view.specs.HeldTexts.{IsHeldText};
ghost use Rattle.replica_view.specs.TrustGraph.{IsGraphText};
ghost use Rattle.command_exits.specs.DeviceRuns.{device_run};
ghost use Rattle.fedbundle.specs.Shown.{IsListIn, RunsWriter, ShowsGraph, ShowsList, keys_form};
ghost use Rattle.fedbundle.specs.Shown.{shown_call};

use crate::said_values::read_chosen;
use crate::shown::Shown;
use byte_lines::{Sink, write_all};
use closure_core::Closure;
use command_exits::{CommandError, Exit};
use command_line::{Call, OptionName, OutputForm, given, is_flag_given, read_output_form};
use key_view::{KeysForm, keys_text};
use replica_view::{write_graph, write_held, write_held_json};
use spiffe_name::TrustDomain;
use std::alloc::Global;

/// What is listed, and how.
#[derive(Clone, Copy, Debug)]
struct Listing {
    form: OutputForm,
    is_of_keys: bool,
}

/// Each receipt and each record of distrust, or what is known of each key; or those of a domain.
pub(crate) fn list<C: Closure, W: Sink>(
    alloc: Global,
    closure: &C,
    shown: Shown<'_, '_, '_>,
    sink: &mut W,
) -> Result<u8, Exit>
    ensures { ShowsList (shown_call shown.entry (C.state closure.now).meaning)
        (device_run W.contents W.has_failed sink.old sink.new) result }
{
    let form = read_output_form(given(shown.call, OptionName::Format))?;
    let is_of_keys = is_flag_given(given(shown.call, OptionName::Keys));
    let chosen = read_chosen(alloc, given(shown.call, OptionName::Domain))?;
    let listing = Listing { form, is_of_keys };
    list_in(alloc, closure, listing, chosen.as_ref(), sink)?;
    Ok(0)
}

/// Which document vouches for which, or what of it is of a domain.
pub(crate) fn graph<C: Closure, W: Sink>(
    alloc: Global,
    closure: &C,
    shown: Shown<'_, '_, '_>,
    sink: &mut W,
) -> Result<u8, Exit>
    ensures { ShowsGraph (shown_call shown.entry (C.state closure.now).meaning)
        (device_run W.contents W.has_failed sink.old sink.new) result }
{
    let chosen = read_chosen(alloc, given(shown.call, OptionName::Domain))?;
    graph_of(alloc, closure, chosen.as_ref(), sink)?;
    Ok(0)
}

fn list_in<C: Closure, W: Sink>(
    alloc: Global,
    closure: &C,
    listing: Listing,
    chosen: Option<&TrustDomain>,
    sink: &mut W,
) -> Result<(), CommandError>
    ensures { RunsWriter (IsListIn listing.is_of_keys listing.form (C.state closure.now).meaning
        (option_copied chosen.entry))
        (device_run W.contents W.has_failed sink.old sink.new) result }
{
    match listing.is_of_keys {
        true => keys_in(alloc, closure, listing.form, chosen, sink),
        false => held_in(alloc, closure, listing.form, chosen, sink),
    }
}

fn held_in<C: Closure, W: Sink>(
    alloc: Global,
    closure: &C,
    form: OutputForm,
    chosen: Option<&TrustDomain>,
    sink: &mut W,
) -> Result<(), CommandError>
    ensures { RunsWriter
        (IsListIn false form (C.state closure.now).meaning (option_copied chosen.entry))
        (device_run W.contents W.has_failed sink.old sink.new) result }
{
    match form {
        OutputForm::Text => held_text(alloc, closure, chosen, sink),
        OutputForm::Json => held_json(alloc, closure, chosen, sink),
    }
}

fn held_text<C: Closure, W: Sink>(
    alloc: Global,
    closure: &C,
    chosen: Option<&TrustDomain>,
    sink: &mut W,
) -> Result<(), CommandError>
    ensures { RunsWriter (IsHeldText (C.state closure.now).meaning (option_copied chosen.entry))
        (device_run W.contents W.has_failed sink.old sink.new) result }
{
    write_held(alloc, closure, chosen, sink)?;
    Ok(())
}

fn held_json<C: Closure, W: Sink>(
    alloc: Global,
    closure: &C,
    chosen: Option<&TrustDomain>,
    sink: &mut W,
) -> Result<(), CommandError>
    ensures { RunsWriter (IsHeldJson (C.state closure.now).meaning (option_copied chosen.entry))
        (device_run W.contents W.has_failed sink.old sink.new) result }
{
    write_held_json(alloc, closure, chosen, sink)?;
    Ok(())
}

fn keys_in<C: Closure, W: Sink>(
    alloc: Global,
    closure: &C,
    form: OutputForm,
    chosen: Option<&TrustDomain>,
    sink: &mut W,
) -> Result<(), CommandError>
    ensures { RunsWriter
        (IsKeysText (keys_form form) (C.state closure.now).meaning (option_copied chosen.entry))
        (device_run W.contents W.has_failed sink.old sink.new) result }
{
    let text = keys_text(alloc, closure, keys_form(form), chosen)?;
    write_all(sink, text.as_slice())?;
    Ok(())
}

fn keys_form(form: OutputForm) -> KeysForm
    ensures { result ≡ keys_form form }
{
    match form {
        OutputForm::Text => KeysForm::Lines,
        OutputForm::Json => KeysForm::Json,
    }
}

fn graph_of<C: Closure, W: Sink>(
    alloc: Global,
    closure: &C,
    chosen: Option<&TrustDomain>,
    sink: &mut W,
) -> Result<(), CommandError>
    ensures { RunsWriter (IsGraphText (C.state closure.now).meaning (option_copied chosen.entry))
        (device_run W.contents W.has_failed sink.old sink.new) result }
{
    write_graph(alloc, closure, chosen, sink)?;
    Ok(())
}
