//! A change as the line of an event, and as a line of the audit file.
ghost use Rattle.std.specs.Prelude.{◌≡◌, ◌++◌, OnOk, Some, codes};
ghost use Rattle.json_text.specs.JsonText.{string_member};
ghost use Rattle.change_view.specs.ChangeTexts.{audit_line, change_members, distrust_event};
ghost use Rattle.change_view.specs.ChangeTexts.{distrust_pairs, document_members, document_pairs};
ghost use Rattle.change_view.specs.ChangeTexts.{held_members, key_list, keys_member};
ghost use Rattle.change_view.specs.ChangeTexts.{voucher_members, voucher_pairs};
ghost use Rattle.change_view.specs.ChangeTexts.{distrust_members, event_text, new_entries};
ghost use Rattle.change_view.specs.ChangeTexts.{new_members, observe_event, observe_members};
ghost use Rattle.change_view.specs.ChangeTexts.{start_line, current_word};

use crate::held_change::{DistrustedKeys, HeldChange, NewEntries, ObservedBundle};
use byte_lines::{push_digits, push_number};
use json_text::{push_comma, push_digest, push_optional, push_string, push_truth};
use jwk_set::KeyId;
use spiffe_name::TrustDomain;
use std::alloc::{AllocError, Global};
use text_lines::push_number_or_none;

/// Adds the text of the event, without a line feed.
///
/// # Errors
/// Memory ran out. Nothing is said then of what is there.
pub fn push_event(out: &mut Vec<u8>, change: &HeldChange) -> Result<(), AllocError>
    ensures { OnOk result (out.new.items ≡ out.old.items ++ event_text change.now) }
{
    match change {
        HeldChange::Observe(observed) => push_observed(out, observed),
        HeldChange::Distrust(distrusted) => push_distrusted(out, distrusted),
        HeldChange::Merge(new) => {
            out.extend_from_slice(b"event=merge")?;
            push_new(out, *new)
        }
        HeldChange::Pull(peer, new) => push_pulled(out, peer.as_str(), *new),
    }
}

fn push_observed(out: &mut Vec<u8>, observed: &ObservedBundle) -> Result<(), AllocError>
    ensures { OnOk result (out.new.items ≡ out.old.items ++ observe_event observed.now) }
{
    out.extend_from_slice(b"event=observe domain=")?;
    push_document_pairs(out, observed)?;
    push_voucher_pairs(out, observed)?;
    Ok(())
}

#[tactic(auto, unfolding(crate::specs::ChangeTexts::document_pairs))]
fn push_document_pairs(out: &mut Vec<u8>, observed: &ObservedBundle) -> Result<(), AllocError>
    ensures { OnOk result (out.new.items ≡ out.old.items ++ document_pairs observed.now) }
{
    push_domain(out, &observed.domain)?;
    out.extend_from_slice(b" document=")?;
    push_digits(out, &observed.document.0)?;
    out.extend_from_slice(b" sequence=")?;
    push_number_or_none(out, observed.sequence)
}

#[tactic(auto, unfolding(crate::specs::ChangeTexts::voucher_pairs))]
fn push_voucher_pairs(out: &mut Vec<u8>, observed: &ObservedBundle) -> Result<(), AllocError>
    ensures { OnOk result (out.new.items ≡ out.old.items ++ voucher_pairs observed.now) }
{
    out.extend_from_slice(b" key=")?;
    push_digits(out, &observed.key.0)?;
    out.extend_from_slice(b" voucher=")?;
    push_digits(out, &observed.voucher.0)?;
    out.extend_from_slice(b" current=")?;
    push_yes_or_no(out, observed.is_current)
}

fn push_domain(out: &mut Vec<u8>, domain: &TrustDomain) -> Result<(), AllocError>
    ensures { OnOk result (out.new.items ≡ out.old.items ++ domain.now) }
{
    out.extend_from_slice(domain.as_str().as_bytes())
}

fn push_yes_or_no(out: &mut Vec<u8>, is_so: bool) -> Result<(), AllocError>
    ensures { OnOk result (out.new.items ≡ out.old.items ++ current_word is_so) }
{
    if is_so {
        out.extend_from_slice(b"yes")
    } else {
        out.extend_from_slice(b"no")
    }
}

fn push_distrusted(out: &mut Vec<u8>, distrusted: &DistrustedKeys) -> Result<(), AllocError>
    ensures { OnOk result (out.new.items ≡ out.old.items ++ distrust_event distrusted.now) }
{
    out.extend_from_slice(b"event=distrust domain=")?;
    push_distrust_pairs(out, distrusted)?;
    Ok(())
}

#[tactic(auto, unfolding(crate::specs::ChangeTexts::distrust_pairs))]
fn push_distrust_pairs(out: &mut Vec<u8>, distrusted: &DistrustedKeys) -> Result<(), AllocError>
    ensures { OnOk result (out.new.items ≡ out.old.items ++ distrust_pairs distrusted.now) }
{
    push_domain(out, &distrusted.domain)?;
    out.extend_from_slice(b" key=")?;
    push_keys(out, distrusted.keys.as_slice())?;
    out.extend_from_slice(b" fell=")?;
    push_number(out, distrusted.fell)
}

// Adds the digits of all keys, with a comma between two.
fn push_keys(out: &mut Vec<u8>, keys: &[KeyId]) -> Result<(), AllocError>
    ensures { OnOk result (out.new.items ≡ out.old.items ++ key_list keys.now) }
{
    let mut later = false;
    for key in keys {
        push_comma(out, later)?;
        push_digits(out, &key.0)?;
        later = true;
    }
    Ok(())
}

fn push_pulled(out: &mut Vec<u8>, peer: &str, new: NewEntries) -> Result<(), AllocError>
    ensures { OnOk result (out.new.items
        ≡ out.old.items ++ (codes "event=pull peer=" ++ (peer.now ++ new_entries new))) }
{
    out.extend_from_slice(b"event=pull peer=")?;
    out.extend_from_slice(peer.as_bytes())?;
    push_new(out, new)?;
    Ok(())
}

#[tactic(auto, unfolding(crate::specs::ChangeTexts::new_entries))]
fn push_new(out: &mut Vec<u8>, new: NewEntries) -> Result<(), AllocError>
    ensures { OnOk result (out.new.items ≡ out.old.items ++ new_entries new) }
{
    out.extend_from_slice(b" new=")?;
    push_number(out, new.receipts)?;
    out.extend_from_slice(b" records=")?;
    push_number(out, new.records)
}

/// Adds a line of the audit file, with its line feed: the Unix second, the change, and the SHA-256
/// of the last line that the journal gets for it, without the line feed.
///
/// # Errors
/// Memory ran out. Nothing is said then of what is there.
pub(crate) fn push_audit_line(
    alloc: Global,
    out: &mut Vec<u8>,
    moment: u64,
    change: &HeldChange,
    last: &[u8; 32],
) -> Result<(), AllocError>
    ensures { OnOk result
        (out.new.items ≡ out.old.items ++ audit_line moment change.now last.now) }
{
    out.extend_from_slice(b"{\"at\":")?;
    push_number(out, moment)?;
    push_members(alloc, out, change)?;
    push_digest(out, b",\"last\":", last)?;
    out.extend_from_slice(b"}\n")
}

fn push_members(alloc: Global, out: &mut Vec<u8>, change: &HeldChange) -> Result<(), AllocError>
    ensures { OnOk result (out.new.items ≡ out.old.items ++ change_members change.now) }
{
    match change {
        HeldChange::Observe(observed) => push_observed_members(alloc, out, observed),
        HeldChange::Distrust(distrusted) => push_distrusted_members(alloc, out, distrusted),
        HeldChange::Merge(new) => push_merged_members(out, *new),
        HeldChange::Pull(peer, new) => push_pulled_members(alloc, out, peer.as_str(), *new),
    }
}

fn push_observed_members(
    alloc: Global,
    out: &mut Vec<u8>,
    observed: &ObservedBundle,
) -> Result<(), AllocError>
    ensures { OnOk result (out.new.items ≡ out.old.items ++ observe_members observed.now) }
{
    push_document_members(alloc, out, observed)?;
    push_voucher_members(out, observed)
}

fn push_document_members(
    alloc: Global,
    out: &mut Vec<u8>,
    observed: &ObservedBundle,
) -> Result<(), AllocError>
    ensures { OnOk result (out.new.items ≡ out.old.items ++ document_members observed.now) }
{
    push_string(
        alloc,
        out,
        b",\"event\":\"observe\",\"domain\":",
        observed.domain.as_str(),
    )?;
    push_digest(out, b",\"document\":", &observed.document.0)?;
    push_optional(out, b",\"sequence\":", observed.sequence)?;
    Ok(())
}

#[tactic(auto, unfolding(crate::specs::ChangeTexts::voucher_members))]
fn push_voucher_members(out: &mut Vec<u8>, observed: &ObservedBundle) -> Result<(), AllocError>
    ensures { OnOk result (out.new.items ≡ out.old.items ++ voucher_members observed.now) }
{
    push_digest(out, b",\"key\":", &observed.key.0)?;
    push_digest(out, b",\"voucher\":", &observed.voucher.0)?;
    push_truth(out, b",\"current\":", observed.is_current)
}

fn push_distrusted_members(
    alloc: Global,
    out: &mut Vec<u8>,
    distrusted: &DistrustedKeys,
) -> Result<(), AllocError>
    ensures { OnOk result (out.new.items ≡ out.old.items ++ distrust_members distrusted.now) }
{
    push_string(
        alloc,
        out,
        b",\"event\":\"distrust\",\"domain\":",
        distrusted.domain.as_str(),
    )?;
    push_keys_member(out, distrusted.keys.as_slice())?;
    push_optional(out, b",\"fell\":", Some(distrusted.fell))?;
    Ok(())
}

#[tactic(auto, unfolding(crate::specs::ChangeTexts::keys_member))]
fn push_keys_member(out: &mut Vec<u8>, keys: &[KeyId]) -> Result<(), AllocError>
    ensures { OnOk result (out.new.items ≡ out.old.items ++ keys_member keys.now) }
{
    out.extend_from_slice(b",\"key\":\"")?;
    push_keys(out, keys)?;
    out.extend_from_slice(b"\"")
}

fn push_merged_members(out: &mut Vec<u8>, new: NewEntries) -> Result<(), AllocError>
    ensures { OnOk result (out.new.items
        ≡ out.old.items ++ (codes ",\"event\":\"merge\"" ++ new_members new)) }
{
    out.extend_from_slice(b",\"event\":\"merge\"")?;
    push_new_members(out, new)?;
    Ok(())
}

fn push_pulled_members(
    alloc: Global,
    out: &mut Vec<u8>,
    peer: &str,
    new: NewEntries,
) -> Result<(), AllocError>
    ensures { OnOk result (out.new.items ≡ out.old.items
        ++ (string_member (codes ",\"event\":\"pull\",\"peer\":") peer.now ++ new_members new)) }
{
    push_string(alloc, out, b",\"event\":\"pull\",\"peer\":", peer)?;
    push_new_members(out, new)?;
    Ok(())
}

#[tactic(auto, unfolding(crate::specs::ChangeTexts::new_members))]
fn push_new_members(out: &mut Vec<u8>, new: NewEntries) -> Result<(), AllocError>
    ensures { OnOk result (out.new.items ≡ out.old.items ++ new_members new) }
{
    push_optional(out, b",\"new\":", Some(new.receipts))?;
    push_optional(out, b",\"records\":", Some(new.records))
}

/// Adds the line of the audit file that says how much is held when a replica starts, with its line
/// feed.
///
/// # Errors
/// Memory ran out. Nothing is said then of what is there.
pub fn push_start_line(out: &mut Vec<u8>, moment: u64, held: NewEntries) -> Result<(), AllocError>
    ensures { OnOk result (out.new.items ≡ out.old.items ++ start_line moment held) }
{
    out.extend_from_slice(b"{\"at\":")?;
    push_number(out, moment)?;
    push_held_members(out, held)?;
    out.extend_from_slice(b"}\n")
}

#[tactic(auto, unfolding(crate::specs::ChangeTexts::held_members))]
fn push_held_members(out: &mut Vec<u8>, held: NewEntries) -> Result<(), AllocError>
    ensures { OnOk result (out.new.items ≡ out.old.items ++ held_members held) }
{
    push_optional(
        out,
        b",\"event\":\"start\",\"receipts\":",
        Some(held.receipts),
    )?;
    push_optional(out, b",\"distrusts\":", Some(held.records))
}
