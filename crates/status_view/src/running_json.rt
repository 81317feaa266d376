//! What a running replica says of itself, as members of a JSON object.
ghost use Rattle.std.specs.Prelude.{◌≡◌, ◌++◌, false, OnOk};
ghost use Rattle.json_text.specs.JsonText.{parted_texts};
ghost use Rattle.status_view.specs.Running.{code_or_null, peer_json, quoted_code};
ghost use Rattle.status_view.specs.Running.{running_members};

use crate::previous_json::push_previous_member;
use crate::running::{PeerFault, PeerStatus, RunningStatus, fault_code};
use byte_lines::push_number;
use json_text::{push_comma, push_number_or_null, push_string};
use std::alloc::{AllocError, Global};

/// Adds the members `snapshot_bytes`, `journal_bytes` and `peers`, each after a comma. A peer is an
/// object with `peer`, `ended_well`, `fault` and `receipts`; what is absent is `null`.
///
/// If the replica is changed from a configuration, then the member `previous`: an object with
/// `config`, `used` and `peers`, an array of objects with `peer` and `asked`; what is absent is
/// `null`.
///
/// # Errors
/// Memory ran out. Nothing is said then of what is there.
pub fn push_running_members(
    alloc: Global,
    out: &mut Vec<u8>,
    running: &RunningStatus<'_>,
) -> Result<(), AllocError>
    ensures { OnOk result (out.new.items ≡ out.old.items ++ running_members running.now) }
{
    out.extend_from_slice(b",\"snapshot_bytes\":")?;
    push_number(out, running.snapshot_bytes)?;
    out.extend_from_slice(b",\"journal_bytes\":")?;
    push_number(out, running.journal_bytes)?;
    out.extend_from_slice(b",\"peers\":[")?;
    push_peers(alloc, out, running.peers)?;
    out.extend_from_slice(b"]")?;
    push_previous_member(alloc, out, running)?;
    Ok(())
}

fn push_peers(alloc: Global, out: &mut Vec<u8>, peers: &[PeerStatus]) -> Result<(), AllocError>
    ensures { OnOk result (out.new.items
        ≡ out.old.items ++ parted_texts peer_json false peers.now) }
{
    let mut later = false;
    for peer in peers {
        push_comma(out, later)?;
        push_peer(alloc, out, peer)?;
        later = true;
    }
    Ok(())
}

fn push_peer(alloc: Global, out: &mut Vec<u8>, peer: &PeerStatus) -> Result<(), AllocError>
    ensures { OnOk result (out.new.items ≡ out.old.items ++ peer_json peer.now) }
{
    push_string(alloc, out, b"{\"peer\":", peer.address.as_str())?;
    out.extend_from_slice(b",\"ended_well\":")?;
    push_number_or_null(out, peer.ended_well)?;
    out.extend_from_slice(b",\"fault\":")?;
    push_code_or_null(out, peer.fault)?;
    out.extend_from_slice(b",\"receipts\":")?;
    push_number(out, peer.receipts)?;
    out.extend_from_slice(b"}")?;
    Ok(())
}

fn push_code_or_null(out: &mut Vec<u8>, fault: Option<PeerFault>) -> Result<(), AllocError>
    ensures { OnOk result (out.new.items ≡ out.old.items ++ code_or_null fault) }
{
    match fault {
        Some(fault) => push_quoted_code(out, fault),
        None => out.extend_from_slice(b"null"),
    }
}

fn push_quoted_code(out: &mut Vec<u8>, fault: PeerFault) -> Result<(), AllocError>
    ensures { OnOk result (out.new.items ≡ out.old.items ++ quoted_code fault) }
{
    out.extend_from_slice(b"\"")?;
    out.extend_from_slice(fault_code(fault).as_bytes())?;
    out.extend_from_slice(b"\"")
}
