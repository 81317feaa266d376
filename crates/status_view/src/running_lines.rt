//! What a running replica says of itself, as lines.
ghost use Rattle.std.specs.Prelude.{◌≡◌, ◌++◌, OnOk, flat_map};
ghost use Rattle.status_view.specs.Running.{code_or_none, peer_line, running_lines};

use crate::previous_lines::push_previous_lines;
use crate::running::{PeerFault, PeerStatus, RunningStatus, fault_code};
use byte_lines::push_number;
use std::alloc::AllocError;
use text_lines::push_number_or_none;

/// Adds the lines `snapshot <n> bytes` and `journal <n> bytes`, and for each peer a line
/// `peer <address> ended-well <second> fault <code> receipts <n>`, with `none` for what is absent.
///
/// If the replica is changed from a configuration, then the line `previous <digest> used <second>`
/// and for each peer a line `asked <address> <next or previous>`, with `none` for what is absent.
///
/// # Errors
/// Memory ran out. Nothing is said then of what is there.
pub fn push_running_lines(out: &mut Vec<u8>, running: &RunningStatus<'_>) -> Result<(), AllocError>
    ensures { OnOk result (out.new.items ≡ out.old.items ++ running_lines running.now) }
{
    out.extend_from_slice(b"snapshot ")?;
    push_number(out, running.snapshot_bytes)?;
    out.extend_from_slice(b" bytes\njournal ")?;
    push_number(out, running.journal_bytes)?;
    out.extend_from_slice(b" bytes\n")?;
    push_peers(out, running.peers)?;
    push_previous_lines(out, running)?;
    Ok(())
}

fn push_peers(out: &mut Vec<u8>, peers: &[PeerStatus]) -> Result<(), AllocError>
    ensures { OnOk result (out.new.items ≡ out.old.items ++ flat_map peer_line peers.now) }
{
    for peer in peers {
        push_peer(out, peer)?;
    }
    Ok(())
}

fn push_peer(out: &mut Vec<u8>, peer: &PeerStatus) -> Result<(), AllocError>
    ensures { OnOk result (out.new.items ≡ out.old.items ++ peer_line peer.now) }
{
    out.extend_from_slice(b"peer ")?;
    out.extend_from_slice(peer.address.as_bytes())?;
    out.extend_from_slice(b" ended-well ")?;
    push_number_or_none(out, peer.ended_well)?;
    out.extend_from_slice(b" fault ")?;
    push_code_or_none(out, peer.fault)?;
    out.extend_from_slice(b" receipts ")?;
    push_number(out, peer.receipts)?;
    out.extend_from_slice(b"\n")?;
    Ok(())
}

fn push_code_or_none(out: &mut Vec<u8>, fault: Option<PeerFault>) -> Result<(), AllocError>
    ensures { OnOk result (out.new.items ≡ out.old.items ++ code_or_none fault) }
{
    match fault {
        Some(fault) => out.extend_from_slice(fault_code(fault).as_bytes()),
        None => out.extend_from_slice(b"none"),
    }
}
