//! What a running replica says of the configuration that it is changed from, as lines.
ghost use Rattle.std.specs.Prelude.{◌≡◌, ◌++◌, OnOk, flat_map};
ghost use Rattle.status_view.specs.Changing.{asked_line, asked_word, changing_lines};
ghost use Rattle.status_view.specs.Changing.{previous_line, previous_lines};

use crate::running::{AskedConfig, PeerStatus, PreviousStatus, RunningStatus};
use byte_lines::push_digits;
use std::alloc::AllocError;
use text_lines::push_number_or_none;

/// Adds, if the replica is changed from a configuration, the line `previous <digest> used <second>`
/// and for each peer a line `asked <address> <next or previous>`, with `none` for what is absent.
///
/// # Errors
/// Memory ran out. Nothing is said then of what is there.
pub(crate) fn push_previous_lines(
    out: &mut Vec<u8>,
    running: &RunningStatus<'_>,
) -> Result<(), AllocError>
    ensures { OnOk result (out.new.items
        ≡ out.old.items ++ previous_lines running.now.peers.now running.now.previous) }
{
    match running.previous {
        Some(previous) => push_changing(out, running.peers, previous),
        None => Ok(()),
    }
}

fn push_changing(
    out: &mut Vec<u8>,
    peers: &[PeerStatus],
    previous: PreviousStatus,
) -> Result<(), AllocError>
    ensures { OnOk result (out.new.items ≡ out.old.items ++ changing_lines peers.now previous) }
{
    push_previous(out, previous)?;
    push_asked_lines(out, peers)?;
    Ok(())
}

fn push_previous(out: &mut Vec<u8>, previous: PreviousStatus) -> Result<(), AllocError>
    ensures { OnOk result (out.new.items ≡ out.old.items ++ previous_line previous) }
{
    out.extend_from_slice(b"previous ")?;
    push_digits(out, &previous.config.0)?;
    out.extend_from_slice(b" used ")?;
    push_number_or_none(out, previous.used)?;
    out.extend_from_slice(b"\n")?;
    Ok(())
}

fn push_asked_lines(out: &mut Vec<u8>, peers: &[PeerStatus]) -> Result<(), AllocError>
    ensures { OnOk result (out.new.items ≡ out.old.items ++ flat_map asked_line peers.now) }
{
    for peer in peers {
        push_asked(out, peer)?;
    }
    Ok(())
}

fn push_asked(out: &mut Vec<u8>, peer: &PeerStatus) -> Result<(), AllocError>
    ensures { OnOk result (out.new.items ≡ out.old.items ++ asked_line peer.now) }
{
    out.extend_from_slice(b"asked ")?;
    out.extend_from_slice(peer.address.as_bytes())?;
    out.extend_from_slice(b" ")?;
    out.extend_from_slice(asked_word(peer.asked).as_bytes())?;
    out.extend_from_slice(b"\n")?;
    Ok(())
}

fn asked_word(asked: Option<AskedConfig>) -> &'static str
    ensures { result.now ≡ asked_word asked }
{
    match asked {
        Some(AskedConfig::Next) => "next",
        Some(AskedConfig::Previous) => "previous",
        None => "none",
    }
}
