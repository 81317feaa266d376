//! What a running replica says of the configuration that it is changed from, as a member of a JSON
//! object.
ghost use Rattle.std.specs.Prelude.{◌≡◌, ◌++◌, false, OnOk};
ghost use Rattle.json_text.specs.JsonText.{parted_texts};
ghost use Rattle.status_view.specs.Changing.{asked_json, asked_or_null, changing_member};
ghost use Rattle.status_view.specs.Changing.{previous_member};

use crate::running::{AskedConfig, PeerStatus, PreviousStatus, RunningStatus};
use byte_lines::push_digits;
use json_text::{push_comma, push_number_or_null, push_string};
use std::alloc::{AllocError, Global};

/// Adds, if the replica is changed from a configuration, the member `previous` after a comma: an
/// object with `config`, `used` and `peers`, an array of objects with `peer` and `asked`; what is
/// absent is `null`.
///
/// # Errors
/// Memory ran out. Nothing is said then of what is there.
pub(crate) fn push_previous_member(
    alloc: Global,
    out: &mut Vec<u8>,
    running: &RunningStatus<'_>,
) -> Result<(), AllocError>
    ensures { OnOk result (out.new.items
        ≡ out.old.items ++ previous_member running.now.peers.now running.now.previous) }
{
    match running.previous {
        Some(previous) => push_changing(alloc, out, running.peers, previous),
        None => Ok(()),
    }
}

fn push_changing(
    alloc: Global,
    out: &mut Vec<u8>,
    peers: &[PeerStatus],
    previous: PreviousStatus,
) -> Result<(), AllocError>
    ensures { OnOk result (out.new.items ≡ out.old.items ++ changing_member peers.now previous) }
{
    out.extend_from_slice(b",\"previous\":{\"config\":\"")?;
    push_digits(out, &previous.config.0)?;
    out.extend_from_slice(b"\",\"used\":")?;
    push_number_or_null(out, previous.used)?;
    out.extend_from_slice(b",\"peers\":[")?;
    push_asked_peers(alloc, out, peers)?;
    out.extend_from_slice(b"]}")?;
    Ok(())
}

fn push_asked_peers(
    alloc: Global,
    out: &mut Vec<u8>,
    peers: &[PeerStatus],
) -> Result<(), AllocError>
    ensures { OnOk result (out.new.items
        ≡ out.old.items ++ parted_texts asked_json false peers.now) }
{
    let mut later = false;
    for peer in peers {
        push_comma(out, later)?;
        push_asked(alloc, out, peer)?;
        later = true;
    }
    Ok(())
}

fn push_asked(alloc: Global, out: &mut Vec<u8>, peer: &PeerStatus) -> Result<(), AllocError>
    ensures { OnOk result (out.new.items ≡ out.old.items ++ asked_json peer.now) }
{
    push_string(alloc, out, b"{\"peer\":", peer.address.as_str())?;
    out.extend_from_slice(b",\"asked\":")?;
    out.extend_from_slice(asked_or_null(peer.asked).as_bytes())?;
    out.extend_from_slice(b"}")?;
    Ok(())
}

fn asked_or_null(asked: Option<AskedConfig>) -> &'static str
    ensures { result.now ≡ asked_or_null asked }
{
    match asked {
        Some(AskedConfig::Next) => "\"next\"",
        Some(AskedConfig::Previous) => "\"previous\"",
        None => "null",
    }
}
