//! The samples of a peer, in the text format of Prometheus.
ghost use Rattle.std.specs.Prelude.{◌≡◌, ◌++◌, OnOk};
ghost use Rattle.status_view.specs.PeerMetrics.{peer_label, peer_sample};

use crate::metrics_writer::push_label_value;
use crate::running::PeerStatus;
use byte_lines::push_number;
use std::alloc::AllocError;

/// Adds the sample of this name that has the peer's address as its label `peer`.
///
/// # Errors
/// Memory ran out. Nothing is said then of what is there.
pub(crate) fn push_peer_sample(
    out: &mut Vec<u8>,
    name: &str,
    peer: &PeerStatus,
    value: u64,
) -> Result<(), AllocError>
    ensures { OnOk result (out.new.items ≡ out.old.items ++ peer_sample name.now peer.now value) }
{
    push_peer_label(out, name, peer)?;
    out.extend_from_slice(b"\"} ")?;
    push_number(out, value)?;
    out.extend_from_slice(b"\n")
}

/// Adds the name, and the label up to the end of the peer's address.
///
/// # Errors
/// Memory ran out. Nothing is said then of what is there.
pub(crate) fn push_peer_label(
    out: &mut Vec<u8>,
    name: &str,
    peer: &PeerStatus,
) -> Result<(), AllocError>
    ensures { OnOk result (out.new.items ≡ out.old.items ++ peer_label name.now peer.now) }
{
    out.extend_from_slice(name.as_bytes())?;
    out.extend_from_slice(b"{peer=\"")?;
    push_label_value(out, peer.address.as_str())
}
