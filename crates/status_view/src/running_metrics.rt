//! What a running replica says of itself, in the text format of Prometheus.
ghost use Rattle.std.specs.Prelude.{◌≡◌, ◌++◌, OnOk, Some, flat_map};
ghost use Rattle.status_view.specs.Running.{bytes_gauge, counter_head, counter_line};
ghost use Rattle.status_view.specs.Running.{ended_gauge, ended_sample, ended_sample_at};
ghost use Rattle.status_view.specs.Running.{fault_info, fault_sample, fault_sample_of};
ghost use Rattle.status_view.specs.Running.{journal_gauge, receipts_counter, receipts_sample};
ghost use Rattle.status_view.specs.Running.{running_metrics, snapshot_gauge};

use crate::metrics_writer::{push_gauge_head, push_help};
use crate::peer_metrics::{push_peer_label, push_peer_sample};
use crate::previous_metrics::push_previous_metrics;
use crate::running::{PeerFault, PeerStatus, RunningStatus, fault_code};
use byte_lines::push_number;
use std::alloc::AllocError;

/// Adds the gauges `fedbundle_snapshot_bytes` and `fedbundle_journal_bytes`, and for each peer, by
/// the label `peer`, the counter `fedbundle_peer_receipts_total` and the gauges
/// `fedbundle_peer_ended_well_timestamp_seconds`, if a session ended well, and
/// `fedbundle_peer_fault_info`, if one failed, with the error's code as its label `fault`.
///
/// If the replica is changed from a configuration, then the gauges
/// `fedbundle_previous_config_info`, with the digest of that as its label `config`,
/// `fedbundle_previous_config_used_timestamp_seconds`, if a session under that was answered, and
/// for each peer that answered `fedbundle_peer_asked_previous`: 1 if it last did so under that, and
/// else 0.
///
/// # Errors
/// Memory ran out. Nothing is said then of what is there.
pub fn push_running_metrics(
    out: &mut Vec<u8>,
    running: &RunningStatus<'_>,
) -> Result<(), AllocError>
    ensures { OnOk result (out.new.items ≡ out.old.items ++ running_metrics running.now) }
{
    push_snapshot_gauge(out, running)?;
    push_journal_gauge(out, running)?;
    push_receipts_counter(out, running)?;
    push_ended_gauge(out, running)?;
    push_fault_info(out, running)?;
    push_previous_metrics(out, running)?;
    Ok(())
}

fn push_snapshot_gauge(out: &mut Vec<u8>, running: &RunningStatus<'_>) -> Result<(), AllocError>
    ensures { OnOk result (out.new.items ≡ out.old.items ++ snapshot_gauge running.now) }
{
    push_bytes_gauge(
        out,
        "fedbundle_snapshot_bytes",
        "Bytes of the snapshot.",
        running.snapshot_bytes,
    )
}

fn push_journal_gauge(out: &mut Vec<u8>, running: &RunningStatus<'_>) -> Result<(), AllocError>
    ensures { OnOk result (out.new.items ≡ out.old.items ++ journal_gauge running.now) }
{
    push_bytes_gauge(
        out,
        "fedbundle_journal_bytes",
        "Bytes of the journal.",
        running.journal_bytes,
    )
}

fn push_bytes_gauge(out: &mut Vec<u8>, name: &str, help: &str, count: u64) -> Result<(), AllocError>
    ensures { OnOk result (out.new.items ≡ out.old.items ++ bytes_gauge name.now help.now count) }
{
    push_gauge_head(out, name, help)?;
    out.extend_from_slice(name.as_bytes())?;
    out.extend_from_slice(b" ")?;
    push_number(out, count)?;
    out.extend_from_slice(b"\n")
}

fn push_receipts_counter(out: &mut Vec<u8>, running: &RunningStatus<'_>) -> Result<(), AllocError>
    ensures { OnOk result (out.new.items ≡ out.old.items ++ receipts_counter running.now) }
{
    push_counter_head(
        out,
        "fedbundle_peer_receipts_total",
        "Receipts that came from a peer and were not held.",
    )?;
    push_receipts_samples(out, running.peers)?;
    Ok(())
}

fn push_counter_head(out: &mut Vec<u8>, name: &str, help: &str) -> Result<(), AllocError>
    ensures { OnOk result (out.new.items ≡ out.old.items ++ counter_head name.now help.now) }
{
    push_help(out, name, help)?;
    push_counter_line(out, name)
}

fn push_counter_line(out: &mut Vec<u8>, name: &str) -> Result<(), AllocError>
    ensures { OnOk result (out.new.items ≡ out.old.items ++ counter_line name.now) }
{
    out.extend_from_slice(b"# TYPE ")?;
    out.extend_from_slice(name.as_bytes())?;
    out.extend_from_slice(b" counter")?;
    out.extend_from_slice(b"\n")
}

fn push_receipts_samples(out: &mut Vec<u8>, peers: &[PeerStatus]) -> Result<(), AllocError>
    ensures { OnOk result (out.new.items ≡ out.old.items ++ flat_map receipts_sample peers.now) }
{
    for peer in peers {
        push_receipts_sample(out, peer)?;
    }
    Ok(())
}

fn push_receipts_sample(out: &mut Vec<u8>, peer: &PeerStatus) -> Result<(), AllocError>
    ensures { OnOk result (out.new.items ≡ out.old.items ++ receipts_sample peer.now) }
{
    push_peer_sample(out, "fedbundle_peer_receipts_total", peer, peer.receipts)
}

fn push_ended_gauge(out: &mut Vec<u8>, running: &RunningStatus<'_>) -> Result<(), AllocError>
    ensures { OnOk result (out.new.items ≡ out.old.items ++ ended_gauge running.now) }
{
    push_gauge_head(
        out,
        "fedbundle_peer_ended_well_timestamp_seconds",
        "When the last session with a peer that ended well did so.",
    )?;
    push_ended_samples(out, running.peers)?;
    Ok(())
}

fn push_ended_samples(out: &mut Vec<u8>, peers: &[PeerStatus]) -> Result<(), AllocError>
    ensures { OnOk result (out.new.items ≡ out.old.items ++ flat_map ended_sample peers.now) }
{
    for peer in peers {
        push_ended_sample(out, peer)?;
    }
    Ok(())
}

fn push_ended_sample(out: &mut Vec<u8>, peer: &PeerStatus) -> Result<(), AllocError>
    ensures { OnOk result (out.new.items
        ≡ out.old.items ++ ended_sample_at peer.now peer.now.ended_well) }
{
    match peer.ended_well {
        Some(seconds) => {
            push_peer_sample(
                out,
                "fedbundle_peer_ended_well_timestamp_seconds",
                peer,
                seconds,
            )
        }
        None => Ok(()),
    }
}

fn push_fault_info(out: &mut Vec<u8>, running: &RunningStatus<'_>) -> Result<(), AllocError>
    ensures { OnOk result (out.new.items ≡ out.old.items ++ fault_info running.now) }
{
    push_gauge_head(
        out,
        "fedbundle_peer_fault_info",
        "The fault of the last session with a peer that had one.",
    )?;
    push_fault_samples(out, running.peers)?;
    Ok(())
}

fn push_fault_samples(out: &mut Vec<u8>, peers: &[PeerStatus]) -> Result<(), AllocError>
    ensures { OnOk result (out.new.items ≡ out.old.items ++ flat_map fault_sample peers.now) }
{
    for peer in peers {
        push_fault_sample(out, peer)?;
    }
    Ok(())
}

fn push_fault_sample(out: &mut Vec<u8>, peer: &PeerStatus) -> Result<(), AllocError>
    ensures { OnOk result (out.new.items
        ≡ out.old.items ++ fault_sample_of peer.now peer.now.fault) }
{
    match peer.fault {
        Some(fault) => push_fault(out, peer, fault),
        None => Ok(()),
    }
}

fn push_fault(out: &mut Vec<u8>, peer: &PeerStatus, fault: PeerFault) -> Result<(), AllocError>
    ensures { OnOk result (out.new.items
        ≡ out.old.items ++ fault_sample_of peer.now (Some fault)) }
{
    push_peer_label(out, "fedbundle_peer_fault_info", peer)?;
    out.extend_from_slice(b"\",fault=\"")?;
    out.extend_from_slice(fault_code(fault).as_bytes())?;
    out.extend_from_slice(b"\"} 1\n")?;
    Ok(())
}
