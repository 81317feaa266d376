//! What a running replica says of the configuration that it is changed from, in the text format of
//! Prometheus.
ghost use Rattle.std.specs.Prelude.{◌≡◌, ◌++◌, OnOk, flat_map};
ghost use Rattle.status_view.specs.Changing.{asked_gauge, asked_sample, asked_sample_of};
ghost use Rattle.status_view.specs.Changing.{asked_sample_with};
ghost use Rattle.status_view.specs.Changing.{changing_metrics, one_if_previous};
ghost use Rattle.status_view.specs.Changing.{previous_info, previous_metrics, used_gauge};
ghost use Rattle.status_view.specs.Changing.{used_sample, used_sample_at};

use crate::metrics_writer::push_gauge_head;
use crate::peer_metrics::push_peer_sample;
use crate::running::{AskedConfig, PeerStatus, PreviousStatus, RunningStatus};
use byte_lines::{push_digits, push_number};
use std::alloc::AllocError;

/// Adds, if the replica is changed from a configuration, the gauges
/// `fedbundle_previous_config_info`, with the digest of that as its label `config`,
/// `fedbundle_previous_config_used_timestamp_seconds`, if a session under that was answered, and
/// for each peer that answered `fedbundle_peer_asked_previous`: 1 if it last did so under that, and
/// else 0.
///
/// # Errors
/// Memory ran out. Nothing is said then of what is there.
pub(crate) fn push_previous_metrics(
    out: &mut Vec<u8>,
    running: &RunningStatus<'_>,
) -> Result<(), AllocError>
    ensures { OnOk result (out.new.items
        ≡ out.old.items ++ previous_metrics running.now.peers.now running.now.previous) }
{
    match running.previous {
        Some(previous) => push_changing(out, running.peers, previous),
        None => Ok(()),
    }
}

fn push_changing(
    out: &mut Vec<u8>,
    peers: &[PeerStatus],
    previous: PreviousStatus,
) -> Result<(), AllocError>
    ensures { OnOk result (out.new.items ≡ out.old.items ++ changing_metrics peers.now previous) }
{
    push_previous_info(out, previous)?;
    push_used_gauge(out, previous)?;
    push_asked_gauge(out, peers)?;
    Ok(())
}

fn push_previous_info(out: &mut Vec<u8>, previous: PreviousStatus) -> Result<(), AllocError>
    ensures { OnOk result (out.new.items ≡ out.old.items ++ previous_info previous) }
{
    push_gauge_head(
        out,
        "fedbundle_previous_config_info",
        "The configuration that is changed from.",
    )?;
    out.extend_from_slice(b"fedbundle_previous_config_info{config=\"")?;
    push_digits(out, &previous.config.0)?;
    out.extend_from_slice(b"\"} 1\n")?;
    Ok(())
}

fn push_used_gauge(out: &mut Vec<u8>, previous: PreviousStatus) -> Result<(), AllocError>
    ensures { OnOk result (out.new.items ≡ out.old.items ++ used_gauge previous) }
{
    push_gauge_head(
        out,
        "fedbundle_previous_config_used_timestamp_seconds",
        "When a session under the configuration that is changed from was last answered.",
    )?;
    push_used_sample(out, previous.used)?;
    Ok(())
}

fn push_used_sample(out: &mut Vec<u8>, used: Option<u64>) -> Result<(), AllocError>
    ensures { OnOk result (out.new.items ≡ out.old.items ++ used_sample used) }
{
    match used {
        Some(seconds) => push_used_at(out, seconds),
        None => Ok(()),
    }
}

fn push_used_at(out: &mut Vec<u8>, seconds: u64) -> Result<(), AllocError>
    ensures { OnOk result (out.new.items ≡ out.old.items ++ used_sample_at seconds) }
{
    out.extend_from_slice(b"fedbundle_previous_config_used_timestamp_seconds ")?;
    push_number(out, seconds)?;
    out.extend_from_slice(b"\n")?;
    Ok(())
}

fn push_asked_gauge(out: &mut Vec<u8>, peers: &[PeerStatus]) -> Result<(), AllocError>
    ensures { OnOk result (out.new.items ≡ out.old.items ++ asked_gauge peers.now) }
{
    push_gauge_head(
        out,
        "fedbundle_peer_asked_previous",
        "Whether a peer last answered under the configuration that is changed from.",
    )?;
    push_asked_samples(out, peers)?;
    Ok(())
}

fn push_asked_samples(out: &mut Vec<u8>, peers: &[PeerStatus]) -> Result<(), AllocError>
    ensures { OnOk result (out.new.items ≡ out.old.items ++ flat_map asked_sample peers.now) }
{
    for peer in peers {
        push_asked_sample(out, peer)?;
    }
    Ok(())
}

fn push_asked_sample(out: &mut Vec<u8>, peer: &PeerStatus) -> Result<(), AllocError>
    ensures { OnOk result (out.new.items
        ≡ out.old.items ++ asked_sample_of peer.now peer.now.asked) }
{
    match peer.asked {
        Some(asked) => push_asked(out, peer, asked),
        None => Ok(()),
    }
}

fn push_asked(out: &mut Vec<u8>, peer: &PeerStatus, asked: AskedConfig) -> Result<(), AllocError>
    ensures { OnOk result (out.new.items ≡ out.old.items ++ asked_sample_with peer.now asked) }
{
    let value = one_if_previous(asked);
    push_peer_sample(out, "fedbundle_peer_asked_previous", peer, value)
}

fn one_if_previous(asked: AskedConfig) -> u64
    ensures { result ≡ one_if_previous asked }
{
    match asked {
        AskedConfig::Next => 0,
        AskedConfig::Previous => 1,
    }
}
