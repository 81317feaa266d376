//! What the loop of a replica counts, in the text format of Prometheus.
ghost use Rattle.std.specs.Prelude.{◌≡◌, ◌++◌, OnOk, flat_map};
ghost use Rattle.health_pages.specs.LoopMetrics.{all_counts, comment_line, count_help};
ghost use Rattle.health_pages.specs.LoopMetrics.{count_kind, count_name, counter_text, count_value};
ghost use Rattle.health_pages.specs.LoopMetrics.{info_text, loop_metrics, metric_head};
ghost use Rattle.health_pages.specs.LoopMetrics.{seconds_gauge, decimal_seconds, turn_text};
ghost use Rattle.health_pages.specs.LoopMetrics.{version_text, zeros_before};

use byte_lines::push_number;
use std::alloc::AllocError;

/// What a loop counts since it began.
#[derive(Clone, Copy, Debug, PartialEq, Eq)]
pub struct LoopCounts {
    /// Requests of this machine that had a reply.
    pub requests: u64,
    /// Requests for pages that had a response.
    pub pages: u64,
    /// Sessions with other replicas that ended.
    pub sessions: u64,
    /// Connections that ended by an error.
    pub faults: u64,
    pub received_bytes: u64,
    pub sent_bytes: u64,
    /// How often the snapshot was written again.
    pub folds: u64,
    /// The Unix second at which it began.
    pub began: u64,
    /// How many milliseconds the longest turn took.
    pub longest_turn: u64,
}

/// What is counted, each as a metric of its own.
#[derive(Clone, Copy, Debug, PartialEq, Eq)]
enum LoopCount {
    Requests,
    Pages,
    Sessions,
    Faults,
    ReceivedBytes,
    SentBytes,
    Folds,
    Began,
}

static COUNTS: [LoopCount; 8] = [
    LoopCount::Requests,
    LoopCount::Pages,
    LoopCount::Sessions,
    LoopCount::Faults,
    LoopCount::ReceivedBytes,
    LoopCount::SentBytes,
    LoopCount::Folds,
    LoopCount::Began,
];

/// The counts as metrics, each after its lines `HELP` and `TYPE`, with the version of the program
/// as a label of `fedbundle_loop_info`. The version has no backslash, quotation mark or line feed.
///
/// # Errors
/// Memory ran out. Nothing is said then of what is there.
pub fn push_loop_metrics(
    out: &mut Vec<u8>,
    version: &str,
    counts: &LoopCounts,
) -> Result<(), AllocError>
    ensures { OnOk result (out.new.items ≡ out.old.items ++ loop_metrics version.now counts.now) }
{
    push_version(out, version)?;
    push_counts(out, counts)?;
    push_turn(out, counts.longest_turn)
}

fn push_version(out: &mut Vec<u8>, version: &str) -> Result<(), AllocError>
    ensures { OnOk result (out.new.items ≡ out.old.items ++ version_text version.now) }
{
    push_info(
        out,
        "fedbundle_loop_info",
        "The version of the program.",
        version,
    )
}

fn push_info(out: &mut Vec<u8>, name: &str, help: &str, version: &str) -> Result<(), AllocError>
    ensures { OnOk result (out.new.items
        ≡ out.old.items ++ info_text name.now help.now version.now) }
{
    push_metric_head(out, name, help, "gauge")?;
    out.extend_from_slice(b"{version=\"")?;
    out.extend_from_slice(version.as_bytes())?;
    out.extend_from_slice(b"\"} 1\n")
}

fn push_counts(out: &mut Vec<u8>, counts: &LoopCounts) -> Result<(), AllocError>
    ensures { OnOk result (out.new.items
        ≡ out.old.items ++ flat_map (counter_text counts.now) all_counts) }
{
    'counts: for &count in COUNTS.as_slice() {
        push_count(out, counts, count)?;
    }
    Ok(())
}

fn push_count(out: &mut Vec<u8>, counts: &LoopCounts, count: LoopCount) -> Result<(), AllocError>
    ensures { OnOk result (out.new.items ≡ out.old.items ++ counter_text counts.now count) }
{
    push_metric_head(out, count_name(count), count_help(count), count_kind(count))?;
    out.extend_from_slice(b" ")?;
    push_number(out, count_value(counts, count))?;
    out.extend_from_slice(b"\n")
}

// The lines `HELP` and `TYPE`, and the name in the line of the value.
fn push_metric_head(out: &mut Vec<u8>, name: &str, help: &str, kind: &str) -> Result<(), AllocError>
    ensures { OnOk result (out.new.items
        ≡ out.old.items ++ metric_head name.now help.now kind.now) }
{
    push_comment(out, "# HELP ", name, help)?;
    push_comment(out, "# TYPE ", name, kind)?;
    out.extend_from_slice(name.as_bytes())
}

fn push_comment(out: &mut Vec<u8>, label: &str, name: &str, text: &str) -> Result<(), AllocError>
    ensures { OnOk result (out.new.items
        ≡ out.old.items ++ comment_line label.now name.now text.now) }
{
    out.extend_from_slice(label.as_bytes())?;
    out.extend_from_slice(name.as_bytes())?;
    out.extend_from_slice(b" ")?;
    out.extend_from_slice(text.as_bytes())?;
    out.extend_from_slice(b"\n")
}

fn count_name<'a>(count: LoopCount) -> &'a str
    ensures { result.now ≡ count_name count }
{
    match count {
        LoopCount::Requests => "fedbundle_loop_requests_total",
        LoopCount::Pages => "fedbundle_loop_pages_total",
        LoopCount::Sessions => "fedbundle_loop_sessions_total",
        LoopCount::Faults => "fedbundle_loop_faults_total",
        LoopCount::ReceivedBytes => "fedbundle_loop_received_bytes_total",
        LoopCount::SentBytes => "fedbundle_loop_sent_bytes_total",
        LoopCount::Folds => "fedbundle_loop_folds_total",
        LoopCount::Began => "fedbundle_loop_start_time_seconds",
    }
}

fn count_help<'a>(count: LoopCount) -> &'a str
    ensures { result.now ≡ count_help count }
{
    match count {
        LoopCount::Requests => "Requests of this machine that had a reply.",
        LoopCount::Pages => "Requests for pages that had a response.",
        LoopCount::Sessions => "Sessions with other replicas that ended.",
        LoopCount::Faults => "Connections that ended by a fault.",
        LoopCount::ReceivedBytes => "Bytes that came on all connections.",
        LoopCount::SentBytes => "Bytes that were sent on all connections.",
        LoopCount::Folds => "How often the snapshot was written anew.",
        LoopCount::Began => "When the replica began, in Unix seconds.",
    }
}

fn count_kind<'a>(count: LoopCount) -> &'a str
    ensures { result.now ≡ count_kind count }
{
    match count {
        LoopCount::Began => "gauge",
        _ => "counter",
    }
}

fn count_value(counts: &LoopCounts, count: LoopCount) -> u64
    ensures { result ≡ count_value counts.now count }
{
    match count {
        LoopCount::Requests => counts.requests,
        LoopCount::Pages => counts.pages,
        LoopCount::Sessions => counts.sessions,
        LoopCount::Faults => counts.faults,
        LoopCount::ReceivedBytes => counts.received_bytes,
        LoopCount::SentBytes => counts.sent_bytes,
        LoopCount::Folds => counts.folds,
        LoopCount::Began => counts.began,
    }
}

fn push_turn(out: &mut Vec<u8>, millis: u64) -> Result<(), AllocError>
    ensures { OnOk result (out.new.items ≡ out.old.items ++ turn_text millis) }
{
    push_seconds_gauge(
        out,
        "fedbundle_loop_longest_turn_seconds",
        "How long the longest turn of the loop took.",
        millis,
    )
}

fn push_seconds_gauge(
    out: &mut Vec<u8>,
    name: &str,
    help: &str,
    millis: u64,
) -> Result<(), AllocError>
    ensures { OnOk result (out.new.items
        ≡ out.old.items ++ seconds_gauge name.now help.now millis) }
{
    push_metric_head(out, name, help, "gauge")?;
    out.extend_from_slice(b" ")?;
    push_seconds(out, millis)?;
    out.extend_from_slice(b"\n")
}

// Milliseconds as seconds with three decimals.
fn push_seconds(out: &mut Vec<u8>, millis: u64) -> Result<(), AllocError>
    ensures { OnOk result (out.new.items ≡ out.old.items ++ decimal_seconds millis) }
{
    push_number(out, millis / 1_000)?;
    out.extend_from_slice(b".")?;
    let rest = millis % 1_000;
    out.extend_from_slice(zeros_before(rest).as_bytes())?;
    push_number(out, rest)
}

fn zeros_before<'a>(rest: u64) -> &'a str
    ensures { result.now ≡ zeros_before rest }
{
    if rest < 10 {
        "00"
    } else if rest < 100 {
        "0"
    } else {
        ""
    }
}
