//! The devices of a command, in memory: the source of its input, and the sinks of what it says.
use byte_lines::{FuseSource, MemSink, MemSource, Sink, Source};
use row_script::Script;
use std::alloc::{AllocError, Global};

/// More bytes than any row leaves.
pub(crate) const AMPLE_ROOM: usize = 200_000;

/// The longest text that is printed line by line.
const MAX_LINES_BYTES: usize = 4_000;

/// How much the devices give and take.
#[derive(Clone, Copy)]
pub(crate) struct Limits {
    /// The input comes in pieces of this many bytes.
    pub(crate) piece: usize,
    /// The input fails after this many reads.
    pub(crate) reads: u64,
    /// The bytes that fit into a command's output, or into what a session sends.
    pub(crate) room: usize,
    /// The bytes that fit into standard error.
    pub(crate) error_room: usize,
}

impl Limits {
    /// Devices that do not fail, with the input in pieces of this many bytes.
    pub(crate) fn in_pieces(piece: usize) -> Limits {
        Limits {
            piece,
            reads: u64::MAX,
            room: AMPLE_ROOM,
            error_room: AMPLE_ROOM,
        }
    }
}

/// The devices of a command, and how it ended.
#[derive(Drop)]
pub(crate) struct Devices {
    pub(crate) input: FuseSource<MemSource>,
    /// What a session sends to the other replica.
    pub(crate) sent: MemSink,
    pub(crate) output: MemSink,
    /// What is on standard error.
    pub(crate) errors: MemSink,
    /// The snapshot of what is held at the end.
    pub(crate) state: MemSink,
    /// Whether the state is another one than before.
    pub(crate) is_state_new: bool,
    pub(crate) status: u8,
}

impl Devices {
    /// Devices with this input, for a session with another replica or not.
    pub(crate) fn new(
        alloc: Global,
        input: &[u8],
        limits: Limits,
        is_session: bool,
    ) -> Result<Devices, AllocError> {
        let output_room = if is_session {
            limits.error_room
        } else {
            limits.room
        };
        Ok(Devices {
            input: FuseSource::new(in_pieces(alloc, input, limits.piece)?, limits.reads),
            sent: MemSink::new(alloc, limits.room)?,
            output: MemSink::new(alloc, output_room)?,
            errors: MemSink::new(alloc, limits.error_room)?,
            state: MemSink::new(alloc, AMPLE_ROOM)?,
            is_state_new: false,
            status: 0,
        })
    }

    /// Appends a line for each thing that is there: what was sent, the output, what is on standard
    /// error, the state if it has changed, each device that failed, and the exit status.
    pub(crate) fn show(&self, script: &Script, answer: &mut String) -> Result<(), AllocError> {
        show_text(script, "sent", self.sent.as_bytes(), answer)?;
        show_text(script, "output", self.output.as_bytes(), answer)?;
        show_text(script, "error", self.errors.as_bytes(), answer)?;
        if self.is_state_new {
            show_text(script, "state", self.state.as_bytes(), answer)?;
        }
        self.show_end(answer)
    }

    fn show_end(&self, answer: &mut String) -> Result<(), AllocError> {
        show_failure("input", self.input.failed(), answer)?;
        show_failure("sending", self.sent.failed(), answer)?;
        show_failure("output", self.output.failed(), answer)?;
        show_failure("error", self.errors.failed(), answer)?;
        let status = self.status;
        write!(answer, "status {status}\n")
    }
}

fn show_failure(label: &str, has_failed: bool, answer: &mut String) -> Result<(), AllocError> {
    if has_failed {
        write!(answer, "{label} failed\n")?;
    }
    Ok(())
}

/// Appends the lines of a text, each after the label, or a line of a text that is too long for
/// that.
fn show_text(
    script: &Script,
    label: &str,
    text: &[u8],
    answer: &mut String,
) -> Result<(), AllocError> {
    if MAX_LINES_BYTES < text.len() {
        return show_line(script, label, text, "", answer);
    }
    match text.strip_suffix(b"\n".as_slice()) {
        Some(lines) => show_lines(script, label, lines, "", answer),
        None if text.is_empty() => Ok(()),
        None => show_lines(script, label, text, " (cut)", answer),
    }
}

fn show_lines(
    script: &Script,
    label: &str,
    lines: &[u8],
    end: &str,
    answer: &mut String,
) -> Result<(), AllocError> {
    let count = lines.iter().filter(|byte| **byte == b'\n').count();
    for (place, line) in lines.split(|byte| *byte == b'\n').enumerate() {
        let end = if place == count { end } else { "" };
        show_line(script, label, line, end, answer)?;
    }
    Ok(())
}

fn show_line(
    script: &Script,
    label: &str,
    line: &[u8],
    end: &str,
    answer: &mut String,
) -> Result<(), AllocError> {
    answer.push_str(label)?;
    answer.push_str(" ")?;
    script.show(line, answer)?;
    answer.push_str(end)?;
    answer.push_str("\n")
}

/// The input in pieces of this many bytes.
fn in_pieces(alloc: Global, input: &[u8], size: usize) -> Result<MemSource, AllocError> {
    let places = cuts(alloc, input.len(), size)?;
    Ok(MemSource::new(Vec::from_slice(alloc, input)?, places))
}

fn cuts(alloc: Global, length: usize, size: usize) -> Result<Vec<usize>, AllocError> {
    let mut cuts = Vec::new(alloc);
    let mut place = 0usize;
    for _ in 0..length {
        place = place.saturating_add(size);
        if length <= place {
            break;
        }
        cuts.push(place)?;
    }
    Ok(cuts)
}
