//! The number of sessions, as the command line has it.
ghost use Rattle.std.specs.Prelude.{◌↔◌, IsTrue};
ghost use Rattle.command_line.specs.Sessions.{IsSessions, ReadsSessions};

use itoa::Buffer;

/// The most sessions that one run serves.
const MAX_SESSIONS: u32 = 1_000_000;

/// Reads a number of sessions from 1 to 1,000,000, as it is written in decimal: its digits, without
/// a sign and without a needless zero. So `0`, `+1`, `01` and the empty text are refused.
pub fn read_sessions(text: &str) -> Option<u32>
    ensures { ReadsSessions text.now result }
{
    let sessions = text.parse::<u32>().ok()?;
    if is_written(sessions, text) {
        Some(sessions)
    } else {
        None
    }
}

fn is_written(sessions: u32, text: &str) -> bool
    ensures { IsTrue result ↔ IsSessions text.now sessions }
{
    let mut buffer = Buffer::new();
    1 <= sessions && sessions <= MAX_SESSIONS && buffer.format(sessions) == text
}
