//! How long a session with another replica may last.
ghost use Rattle.std.specs.Prelude.{◌≡◌, ◌/◌, max};

/// For how many seconds a session in which this many bytes moved may last: ten, or one for each
/// thousand bytes if that is more.
pub fn most_seconds(bytes: u64) -> u64
    ensures { result ≡ max 10 (bytes / 1000) }
{
    (bytes / 1_000).max(10)
}
